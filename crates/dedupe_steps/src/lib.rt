//! Equal steps of a plan are merged.
#![tactic(auto)]

mod deduping;
mod fetch_words;
mod keys;
pub mod laws;
mod lookups;
mod numbering;
mod orders;
mod quotient;
mod roots;
mod sights;
mod words;

pub use deduping::dedupe;
