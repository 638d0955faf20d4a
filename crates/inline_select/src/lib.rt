//! Fetches move into the statements of the fetches on whose rows they hang.
#![tactic(auto)]

mod copies;
mod inlining;
pub mod laws;
mod moving;

pub use inlining::inline;
