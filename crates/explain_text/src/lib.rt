//! The text of `explain`: what a request needs, what a kept plan asks of its variables, and its fetches.
#![tactic(auto)]

mod constraints;
mod explaining;
mod fetches;
mod pieces;
mod values;

pub use explaining::explain;
