//! The statements that requests need, computed for small trees: examples beside the definition.
#![tactic(auto)]

pub mod laws;
