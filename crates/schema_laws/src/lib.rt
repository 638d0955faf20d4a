//! What holds of the schema of every catalog.
#![tactic(auto)]

pub mod laws;
