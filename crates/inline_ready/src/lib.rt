//! Inlined plans are ready to be run.
#![tactic(auto)]

pub mod laws;
