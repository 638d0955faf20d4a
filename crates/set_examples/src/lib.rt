//! Rows put into tables, left out of them and looked for, worked out: examples beside the definitions.
#![tactic(auto)]

pub mod laws;
