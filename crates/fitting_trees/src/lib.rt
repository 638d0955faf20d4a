//! The trees that are collected from valid documents: plans can be made of them.
#![tactic(auto)]

pub mod laws;
