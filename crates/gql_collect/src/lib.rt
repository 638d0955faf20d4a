//! The tree of places that an operation asks for (GraphQL October 2021, sections 6.3.2 and 6.4.3).
#![tactic(auto)]

mod asking;
mod collect_tree;
mod collecting;
mod fault;
mod fragments;
mod grouping;
mod growing;
pub mod laws;
mod request;

pub use collect_tree::collect;
pub use fault::CollectFault;
