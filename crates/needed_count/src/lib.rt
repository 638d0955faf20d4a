//! How many statements a request needs.
#![tactic(auto)]

mod arguments;
mod counting;
mod fields;
mod marks;
mod needs;
mod walk;
mod words;

pub use counting::needed;
