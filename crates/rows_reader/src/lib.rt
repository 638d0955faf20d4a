//! The rows of a script, put into the tables of its catalog.
#![tactic(auto)]

mod cells;
mod fault;
mod faults;
mod index;
mod key;
pub mod laws;
mod lists;
mod loading;
mod numbers;
mod references;
mod texts;
mod values;

pub use fault::{LoadError, RowsFault};
pub use loading::load;
