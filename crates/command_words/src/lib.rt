//! The words of the command line, read as a set of simple commands by the crate `clap`.
#![tactic(auto)]

mod command;
mod fault;
pub mod laws;
mod read;
mod set;

pub use command::{Command, Request};
pub use fault::WordsFault;
pub use read::read_words;
