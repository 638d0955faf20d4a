//! Statements that hold statements, over a store of rows: what they mean, the form of every store's answer, and the trait of
//! the stores that run them.
#![tactic(auto)]

mod fitting;
mod found;
pub mod laws;
mod rows;
mod stmt;

pub use fitting::fits;
pub use found::{Batch, Found, Key, RowTree, RunFault};
pub use rows::Rows;
pub use stmt::{Child, Stmt};
