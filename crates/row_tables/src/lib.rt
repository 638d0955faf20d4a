//! The rows of all tables in shared lists: a set with one row changed shares all but a few chunks with the one that it was
//! made from.
#![tactic(auto)]

mod columns;
mod item;
pub mod laws;
mod set;
mod table;

pub use columns::KeptColumns;
pub use item::{RowItem, RowSlot};
pub use set::TableSet;
