//! Stores of rows in memory: the rows of snapshots, and the same with calls that fail where they are planned to.
#![tactic(auto)]

mod batch;
mod faulty;
mod grouping;
mod laid;
mod laying;
mod memory;
mod picking;
mod placing;
mod queue;
mod snapshot;
mod trees;

pub use faulty::FaultyRows;
pub use memory::MemRows;
pub use snapshot::Snapshot;
