//! A plan is run by statements against a store, and its values are read from what these found.
#![tactic(auto)]

mod asking;
mod comparing;
mod execution;
mod fault;
mod fetched;
mod fetching;
mod filling;
mod keys;
pub mod laws;
mod nexts;
mod reading;
mod ready;
mod role;
mod roles;
mod trees;
mod used;
mod values;
mod visiting;
mod way;
mod ways;

pub use execution::execute;
pub use fault::ExecFault;
pub use fetched::Fetched;
pub use nexts::{is_below, next_of, nexts_of};
pub use reading::{Spot, found_by, tree_on};
pub use ready::ReadyEntry;
pub use role::Role;
pub use roles::steps_of;
pub use values::Values;
pub use way::Way;
pub use ways::ways_of;
