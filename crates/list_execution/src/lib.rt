//! Execution over lists of rows (GraphQL October 2021, section 6): a plain recursion over the places of a request.
#![tactic(auto)]

mod arguments;
mod conditions;
mod execution;
mod fetching;
mod fields;
mod finding;
mod lists;
mod lookups;
mod marks;
mod names;
mod nulls;
mod orders;
mod windows;

pub use execution::{ExecutionFault, execute};
pub use fetching::{fetch_error, fetch_of};
pub use lists::{does_of, needs_rows};
pub use lookups::{cases_at, columns_of, field_of};
pub use marks::{bool_cell, int_cell, mark_in, row_cursor};
pub use names::place_named;
