//! Constraints on the variables of a request: what a plan that is kept rests on, and what is noted of a request's
//! variables.
#![tactic(auto)]

mod constraint;
mod holding;
pub mod laws;
mod noting;
mod part;

pub use constraint::Constraint;
pub use holding::{holds, value_at};
pub use noting::note;
pub use part::Part;
