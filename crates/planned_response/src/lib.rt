//! The response to a query: its tree is planned, the plan is run over a store, and its values are printed.
#![tactic(auto)]

mod fault;
mod planning;
mod responding;
mod running;

pub use fault::{PlanFault, RespondFault};
pub use planning::plan_of;
pub use responding::respond;
pub use running::respond_with;
