//! A request from the look for its plan on: the plan is found among those that are kept, or it is made and entered; then
//! it is run and printed.
#![tactic(auto)]

mod copying;
mod keeping;
mod kept_plan;
mod responding;
mod response;
mod running;
mod wanted;

pub use kept_plan::KeptPlan;
pub use responding::respond_kept;
pub use response::KeptResponse;
pub use wanted::Wanted;
