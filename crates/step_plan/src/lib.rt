//! How the plan of a tree of places is made: what is noted of the variables that it is made with, and its steps.
#![tactic(auto)]

mod adding;
mod arguments;
mod drafting;
mod fetches;
mod growing;
mod ids;
pub mod laws;
mod lists;
mod lookups;
mod make;
mod making;
mod names;
mod noting;
mod orders;
mod showing;
mod slots;
mod variables;
mod windows;
mod written;

pub use drafting::drafted;
pub use make::make_steps;
pub use making::{Added, Below, Footing, Making};
pub use noting::noted;
