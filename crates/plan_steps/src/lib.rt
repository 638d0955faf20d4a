//! Plans of steps: their types, what they show, what makes one well formed, and what makes one sound and lean.
#![tactic(auto)]

mod chains;
mod checking;
mod copy;
mod draft;
mod entry;
mod fetches;
pub mod laws;
mod layers;
mod outs;
mod plan;
mod steps;

pub use checking::check;
pub use draft::Draft;
pub use entry::Entry;
pub use plan::{FetchStep, Layer, OutPlace, Plan, Root, Slot, SlotEqual, SlotWindow, Step};
pub use steps::Steps;
