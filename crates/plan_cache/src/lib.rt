//! The shelf of kept plans: the last that were entered, each found again by the text and the operation of its document
//! and the constraints on its variables.
#![tactic(auto)]

mod filed;
mod kept;
mod key;
mod shelf;

pub use filed::Filed;
pub use key::ShelfKey;
pub use shelf::Shelf;
