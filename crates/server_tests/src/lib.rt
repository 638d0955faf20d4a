//! Tests that cross crates: seats of a turn cell on threads, and sessions over bytes.
#![tactic(auto)]

mod frames;
mod looking;
mod numbers;
mod tally;
mod workers;

pub use frames::{Echo, Pieces, Seen, serve, short};
pub use looking::{Sight, look_at_one, look_beside};
pub use numbers::{Append, Full, Look, Numbers};
pub use tally::{Add, Tally, TooLarge};
pub use workers::{add_place, close_all, tally_up};

#[cfg(test)]
mod frame_tests;
#[cfg(test)]
mod tests;
