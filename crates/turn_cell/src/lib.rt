//! A lock with a history. Each turn of a seat is one event of the one history of the cell.
#![tactic(auto)]

mod body;
mod cell;
mod laws;
mod moves;
mod table;
mod view;

pub use body::{Job, TurnBody};
pub use cell::{Seat, TurnCell};
pub use laws::{law_of_numbers, law_of_seat};
pub use view::{Entry, JoinedSeat, Stage, View};
