//! Laws of seats, as contracts of functions that do nothing.
ghost use Rattle.std.specs.Prelude.{◌≡◌};
ghost use Rattle.turn_cell.specs.Seats.{IsSeat, AreNumbered, HaveOwnNumbers};

use crate::body::TurnBody;
use crate::cell::Seat;

/// What holds of each seat between its calls.
pub fn law_of_seat<B: TurnBody>(seat: &Seat<B>)
    ensures { IsSeat seat.now }
{
    seat.facts();
}

/// Seats that are numbered in order have numbers of their own.
pub fn law_of_numbers<B: TurnBody>(seats: &[Seat<B>])
    requires { AreNumbered seats.now }
    ensures { HaveOwnNumbers seats.now }
{
    let _seats = seats;
}
