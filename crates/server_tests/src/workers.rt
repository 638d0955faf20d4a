//! Seats on threads, and the closing history.
ghost use Rattle.std.specs.Prelude.{◌≡◌, ◌<◌, vec_len};
ghost use Rattle.std.specs.List.{All};
ghost use Rattle.server_tests.specs.Lists.{IsAt};

use crate::tally::{Add, Tally};
use std::alloc::{AllocError, Global};
use std::sync::Wait;
use std::thread::{Threads, for_each_mut};
use turn_cell::{Seat, TurnCell};

/// One turn of the seat, which adds its place. Where that doesn't fit, nothing is added.
pub fn add_place<R: Wait>(rt: &R, cell: &TurnCell<Tally>, place: usize, seat: &mut Seat<Tally>)
    requires { IsAt cell.now.id seat.old }
    ensures { IsAt cell.now.id seat.new }
{
    let told = cell.turn(
        rt,
        seat,
        Add {
            amount: place as u64,
        },
    );
    drop(told);
}

/// One turn of each seat, in threads side by side.
pub fn add_all<R: Threads + Wait + Sync>(
    rt: &R,
    cell: &TurnCell<Tally>,
    seats: &mut [Seat<Tally>],
    threads: usize,
)
    requires threads { 0 < threads }
    requires seats { All (IsAt cell.now.id) seats.old }
    ensures seats { All (IsAt cell.now.id) seats.new }
{
    for_each_mut(
        rt,
        seats,
        threads,
        &|place, seat: &mut Seat<Tally>|
            requires { IsAt cell.now.id seat.old }
            ensures { IsAt cell.entry.now.id seat.new }
        { add_place(rt, cell, place, seat) },
    );
}

/// Joins all seats into one, and closes the cell.
pub fn close_all(cell: TurnCell<Tally>, mut seats: Vec<Seat<Tally>>) -> Option<Tally>
    requires seats { All (IsAt cell.id) seats.items × (vec_len seats ≡ cell.seats) }
{
    let mut all = seats.pop()?;
    while let Some(other) = seats.pop() {
        cell.join(&mut all, other);
    }
    Some(cell.close(all))
}

/// Each of the seats of a new cell adds its place, in threads side by side.
pub fn tally_up<R: Threads + Wait + Sync>(
    rt: &R,
    alloc: Global,
    seats: u32,
) -> Result<Option<Tally>, AllocError>
    requires { 0 < seats }
{
    let empty = Tally { total: 0, count: 0 };
    let (cell, mut all) = TurnCell::make(alloc, empty, 0, seats)?;
    add_all(rt, &cell, all.as_mut_slice(), seats as usize);
    Ok(close_all(cell, all))
}
