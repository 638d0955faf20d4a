//! Two seats at a list: one appends, and the other only looks.
ghost use Rattle.std.specs.Prelude.{◌≡◌, vec_len};
ghost use Rattle.std.specs.List.{All};
ghost use Rattle.server_tests.specs.Lists.{IsIn};

use crate::numbers::{Append, Look, Numbers};
use std::alloc::{AllocError, Global};
use std::sync::Wait;
use turn_cell::{Seat, TurnCell};

/// What the looking seat saw before and after, whether the second append was refused, both fronts, and the list.
#[derive(Drop)]
pub struct Sight {
    pub before: usize,
    pub after: usize,
    pub refused: bool,
    pub fronts: (u64, u64),
    pub items: Vec<u64>,
}

/// The seats look, append twice and look again.
pub fn look_beside<R: Wait>(
    rt: &R,
    cell: TurnCell<Numbers>,
    mut seats: Vec<Seat<Numbers>>,
) -> Option<Sight>
    requires seats { All (IsIn cell.id cell.fixed) seats.items
        × (vec_len seats ≡ cell.seats) × (cell.seats ≡ 2) }
{
    let mut looks = seats.pop()?;
    let mut appends = seats.pop()?;
    let before = cell.turn(rt, &mut looks, Look);
    let first = cell.turn(rt, &mut appends, Append { value: 7 });
    drop(first);
    let second = cell.turn(rt, &mut appends, Append { value: 8 });
    let after = cell.turn(rt, &mut looks, Look);
    let fronts = (appends.front(), looks.front());
    cell.join(&mut looks, appends);
    let body = cell.close(looks);
    Some(Sight {
        before,
        after,
        refused: second.is_err(),
        fronts,
        items: body.items,
    })
}

/// The same in a new cell, over an empty list with room for one number.
pub fn look_at_one<R: Wait>(rt: &R, alloc: Global) -> Result<Option<Sight>, AllocError> {
    let body = Numbers {
        items: Vec::new(alloc),
        limit: 1,
    };
    let (cell, seats) = TurnCell::make(alloc, body, 0, 2)?;
    Ok(look_beside(rt, cell, seats))
}
