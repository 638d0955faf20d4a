//! The statements that a request needs.

ghost use Rattle.std.specs.Prelude.{◌≡◌, IfOk};
ghost use Rattle.place_tree.specs.Needs as needs;

use crate::walk::Walk;
use pg_base::{Base, Memory, Vars};
use place_tree::Tree;
use std::alloc::Global;

/// How many statements a request needs: the number of distinct row fields at the root, and of distinct lists of rows
/// that refer to a row of which a part is asked for. In a mutation this is counted for each mutation field.
///
/// Its work is that of one walk over the places, with their arguments as they are written, and two look-ups for each.
///
/// # Errors
/// Out of memory.
pub fn needed(alloc: Global, base: &Base, vars: &Vars, tree: &Tree) -> Result<u64, Memory>
    ensures { IfOk result (λ n. n ≡ needs.needed_statements base.now vars.now tree.now) }
{
    let places = tree.places.as_slice();
    let mut walk = Walk::new(alloc);
    for place in places {
        walk.add(alloc, base, vars, place)?;
    }
    Ok(walk.count())
}
