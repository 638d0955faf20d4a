//! Which places need a statement of their own.

ghost use Rattle.std.specs.Prelude.{◌≡◌, ◌&&◌, IfOk};
ghost use Rattle.place_tree.specs.Fields as fields;
ghost use Rattle.place_tree.specs.Arguments as arguments;
ghost use Rattle.place_tree.specs.Needs as needs;
ghost use Rattle.needed_count.specs.Walk as spec;

use crate::arguments::is_windowed;
use crate::fields::{does_of, is_backward, is_list, is_row_field};
use pg_base::{Base, Memory, Vars};
use place_tree::Place;
use std::alloc::Global;

/// Whether a place is that of a list of rows that refer to a row, of which a part is asked for.
fn is_part(alloc: Global, base: &Base, vars: &Vars, place: &Place) -> Result<bool, Memory>
    ensures { IfOk result (λ so. so ≡ (needs.is_backward
        (fields.does_of base.now.schema place.now)
        && (fields.is_list base.now place.now && arguments.is_windowed vars.now place.now))) }
{
    if !is_backward(does_of(base.schema(), place)) {
        return Ok(false);
    }
    if !is_list(base, place) {
        return Ok(false);
    }
    let windowed = is_windowed(alloc, vars, place)?;
    Ok(windowed)
}

/// Whether a place needs a statement of its own, where the path above it has this number.
pub(crate) fn needs_own(
    alloc: Global,
    base: &Base,
    vars: &Vars,
    place: &Place,
    above: Option<usize>,
) -> Result<bool, Memory>
    ensures { IfOk result (λ so. so ≡ spec.needs_own base.now vars.now place.now above) }
{
    if !is_row_field(does_of(base.schema(), place)) {
        return Ok(false);
    }
    if above.is_none() {
        return Ok(true);
    }
    let part = is_part(alloc, base, vars, place)?;
    Ok(part)
}
