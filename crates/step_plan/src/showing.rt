//! Which places have rows that are shown.

ghost use Rattle.std.specs.Prelude.{◌≡◌, IfOk, length};
ghost use Rattle.step_plan.specs.Listed.{ShownAre, with_mark, with_mark_of, with_marks};

use crate::lists::shows_rows;
use pg_base::{Memory, Schema};
use place_tree::Place;
use std::alloc::Global;

fn mark(shown: &mut Vec<bool>, above: Option<u32>)
    ensures { shown.new.items ≡ with_mark above shown.old.items }
{
    let Some(above) = above else {
        return;
    };
    let above = above as usize;
    if above < shown.len() {
        shown[above] = true;
    }
}

/// Marks the place above a place that shows rows.
fn mark_above(schema: &Schema, place: &Place, shown: &mut Vec<bool>)
    ensures { shown.new.items ≡ with_mark_of schema.now place.now shown.old.items }
{
    if shows_rows(schema, place) {
        mark(shown, place.parent);
    }
}

fn mark_all(schema: &Schema, places: &[Place], shown: &mut Vec<bool>)
    ensures { shown.new.items ≡ with_marks schema.now places.now shown.old.items }
{
    for place in places {
        mark_above(schema, place, shown);
    }
}

/// For each place, whether nodes, edges or pageInfo stands below it.
pub(crate) fn marked(alloc: Global, schema: &Schema, places: &[Place]) -> Result<Vec<bool>, Memory>
    ensures { IfOk result (λ shown. ShownAre schema.now places.now shown.items) }
{
    let mut shown = vec![in alloc; false; places.len()]?;
    mark_all(schema, places, &mut shown);
    Ok(shown)
}
