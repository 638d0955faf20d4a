//! Which steps the places under a root use: a table, from one pass over the steps.

ghost use Rattle.std.specs.Prelude.{◌≡◌, ◌<◌, IfOk, true, length, slice_get, slice_set};
ghost use Rattle.std.specs.List.{list_any};
ghost use Rattle.plan_steps.specs.Named as named;
ghost use Rattle.plan_steps.specs.Under as under;
ghost use Rattle.batch_execute.specs.Used as spec;

use crate::asking::{is_under, named_at, root_place};
use pg_base::Memory;
use place_tree::Place;
use plan_steps::{Entry, OutPlace, Root, Step};
use std::alloc::Global;

fn mark(marks: &mut Vec<bool>, step: usize)
    ensures { marks.new.items ≡ slice_set marks.old.items step true }
{
    if step < marks.len() {
        marks[step] = true;
    }
}

fn is_marked(marks: &[bool], step: usize) -> bool
    ensures { result ≡ spec.mark_at marks.now step }
{
    match marks.get(step) {
        None => false,
        Some(marked) => *marked,
    }
}

/// Marks the step of an entry under the root.
fn mark_shown(places: &[Place], root: Option<u32>, out: OutPlace, marks: &mut Vec<bool>)
    ensures { marks.new.items ≡
        spec.with_shown marks.old.items (under.is_below places.now root out.place) out }
{
    if is_under(places, root, out.place) {
        mark(marks, out.step as usize);
    }
}

/// The steps that the places under a root show, marked.
fn shown_steps(
    alloc: Global,
    places: &[Place],
    steps: &[Step],
    outs: &[OutPlace],
    root: Option<u32>,
) -> Result<Vec<bool>, Memory>
    ensures shown { IfOk result (λ marks. spec.ArePassed places.now steps.now outs.now root
        (length steps.now) marks.items) }
    ensures length { IfOk result (λ marks. length marks.items ≡ length steps.now) }
{
    let count = steps.len();
    let mut marks = vec![in alloc; false; count]?;
    for out in outs {
        mark_shown(places, root, *out, &mut marks);
    }
    Ok(marks)
}

fn mark_named(marks: &mut Vec<bool>, marked: bool, named: Option<u32>)
    ensures { marks.new.items ≡ spec.with_named marks.old.items marked named }
{
    let Some(named) = named else {
        return;
    };
    if marked {
        mark(marks, named as usize);
    }
}

/// The steps that the places under a root use, marked.
fn marks_of(
    alloc: Global,
    places: &[Place],
    steps: &[Step],
    outs: &[OutPlace],
    root: Option<u32>,
) -> Result<Vec<bool>, Memory>
    requires { spec.NameEarlier steps.now }
    ensures { IfOk result (λ marks.
        spec.ArePassed places.now steps.now outs.now root 0 marks.items) }
{
    let mut marks = shown_steps(alloc, places, steps, outs, root)?;
    let mut left = steps.len();
    'left: while left > 0 {
        left -= 1;
        let marked = is_marked(marks.as_slice(), left);
        mark_named(&mut marks, marked, named_at(steps, left));
    }
    Ok(marks)
}

/// The steps that the places under a root use, marked.
pub(crate) fn used_steps(alloc: Global, entry: &Entry, root: &Root) -> Result<Vec<bool>, Memory>
    ensures { IfOk result (λ marks. spec.AreUsed entry.now root.now marks.items) }
{
    entry.know();
    let plan = entry.plan();
    let places = entry.tree().places.as_slice();
    let (steps, outs) = (plan.steps.as_slice(), plan.out.as_slice());
    let marks = marks_of(alloc, places, steps, outs, root_place(root))?;
    Ok(marks)
}

/// Whether a place under the root uses a step.
pub(crate) fn is_used(used: &[bool], step: usize) -> bool
    ensures { result ≡ spec.mark_at used.now step }
{
    is_marked(used, step)
}
