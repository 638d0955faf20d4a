//! Where each fetch moves, and the steps of an inlined plan.

ghost use Rattle.std.specs.Prelude.{◌≡◌, Some, reverse, IfOk, OnOk};
ghost use Rattle.plan_steps.specs.declared.plan.FetchStep.{out-FetchStep};
ghost use Rattle.plan_steps.specs.Fetches as fetches;
ghost use Rattle.plan_steps.specs.Named.{fetch_in};
ghost use Rattle.inline_select.specs.Inlined as spec;
ghost use Rattle.inline_select.specs.Lists as lists;

use crate::copies::{put_back, step_with};
use pg_base::Memory;
use plan_steps::{FetchStep, SlotWindow, Step};
use sqlite_items::{Items, at};
use std::alloc::Global;

/// Whether a part of a list is asked for.
fn has_window(window: &SlotWindow) -> bool
    ensures { result ≡ fetches.has_window window.now }
{
    if window.first.is_some() {
        return true;
    }
    if window.last.is_some() {
        return true;
    }
    if window.offset.is_some() {
        return true;
    }
    if window.before.is_some() {
        return true;
    }
    window.after.is_some()
}

/// The fetch on whose row hangs what has this parent.
fn row_above(steps: &[Step], parent: Option<u32>) -> Option<u32>
    ensures { result ≡ spec.row_above steps.now parent }
{
    let Some(parent) = parent else {
        return None;
    };
    let Some(Step::Item(fetch)) = at(steps, parent as usize) else {
        return None;
    };
    Some(*fetch)
}

/// The fetch among whose children a fetch is free to move.
fn target(steps: &[Step], fetch: &FetchStep) -> Option<u32>
    ensures { result ≡ spec.target steps.now fetch.now }
{
    if has_window(&fetch.window) {
        return None;
    }
    row_above(steps, fetch.parent)
}

/// One fetch more at the end of the list at a place; past the end of the lists there is none.
fn put_child(
    below: &mut Vec<Items<FetchStep>>,
    place: usize,
    child: FetchStep,
) -> Result<(), Memory>
    ensures { OnOk result (below.new.items ≡ lists.with_child below.old.items place child) }
{
    match below.get_mut(place) {
        None => Ok(()),
        Some(list) => {
            list.push(child)?;
            Ok(())
        }
    }
}

/// Puts a copy of a fetch that is free to move where it moves.
fn put_fetch(
    alloc: Global,
    steps: &[Step],
    below: &mut Vec<Items<FetchStep>>,
    fetch: &FetchStep,
) -> Result<(), Memory>
    ensures { OnOk result (below.new.items ≡
        lists.with_moved (spec.target steps.now fetch.now) fetch.now below.old.items) }
{
    let Some(place) = target(steps, fetch) else {
        return Ok(());
    };
    let child = fetch.copy(alloc)?;
    put_child(below, place as usize, child)
}

/// The same for a step, where it is a fetch.
fn put_step(
    alloc: Global,
    steps: &[Step],
    below: &mut Vec<Items<FetchStep>>,
    step: &Step,
) -> Result<(), Memory>
    ensures { OnOk result (below.new.items ≡
        lists.with_step steps.now (fetch_in (Some step.now)) below.old.items) }
{
    let Step::Fetch(fetch) = step else {
        return Ok(());
    };
    put_fetch(alloc, steps, below, fetch)
}

/// An empty list for each step.
fn empty_lists(alloc: Global, steps: &[Step]) -> Result<Vec<Items<FetchStep>>, Memory>
    ensures { IfOk result (λ made. made.items ≡ lists.empty_lists steps.now) }
{
    let mut made = Vec::new(alloc);
    for _ in steps {
        made.push(Items::new(alloc))?;
    }
    Ok(made)
}

/// The steps from the last one on: when one is made, all that moves to it is made and put below it.
fn inlined_back(alloc: Global, steps: &[Step]) -> Result<Items<Step>, Memory>
    ensures { IfOk result (λ made. reverse made ≡ spec.inlined_from steps.now 0 steps.now) }
{
    let mut below = empty_lists(alloc, steps)?;
    let mut done = Items::new(alloc);
    while let Some(more) = below.pop() {
        let step = step_with(alloc, &steps[below.len()], more)?;
        put_step(alloc, steps, &mut below, &step)?;
        done.push(step)?;
    }
    Ok(done)
}

/// The steps of an inlined plan.
pub(crate) fn inlined_steps(alloc: Global, steps: &[Step]) -> Result<Items<Step>, Memory>
    ensures { IfOk result (λ made. made ≡ spec.inlined_from steps.now 0 steps.now) }
{
    let back = inlined_back(alloc, steps)?;
    let mut made = Items::new(alloc);
    put_back(&mut made, back)?;
    Ok(made)
}
