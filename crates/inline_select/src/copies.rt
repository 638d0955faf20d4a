//! Copies of steps and of what stands beside them.

ghost use Rattle.std.specs.Prelude.{◌≡◌, ◌++◌, reverse, IfOk, OnOk};
ghost use Rattle.inline_select.specs.Inlined as spec;

use pg_base::Memory;
use plan_constraints::Part;
use plan_steps::{FetchStep, Layer, OutPlace, Step};
use sqlite_items::Items;
use std::alloc::Global;

fn copy_path(alloc: Global, path: &[Part]) -> Result<Items<Part>, Memory>
    ensures { IfOk result (λ copy. copy ≡ path.now) }
{
    let mut copy = Items::new(alloc);
    for part in path {
        copy.push(part.copy(alloc)?)?;
    }
    Ok(copy)
}

/// Puts items after others, the last one first.
pub(crate) fn put_back<T: Drop>(onto: &mut Items<T>, items: Items<T>) -> Result<(), Memory>
    ensures { OnOk result (onto.new ≡ onto.old ++ reverse items) }
{
    let mut left = items;
    while let Some(item) = left.pop() {
        onto.push(item)?;
    }
    Ok(())
}

/// A copy of a fetch, with more children after its own, the last one first.
fn fetch_with(alloc: Global, fetch: &FetchStep, more: Items<FetchStep>) -> Result<FetchStep, Memory>
    ensures { IfOk result (λ copy. copy ≡ spec.with_more (reverse more) fetch.now) }
{
    let mut copy = fetch.copy(alloc)?;
    put_back(&mut copy.children, more)?;
    Ok(copy)
}

/// A copy of a step. A fetch has more children, the last one first.
pub(crate) fn step_with(alloc: Global, step: &Step, more: Items<FetchStep>) -> Result<Step, Memory>
    ensures { IfOk result (λ copy. copy ≡ spec.step_with (reverse more) step.now) }
{
    match step {
        Step::Const(value) => Ok(Step::Const(value.copy(alloc)?)),
        Step::Var(path) => Ok(Step::Var(copy_path(alloc, path.as_slice())?)),
        Step::Given => Ok(Step::Given),
        Step::Fetch(fetch) => Ok(Step::Fetch(fetch_with(alloc, fetch, more)?)),
        Step::Item(fetch) => Ok(Step::Item(*fetch)),
        Step::Column(row, column) => Ok(Step::Column(*row, *column)),
        Step::Count(fetch) => Ok(Step::Count(*fetch)),
        Step::Page(fetch, part) => Ok(Step::Page(*fetch, *part)),
        Step::CursorOf(item) => Ok(Step::CursorOf(*item)),
    }
}

pub(crate) fn copy_layers(alloc: Global, layers: &[Layer]) -> Result<Items<Layer>, Memory>
    ensures { IfOk result (λ copy. copy ≡ layers.now) }
{
    let mut copy = Items::new(alloc);
    for layer in layers {
        let steps = Items::from_slice(alloc, layer.steps.as_slice())?;
        copy.push(Layer {
            over: layer.over,
            steps,
        })?;
    }
    Ok(copy)
}

pub(crate) fn copy_out(alloc: Global, out: &[OutPlace]) -> Result<Items<OutPlace>, Memory>
    ensures { IfOk result (λ copy. copy ≡ out.now) }
{
    Ok(Items::from_slice(alloc, out)?)
}
