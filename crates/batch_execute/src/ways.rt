//! How the rows of each fetch of a plan are come by.

ghost use Rattle.std.specs.Prelude.{◌≡◌, ◌++◌, IfOk, map, option_map, drop, position};
ghost use Rattle.plan_steps.specs.declared.plan.FetchStep.{out-FetchStep};
ghost use Rattle.plan_steps.specs.Named as named;
ghost use Rattle.plan_steps.specs.Same.{same_fetch};
ghost use Rattle.plan_steps.specs.Sent as sent;
ghost use Rattle.batch_execute.specs.Ways as spec;

use crate::comparing::is_same_fetch;
use crate::way::Way;
use pg_base::Memory;
use plan_steps::{FetchStep, Step};
use sqlite_items::{Items, at};
use std::alloc::Global;

/// The fetch at a place.
pub(crate) fn fetch_at(steps: &[Step], step: usize) -> Option<&FetchStep>
    ensures { option_map (λ f. f.now) result ≡ named.fetch_at steps.now step }
{
    let Some(Step::Fetch(fetch)) = at(steps, step) else {
        return None;
    };
    Some(fetch)
}

/// The place of the fetch of an Item.
pub(crate) fn item_at(steps: &[Step], step: usize) -> Option<u32>
    ensures { result ≡ named.item_at steps.now step }
{
    let Some(Step::Item(fetch)) = at(steps, step) else {
        return None;
    };
    Some(*fetch)
}

/// The fetch on whose row a fetch with this parent hangs.
fn fetch_above(steps: &[Step], parent: Option<u32>) -> Option<u32>
    ensures { result ≡ spec.fetch_above steps.now parent }
{
    match parent {
        None => None,
        Some(parent) => item_at(steps, parent as usize),
    }
}

fn children_at(steps: &[Step], step: usize) -> &[FetchStep]
    ensures { result.now ≡ sent.children_of (named.fetch_at steps.now step) }
{
    match fetch_at(steps, step) {
        None => &[],
        Some(fetch) => fetch.children.as_slice(),
    }
}

/// The place of a fetch among the children of another one.
fn child_place(fetch: &FetchStep, children: &[FetchStep]) -> Option<usize>
    ensures { result ≡ position (same_fetch fetch.now) children.now }
{
    children
        .iter()
        .position(|child| is_same_fetch(fetch, child))
}

fn way_among(fetch: &FetchStep, above: u32, children: &[FetchStep]) -> Way
    ensures { result ≡ spec.way_among fetch.now above children.now }
{
    match child_place(fetch, children) {
        None => Way::Sent(above),
        Some(child) => Way::Read(above, child),
    }
}

fn way_by(steps: &[Step], fetch: &FetchStep) -> Way
    ensures { result ≡ spec.way_in steps.now (Some fetch.now) }
{
    match fetch_above(steps, fetch.parent) {
        None => Way::Once,
        Some(above) => way_among(fetch, above, children_at(steps, above as usize)),
    }
}

/// How the rows of the step at a place are come by.
pub(crate) fn way_of(steps: &[Step], step: usize) -> Way
    ensures { result ≡ spec.way_of steps.now step }
{
    match fetch_at(steps, step) {
        None => Way::Other,
        Some(fetch) => way_by(steps, fetch),
    }
}

/// How the rows of each step are come by.
pub fn ways_of(alloc: Global, steps: &[Step]) -> Result<Items<Way>, Memory>
    ensures { IfOk result (λ ways. ways ≡ spec.ways_of steps.now) }
{
    let mut ways = Items::new(alloc);
    for k in 0..steps.len() {
        ways.push(way_of(steps, k))?;
    }
    Ok(ways)
}
