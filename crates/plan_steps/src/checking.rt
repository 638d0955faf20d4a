//! Whether a plan is well formed.

ghost use Rattle.std.specs.Prelude.{◌≡◌, ◌&&◌, nat_lt, length, drop};
ghost use Rattle.plan_steps.specs.Check as spec;

use crate::chains::{is_fetch, item_at, layer_of, named_by, over};
use crate::fetches::{fetch_fits, row_has};
use crate::layers::{layers_fit, stands_over};
use crate::outs::outs_fit;
use crate::plan::{Plan, Step};
use pg_base::{Base, Catalog};
use place_tree::Tree;

/// Whether an Item's fetch is there, and its layer stands over it.
fn item_fits(plan: &Plan, k: usize, fetch: u32) -> bool
    ensures { result ≡ spec.item_fits plan.now k fetch }
{
    if !is_fetch(plan.steps.as_slice(), fetch as usize) {
        return false;
    }
    over(plan.layers.as_slice(), k) == Some(fetch)
}

/// Whether what a step names is of the kind that it takes.
fn step_fits(catalog: &Catalog, plan: &Plan, k: usize, step: &Step) -> bool
    ensures { result ≡ spec.step_fits catalog.now plan.now k step.now }
{
    let steps = plan.steps.as_slice();
    match step {
        Step::Const(_) => true,
        Step::Var(_) => true,
        Step::Given => true,
        Step::Fetch(fetch) => fetch_fits(catalog, steps, fetch),
        Step::Item(fetch) => item_fits(plan, k, *fetch),
        Step::Column(row, column) => row_has(catalog, steps, &[*column], *row as usize),
        Step::Count(fetch) => is_fetch(steps, *fetch as usize),
        Step::Page(fetch, part) => is_fetch(steps, *fetch as usize) && *part < 4,
        Step::CursorOf(item) => item_at(steps, *item as usize).is_some(),
    }
}

/// Whether what a step names is earlier, and can be seen from its layer.
fn name_fits(plan: &Plan, k: usize, name: Option<u32>) -> bool
    ensures { result ≡ spec.name_fits plan.now k name }
{
    let Some(named) = name else {
        return true;
    };
    if named as usize >= k {
        return false;
    }
    let layers = plan.layers.as_slice();
    stands_over(
        layers,
        layer_of(layers, k),
        layer_of(layers, named as usize),
    )
}

fn steps_fit(catalog: &Catalog, plan: &Plan, steps: &[Step]) -> bool
    ensures { result ≡ spec.steps_fit catalog.now plan.now 0 steps.now }
{
    for k in 0..steps.len() {
        let step = &steps[k];
        if !step_fits(catalog, plan, k, step) {
            return false;
        }
        if !name_fits(plan, k, named_by(step)) {
            return false;
        }
    }
    true
}

/// Whether a plan is well formed for a base and a tree of places:
///
/// - What a step names is earlier, of the kind that the step takes, and stands in its layer or in one over which that
///   stands; so does the step of an `OutPlace`, seen from its layer.
/// - The first layer, and no other, stands over nothing, each other one over a fetch of an earlier layer. Each step
///   stands in one layer, once; an Item in a layer over its fetch.
/// - Tables, columns, places, layers and parts of pages are in range; a key is as long as what it is compared with.
/// - No place has two entries.
///
/// It takes no memory, and time that grows as the square of the number of steps.
pub fn check(base: &Base, tree: &Tree, plan: &Plan) -> bool
    ensures { result ≡ spec.is_checked base.now tree.now plan.now }
{
    if !steps_fit(base.catalog(), plan, plan.steps.as_slice()) {
        return false;
    }
    if !layers_fit(plan) {
        return false;
    }
    outs_fit(base, tree, plan)
}
