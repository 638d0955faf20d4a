//! What steps name, and what stands above layers and places.

ghost use Rattle.std.specs.Prelude.{◌≡◌, ◌==◌, option_map, slice_get, drop};
ghost use Rattle.std.specs.List.{list_any, position_from};
ghost use Rattle.plan_steps.specs.Chains.{is_in};
ghost use Rattle.plan_steps.specs.Named as spec;
ghost use Rattle.plan_steps.specs.Under as under;

use crate::plan::{FetchStep, Layer, Step};
use place_tree::Place;
use sqlite_items::at;

pub(crate) fn is_among(numbers: &[u32], wanted: usize) -> bool
    ensures { result ≡ is_in numbers.now wanted }
{
    numbers.iter().any(|number| *number as usize == wanted)
}

/// The step that a step names, if one.
pub(crate) fn named_by(step: &Step) -> Option<u32>
    ensures { result ≡ spec.named_by step.now }
{
    match step {
        Step::Const(_) => None,
        Step::Var(_) => None,
        Step::Given => None,
        Step::Fetch(fetch) => fetch.parent,
        Step::Item(fetch) => Some(*fetch),
        Step::Column(row, _) => Some(*row),
        Step::Count(fetch) => Some(*fetch),
        Step::Page(fetch, _) => Some(*fetch),
        Step::CursorOf(item) => Some(*item),
    }
}

pub(crate) fn named_at(steps: &[Step], step: usize) -> Option<u32>
    ensures { result ≡ spec.named_at steps.now step }
{
    match at(steps, step) {
        Some(found) => named_by(found),
        None => None,
    }
}

pub(crate) fn fetch_at(steps: &[Step], step: usize) -> Option<&FetchStep>
    ensures { option_map (λ f. f.now) result ≡ spec.fetch_at steps.now step }
{
    let Some(Step::Fetch(fetch)) = at(steps, step) else {
        return None;
    };
    Some(fetch)
}

pub(crate) fn is_fetch(steps: &[Step], step: usize) -> bool
    ensures { result ≡ spec.is_fetch steps.now step }
{
    fetch_at(steps, step).is_some()
}

pub(crate) fn is_given(steps: &[Step], step: usize) -> bool
    ensures { result ≡ spec.is_given steps.now step }
{
    let Some(Step::Given) = at(steps, step) else {
        return false;
    };
    true
}

/// The place of the fetch of an Item.
pub(crate) fn item_at(steps: &[Step], step: usize) -> Option<u32>
    ensures { result ≡ spec.item_at steps.now step }
{
    let Some(Step::Item(fetch)) = at(steps, step) else {
        return None;
    };
    Some(*fetch)
}

/// The place of the layer that has the step.
pub(crate) fn layer_of(layers: &[Layer], step: usize) -> Option<usize>
    ensures { result ≡ spec.layer_of layers.now step }
{
    for i in 0..layers.len() {
        if is_among(layers[i].steps.as_slice(), step) {
            return Some(i);
        }
    }
    None
}

fn over_at(layers: &[Layer], layer: usize) -> Option<u32>
    ensures { result ≡ spec.over_in (slice_get layers.now layer) }
{
    match at(layers, layer) {
        Some(found) => found.over,
        None => None,
    }
}

/// The fetch over which the layer of a step stands.
pub(crate) fn over(layers: &[Layer], step: usize) -> Option<u32>
    ensures { result ≡ spec.over layers.now step }
{
    match layer_of(layers, step) {
        Some(layer) => over_at(layers, layer),
        None => None,
    }
}

/// The layer that a layer stands over.
pub(crate) fn layer_above(layers: &[Layer], layer: usize) -> Option<usize>
    ensures { result ≡ spec.layer_above layers.now layer }
{
    match over_at(layers, layer) {
        Some(fetch) => layer_of(layers, fetch as usize),
        None => None,
    }
}

/// The place above a place.
pub(crate) fn place_above(places: &[Place], place: usize) -> Option<u32>
    ensures { result ≡ under.above places.now place }
{
    match at(places, place) {
        Some(found) => found.parent,
        None => None,
    }
}
