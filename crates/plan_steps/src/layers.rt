//! Whether the layers of a plan are well formed.

ghost use Rattle.std.specs.Prelude.{◌≡◌, ◌-◌, not, ◌&&◌, ◌==◌, length, drop, nat_lt};
ghost use Rattle.std.specs.List.{list_all, list_any};
ghost use Rattle.plan_steps.specs.Check as spec;

use crate::chains::{is_among, is_fetch, layer_above, layer_of};
use crate::fetches::are_below;
use crate::plan::{Layer, Plan, Step};

/// Whether the second layer is the first one, or one over which that stands.
fn is_above(layers: &[Layer], layer: usize, wanted: usize) -> bool
    ensures { result ≡ spec.is_above layers.now layer wanted }
{
    let mut above = Some(layer);
    for turn in 0..layers.len() {
        let Some(at) = above else {
            return false;
        };
        if at == wanted {
            return true;
        }
        above = layer_above(layers, at);
    }
    false
}

pub(crate) fn stands_over(layers: &[Layer], layer: Option<usize>, other: Option<usize>) -> bool
    ensures { result ≡ spec.stands_over layers.now layer other }
{
    match layer {
        Some(layer) => match other {
            Some(other) => is_above(layers, layer, other),
            None => false,
        },
        None => false,
    }
}

/// Whether a layer stands over a fetch of an earlier layer.
fn over_fits(plan: &Plan, layer: usize, over: Option<u32>) -> bool
    ensures { result ≡ spec.over_fits plan.now layer over }
{
    let Some(fetch) = over else {
        return false;
    };
    if !is_fetch(plan.steps.as_slice(), fetch as usize) {
        return false;
    }
    match layer_of(plan.layers.as_slice(), fetch as usize) {
        Some(other) => other < layer,
        None => false,
    }
}

fn overs_fit(plan: &Plan, others: &[Layer]) -> bool
    ensures { result ≡ spec.overs_fit plan.now 1 others.now }
{
    for i in 0..others.len() {
        if !over_fits(plan, i + 1, others[i].over) {
            return false;
        }
    }
    true
}

/// Whether the first layer, and no other, stands over nothing.
fn first_fits(plan: &Plan) -> bool
    ensures { result ≡ spec.first_fits plan.now plan.now.layers }
{
    match plan.layers.as_slice() {
        [] => false,
        [first, others @ ..] => first.over.is_none() && overs_fit(plan, others),
    }
}

fn is_laid(layers: &[Layer], step: usize) -> bool
    ensures { result ≡ spec.is_laid layers.now step }
{
    layers
        .iter()
        .any(|layer| is_among(layer.steps.as_slice(), step))
}

fn differ(numbers: &[u32]) -> bool
    ensures { result ≡ spec.differ numbers.now }
{
    for i in 0..numbers.len() {
        if is_among(&numbers[i + 1..], numbers[i] as usize) {
            return false;
        }
    }
    true
}

fn is_none_laid(layers: &[Layer], steps: &[u32]) -> bool
    ensures { result ≡ list_all (λ k. not (spec.is_laid layers.now k)) steps.now }
{
    steps.iter().all(|step| !is_laid(layers, *step as usize))
}

/// Whether no step stands twice.
fn are_apart(layers: &[Layer]) -> bool
    ensures { result ≡ spec.are_apart layers.now }
{
    for i in 0..layers.len() {
        let steps = layers[i].steps.as_slice();
        if !differ(steps) {
            return false;
        }
        if !is_none_laid(&layers[i + 1..], steps) {
            return false;
        }
    }
    true
}

/// Whether each step stands in some layer.
fn all_laid(layers: &[Layer], steps: &[Step]) -> bool
    ensures { result ≡ spec.all_laid layers.now 0 steps.now }
{
    for k in 0..steps.len() {
        if !is_laid(layers, k) {
            return false;
        }
    }
    true
}

fn all_within(layers: &[Layer], count: usize) -> bool
    ensures { result ≡ list_all (λ l. spec.are_below count l.steps) layers.now }
{
    layers
        .iter()
        .all(|layer| are_below(count, layer.steps.as_slice()))
}

pub(crate) fn layers_fit(plan: &Plan) -> bool
    ensures { result ≡ spec.layers_fit plan.now }
{
    if !first_fits(plan) {
        return false;
    }
    if !all_within(plan.layers.as_slice(), plan.steps.len()) {
        return false;
    }
    if !are_apart(plan.layers.as_slice()) {
        return false;
    }
    all_laid(plan.layers.as_slice(), plan.steps.as_slice())
}
