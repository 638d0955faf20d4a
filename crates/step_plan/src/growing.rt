//! A plan that grows by one place.

ghost use Rattle.std.specs.Prelude.{◌≡◌, ◌<◌, ◌+◌, ◌^◌, ◌++◌, ◌∷◌, [], OnOk, length};
ghost use Rattle.step_plan.specs.Drafted as spec;

use crate::making::{Added, Below, Footing};
use pg_base::Memory;
use plan_steps::{Layer, OutPlace, Step};
use sqlite_items::Items;
use std::alloc::Global;

fn put_there(layers: &mut Vec<Layer>, layer: usize, step: u32) -> Result<(), Memory>
    requires inside { layer < length layers.old.items }
    ensures { OnOk result (layers.new.items ≡ spec.into layers.old.items layer step) }
{
    layers[layer].steps.push(step)?;
    Ok(())
}

/// Puts a step into a layer, where there is such a layer.
fn put_into(layers: &mut Vec<Layer>, layer: usize, step: u32) -> Result<(), Memory>
    ensures { OnOk result (layers.new.items ≡ spec.into layers.old.items layer step) }
{
    if layer >= layers.len() {
        return Ok(());
    }
    put_there(layers, layer, step)
}

/// Adds a layer over a fetch, with its Item.
fn push_over(alloc: Global, layers: &mut Vec<Layer>, fetch: u32, item: u32) -> Result<(), Memory>
    ensures { OnOk result (layers.new.items ≡
        layers.old.items ++ spec.layer_over fetch item ∷ []) }
{
    let mut steps = Items::new(alloc);
    steps.push(item)?;
    layers.push(Layer {
        over: Some(fetch),
        steps,
    })?;
    Ok(())
}

fn push_row(alloc: Global, layers: &mut Vec<Layer>, layer: u32, at: u32) -> Result<(), Memory>
    requires room { at + 1 < 2 ^ 32 }
    ensures { OnOk result (layers.new.items ≡
        spec.into layers.old.items layer at ++ spec.layer_over at (at + 1) ∷ []) }
{
    put_into(layers, layer as usize, at)?;
    push_over(alloc, layers, at, at + 1)
}

/// Puts the steps that are added into layers.
pub(crate) fn push_layers(
    alloc: Global,
    layers: &mut Vec<Layer>,
    layer: u32,
    at: u32,
    added: &Added,
) -> Result<(), Memory>
    requires room { at + 1 < 2 ^ 32 }
    ensures { OnOk result (layers.new.items ≡
        spec.layers_with layers.old.items layer at added.now) }
{
    match added {
        Added::Leaf(_) => put_into(layers, layer as usize, at),
        Added::List(_) => put_into(layers, layer as usize, at),
        Added::Row(_) => push_row(alloc, layers, layer, at),
        Added::Item(_, fetch) => push_over(alloc, layers, *fetch, at),
        Added::Shows(_, _) => Ok(()),
        Added::Given => put_into(layers, layer as usize, at),
    }
}

fn push_step(steps: &mut Vec<Step>, step: Step) -> Result<(), Memory>
    ensures { OnOk result (steps.new.items ≡ steps.old.items ++ step ∷ []) }
{
    steps.push(step)?;
    Ok(())
}

/// Adds the steps.
pub(crate) fn push_steps(steps: &mut Vec<Step>, at: u32, added: Added) -> Result<(), Memory>
    ensures { OnOk result (steps.new.items ≡ steps.old.items ++ spec.steps_added at added) }
{
    match added {
        Added::Leaf(step) => push_step(steps, step),
        Added::List(fetch) => push_step(steps, Step::Fetch(fetch)),
        Added::Row(fetch) => {
            push_step(steps, Step::Fetch(fetch))?;
            push_step(steps, Step::Item(at))
        }
        Added::Item(_, fetch) => push_step(steps, Step::Item(fetch)),
        Added::Shows(_, _) => Ok(()),
        Added::Given => push_step(steps, Step::Given),
    }
}

fn step_shown(at: u32, added: &Added) -> u32
    ensures { result ≡ spec.step_shown at added.now }
{
    match added {
        Added::Leaf(_) => at,
        Added::List(_) => at,
        Added::Row(_) => at,
        Added::Item(_, fetch) => *fetch,
        Added::Shows(step, _) => *step,
        Added::Given => at,
    }
}

/// The entry of a place.
pub(crate) fn out_of(place: u32, layer: u32, at: u32, added: &Added) -> OutPlace
    ensures { result ≡ spec.out_of place layer at added.now }
{
    OutPlace {
        place,
        layer,
        step: step_shown(at, added),
    }
}

fn edge_or_row(edge: bool, fetch: u32, item: u32) -> Footing
    ensures { result ≡ spec.edge_or_row edge fetch item }
{
    if edge {
        return Footing::Edge(fetch, item);
    }
    Footing::Row(fetch, item)
}

fn footing_with(at: u32, added: &Added) -> Footing
    requires room { at + 1 < 2 ^ 32 }
    ensures { result ≡ spec.footing_with at added.now }
{
    match added {
        Added::Leaf(_) => Footing::Nothing,
        Added::List(_) => Footing::List(at),
        Added::Row(_) => Footing::Row(at, at + 1),
        Added::Item(edge, fetch) => edge_or_row(*edge, *fetch, at),
        Added::Shows(_, footing) => *footing,
        Added::Given => Footing::Payload(at),
    }
}

fn layer_with(layer: u32, new: u32, added: &Added) -> u32
    ensures { result ≡ spec.layer_with layer new added.now }
{
    match added {
        Added::Leaf(_) => layer,
        Added::List(_) => layer,
        Added::Row(_) => new,
        Added::Item(_, _) => new,
        Added::Shows(_, _) => layer,
        Added::Given => layer,
    }
}

/// On what the places below the place stand. A new layer would have the number `new`.
pub(crate) fn below_with(layer: u32, new: u32, at: u32, added: &Added) -> Below
    requires room { at + 1 < 2 ^ 32 }
    ensures { result ≡ spec.below_with layer new at added.now }
{
    Below {
        footing: footing_with(at, added),
        layer: layer_with(layer, new, added),
    }
}
