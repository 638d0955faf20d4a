//! The plan of a tree, place by place.

ghost use Rattle.std.specs.Prelude.{◌≡◌, ◌<◌, ◌≤◌, ◌+◌, ◌^◌, ◌++◌, ◌∷◌, [], IfOk, OnOk, length};
ghost use Rattle.step_plan.specs.Drafted as spec;
ghost use Rattle.step_plan.specs.Listed.{ShownAre, so_far};

use crate::adding::added;
use crate::growing::{below_with, out_of, push_layers, push_steps};
use crate::making::{Added, Below, Footing, Making};
use crate::showing::marked;
use pg_base::{Base, Memory, Vars};
use place_tree::{Place, Tree};
use plan_steps::{Layer, OutPlace, Plan, Step};
use sqlite_items::Items;
use std::alloc::Global;

/// What stands below the place above a place.
fn below_of(belows: &[Below], above: Option<u32>) -> Below
    ensures { result ≡ spec.below_of belows.now above }
{
    match above {
        None => Below {
            footing: Footing::Nothing,
            layer: 0,
        },
        Some(above) => match belows.get(above as usize) {
            None => Below {
                footing: Footing::Nothing,
                layer: 0,
            },
            Some(below) => *below,
        },
    }
}

fn put_place(
    out: &mut Vec<OutPlace>,
    belows: &mut Vec<Below>,
    entry: OutPlace,
    below: Below,
) -> Result<(), Memory>
    ensures out { OnOk result (out.new.items ≡ out.old.items ++ entry ∷ []) }
    ensures belows { OnOk result (belows.new.items ≡ belows.old.items ++ below ∷ []) }
{
    out.push(entry)?;
    belows.push(below)?;
    Ok(())
}

fn put_steps(
    alloc: Global,
    steps: &mut Vec<Step>,
    layers: &mut Vec<Layer>,
    layer: u32,
    at: u32,
    added: Added,
) -> Result<(), Memory>
    requires room { at + 1 < 2 ^ 32 }
    ensures steps { OnOk result (steps.new.items ≡ steps.old.items ++ spec.steps_added at added) }
    ensures layers { OnOk result (layers.new.items ≡
        spec.layers_with layers.old.items layer at added) }
{
    push_layers(alloc, layers, layer, at, &added)?;
    push_steps(steps, at, added)
}

/// Adds what a place adds, where there are so many steps and layers.
fn grow(
    alloc: Global,
    making: &mut Making,
    place: u32,
    layer: u32,
    at: u32,
    new: u32,
    added: Added,
) -> Result<(), Memory>
    requires room { at + 1 < 2 ^ 32 }
    ensures steps { OnOk result (making.new.steps.items ≡
        making.old.steps.items ++ spec.steps_added at added) }
    ensures layers { OnOk result (making.new.layers.items ≡
        spec.layers_with making.old.layers.items layer at added) }
    ensures out { OnOk result (making.new.out.items ≡
        making.old.out.items ++ spec.out_of place layer at added ∷ []) }
    ensures belows { OnOk result (making.new.belows.items ≡
        making.old.belows.items ++ spec.below_with layer new at added ∷ []) }
{
    let entry = out_of(place, layer, at, &added);
    let below = below_with(layer, new, at, &added);
    put_place(&mut making.out, &mut making.belows, entry, below)?;
    put_steps(
        alloc,
        &mut making.steps,
        &mut making.layers,
        layer,
        at,
        added,
    )
}

/// Adds a place.
fn add_place(
    alloc: Global,
    base: &Base,
    vars: &Vars,
    places: &[Place],
    number: u32,
    place: &Place,
    shown: bool,
    making: &mut Making,
) -> Result<(), Memory>
    requires room { length making.old.steps.items + 1 < 2 ^ 32 }
    requires few { length making.old.layers.items < 2 ^ 32 }
    ensures { OnOk result (so_far making.new ≡
        spec.with_shown base.now vars.now places.now shown (so_far making.old) number place.now) }
{
    let above = below_of(making.belows.as_slice(), place.parent);
    let added = added(alloc, base, vars, places, place, shown, above.footing)?;
    let at = making.steps.len() as u32;
    let new = making.layers.len() as u32;
    grow(alloc, making, number, above.layer, at, new, added)
}

/// Adds all places, where `shown` tells whose rows are shown.
fn add_places(
    alloc: Global,
    base: &Base,
    vars: &Vars,
    tree: &Tree,
    shown: &[bool],
    making: &mut Making,
) -> Result<(), Memory>
    requires shown { ShownAre base.now.schema tree.now.places shown.now }
    requires few { length tree.now.places ≤ 2000 }
    requires steps { length making.old.steps.items ≡ 0 }
    requires layers { length making.old.layers.items ≡ 1 }
    ensures { OnOk result (so_far making.new ≡
        spec.with_places base.now vars.now tree.now (so_far making.old) 0 tree.now.places) }
{
    let places = tree.places.as_slice();
    for i in 0..places.len() {
        let place = &places[i];
        add_place(alloc, base, vars, places, i as u32, place, shown[i], making)?;
    }
    Ok(())
}

/// The root layer, and nothing else.
fn nothing_made(alloc: Global) -> Result<Making, Memory>
    ensures { IfOk result (λ making. so_far making ≡ spec.nothing_made) }
{
    let mut layers = Vec::new(alloc);
    layers.push(Layer {
        over: None,
        steps: Items::new(alloc),
    })?;
    Ok(Making {
        steps: Vec::new(alloc),
        layers,
        out: Vec::new(alloc),
        belows: Vec::new(alloc),
    })
}

fn plan_of(making: Making) -> Plan
    ensures { result ≡ spec.plan_of (so_far making) }
{
    Plan {
        steps: Items::from_vec(making.steps),
        layers: Items::from_vec(making.layers),
        out: Items::from_vec(making.out),
    }
}

/// The plan of a tree.
///
/// # Errors
/// Out of memory.
pub fn drafted(alloc: Global, base: &Base, vars: &Vars, tree: &Tree) -> Result<Plan, Memory>
    requires few { length tree.now.places ≤ 2000 }
    ensures { IfOk result (λ plan. plan ≡ spec.drafted base.now tree.now vars.now) }
{
    let shown = marked(alloc, base.schema(), tree.places.as_slice())?;
    let mut making = nothing_made(alloc)?;
    add_places(alloc, base, vars, tree, shown.as_slice(), &mut making)?;
    Ok(plan_of(making))
}
