//! What stands under a root, what a step names, and which row fields it serves.

ghost use Rattle.std.specs.Prelude.{◌≡◌, ◌==◌, ◌&&◌, ◌-◌, Some, option_map, slice_get, length};
ghost use Rattle.std.specs.List.{list_any};
ghost use Rattle.plan_steps.specs.Chains as chains;
ghost use Rattle.plan_steps.specs.Named as named;
ghost use Rattle.plan_steps.specs.Under as under;
ghost use Rattle.batch_execute.specs.Asking as spec;

use crate::role::Role;
use place_tree::Place;
use plan_steps::{OutPlace, Root, Step};
use sqlite_items::at;

// ---- what stands under a root

/// The place of a root.
pub(crate) fn root_place(root: &Root) -> Option<u32>
    ensures { result ≡ under.root_place root.now }
{
    match root {
        Root::Query => None,
        Root::Field(place, _) => Some(*place),
    }
}

fn place_above(places: &[Place], place: u32) -> Option<u32>
    ensures { result ≡ under.above places.now place }
{
    match at(places, place as usize) {
        None => None,
        Some(found) => found.parent,
    }
}

/// Whether a place stands below the place of a root.
fn is_below(places: &[Place], root: u32, place: u32) -> bool
    ensures { result ≡ under.is_below places.now (Some root) place }
{
    let mut above = place_above(places, place);
    for turn in 0..places.len() {
        let Some(other) = above else {
            return false;
        };
        if other == root {
            return true;
        }
        above = place_above(places, other);
    }
    false
}

/// Whether a place stands under a root.
pub(crate) fn is_under(places: &[Place], root: Option<u32>, place: u32) -> bool
    ensures { result ≡ under.is_below places.now root place }
{
    match root {
        None => true,
        Some(root) => is_below(places, root, place),
    }
}

// ---- what a step names

fn named_by(step: &Step) -> Option<u32>
    ensures { result ≡ named.named_by step.now }
{
    match step {
        Step::Const(_) => None,
        Step::Var(_) => None,
        Step::Given => None,
        Step::Fetch(fetch) => fetch.parent,
        Step::Item(fetch) => Some(*fetch),
        Step::Column(row, _) => Some(*row),
        Step::Count(fetch) => Some(*fetch),
        Step::Page(fetch, _) => Some(*fetch),
        Step::CursorOf(item) => Some(*item),
    }
}

/// The step that the step at a place names.
pub(crate) fn named_at(steps: &[Step], step: usize) -> Option<u32>
    ensures { result ≡ named.named_at steps.now step }
{
    match at(steps, step) {
        None => None,
        Some(found) => named_by(found),
    }
}

// ---- row fields that a step serves

fn is_field(role: Option<&Role>) -> bool
    ensures { result ≡ spec.is_field (option_map (λ r. r.now) role.entry) }
{
    match role {
        None => false,
        Some(role) => match role {
            Role::Failed(_) => true,
            Role::OfList(_) => true,
            Role::OfRow => true,
            Role::Each => false,
            Role::Same => false,
            Role::OfLeaf => false,
        },
    }
}

fn is_well(role: Option<&Role>) -> bool
    ensures { result ≡ spec.is_well (option_map (λ r. r.now) role.entry) }
{
    match role {
        None => false,
        Some(role) => match role {
            Role::Failed(_) => false,
            Role::OfList(_) => true,
            Role::OfRow => true,
            Role::Each => false,
            Role::Same => false,
            Role::OfLeaf => false,
        },
    }
}

/// Whether an entry shows a step of a place under the root.
fn shows(places: &[Place], root: Option<u32>, out: OutPlace, step: usize) -> bool
    ensures { result ≡ ((out.step == step) && under.is_below places.now root out.place) }
{
    if out.step as usize != step {
        return false;
    }
    is_under(places, root, out.place)
}

fn serves(places: &[Place], roles: &[Role], root: Option<u32>, out: OutPlace, step: usize) -> bool
    ensures { result ≡ (((out.step == step) && under.is_below places.now root out.place)
        && spec.is_field (slice_get roles.now out.place)) }
{
    if !shows(places, root, out, step) {
        return false;
    }
    is_field(at(roles, out.place as usize))
}

fn serves_well(
    places: &[Place],
    roles: &[Role],
    root: Option<u32>,
    out: OutPlace,
    step: usize,
) -> bool
    ensures { result ≡ (((out.step == step) && under.is_below places.now root out.place)
        && spec.is_well (slice_get roles.now out.place)) }
{
    if !shows(places, root, out, step) {
        return false;
    }
    is_well(at(roles, out.place as usize))
}

fn serves_any(
    places: &[Place],
    roles: &[Role],
    outs: &[OutPlace],
    root: Option<u32>,
    step: usize,
) -> bool
    ensures { result ≡ spec.serves_any places.now roles.now outs.now root step }
{
    outs.iter()
        .any(|out| serves(places, roles, root, *out, step))
}

fn serves_any_well(
    places: &[Place],
    roles: &[Role],
    outs: &[OutPlace],
    root: Option<u32>,
    step: usize,
) -> bool
    ensures { result ≡ spec.serves_any_well places.now roles.now outs.now root step }
{
    outs.iter()
        .any(|out| serves_well(places, roles, root, *out, step))
}

/// Whether a step serves, under the root, no row field or one without an error.
pub(crate) fn may_ask(
    places: &[Place],
    roles: &[Role],
    outs: &[OutPlace],
    root: Option<u32>,
    step: usize,
) -> bool
    ensures { result ≡ spec.may_ask places.now roles.now outs.now root step }
{
    if !serves_any(places, roles, outs, root, step) {
        return true;
    }
    serves_any_well(places, roles, outs, root, step)
}
