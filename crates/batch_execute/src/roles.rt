//! What each place shows of what its step found, and which step it shows.

ghost use Rattle.std.specs.Prelude.{◌≡◌, ◌++◌, [], ◌<◌, ◌^◌, IfOk, Some, length, drop, slice_set};
ghost use Rattle.place_tree.specs.Exec as executing;
ghost use Rattle.place_tree.specs.Fetch as fetching;
ghost use Rattle.batch_execute.specs.Roles as spec;

use crate::role::Role;
use list_execution::{does_of, fetch_error, fetch_of, needs_rows};
use pg_base::{Base, Does, Memory, Vars};
use place_tree::{Fetch, Place, Shape};
use plan_steps::OutPlace;
use sqlite_items::Items;
use std::alloc::Global;

fn role_by(does: Option<Does>) -> Role
    ensures { result ≡ spec.role_by does }
{
    match does {
        None => Role::OfLeaf,
        Some(does) => role_of_other(does),
    }
}

fn role_of_other(does: Does) -> Role
    ensures { result ≡ spec.role_by (Some does) }
{
    match does {
        Does::Column(_, _) => Role::OfLeaf,
        Does::Forward(_, _) => Role::OfLeaf,
        Does::Backward(_, _) => Role::OfLeaf,
        Does::All(_) => Role::OfLeaf,
        Does::ByKey(_, _) => Role::OfLeaf,
        Does::Create(_) => Role::OfLeaf,
        Does::Update(_, _) => Role::OfLeaf,
        Does::Delete(_, _) => Role::OfLeaf,
        Does::Nodes => Role::Each,
        Does::Edges => Role::Each,
        Does::PageInfo => Role::Same,
        Does::Node => Role::Same,
        Does::Payload => Role::Same,
        Does::Total => Role::OfLeaf,
        Does::HasNext => Role::OfLeaf,
        Does::HasPrevious => Role::OfLeaf,
        Does::Start => Role::OfLeaf,
        Does::End => Role::OfLeaf,
        Does::Cursor => Role::OfLeaf,
        Does::ClientId => Role::OfLeaf,
    }
}

fn role_in(shown: bool, fetch: &Fetch) -> Role
    ensures { result ≡ spec.role_in shown fetch.now.shape }
{
    match fetch.shape {
        Shape::List => Role::OfList(shown),
        Shape::Row => Role::OfRow,
    }
}

fn field_role(
    alloc: Global,
    base: &Base,
    vars: &Vars,
    places: &[Place],
    number: u32,
    place: &Place,
    fetch: &Fetch,
) -> Result<Role, Memory>
    ensures { IfOk result (λ role. role ≡ spec.role_or
        (fetching.error_with base.now vars.now place.now (Some fetch.now))
        (spec.role_in (executing.needs_rows base.now.schema places.now number) fetch.now.shape)) }
{
    match fetch_error(alloc, base, vars, place, fetch)? {
        Some(message) => Ok(Role::Failed(message)),
        None => Ok(role_in(needs_rows(base.schema(), places, number), fetch)),
    }
}

/// What the place with a number shows of what its step found.
#[tactic(auto, unfolding(place_tree::specs::Fetch::argument_error))]
fn role_of(
    alloc: Global,
    base: &Base,
    vars: &Vars,
    places: &[Place],
    number: u32,
    place: &Place,
) -> Result<Role, Memory>
    ensures { IfOk result (λ role. role ≡
        spec.role_of base.now vars.now places.now number place.now) }
{
    match fetch_of(alloc, base, vars, place)? {
        None => Ok(role_by(does_of(base.schema(), place))),
        Some(fetch) => {
            let role = field_role(alloc, base, vars, places, number, place, &fetch)?;
            Ok(role)
        }
    }
}

/// What each place shows of what its step found.
pub(crate) fn roles_of(
    alloc: Global,
    base: &Base,
    vars: &Vars,
    places: &[Place],
) -> Result<Items<Role>, Memory>
    requires few { length places.now < 2 ^ 32 }
    ensures { IfOk result (λ roles. roles ≡ spec.roles_of base.now vars.now places.now) }
{
    let mut roles = Items::new(alloc);
    for i in 0..places.len() {
        roles.push(role_of(alloc, base, vars, places, i as u32, &places[i])?)?;
    }
    Ok(roles)
}

// ---- the steps that places show

fn put_step(steps: &mut Vec<Option<u32>>, out: OutPlace)
    ensures { steps.new.items ≡ slice_set steps.old.items out.place (Some out.step) }
{
    if (out.place as usize) < steps.len() {
        steps[out.place as usize] = Some(out.step);
    }
}

/// No step for each place.
fn no_steps(alloc: Global, places: &[Place]) -> Result<Vec<Option<u32>>, Memory>
    ensures { IfOk result (λ steps. steps.items ≡ spec.steps_of [] places.now) }
{
    let mut steps = Vec::with_capacity(alloc, places.len())?;
    for turn in 0..places.len() {
        steps.push(None)?;
    }
    Ok(steps)
}

/// The step that each place shows: that of its first entry.
pub fn steps_of(
    alloc: Global,
    outs: &[OutPlace],
    places: &[Place],
) -> Result<Items<Option<u32>>, Memory>
    ensures { IfOk result (λ steps. steps ≡ spec.steps_of outs.now places.now) }
{
    let mut steps = no_steps(alloc, places)?;
    let mut left = outs.len();
    'left: while left > 0 {
        left -= 1;
        put_step(&mut steps, outs[left]);
    }
    Ok(Items::from_vec(steps))
}
