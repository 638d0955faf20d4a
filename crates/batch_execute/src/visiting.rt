//! How many rows the places under a root show: a walk over the places, which takes them from what is left.

ghost use Rattle.std.specs.Prelude.{◌≡◌, ◌+◌, ◌++◌, ◌∷◌, [], ◌-◌, ◌<◌, ◌^◌, OnOk, Some, length, drop, option_map, slice_get};
ghost use Rattle.place_tree.specs.Spent.{Spends};
ghost use Rattle.stmt_tree.specs.declared.found.Found.TheViews.{out-Found};
ghost use Rattle.batch_execute.specs.declared.role.Role.TheVariants as roles_are;
ghost use Rattle.batch_execute.specs.Counted as count;
ghost use Rattle.batch_execute.specs.Nexts.{nexts_from};
ghost use Rattle.batch_execute.specs.Reading as reading;
ghost use Rattle.batch_execute.specs.Trails.{trail_of};
ghost use Rattle.batch_execute.specs.Visited as spec;

use crate::fetched::Fetched;
use crate::nexts::{is_below, next_of};
use crate::reading::{Spot, found_by};
use crate::role::Role;
use crate::way::Way;
use pg_base::Memory;
use place_tree::{CountFault, Place};
use stmt_tree::{Found, RowTree};

/// What is read: how the rows of each step are come by, what was found for it, what each place shows of which step, and
/// the next place below the same one.
#[derive(Clone, Copy, Drop)]
pub(crate) struct Reader<'a> {
    pub places: &'a [Place],
    pub ways: &'a [Way],
    pub fetched: &'a [Fetched],
    pub roles: &'a [Role],
    pub steps: &'a [Option<u32>],
    pub nexts: &'a [usize],
}

/// What a step found at a trail.
fn found_there<'a>(r: &Reader<'a>, trail: &[Spot<'a>], step: u32) -> Option<&'a Found>
    ensures { option_map (λ f. f.now) result ≡ reading.found_by r.now.fetched.now
        (trail_of trail.now) step (spec.way_or (slice_get r.now.ways.now step)) }
{
    match r.ways.get(step as usize) {
        None => None,
        Some(way) => found_by(r.fetched, trail, step, *way),
    }
}

fn rows_found(found: Option<&Found>) -> &[RowTree]
    ensures { result.now
        ≡ (out-Found (reading.found_or (option_map (λ f. f.now) found.entry))).rows }
{
    match found {
        None => &[],
        Some(found) => found.rows.as_slice(),
    }
}

/// The number of rows from the first place of a list's part to its end.
fn part_found(found: Option<&Found>) -> u64
    ensures { result ≡ (out-Found (reading.found_or (option_map (λ f. f.now) found.entry))).to
        - (out-Found (reading.found_or (option_map (λ f. f.now) found.entry))).from }
{
    match found {
        None => 0,
        Some(found) => found.to.saturating_sub(found.from),
    }
}

fn list_rows(shown: bool, found: Option<&Found>) -> u64
    ensures { result ≡ count.rows_shown (roles_are.OfList shown)
        (reading.found_or (option_map (λ f. f.now) found.entry)) }
{
    if shown {
        return part_found(found);
    }
    0
}

fn first_row(found: Option<&Found>) -> Option<&RowTree>
    ensures { option_map (λ t. t.now) result ≡ reading.first_tree
        (out-Found (reading.found_or (option_map (λ f. f.now) found.entry))).rows }
{
    match found {
        None => None,
        Some(found) => found.rows.as_slice().first(),
    }
}

/// The step that a place shows.
fn step_at(r: &Reader<'_>, i: usize) -> Option<u32>
    ensures { result ≡ spec.step_or (slice_get r.now.steps.now i) }
{
    match r.steps.get(i) {
        None => None,
        Some(step) => *step,
    }
}

fn push_spot<'a>(trail: &mut Vec<Spot<'a>>, spot: Spot<'a>) -> Result<(), Memory>
    ensures { OnOk result (trail.new.items ≡ trail.old.items ++ spot.entry ∷ []) }
{
    trail.push(spot)?;
    Ok(())
}

fn take(count: u64, left: &mut u64) -> Result<(), CountFault>
    ensures { Spends left.old left.new count result }
{
    if count > *left {
        return Err(CountFault::TooMany);
    }
    *left -= count;
    Ok(())
}

/// Takes from what is left the rows that the places of this parent show, from a number on.
#[cycle(visit)]
pub(crate) fn visit_places<'a>(
    r: &Reader<'a>,
    from: usize,
    parent: Option<u32>,
    trail: &mut Vec<Spot<'a>>,
    left: &mut u64,
) -> Result<(), CountFault>
    requires few { length r.now.places.now < 2 ^ 32 }
    requires linked { r.now.nexts.now ≡ nexts_from 0 r.now.places.now }
    ensures trail { OnOk result (trail.new.items ≡ trail.old.items) }
    ensures counted { Spends left.old left.new
        (count.counted (spec.shown_there (spec.readings_of r.now))
        (spec.rows_there (spec.readings_of r.now)) (drop from r.now.places.now) from parent
        (trail_of trail.old.items)) result }
{
    let mut i = from;
    'places: while i < r.places.len() {
        if !is_below(&r.places[i], parent) {
            i += 1;
            continue;
        }
        match visit_place(r, i, trail, left) {
            Ok(()) => {}
            Err(fault) => return Err(fault),
        }
        i = next_of(r.nexts, i);
    }
    Ok(())
}

#[cycle(visit)]
fn visit_place<'a>(
    r: &Reader<'a>,
    i: usize,
    trail: &mut Vec<Spot<'a>>,
    left: &mut u64,
) -> Result<(), CountFault>
    requires few { length r.now.places.now < 2 ^ 32 }
    requires linked { r.now.nexts.now ≡ nexts_from 0 r.now.places.now }
    requires here { i < length r.now.places.now }
    ensures trail { OnOk result (trail.new.items ≡ trail.old.items) }
    ensures counted { Spends left.old left.new
        (spec.visited_by (spec.readings_of r.now) (drop (i + 1) r.now.places.now) i
        (spec.role_or (slice_get r.now.roles.now i)) (spec.step_or (slice_get r.now.steps.now i))
        (trail_of trail.old.items)) result }
{
    let Some(step) = step_at(r, i) else {
        return Ok(());
    };
    match r.roles.get(i) {
        None => Ok(()),
        Some(role) => visit_role(r, i, role, step, trail, left),
    }
}

#[cycle(visit)]
fn visit_role<'a>(
    r: &Reader<'a>,
    i: usize,
    role: &Role,
    step: u32,
    trail: &mut Vec<Spot<'a>>,
    left: &mut u64,
) -> Result<(), CountFault>
    requires few { length r.now.places.now < 2 ^ 32 }
    requires linked { r.now.nexts.now ≡ nexts_from 0 r.now.places.now }
    requires here { i < length r.now.places.now }
    ensures trail { OnOk result (trail.new.items ≡ trail.old.items) }
    ensures counted { Spends left.old left.new
        (spec.visited_by (spec.readings_of r.now) (drop (i + 1) r.now.places.now) i role.now
        (Some step) (trail_of trail.old.items)) result }
{
    match role {
        Role::Failed(_) => Ok(()),
        Role::OfList(shown) => visit_list(r, i, *shown, step, trail, left),
        Role::OfRow => visit_row(r, i, step, trail, left),
        Role::Each => visit_each(r, i, step, trail, left),
        Role::Same => visit_below(r, i, trail, left),
        Role::OfLeaf => Ok(()),
    }
}

#[cycle(visit)]
fn visit_list<'a>(
    r: &Reader<'a>,
    i: usize,
    shown: bool,
    step: u32,
    trail: &mut Vec<Spot<'a>>,
    left: &mut u64,
) -> Result<(), CountFault>
    requires few { length r.now.places.now < 2 ^ 32 }
    requires linked { r.now.nexts.now ≡ nexts_from 0 r.now.places.now }
    requires here { i < length r.now.places.now }
    ensures trail { OnOk result (trail.new.items ≡ trail.old.items) }
    ensures counted { Spends left.old left.new
        (spec.visited_by (spec.readings_of r.now) (drop (i + 1) r.now.places.now) i
        (roles_are.OfList shown) (Some step) (trail_of trail.old.items)) result }
{
    let found = found_there(r, trail.as_slice(), step);
    match take(list_rows(shown, found), left) {
        Ok(()) => visit_below(r, i, trail, left),
        Err(fault) => Err(fault),
    }
}

#[cycle(visit)]
fn visit_row<'a>(
    r: &Reader<'a>,
    i: usize,
    step: u32,
    trail: &mut Vec<Spot<'a>>,
    left: &mut u64,
) -> Result<(), CountFault>
    requires few { length r.now.places.now < 2 ^ 32 }
    requires linked { r.now.nexts.now ≡ nexts_from 0 r.now.places.now }
    requires here { i < length r.now.places.now }
    ensures trail { OnOk result (trail.new.items ≡ trail.old.items) }
    ensures counted { Spends left.old left.new
        (spec.visited_by (spec.readings_of r.now) (drop (i + 1) r.now.places.now) i
        roles_are.OfRow (Some step) (trail_of trail.old.items)) result }
{
    let found = found_there(r, trail.as_slice(), step);
    let Some(tree) = first_row(found) else {
        return Ok(());
    };
    match take(1, left) {
        Ok(()) => visit_tree(r, i, step, tree, trail, left),
        Err(fault) => Err(fault),
    }
}

#[cycle(visit)]
fn visit_each<'a>(
    r: &Reader<'a>,
    i: usize,
    step: u32,
    trail: &mut Vec<Spot<'a>>,
    left: &mut u64,
) -> Result<(), CountFault>
    requires few { length r.now.places.now < 2 ^ 32 }
    requires linked { r.now.nexts.now ≡ nexts_from 0 r.now.places.now }
    requires here { i < length r.now.places.now }
    ensures trail { OnOk result (trail.new.items ≡ trail.old.items) }
    ensures counted { Spends left.old left.new
        (spec.visited_by (spec.readings_of r.now) (drop (i + 1) r.now.places.now) i
        roles_are.Each (Some step) (trail_of trail.old.items)) result }
{
    let rows = rows_found(found_there(r, trail.as_slice(), step));
    for tree in rows {
        match visit_tree(r, i, step, tree, trail, left) {
            Ok(()) => {}
            Err(fault) => return Err(fault),
        }
    }
    Ok(())
}

/// The places below the place at i, at a row further.
#[cycle(visit)]
fn visit_tree<'a>(
    r: &Reader<'a>,
    i: usize,
    step: u32,
    tree: &'a RowTree,
    trail: &mut Vec<Spot<'a>>,
    left: &mut u64,
) -> Result<(), CountFault>
    requires few { length r.now.places.now < 2 ^ 32 }
    requires linked { r.now.nexts.now ≡ nexts_from 0 r.now.places.now }
    requires here { i < length r.now.places.now }
    ensures trail { OnOk result (trail.new.items ≡ trail.old.items) }
    ensures counted { Spends left.old left.new
        (count.state_counted (spec.shown_there (spec.readings_of r.now))
        (spec.rows_there (spec.readings_of r.now)) (drop (i + 1) r.now.places.now) i
        (reading.onto step (trail_of trail.old.items) tree.now)) result }
{
    push_spot(trail, Spot { step, tree })?;
    match visit_below(r, i, trail, left) {
        Ok(()) => {}
        Err(fault) => return Err(fault),
    }
    let _ = trail.pop();
    Ok(())
}

#[cycle(visit)]
fn visit_below<'a>(
    r: &Reader<'a>,
    i: usize,
    trail: &mut Vec<Spot<'a>>,
    left: &mut u64,
) -> Result<(), CountFault>
    requires few { length r.now.places.now < 2 ^ 32 }
    requires linked { r.now.nexts.now ≡ nexts_from 0 r.now.places.now }
    requires here { i < length r.now.places.now }
    ensures trail { OnOk result (trail.new.items ≡ trail.old.items) }
    ensures counted { Spends left.old left.new
        (count.state_counted (spec.shown_there (spec.readings_of r.now))
        (spec.rows_there (spec.readings_of r.now)) (drop (i + 1) r.now.places.now) i
        (trail_of trail.old.items)) result }
{
    visit_places(r, i + 1, Some(i as u32), trail, left)
}
