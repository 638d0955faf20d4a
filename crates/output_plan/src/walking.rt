//! What places show, appended: one walk over the places.

ghost use Rattle.std.specs.Prelude.{◌≡◌, ◌+◌, ◌++◌, ◌∷◌, [], ◌<◌, ◌^◌, OnOk, Some, length, drop, slice_get};
ghost use Rattle.place_tree.specs.Events.{comma};
ghost use Rattle.place_tree.specs.Response.{leaf_text, members_text};
ghost use Rattle.batch_execute.specs.Reading as reading;
ghost use Rattle.batch_execute.specs.Trails.{trail_of};
ghost use Rattle.output_plan.specs.Laid as laid;
ghost use Rattle.output_plan.specs.Layout.{IsLaidOut};
ghost use Rattle.output_plan.specs.Leaves.{StopsFor, text_or};
ghost use Rattle.output_plan.specs.Printed as spec;

use crate::fault::PrintFault;
use crate::leaves::put_null;
use crate::reader::{Reader, first_tree, found_there, label_at, rows_found, show_at, type_at};
use crate::steps::put_value;
use batch_execute::{Role, Spot, is_below, next_of};
use pg_base::Memory;
use pg_base::limits::MOST_RESPONSE_BYTES;
use sqlite_items::at;
use std::alloc::Global;
use stmt_tree::RowTree;

pub(crate) fn put_byte(out: &mut Vec<u8>, byte: u8) -> Result<(), Memory>
    ensures { OnOk result (out.new.items ≡ out.old.items ++ byte ∷ []) }
{
    out.push(byte)?;
    Ok(())
}

fn put_comma(out: &mut Vec<u8>, due: bool) -> Result<(), Memory>
    ensures { OnOk result (out.new.items ≡ out.old.items ++ comma due) }
{
    if due {
        out.push(b',')?;
    }
    Ok(())
}

/// Appends the key of a place, behind a comma where one is due.
fn put_label(out: &mut Vec<u8>, r: &Reader<'_>, i: usize, due: bool) -> Result<(), Memory>
    ensures { OnOk result (out.new.items ≡ out.old.items
        ++ (comma due ++ text_or (slice_get r.now.labels.now i))) }
{
    put_comma(out, due)?;
    out.extend_from_slice(label_at(r.labels, i))?;
    Ok(())
}

pub(crate) fn push_spot<'a>(trail: &mut Vec<Spot<'a>>, spot: Spot<'a>) -> Result<(), Memory>
    ensures { OnOk result (trail.new.items ≡ trail.old.items ++ spot.entry ∷ []) }
{
    trail.push(spot)?;
    Ok(())
}

/// Appends a leaf of the place at i.
fn put_leaf_at<'a>(
    alloc: Global,
    r: &Reader<'a>,
    i: usize,
    step: u32,
    trail: &[Spot<'a>],
    out: &mut Vec<u8>,
) -> Result<(), PrintFault>
    ensures text { OnOk result (out.new.items ≡ out.old.items ++ leaf_text (laid.leaf_there
        (laid.laid_of r.now) (trail_of trail.now)
        (laid.type_or (slice_get r.now.types.now i)) step)) }
    ensures long { StopsFor (out.old.items ++ leaf_text (laid.leaf_there (laid.laid_of r.now)
        (trail_of trail.now) (laid.type_or (slice_get r.now.types.now i)) step)) result }
{
    put_value(alloc, out, r, trail, type_at(r.types, i), step)?;
    Ok(())
}

/// Appends the members that the places of this parent show, from a number on.
#[cycle(put)]
pub(crate) fn put_members<'a>(
    alloc: Global,
    r: &Reader<'a>,
    from: usize,
    parent: Option<u32>,
    trail: &mut Vec<Spot<'a>>,
    out: &mut Vec<u8>,
) -> Result<(), PrintFault>
    requires few { length r.now.places.now < 2 ^ 32 }
    requires laid_out { IsLaidOut r.now.places.now r.now.labels.now r.now.nexts.now }
    ensures trail { OnOk result (trail.new.items ≡ trail.old.items) }
    ensures text { OnOk result (out.new.items ≡ out.old.items
        ++ members_text (spec.members_at (laid.laid_of r.now) (drop from r.now.places.now) from
        parent (trail_of trail.old.items))) }
    ensures long { StopsFor (out.old.items
        ++ members_text (spec.members_at (laid.laid_of r.now) (drop from r.now.places.now) from
        parent (trail_of trail.old.items))) result }
{
    let mut due = false;
    let mut i = from;
    'places: while i < r.places.len() {
        if !is_below(&r.places[i], parent) {
            i += 1;
            continue;
        }
        match put_member(alloc, r, i, due, trail, out) {
            Ok(()) => {}
            Err(fault) => return Err(fault),
        }
        due = true;
        i = next_of(r.nexts, i);
    }
    Ok(())
}

#[cycle(put)]
fn put_member<'a>(
    alloc: Global,
    r: &Reader<'a>,
    i: usize,
    due: bool,
    trail: &mut Vec<Spot<'a>>,
    out: &mut Vec<u8>,
) -> Result<(), PrintFault>
    requires few { length r.now.places.now < 2 ^ 32 }
    requires laid_out { IsLaidOut r.now.places.now r.now.labels.now r.now.nexts.now }
    requires here { i < length r.now.places.now }
    ensures trail { OnOk result (trail.new.items ≡ trail.old.items) }
    ensures text { OnOk result (out.new.items ≡ out.old.items
        ++ spec.member_text (laid.laid_of r.now) (drop (i + 1) r.now.places.now) i due
        (text_or (slice_get r.now.labels.now i)) (trail_of trail.old.items)) }
    ensures long { StopsFor (out.old.items
        ++ spec.member_text (laid.laid_of r.now) (drop (i + 1) r.now.places.now) i due
        (text_or (slice_get r.now.labels.now i)) (trail_of trail.old.items)) result }
{
    put_label(out, r, i, due)?;
    match put_place(alloc, r, i, trail, out) {
        Ok(()) => Ok(()),
        Err(fault) => Err(fault),
    }
}

/// Appends what the place at i shows.
#[cycle(put)]
fn put_place<'a>(
    alloc: Global,
    r: &Reader<'a>,
    i: usize,
    trail: &mut Vec<Spot<'a>>,
    out: &mut Vec<u8>,
) -> Result<(), PrintFault>
    requires few { length r.now.places.now < 2 ^ 32 }
    requires laid_out { IsLaidOut r.now.places.now r.now.labels.now r.now.nexts.now }
    requires here { i < length r.now.places.now }
    ensures trail { OnOk result (trail.new.items ≡ trail.old.items) }
    ensures text { OnOk result (out.new.items ≡ out.old.items
        ++ spec.answer_text (laid.laid_of r.now) (drop (i + 1) r.now.places.now) i
        (laid.shown_on (laid.laid_of r.now) i (trail_of trail.old.items))) }
    ensures long { StopsFor (out.old.items
        ++ spec.answer_text (laid.laid_of r.now) (drop (i + 1) r.now.places.now) i
        (laid.shown_on (laid.laid_of r.now) i (trail_of trail.old.items))) result }
{
    let Some(step) = show_at(r, i) else {
        put_null(out)?;
        return Ok(());
    };
    match at(r.roles, i) {
        None => put_leaf_at(alloc, r, i, step, trail.as_slice(), out),
        Some(role) => put_role(alloc, r, i, role, step, trail, out),
    }
}

#[cycle(put)]
fn put_role<'a>(
    alloc: Global,
    r: &Reader<'a>,
    i: usize,
    role: &Role,
    step: u32,
    trail: &mut Vec<Spot<'a>>,
    out: &mut Vec<u8>,
) -> Result<(), PrintFault>
    requires few { length r.now.places.now < 2 ^ 32 }
    requires laid_out { IsLaidOut r.now.places.now r.now.labels.now r.now.nexts.now }
    requires here { i < length r.now.places.now }
    ensures trail { OnOk result (trail.new.items ≡ trail.old.items) }
    ensures text { OnOk result (out.new.items ≡ out.old.items
        ++ spec.answer_text (laid.laid_of r.now) (drop (i + 1) r.now.places.now) i
        (laid.shown_of (laid.laid_of r.now) role.now (trail_of trail.old.items)
        (laid.type_or (slice_get r.now.types.now i)) (Some step))) }
    ensures long { StopsFor (out.old.items
        ++ spec.answer_text (laid.laid_of r.now) (drop (i + 1) r.now.places.now) i
        (laid.shown_of (laid.laid_of r.now) role.now (trail_of trail.old.items)
        (laid.type_or (slice_get r.now.types.now i)) (Some step))) result }
{
    match role {
        Role::Failed(_) => {
            put_null(out)?;
            Ok(())
        }
        Role::OfList(_) => put_object(alloc, r, i, trail, out),
        Role::OfRow => put_row(alloc, r, i, step, trail, out),
        Role::Each => put_each(alloc, r, i, step, trail, out),
        Role::Same => put_object(alloc, r, i, trail, out),
        Role::OfLeaf => put_leaf_at(alloc, r, i, step, trail.as_slice(), out),
    }
}

#[cycle(put)]
fn put_row<'a>(
    alloc: Global,
    r: &Reader<'a>,
    i: usize,
    step: u32,
    trail: &mut Vec<Spot<'a>>,
    out: &mut Vec<u8>,
) -> Result<(), PrintFault>
    requires few { length r.now.places.now < 2 ^ 32 }
    requires laid_out { IsLaidOut r.now.places.now r.now.labels.now r.now.nexts.now }
    requires here { i < length r.now.places.now }
    ensures trail { OnOk result (trail.new.items ≡ trail.old.items) }
    ensures text { OnOk result (out.new.items ≡ out.old.items
        ++ spec.answer_text (laid.laid_of r.now) (drop (i + 1) r.now.places.now) i
        (laid.row_shown (laid.laid_of r.now) (trail_of trail.old.items) step)) }
    ensures long { StopsFor (out.old.items
        ++ spec.answer_text (laid.laid_of r.now) (drop (i + 1) r.now.places.now) i
        (laid.row_shown (laid.laid_of r.now) (trail_of trail.old.items) step)) result }
{
    let rows = rows_found(found_there(r, trail.as_slice(), step));
    let Some(tree) = first_tree(rows) else {
        put_null(out)?;
        return Ok(());
    };
    put_tree(alloc, r, i, step, tree, trail, out)
}

#[cycle(put)]
fn put_each<'a>(
    alloc: Global,
    r: &Reader<'a>,
    i: usize,
    step: u32,
    trail: &mut Vec<Spot<'a>>,
    out: &mut Vec<u8>,
) -> Result<(), PrintFault>
    requires few { length r.now.places.now < 2 ^ 32 }
    requires laid_out { IsLaidOut r.now.places.now r.now.labels.now r.now.nexts.now }
    requires here { i < length r.now.places.now }
    ensures trail { OnOk result (trail.new.items ≡ trail.old.items) }
    ensures text { OnOk result (out.new.items ≡ out.old.items
        ++ spec.list_text (laid.laid_of r.now) (drop (i + 1) r.now.places.now) i
        (laid.rows_shown (laid.laid_of r.now) (trail_of trail.old.items) step)) }
    ensures long { StopsFor (out.old.items
        ++ spec.list_text (laid.laid_of r.now) (drop (i + 1) r.now.places.now) i
        (laid.rows_shown (laid.laid_of r.now) (trail_of trail.old.items) step)) result }
{
    let rows = rows_found(found_there(r, trail.as_slice(), step));
    put_byte(out, b'[')?;
    let mut due = false;
    for tree in rows {
        put_comma(out, due)?;
        match put_tree(alloc, r, i, step, tree, trail, out) {
            Ok(()) => {}
            Err(fault) => return Err(fault),
        }
        due = true;
    }
    put_byte(out, b']')?;
    Ok(())
}

/// Appends the object of the place at i, at a row further.
#[cycle(put)]
fn put_tree<'a>(
    alloc: Global,
    r: &Reader<'a>,
    i: usize,
    step: u32,
    tree: &'a RowTree,
    trail: &mut Vec<Spot<'a>>,
    out: &mut Vec<u8>,
) -> Result<(), PrintFault>
    requires few { length r.now.places.now < 2 ^ 32 }
    requires laid_out { IsLaidOut r.now.places.now r.now.labels.now r.now.nexts.now }
    requires here { i < length r.now.places.now }
    ensures trail { OnOk result (trail.new.items ≡ trail.old.items) }
    ensures text { OnOk result (out.new.items ≡ out.old.items
        ++ spec.object_text (laid.laid_of r.now) (drop (i + 1) r.now.places.now) i
        (reading.onto step (trail_of trail.old.items) tree.now)) }
    ensures long { StopsFor (out.old.items
        ++ spec.object_text (laid.laid_of r.now) (drop (i + 1) r.now.places.now) i
        (reading.onto step (trail_of trail.old.items) tree.now)) result }
{
    push_spot(trail, Spot { step, tree })?;
    match put_object(alloc, r, i, trail, out) {
        Ok(()) => {}
        Err(fault) => return Err(fault),
    }
    let _ = trail.pop();
    if out.len() > MOST_RESPONSE_BYTES {
        return Err(PrintFault::TooLong);
    }
    Ok(())
}

/// Appends the object of the place at i.
#[cycle(put)]
fn put_object<'a>(
    alloc: Global,
    r: &Reader<'a>,
    i: usize,
    trail: &mut Vec<Spot<'a>>,
    out: &mut Vec<u8>,
) -> Result<(), PrintFault>
    requires few { length r.now.places.now < 2 ^ 32 }
    requires laid_out { IsLaidOut r.now.places.now r.now.labels.now r.now.nexts.now }
    requires here { i < length r.now.places.now }
    ensures trail { OnOk result (trail.new.items ≡ trail.old.items) }
    ensures text { OnOk result (out.new.items ≡ out.old.items
        ++ spec.object_text (laid.laid_of r.now) (drop (i + 1) r.now.places.now) i
        (trail_of trail.old.items)) }
    ensures long { StopsFor (out.old.items
        ++ spec.object_text (laid.laid_of r.now) (drop (i + 1) r.now.places.now) i
        (trail_of trail.old.items)) result }
{
    put_byte(out, b'{')?;
    match put_members(alloc, r, i + 1, Some(i as u32), trail, out) {
        Ok(()) => {}
        Err(fault) => return Err(fault),
    }
    put_byte(out, b'}')?;
    Ok(())
}
