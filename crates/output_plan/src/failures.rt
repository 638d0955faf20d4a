//! The errors of a response, which come before its data: one walk over the places, where one of them fails.

ghost use Rattle.std.specs.Prelude.{◌≡◌, ◌+◌, ◌++◌, ◌∷◌, [], ◌<◌, ◌^◌, List, IfOk, OnOk, None, Some, length, drop, map, slice_get};
ghost use Rattle.std.specs.List.{list_any};
ghost use Rattle.place_tree.specs.Response.{FieldError, errors_text, index, key, member_errors};
ghost use Rattle.response_text.specs.Paths as paths;
ghost use Rattle.batch_execute.specs.Reading as reading;
ghost use Rattle.batch_execute.specs.Trails.{trail_of};
ghost use Rattle.output_plan.specs.Failures as spec;
ghost use Rattle.output_plan.specs.Laid as laid;
ghost use Rattle.output_plan.specs.Layout.{IsLaidOut};
ghost use Rattle.output_plan.specs.Leaves.{StopsFor};
ghost use Rattle.output_plan.specs.Printed.{members_at};

use crate::fault::PrintFault;
use crate::reader::{Reader, first_tree, found_there, rows_found, show_at};
use crate::walking::push_spot;
use batch_execute::{Role, Spot, is_below, next_of};
use pg_base::limits::MOST_RESPONSE_BYTES;
use pg_base::{Memory, Text};
use place_tree::Place;
use response_text::{Part, put_after, put_before, put_error};
use sqlite_items::at;
use std::alloc::Global;
use stmt_tree::RowTree;

fn is_failed(role: &Role) -> bool
    ensures { result ≡ spec.is_failed role.now }
{
    match role {
        Role::Failed(_) => true,
        Role::OfList(_) => false,
        Role::OfRow => false,
        Role::Each => false,
        Role::Same => false,
        Role::OfLeaf => false,
    }
}

fn has_failed(roles: &[Role]) -> bool
    ensures { result ≡ list_any spec.is_failed roles.now }
{
    roles.iter().any(|role| is_failed(role))
}

fn push_part<'a>(path: &mut Vec<Part<'a>>, part: Part<'a>) -> Result<(), Memory>
    ensures items { OnOk result (path.new.items ≡ path.old.items ++ part.entry ∷ []) }
    ensures parts { OnOk result (map paths.part_of path.new.items
        ≡ map paths.part_of path.old.items ++ paths.part_of part.entry ∷ []) }
{
    path.push(part)?;
    Ok(())
}

/// Appends an error, and says that one has been written.
fn put_failure(
    out: &mut Vec<u8>,
    some: bool,
    message: &Text,
    place: &Place,
    path: &[Part<'_>],
) -> Result<bool, PrintFault>
    requires { paths.AreBelow (2 ^ 63) path.now }
    ensures text { IfOk result (λ after. (rest : List FieldError)
        → out.new.items ++ paths.errors_left after rest
        ≡ out.old.items ++ paths.errors_left some (spec.error_here message.now place.now.pos
        (map paths.part_of path.now) ∷ rest)) }
    ensures long { StopsFor (out.old.items ++ paths.errors_left some (spec.error_here message.now
        place.now.pos (map paths.part_of path.now) ∷ [])) result }
{
    put_before(out, some)?;
    put_error(out, message, place.pos, path)?;
    if out.len() > MOST_RESPONSE_BYTES {
        return Err(PrintFault::TooLong);
    }
    Ok(true)
}

/// Appends the errors of the members that the places of this parent show, from a number on, and says whether an error
/// has been written by then.
#[cycle(fail)]
fn fail_members<'a>(
    r: &Reader<'a>,
    from: usize,
    parent: Option<u32>,
    trail: &mut Vec<Spot<'a>>,
    path: &mut Vec<Part<'a>>,
    some: bool,
    out: &mut Vec<u8>,
) -> Result<bool, PrintFault>
    requires few { length r.now.places.now < 2 ^ 32 }
    requires laid_out { IsLaidOut r.now.places.now r.now.labels.now r.now.nexts.now }
    requires short { paths.AreBelow (2 ^ 63) path.old.items }
    ensures trail { OnOk result (trail.new.items ≡ trail.old.items) }
    ensures path { OnOk result (path.new.items ≡ path.old.items) }
    ensures text { IfOk result (λ after. (rest : List FieldError)
        → out.new.items ++ paths.errors_left after rest
        ≡ out.old.items ++ paths.errors_left some (member_errors
        (members_at (laid.laid_of r.now) (drop from r.now.places.now) from parent
        (trail_of trail.old.items)) (map paths.part_of path.old.items) ++ rest)) }
    ensures long { StopsFor (out.old.items
        ++ paths.errors_left some (member_errors
        (members_at (laid.laid_of r.now) (drop from r.now.places.now) from parent
        (trail_of trail.old.items)) (map paths.part_of path.old.items))) result }
{
    let mut written = some;
    let mut i = from;
    'places: while i < r.places.len() {
        if !is_below(&r.places[i], parent) {
            i += 1;
            continue;
        }
        match fail_member(r, i, trail, path, written, out) {
            Ok(after) => written = after,
            Err(fault) => return Err(fault),
        }
        i = next_of(r.nexts, i);
    }
    Ok(written)
}

#[cycle(fail)]
fn fail_member<'a>(
    r: &Reader<'a>,
    i: usize,
    trail: &mut Vec<Spot<'a>>,
    path: &mut Vec<Part<'a>>,
    some: bool,
    out: &mut Vec<u8>,
) -> Result<bool, PrintFault>
    requires few { length r.now.places.now < 2 ^ 32 }
    requires laid_out { IsLaidOut r.now.places.now r.now.labels.now r.now.nexts.now }
    requires here { i < length r.now.places.now }
    requires short { paths.AreBelow (2 ^ 63) path.old.items }
    ensures trail { OnOk result (trail.new.items ≡ trail.old.items) }
    ensures path { OnOk result (path.new.items ≡ path.old.items) }
    ensures text { IfOk result (λ after. (rest : List FieldError)
        → out.new.items ++ paths.errors_left after rest
        ≡ out.old.items ++ paths.errors_left some (spec.answer_errors (laid.laid_of r.now)
        (drop (i + 1) r.now.places.now) i (spec.pos_at r.now.places.now i)
        (laid.shown_on (laid.laid_of r.now) i (trail_of trail.old.items))
        (map paths.part_of path.old.items ++ key (spec.key_at r.now.places.now i) ∷ []) ++ rest)) }
    ensures long { StopsFor (out.old.items
        ++ paths.errors_left some (spec.answer_errors (laid.laid_of r.now)
        (drop (i + 1) r.now.places.now) i (spec.pos_at r.now.places.now i)
        (laid.shown_on (laid.laid_of r.now) i (trail_of trail.old.items))
        (map paths.part_of path.old.items ++ key (spec.key_at r.now.places.now i) ∷ []))) result }
{
    push_part(path, Part::Key(&r.places[i].key))?;
    match fail_place(r, i, trail, path, some, out) {
        Ok(after) => {
            let _ = path.pop();
            Ok(after)
        }
        Err(fault) => Err(fault),
    }
}

/// Appends the errors of what the place at i shows.
#[cycle(fail)]
fn fail_place<'a>(
    r: &Reader<'a>,
    i: usize,
    trail: &mut Vec<Spot<'a>>,
    path: &mut Vec<Part<'a>>,
    some: bool,
    out: &mut Vec<u8>,
) -> Result<bool, PrintFault>
    requires few { length r.now.places.now < 2 ^ 32 }
    requires laid_out { IsLaidOut r.now.places.now r.now.labels.now r.now.nexts.now }
    requires here { i < length r.now.places.now }
    requires short { paths.AreBelow (2 ^ 63) path.old.items }
    ensures trail { OnOk result (trail.new.items ≡ trail.old.items) }
    ensures path { OnOk result (path.new.items ≡ path.old.items) }
    ensures text { IfOk result (λ after. (rest : List FieldError)
        → out.new.items ++ paths.errors_left after rest
        ≡ out.old.items ++ paths.errors_left some (spec.answer_errors (laid.laid_of r.now)
        (drop (i + 1) r.now.places.now) i (spec.pos_at r.now.places.now i)
        (laid.shown_on (laid.laid_of r.now) i (trail_of trail.old.items))
        (map paths.part_of path.old.items) ++ rest)) }
    ensures long { StopsFor (out.old.items
        ++ paths.errors_left some (spec.answer_errors (laid.laid_of r.now)
        (drop (i + 1) r.now.places.now) i (spec.pos_at r.now.places.now i)
        (laid.shown_on (laid.laid_of r.now) i (trail_of trail.old.items))
        (map paths.part_of path.old.items))) result }
{
    let Some(step) = show_at(r, i) else {
        return Ok(some);
    };
    match at(r.roles, i) {
        None => Ok(some),
        Some(role) => fail_role(r, i, role, step, trail, path, some, out),
    }
}

#[cycle(fail)]
fn fail_role<'a>(
    r: &Reader<'a>,
    i: usize,
    role: &Role,
    step: u32,
    trail: &mut Vec<Spot<'a>>,
    path: &mut Vec<Part<'a>>,
    some: bool,
    out: &mut Vec<u8>,
) -> Result<bool, PrintFault>
    requires few { length r.now.places.now < 2 ^ 32 }
    requires laid_out { IsLaidOut r.now.places.now r.now.labels.now r.now.nexts.now }
    requires here { i < length r.now.places.now }
    requires short { paths.AreBelow (2 ^ 63) path.old.items }
    ensures trail { OnOk result (trail.new.items ≡ trail.old.items) }
    ensures path { OnOk result (path.new.items ≡ path.old.items) }
    ensures text { IfOk result (λ after. (rest : List FieldError)
        → out.new.items ++ paths.errors_left after rest
        ≡ out.old.items ++ paths.errors_left some (spec.answer_errors (laid.laid_of r.now)
        (drop (i + 1) r.now.places.now) i (spec.pos_at r.now.places.now i)
        (laid.shown_of (laid.laid_of r.now) role.now (trail_of trail.old.items)
        (laid.type_or (slice_get r.now.types.now i)) (Some step))
        (map paths.part_of path.old.items) ++ rest)) }
    ensures long { StopsFor (out.old.items
        ++ paths.errors_left some (spec.answer_errors (laid.laid_of r.now)
        (drop (i + 1) r.now.places.now) i (spec.pos_at r.now.places.now i)
        (laid.shown_of (laid.laid_of r.now) role.now (trail_of trail.old.items)
        (laid.type_or (slice_get r.now.types.now i)) (Some step))
        (map paths.part_of path.old.items))) result }
{
    match role {
        Role::Failed(message) => put_failure(out, some, message, &r.places[i], path.as_slice()),
        Role::OfList(_) => fail_object(r, i, trail, path, some, out),
        Role::OfRow => fail_row(r, i, step, trail, path, some, out),
        Role::Each => fail_each(r, i, step, trail, path, some, out),
        Role::Same => fail_object(r, i, trail, path, some, out),
        Role::OfLeaf => Ok(some),
    }
}

#[cycle(fail)]
fn fail_row<'a>(
    r: &Reader<'a>,
    i: usize,
    step: u32,
    trail: &mut Vec<Spot<'a>>,
    path: &mut Vec<Part<'a>>,
    some: bool,
    out: &mut Vec<u8>,
) -> Result<bool, PrintFault>
    requires few { length r.now.places.now < 2 ^ 32 }
    requires laid_out { IsLaidOut r.now.places.now r.now.labels.now r.now.nexts.now }
    requires here { i < length r.now.places.now }
    requires short { paths.AreBelow (2 ^ 63) path.old.items }
    ensures trail { OnOk result (trail.new.items ≡ trail.old.items) }
    ensures path { OnOk result (path.new.items ≡ path.old.items) }
    ensures text { IfOk result (λ after. (rest : List FieldError)
        → out.new.items ++ paths.errors_left after rest
        ≡ out.old.items ++ paths.errors_left some (spec.answer_errors (laid.laid_of r.now)
        (drop (i + 1) r.now.places.now) i (spec.pos_at r.now.places.now i)
        (laid.row_shown (laid.laid_of r.now) (trail_of trail.old.items) step)
        (map paths.part_of path.old.items) ++ rest)) }
    ensures long { StopsFor (out.old.items
        ++ paths.errors_left some (spec.answer_errors (laid.laid_of r.now)
        (drop (i + 1) r.now.places.now) i (spec.pos_at r.now.places.now i)
        (laid.row_shown (laid.laid_of r.now) (trail_of trail.old.items) step)
        (map paths.part_of path.old.items))) result }
{
    let rows = rows_found(found_there(r, trail.as_slice(), step));
    let Some(tree) = first_tree(rows) else {
        return Ok(some);
    };
    fail_tree(r, i, step, tree, trail, path, some, out)
}

#[cycle(fail)]
fn fail_each<'a>(
    r: &Reader<'a>,
    i: usize,
    step: u32,
    trail: &mut Vec<Spot<'a>>,
    path: &mut Vec<Part<'a>>,
    some: bool,
    out: &mut Vec<u8>,
) -> Result<bool, PrintFault>
    requires few { length r.now.places.now < 2 ^ 32 }
    requires laid_out { IsLaidOut r.now.places.now r.now.labels.now r.now.nexts.now }
    requires here { i < length r.now.places.now }
    requires short { paths.AreBelow (2 ^ 63) path.old.items }
    ensures trail { OnOk result (trail.new.items ≡ trail.old.items) }
    ensures path { OnOk result (path.new.items ≡ path.old.items) }
    ensures text { IfOk result (λ after. (rest : List FieldError)
        → out.new.items ++ paths.errors_left after rest
        ≡ out.old.items ++ paths.errors_left some (spec.objects_errors (laid.laid_of r.now)
        (drop (i + 1) r.now.places.now) i 0
        (laid.rows_shown (laid.laid_of r.now) (trail_of trail.old.items) step)
        (map paths.part_of path.old.items) ++ rest)) }
    ensures long { StopsFor (out.old.items
        ++ paths.errors_left some (spec.objects_errors (laid.laid_of r.now)
        (drop (i + 1) r.now.places.now) i 0
        (laid.rows_shown (laid.laid_of r.now) (trail_of trail.old.items) step)
        (map paths.part_of path.old.items))) result }
{
    let rows = rows_found(found_there(r, trail.as_slice(), step));
    let mut written = some;
    for k in 0..rows.len() {
        match fail_item(r, i, step, k, &rows[k], trail, path, written, out) {
            Ok(after) => written = after,
            Err(fault) => return Err(fault),
        }
    }
    Ok(written)
}

/// Appends the errors of the object of the place at i, at the row at k.
#[cycle(fail)]
fn fail_item<'a>(
    r: &Reader<'a>,
    i: usize,
    step: u32,
    k: usize,
    tree: &'a RowTree,
    trail: &mut Vec<Spot<'a>>,
    path: &mut Vec<Part<'a>>,
    some: bool,
    out: &mut Vec<u8>,
) -> Result<bool, PrintFault>
    requires few { length r.now.places.now < 2 ^ 32 }
    requires laid_out { IsLaidOut r.now.places.now r.now.labels.now r.now.nexts.now }
    requires here { i < length r.now.places.now }
    requires short { paths.AreBelow (2 ^ 63) path.old.items }
    requires item { k < 2 ^ 63 }
    ensures trail { OnOk result (trail.new.items ≡ trail.old.items) }
    ensures path { OnOk result (path.new.items ≡ path.old.items) }
    ensures text { IfOk result (λ after. (rest : List FieldError)
        → out.new.items ++ paths.errors_left after rest
        ≡ out.old.items ++ paths.errors_left some (spec.object_errors (laid.laid_of r.now)
        (drop (i + 1) r.now.places.now) i (reading.onto step (trail_of trail.old.items) tree.now)
        (map paths.part_of path.old.items ++ index k ∷ []) ++ rest)) }
    ensures long { StopsFor (out.old.items
        ++ paths.errors_left some (spec.object_errors (laid.laid_of r.now)
        (drop (i + 1) r.now.places.now) i (reading.onto step (trail_of trail.old.items) tree.now)
        (map paths.part_of path.old.items ++ index k ∷ []))) result }
{
    push_part(path, Part::Index(k as u64))?;
    match fail_tree(r, i, step, tree, trail, path, some, out) {
        Ok(after) => {
            let _ = path.pop();
            Ok(after)
        }
        Err(fault) => Err(fault),
    }
}

/// Appends the errors of the object of the place at i, at a row further.
#[cycle(fail)]
fn fail_tree<'a>(
    r: &Reader<'a>,
    i: usize,
    step: u32,
    tree: &'a RowTree,
    trail: &mut Vec<Spot<'a>>,
    path: &mut Vec<Part<'a>>,
    some: bool,
    out: &mut Vec<u8>,
) -> Result<bool, PrintFault>
    requires few { length r.now.places.now < 2 ^ 32 }
    requires laid_out { IsLaidOut r.now.places.now r.now.labels.now r.now.nexts.now }
    requires here { i < length r.now.places.now }
    requires short { paths.AreBelow (2 ^ 63) path.old.items }
    ensures trail { OnOk result (trail.new.items ≡ trail.old.items) }
    ensures path { OnOk result (path.new.items ≡ path.old.items) }
    ensures text { IfOk result (λ after. (rest : List FieldError)
        → out.new.items ++ paths.errors_left after rest
        ≡ out.old.items ++ paths.errors_left some (spec.object_errors (laid.laid_of r.now)
        (drop (i + 1) r.now.places.now) i (reading.onto step (trail_of trail.old.items) tree.now)
        (map paths.part_of path.old.items) ++ rest)) }
    ensures long { StopsFor (out.old.items
        ++ paths.errors_left some (spec.object_errors (laid.laid_of r.now)
        (drop (i + 1) r.now.places.now) i (reading.onto step (trail_of trail.old.items) tree.now)
        (map paths.part_of path.old.items))) result }
{
    push_spot(trail, Spot { step, tree })?;
    match fail_object(r, i, trail, path, some, out) {
        Ok(after) => {
            let _ = trail.pop();
            Ok(after)
        }
        Err(fault) => Err(fault),
    }
}

#[cycle(fail)]
fn fail_object<'a>(
    r: &Reader<'a>,
    i: usize,
    trail: &mut Vec<Spot<'a>>,
    path: &mut Vec<Part<'a>>,
    some: bool,
    out: &mut Vec<u8>,
) -> Result<bool, PrintFault>
    requires few { length r.now.places.now < 2 ^ 32 }
    requires laid_out { IsLaidOut r.now.places.now r.now.labels.now r.now.nexts.now }
    requires here { i < length r.now.places.now }
    requires short { paths.AreBelow (2 ^ 63) path.old.items }
    ensures trail { OnOk result (trail.new.items ≡ trail.old.items) }
    ensures path { OnOk result (path.new.items ≡ path.old.items) }
    ensures text { IfOk result (λ after. (rest : List FieldError)
        → out.new.items ++ paths.errors_left after rest
        ≡ out.old.items ++ paths.errors_left some (spec.object_errors (laid.laid_of r.now)
        (drop (i + 1) r.now.places.now) i (trail_of trail.old.items)
        (map paths.part_of path.old.items) ++ rest)) }
    ensures long { StopsFor (out.old.items
        ++ paths.errors_left some (spec.object_errors (laid.laid_of r.now)
        (drop (i + 1) r.now.places.now) i (trail_of trail.old.items)
        (map paths.part_of path.old.items))) result }
{
    fail_members(r, i + 1, Some(i as u32), trail, path, some, out)
}

fn put_all(alloc: Global, r: &Reader<'_>, out: &mut Vec<u8>) -> Result<(), PrintFault>
    requires few { length r.now.places.now < 2 ^ 32 }
    requires laid_out { IsLaidOut r.now.places.now r.now.labels.now r.now.nexts.now }
    ensures text { OnOk result (out.new.items ≡ out.old.items ++ errors_text (member_errors
        (members_at (laid.laid_of r.now) r.now.places.now 0 None []) [])) }
    ensures long { StopsFor (out.old.items ++ errors_text (member_errors
        (members_at (laid.laid_of r.now) r.now.places.now 0 None []) [])) result }
{
    let mut trail = Vec::new(alloc);
    let mut path = Vec::new(alloc);
    match fail_members(r, 0, None, &mut trail, &mut path, false, out) {
        Ok(some) => {
            put_after(out, some)?;
            Ok(())
        }
        Err(fault) => Err(fault),
    }
}

/// Appends the member `errors` of the response and a comma, where a place fails.
pub(crate) fn put_failures(
    alloc: Global,
    r: &Reader<'_>,
    out: &mut Vec<u8>,
) -> Result<(), PrintFault>
    requires few { length r.now.places.now < 2 ^ 32 }
    requires laid_out { IsLaidOut r.now.places.now r.now.labels.now r.now.nexts.now }
    ensures text { OnOk result (out.new.items ≡ out.old.items ++ errors_text (member_errors
        (members_at (laid.laid_of r.now) r.now.places.now 0 None []) [])) }
    ensures long { StopsFor (out.old.items ++ errors_text (member_errors
        (members_at (laid.laid_of r.now) r.now.places.now 0 None []) [])) result }
{
    if has_failed(r.roles) {
        return put_all(alloc, r, out);
    }
    Ok(())
}
