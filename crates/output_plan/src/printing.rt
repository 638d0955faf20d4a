//! The response that the values of a query show.

ghost use Rattle.std.specs.Prelude.{◌≡◌, ◌++◌, ◌<◌, ◌≤◌, ◌^◌, ℕ, [], None, OnOk, length, map};
ghost use Rattle.pg_base.specs.Limits.{most_response_bytes};
ghost use Rattle.rel_model.specs.declared.tables.Tables.{Tables};
ghost use Rattle.place_tree.specs.Exec.{executed};
ghost use Rattle.place_tree.specs.Response.{response_text};
ghost use Rattle.plan_steps.specs.declared.plan.Root.TheVariants as root;
ghost use Rattle.batch_execute.specs.Execution.{AreValues};
ghost use Rattle.batch_execute.specs.Reading.{type_of};
ghost use Rattle.batch_execute.specs.Roles.{roles_of};
ghost use Rattle.batch_execute.specs.Roles as roles_spec;
ghost use Rattle.batch_execute.specs.Ways as ways_spec;
ghost use Rattle.output_plan.specs.Laid.{laid_of};
ghost use Rattle.output_plan.specs.Layout.{IsLaidOut, names_of};
ghost use Rattle.output_plan.specs.Leaves.{StopsFor};
ghost use Rattle.output_plan.specs.Printed.{members_at};
ghost use Rattle.output_plan.specs.Responses as spec;

use crate::failures::put_failures;
use crate::fault::PrintFault;
use crate::layout::{all_names, labels_of, types_of};
use crate::reader::Reader;
use crate::walking::{put_byte, put_members};
use batch_execute::{Values, Way, nexts_of, steps_of, ways_of};
use pg_base::limits::MOST_RESPONSE_BYTES;
use pg_base::{Blob, Text, TypeRef, Vars};
use plan_steps::Entry;
use sqlite_items::Items;
use std::alloc::Global;

fn put_front(alloc: Global, r: &Reader<'_>, out: &mut Vec<u8>) -> Result<(), PrintFault>
    requires few { length r.now.places.now < 2 ^ 32 }
    requires laid_out { IsLaidOut r.now.places.now r.now.labels.now r.now.nexts.now }
    ensures text { OnOk result (out.new.items ≡ out.old.items
        ++ spec.front_text (members_at (laid_of r.now) r.now.places.now 0 None [])) }
    ensures long { StopsFor (out.old.items
        ++ spec.front_text (members_at (laid_of r.now) r.now.places.now 0 None [])) result }
{
    put_byte(out, b'{')?;
    match put_failures(alloc, r, out) {
        Ok(()) => {}
        Err(fault) => return Err(fault),
    }
    out.extend_from_slice(b"\"data\":{")?;
    Ok(())
}

/// Appends a response.
fn put_response(alloc: Global, r: &Reader<'_>, out: &mut Vec<u8>) -> Result<(), PrintFault>
    requires few { length r.now.places.now < 2 ^ 32 }
    requires laid_out { IsLaidOut r.now.places.now r.now.labels.now r.now.nexts.now }
    ensures text { OnOk result (out.new.items ≡ out.old.items
        ++ spec.whole_text (members_at (laid_of r.now) r.now.places.now 0 None [])) }
    ensures long { StopsFor (out.old.items
        ++ spec.whole_text (members_at (laid_of r.now) r.now.places.now 0 None [])) result }
{
    match put_front(alloc, r, out) {
        Ok(()) => {}
        Err(fault) => return Err(fault),
    }
    let mut trail = Vec::new(alloc);
    match put_members(alloc, r, 0, None, &mut trail, out) {
        Ok(()) => {}
        Err(fault) => return Err(fault),
    }
    out.extend_from_slice(b"}}")?;
    Ok(())
}

/// The response that is read.
#[tactic(auto, unfolding(place_tree::specs::Response::response_text))]
fn response_of(alloc: Global, r: &Reader<'_>) -> Result<Blob, PrintFault>
    requires few { length r.now.places.now < 2 ^ 32 }
    requires laid_out { IsLaidOut r.now.places.now r.now.labels.now r.now.nexts.now }
    ensures { spec.Responds (members_at (laid_of r.now) r.now.places.now 0 None []) result }
{
    let mut out = Vec::new(alloc);
    match put_response(alloc, r, &mut out) {
        Ok(()) => {}
        Err(fault) => return Err(fault),
    }
    if out.len() > MOST_RESPONSE_BYTES {
        return Err(PrintFault::TooLong);
    }
    Ok(Blob::of(out))
}

/// The response, where it is laid out of the plan what is read.
fn print_laid_out(
    alloc: Global,
    entry: &Entry,
    vars: &Vars,
    values: &Values,
    ways: &[Way],
    names: &[Items<Text>],
    shows: &[Option<u32>],
    types: &[TypeRef],
    labels: &[Blob],
    nexts: &[usize],
) -> Result<Blob, PrintFault>
    requires few { length entry.now.tree.places < 2 ^ 32 }
    requires roles { values.now.roles ≡ roles_of entry.now.base vars.now entry.now.tree.places }
    requires ways { ways.now ≡ ways_spec.ways_of entry.now.plan.steps }
    requires names { names.now ≡ map (names_of entry.now.base) entry.now.plan.steps }
    requires shows { shows.now ≡ roles_spec.steps_of entry.now.plan.out entry.now.tree.places }
    requires types { types.now ≡ map (type_of entry.now.base.schema) entry.now.tree.places }
    requires laid_out { IsLaidOut entry.now.tree.places labels.now nexts.now }
    ensures { spec.Responds (spec.data_of entry.now vars.now values.now) result }
{
    let reader = Reader {
        base: entry.base(),
        vars,
        steps: entry.plan().steps.as_slice(),
        ways,
        names,
        fetched: values.fetched(),
        places: entry.tree().places.as_slice(),
        roles: values.roles(),
        shows,
        types,
        labels,
        nexts,
    };
    response_of(alloc, &reader)
}

/// The text of the response whose data the values of a query show.
///
/// # Errors
/// `TooLong` where it has more than 64 MiB, or out of memory.
pub fn print_query(
    alloc: Global,
    entry: &Entry,
    vars: &Vars,
    values: &Values,
) -> Result<Blob, PrintFault>
    requires few { length entry.now.tree.places < 2 ^ 32 }
    requires roles { values.now.roles ≡ roles_of entry.now.base vars.now entry.now.tree.places }
    ensures response { spec.Responds (spec.data_of entry.now vars.now values.now) result }
    ensures executed { (tables : Tables) (room : ℕ)
        → AreValues entry.now tables vars.now root.Query room values.now
        → spec.Responds (executed entry.now.base tables vars.now entry.now.tree) result }
{
    let plan = entry.plan();
    let places = entry.tree().places.as_slice();
    let steps = plan.steps.as_slice();
    let ways = ways_of(alloc, steps)?;
    let names = all_names(alloc, entry.base(), steps)?;
    let shows = steps_of(alloc, plan.out.as_slice(), places)?;
    let types = types_of(alloc, entry.base().schema(), places)?;
    let labels = labels_of(alloc, places)?;
    let nexts = nexts_of(alloc, places)?;
    print_laid_out(
        alloc,
        entry,
        vars,
        values,
        ways.as_slice(),
        names.as_slice(),
        shows.as_slice(),
        types.as_slice(),
        labels.as_slice(),
        nexts.as_slice(),
    )
}
