//! A plan that is ready, run and printed.

ghost use Rattle.std.specs.Prelude.{◌≡◌, ◌+◌, ◌<◌, ◌≤◌, ◌^◌, OnOk, length};
ghost use Rattle.pg_base.specs.Catalog.{CatalogParts};
ghost use Rattle.pg_base.specs.Limits.{most_visited_rows};
ghost use Rattle.rel_model.specs.declared.tables.Tables.{Tables};
ghost use Rattle.stmt_tree.specs.Form.{Rose};
ghost use Rattle.plan_constraints.specs.Constraints.{Hold};
ghost use Rattle.plan_steps.specs.declared.plan.Root.TheVariants as root;
ghost use Rattle.plan_steps.specs.Fitting.{FitTree};
ghost use Rattle.plan_steps.specs.Sent.{sent_count};
ghost use Rattle.plan_steps.specs.Sound.{IsRootOf};
ghost use Rattle.batch_execute.specs.Execution.{AreValues, SendsAsked};
ghost use Rattle.batch_execute.specs.Roles.{roles_of};
ghost use Rattle.planned_response.specs.Responses.{AreTold, GetsFew, IsStoreFault, RespondsOver};

use crate::fault::RespondFault;
use batch_execute::{ExecFault, ReadyEntry, Values, execute};
use output_plan::{PrintFault, print_query};
use pg_base::limits::MOST_VISITED_ROWS;
use pg_base::{Blob, Vars};
use plan_steps::{Entry, Root};
use std::alloc::Global;
use stmt_tree::Rows;

/// The text of the response whose data the values of a query show.
fn printed(alloc: Global, entry: &Entry, vars: &Vars, values: &Values) -> Result<Blob, RespondFault>
    requires few { length entry.now.tree.places < 2 ^ 32 }
    requires roles { values.now.roles ≡ roles_of entry.now.base vars.now entry.now.tree.places }
    ensures response { (tables : Tables)
        → AreValues entry.now tables vars.now root.Query most_visited_rows values.now
        → RespondsOver entry.now.base tables vars.now entry.now.tree result }
    ensures cause { IsStoreFault result → ⊥ }
{
    match print_query(alloc, entry, vars, values) {
        Ok(text) => Ok(text),
        Err(PrintFault::TooLong) => Err(RespondFault::TooLarge),
        Err(PrintFault::Memory) => Err(RespondFault::Memory),
    }
}

/// The response to a query by a plan that is ready, for variables that meet the plan's constraints, over what a store has
/// at a moment.
///
/// # Errors
/// `TooLarge` where more than 200,000 rows are visited or the text has more than 64 MiB, `Store` where the store failed, or
/// out of memory.
pub fn respond_with<R: Rows>(
    alloc: Global,
    ready: &ReadyEntry,
    vars: &Vars,
    at: &R::At,
    rows: &mut R,
) -> Result<Blob, RespondFault>
    requires few { length ready.now.tree.places < 2 ^ 32 }
    requires root { IsRootOf ready.now.base ready.now.tree root.Query }
    requires hold { Hold ready.now.constraints vars.now }
    requires fit { FitTree ready.now.base vars.now ready.now.tree }
    requires served { R.serves rows.old at.now ready.now.base.catalog }
    ensures serves { (a : R.At) (c : CatalogParts)
        → R.serves rows.old a c → R.serves rows.new a c }
    ensures serves_no_more { (a : R.At) (c : CatalogParts)
        → R.serves rows.new a c → R.serves rows.old a c }
    ensures told { (a : R.At) → R.tables_of rows.new a ≡ R.tables_of rows.old a }
    ensures rises { R.sent rows.old ≤ R.sent rows.new }
    ensures sent { R.sent rows.new ≤ R.sent rows.old
        + sent_count ready.now.tree ready.now.plan root.Query }
    // Over told tables a text has taken exactly one statement for each asked step.
    ensures asked { (tables : Tables)
        → AreTold ready.now.base.catalog (R.tables_of rows.old at.now) tables
        → OnOk result (SendsAsked ready.now tables vars.now root.Query
        (R.sent rows.old) (R.sent rows.new)) }
    ensures response { (tables : Tables)
        → AreTold ready.now.base.catalog (R.tables_of rows.old at.now) tables
        → RespondsOver ready.now.base tables vars.now ready.now.tree result }
    ensures got { (tables : Tables)
        → AreTold ready.now.base.catalog (R.tables_of rows.old at.now) tables
        → GetsFew ready.now.base tables vars.now ready.now.tree
        (R.got rows.old) (R.got rows.new) }
    ensures faults { R.faults rows.old ≤ R.faults rows.new }
    ensures cause { IsStoreFault result → Rose (R.faults rows.old) (R.faults rows.new) }
{
    ready.know();
    let entry = ready.entry();
    let room = MOST_VISITED_ROWS as u64;
    match execute(alloc, entry, &Root::Query, vars, at, rows, room) {
        Ok(values) => printed(alloc, entry, vars, &values),
        Err(ExecFault::Store) => Err(RespondFault::Store),
        Err(ExecFault::TooManyRows) => Err(RespondFault::TooLarge),
        Err(ExecFault::Memory) => Err(RespondFault::Memory),
    }
}
