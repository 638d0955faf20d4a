//! A plan, run.

ghost use Rattle.std.specs.Prelude.{◌≡◌, ◌+◌, ◌^◌, ◌<◌, ◌≤◌, [], IfOk, OnOk, Some, length};
ghost use Rattle.pg_base.specs.Catalog.{CatalogParts};
ghost use Rattle.rel_model.specs.declared.tables.Tables.{Tables};
ghost use Rattle.rel_model.specs.Tables.{AreValidTables};
ghost use Rattle.place_tree.specs.Spent.{Spends};
ghost use Rattle.stmt_tree.specs.Form.{Rose};
ghost use Rattle.plan_constraints.specs.Constraints.{Hold};
ghost use Rattle.plan_steps.specs.Fitting.{FitTree};
ghost use Rattle.plan_steps.specs.Sent.{sent_count};
ghost use Rattle.plan_steps.specs.Sound.{IsRootOf};
ghost use Rattle.plan_steps.specs.Under as under;
ghost use Rattle.batch_execute.specs.Counted.{counted};
ghost use Rattle.batch_execute.specs.Execution.{IsStoreFault, Answers, SendsAsked, GetsWithin, Finishes};
ghost use Rattle.batch_execute.specs.Ready.{IsReadyFor};
ghost use Rattle.batch_execute.specs.Roles as roles_spec;
ghost use Rattle.batch_execute.specs.Visited as visited;
ghost use Rattle.batch_execute.specs.Ways as ways_spec;

use crate::asking::root_place;
use crate::fault::ExecFault;
use crate::fetched::Fetched;
use crate::fetching::{Asked, fetch_all};
use crate::nexts::nexts_of;
use crate::role::Role;
use crate::roles::{roles_of, steps_of};
use crate::used::used_steps;
use crate::values::Values;
use crate::visiting::{Reader, visit_places};
use crate::ways::ways_of;
use pg_base::Vars;
use place_tree::CountFault;
use plan_steps::{Entry, Root};
use sqlite_items::Items;
use std::alloc::Global;
use stmt_tree::Rows;

/// Takes the rows that the places under a root show from what is left.
fn visit(
    alloc: Global,
    entry: &Entry,
    root: &Root,
    fetched: &[Fetched],
    roles: &[Role],
    left: &mut u64,
) -> Result<(), CountFault>
    requires few { length entry.now.tree.places < 2 ^ 32 }
    ensures { Spends left.old left.new
        (visited.visited_for entry.now fetched.now roles.now root.now) result }
{
    let plan = entry.plan();
    let places = entry.tree().places.as_slice();
    let ways = ways_of(alloc, plan.steps.as_slice())?;
    let steps = steps_of(alloc, plan.out.as_slice(), places)?;
    let nexts = nexts_of(alloc, places)?;
    let reader = Reader {
        places,
        ways: ways.as_slice(),
        fetched,
        roles,
        steps: steps.as_slice(),
        nexts: nexts.as_slice(),
    };
    let mut trail = Vec::new(alloc);
    visit_places(&reader, 0, root_place(root), &mut trail, left)
}

/// The values of what was found, where the places show no more rows than there is room for.
fn finish(
    alloc: Global,
    entry: &Entry,
    root: &Root,
    fetched: Items<Fetched>,
    roles: Items<Role>,
    room: u64,
) -> Result<Values, ExecFault>
    requires few { length entry.now.tree.places < 2 ^ 32 }
    ensures { Finishes room (visited.visited_for entry.now fetched roles root.now) fetched roles
        result }
{
    let mut left = room;
    match visit(
        alloc,
        entry,
        root,
        fetched.as_slice(),
        roles.as_slice(),
        &mut left,
    ) {
        Ok(()) => Ok(Values::of(fetched, roles, room - left)),
        Err(CountFault::TooMany) => Err(ExecFault::TooManyRows),
        Err(CountFault::Memory) => Err(ExecFault::Memory),
    }
}

/// Runs a plan for variables that meet its constraints, over what a store has at a moment: by one statement for each step
/// that is asked, and none else. It gives no values where execution visits more rows than there is room for.
pub fn execute<R: Rows>(
    alloc: Global,
    entry: &Entry,
    root: &Root,
    vars: &Vars,
    at: &R::At,
    rows: &mut R,
    room: u64,
) -> Result<Values, ExecFault>
    requires few { length entry.now.tree.places < 2 ^ 32 }
    requires root { IsRootOf entry.now.base entry.now.tree root.now }
    requires hold { Hold entry.now.constraints vars.now }
    requires fit { FitTree entry.now.base vars.now entry.now.tree }
    requires ready { IsReadyFor entry.now }
    requires served { R.serves rows.old at.now entry.now.base.catalog }
    ensures serves { (a : R.At) (c : CatalogParts)
        → R.serves rows.old a c → R.serves rows.new a c }
    ensures serves_no_more { (a : R.At) (c : CatalogParts)
        → R.serves rows.new a c → R.serves rows.old a c }
    ensures told { (a : R.At) → R.tables_of rows.new a ≡ R.tables_of rows.old a }
    ensures rises { R.sent rows.old ≤ R.sent rows.new }
    ensures most { R.sent rows.new ≤ R.sent rows.old
        + sent_count entry.now.tree entry.now.plan root.now }
    ensures sent { (tables : Tables) → R.tables_of rows.old at.now ≡ Some tables
        → AreValidTables entry.now.base.catalog tables
        → OnOk result (SendsAsked entry.now tables vars.now root.now
        (R.sent rows.old) (R.sent rows.new)) }
    ensures answers { (tables : Tables) → R.tables_of rows.old at.now ≡ Some tables
        → AreValidTables entry.now.base.catalog tables
        → Answers entry.now tables vars.now root.now room result }
    ensures roles { IfOk result (λ v. v.roles ≡
        roles_spec.roles_of entry.now.base vars.now entry.now.tree.places) }
    ensures got { (tables : Tables) → R.tables_of rows.old at.now ≡ Some tables
        → AreValidTables entry.now.base.catalog tables
        → GetsWithin entry.now tables vars.now root.now room (R.got rows.old) (R.got rows.new) }
    ensures faults { R.faults rows.old ≤ R.faults rows.new }
    ensures cause { IsStoreFault result → Rose (R.faults rows.old) (R.faults rows.new) }
{
    entry.know();
    let roles = roles_of(alloc, entry.base(), vars, entry.tree().places.as_slice())?;
    let used = used_steps(alloc, entry, root)?;
    let asked = Asked {
        entry,
        root,
        vars,
        roles: roles.as_slice(),
        used: used.as_slice(),
    };
    let mut left = room;
    match fetch_all(alloc, &asked, at, rows, &mut left) {
        Ok(fetched) => finish(alloc, entry, root, fetched, roles, room),
        Err(fault) => Err(fault),
    }
}
