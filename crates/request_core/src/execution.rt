//! The response to a query that isn't refused.

ghost use Rattle.std.specs.Prelude.{◌≡◌, ◌+◌, ◌≤◌, IfOk};
ghost use Rattle.std.specs.Arc.{arc_value};
ghost use Rattle.pg_base.specs.Catalog.{CatalogParts};
ghost use Rattle.pg_base.specs.Limits.{most_places};
ghost use Rattle.rel_model.specs.declared.tables.Tables.{Tables};
ghost use Rattle.planned_response.specs.Responses.{AreTold};
ghost use Rattle.request_core.specs.Spent as spent;

use crate::refusals::{storage_fault, too_large};
use pg_base::{Base, Blob, Memory, Vars};
use place_tree::Tree;
use plan_steps::Steps;
use planned_response::{RespondFault, respond};
use std::alloc::{AllocError, Global};
use std::sync::Arc;
use std::sync::ledger::Ledger;
use stmt_tree::Rows;

/// The response to what a tree of places asks for: the text of its execution, or that this is too large, or that the store
/// failed.
pub(crate) fn tree_answer<R: Rows, L: Ledger>(
    alloc: Global,
    base: &Arc<Base>,
    tree: Tree,
    vars: &Vars,
    at: &R::At,
    rows: &mut R,
    plans: &mut Steps<L>,
) -> Result<Blob, Memory>
    requires may { spent.MayRespond (arc_value base.now) tree vars.now }
    requires served { R.serves rows.old at.now (arc_value base.now).catalog }
    ensures serves { (a : R.At) (c : CatalogParts)
        → R.serves rows.old a c → R.serves rows.new a c }
    ensures serves_no_more { (a : R.At) (c : CatalogParts)
        → R.serves rows.new a c → R.serves rows.old a c }
    ensures told { (a : R.At) → R.tables_of rows.new a ≡ R.tables_of rows.old a }
    ensures run { IfOk result (spent.IsRun (arc_value base.now) (R.tables_of rows.old at.now)
        vars.now tree
        (spent.counts (R.sent rows.old) (R.got rows.old) (R.faults rows.old) plans.old)
        (spent.counts (R.sent rows.new) (R.got rows.new) (R.faults rows.new) plans.new)) }
    ensures rises { R.sent rows.old ≤ R.sent rows.new }
    ensures sent { R.sent rows.new ≤ R.sent rows.old + most_places }
    ensures got { (tables : Tables)
        → AreTold (arc_value base.now).catalog (R.tables_of rows.old at.now) tables
        → spent.GetsAtMost (R.got rows.old) (R.got rows.new) }
    ensures faults { R.faults rows.old ≤ R.faults rows.new }
    ensures planned { spent.PlansAtMostOne plans.old plans.new }
{
    match respond(alloc, base, tree, vars, at, rows, plans) {
        Ok(text) => Ok(text),
        Err(RespondFault::Store) => storage_fault(alloc),
        Err(RespondFault::TooLarge) => too_large(alloc),
        Err(RespondFault::Memory) => Err(AllocError),
    }
}
