//! The response to a query.

ghost use Rattle.std.specs.Prelude.{◌≡◌, ◌+◌, ◌≤◌, length};
ghost use Rattle.std.specs.Arc.{arc_value};
ghost use Rattle.pg_base.specs.Catalog.{CatalogParts};
ghost use Rattle.pg_base.specs.Limits.{most_places};
ghost use Rattle.place_tree.specs.Needs.{needed_statements};
ghost use Rattle.rel_model.specs.declared.tables.Tables.{Tables};
ghost use Rattle.stmt_tree.specs.Form.{Rose};
ghost use Rattle.plan_steps.specs.declared.plan.Root.TheVariants as root;
ghost use Rattle.plan_steps.specs.Sound.{IsRootOf};
ghost use Rattle.step_plan.specs.Planned.{IsPlannable};
ghost use Rattle.planned_response.specs.Responses.{AreTold, CountsPlan, GetsFew, IsStoreFault, RespondsOver};

use crate::fault::{PlanFault, RespondFault};
use crate::planning::plan_of;
use crate::running::respond_with;
use pg_base::{Base, Blob, Vars};
use place_tree::Tree;
use plan_constraints::laws::noted_hold_at_home;
use plan_steps::Steps;
use std::alloc::Global;
use std::sync::Arc;
use std::sync::ledger::Ledger;
use stmt_tree::Rows;

/// The response to a query, from the tree of its places: the text of its execution over what a store has at a moment.
///
/// # Errors
/// `TooLarge` where more than 200,000 rows are visited or the text has more than 64 MiB, `Store` where the store failed, or
/// out of memory.
pub fn respond<R: Rows, L: Ledger>(
    alloc: Global,
    base: &Arc<Base>,
    tree: Tree,
    vars: &Vars,
    at: &R::At,
    rows: &mut R,
    plans: &mut Steps<L>,
) -> Result<Blob, RespondFault>
    requires plannable { IsPlannable (arc_value base.now) tree vars.now }
    requires root { IsRootOf (arc_value base.now) tree root.Query }
    requires few { length tree.places ≤ most_places }
    requires served { R.serves rows.old at.now (arc_value base.now).catalog }
    ensures serves { (a : R.At) (c : CatalogParts)
        → R.serves rows.old a c → R.serves rows.new a c }
    ensures serves_no_more { (a : R.At) (c : CatalogParts)
        → R.serves rows.new a c → R.serves rows.old a c }
    ensures told { (a : R.At) → R.tables_of rows.new a ≡ R.tables_of rows.old a }

    // No more statements than are needed, over any store.
    ensures rises { R.sent rows.old ≤ R.sent rows.new }
    ensures sent { R.sent rows.new ≤ R.sent rows.old
        + needed_statements (arc_value base.now) vars.now tree }

    // Over told tables the text of execution, or that this is too large.
    ensures response { (tables : Tables)
        → AreTold (arc_value base.now).catalog (R.tables_of rows.old at.now) tables
        → RespondsOver (arc_value base.now) tables vars.now tree result }
    ensures got { (tables : Tables)
        → AreTold (arc_value base.now).catalog (R.tables_of rows.old at.now) tables
        → GetsFew (arc_value base.now) tables vars.now tree (R.got rows.old) (R.got rows.new) }
    ensures faults { R.faults rows.old ≤ R.faults rows.new }
    ensures cause { IsStoreFault result → Rose (R.faults rows.old) (R.faults rows.new) }
    ensures planned { CountsPlan plans.old plans.new result }
{
    noted_hold_at_home();
    match plan_of(alloc, base, tree, vars, plans) {
        Ok(entry) => respond_with(alloc, &entry, vars, at, rows),
        Err(PlanFault::Uncounted) => Err(RespondFault::Memory),
        Err(PlanFault::Counted) => Err(RespondFault::Memory),
    }
}
