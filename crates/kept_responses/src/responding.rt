//! The response to a query by a kept plan.

ghost use Rattle.std.specs.Prelude.{◌≡◌, ◌≤◌, ◌+◌, ℕ, List, None, length};
ghost use Rattle.std.specs.Arc.{arc_value};
ghost use Rattle.pg_base.specs.Catalog.{CatalogParts};
ghost use Rattle.pg_base.specs.Limits.{most_places};
ghost use Rattle.place_tree.specs.declared.place.Tree.{Tree};
ghost use Rattle.plan_cache.specs.Shelf.{Shows, Look};
ghost use Rattle.plan_constraints.specs.Constraints.{Hold};
ghost use Rattle.plan_steps.specs.declared.plan.Root.TheVariants as root;
ghost use Rattle.plan_steps.specs.Fitting.{FitTree};
ghost use Rattle.plan_steps.specs.Sound.{IsRootOf};
ghost use Rattle.step_plan.specs.Planned.{IsPlannable};
ghost use Rattle.planned_response.specs.Plans.{IsMadeFor};
ghost use Rattle.kept_responses.specs.Counts.{counts};
ghost use Rattle.kept_responses.specs.Kept.{KeptParts, kept_parts, key_for, AsksFor, Fits};
ghost use Rattle.kept_responses.specs.Served.{asked_of, ServesOn};

use crate::keeping::keep;
use crate::kept_plan::KeptPlan;
use crate::response::KeptResponse;
use crate::running::run_kept;
use crate::wanted::Wanted;
use batch_execute::ReadyEntry;
use pg_base::Base;
use place_tree::Tree;
use plan_cache::Shelf;
use plan_constraints::laws::noted_hold_at_home;
use plan_steps::Steps;
use planned_response::{PlanFault, RespondFault, plan_of};
use std::alloc::{AllocError, Global};
use std::sync::Arc;
use std::sync::ledger::Ledger;
use step_plan::laws::noted_keep_trees;
use stmt_tree::Rows;

/// Enters a plan that was made, and runs it.
fn respond_new<R: Rows>(
    alloc: Global,
    shelf: &mut Shelf<KeptPlan>,
    wanted: &Wanted<'_>,
    ready: ReadyEntry,
    at: &R::At,
    rows: &mut R,
) -> KeptResponse
    requires base { ready.base ≡ shelf.old.base }
    requires fits { Fits (kept_parts (asked_of wanted.now).text (asked_of wanted.now).operation
        ready) }
    requires hold { Hold ready.constraints (asked_of wanted.now).vars }
    requires fit { FitTree ready.base (asked_of wanted.now).vars ready.tree }
    requires served { R.serves rows.old at.now ready.base.catalog }
    ensures serves { (a : R.At) (c : CatalogParts)
        → R.serves rows.old a c → R.serves rows.new a c }
    ensures serves_no_more { (a : R.At) (c : CatalogParts)
        → R.serves rows.new a c → R.serves rows.old a c }
    ensures told { (a : R.At) → R.tables_of rows.new a ≡ R.tables_of rows.old a }
    ensures base { shelf.new.base ≡ shelf.old.base }
    // Where nothing was found and this plan was made.
    ensures served { (history : List KeptParts) (tree : Tree) (n : ℕ) → Shows shelf.old history
        → Look key_for (asked_of wanted.now) history None
        → IsMadeFor shelf.old.base tree (asked_of wanted.now).vars ready
        → ServesOn shelf.old shelf.new (R.tables_of rows.old at.now) (asked_of wanted.now) tree
        history (counts (R.sent rows.old) (R.got rows.old) (R.faults rows.old) n)
        (counts (R.sent rows.new) (R.got rows.new) (R.faults rows.new) (n + 1)) result }
{
    match keep(alloc, shelf, wanted, ready) {
        Ok(kept) => {
            let answer = run_kept(alloc, &kept, wanted.vars, at, rows);
            KeptResponse {
                answer,
                planned: true,
            }
        }
        Err(AllocError) => KeptResponse {
            answer: Err(RespondFault::Memory),
            planned: true,
        },
    }
}

/// Makes a plan, enters it, and runs it.
fn respond_anew<R: Rows, L: Ledger>(
    alloc: Global,
    base: &Arc<Base>,
    shelf: &mut Shelf<KeptPlan>,
    wanted: &Wanted<'_>,
    tree: Tree,
    at: &R::At,
    rows: &mut R,
    plans: &mut Steps<L>,
) -> KeptResponse
    requires shelved { shelf.old.base ≡ arc_value base.now }
    requires asks { AsksFor (arc_value base.now) (asked_of wanted.now) tree }
    requires plannable { IsPlannable (arc_value base.now) tree (asked_of wanted.now).vars }
    requires root { IsRootOf (arc_value base.now) tree root.Query }
    requires few { length tree.places ≤ most_places }
    requires served { R.serves rows.old at.now (arc_value base.now).catalog }
    ensures serves { (a : R.At) (c : CatalogParts)
        → R.serves rows.old a c → R.serves rows.new a c }
    ensures serves_no_more { (a : R.At) (c : CatalogParts)
        → R.serves rows.new a c → R.serves rows.old a c }
    ensures told { (a : R.At) → R.tables_of rows.new a ≡ R.tables_of rows.old a }
    ensures base { shelf.new.base ≡ shelf.old.base }
    // Where nothing was found.
    ensures served { (history : List KeptParts) → Shows shelf.old history
        → Look key_for (asked_of wanted.now) history None
        → ServesOn shelf.old shelf.new (R.tables_of rows.old at.now) (asked_of wanted.now) tree
        history
        (counts (R.sent rows.old) (R.got rows.old) (R.faults rows.old) plans.old)
        (counts (R.sent rows.new) (R.got rows.new) (R.faults rows.new) plans.new) result }
{
    noted_keep_trees();
    noted_hold_at_home();
    match plan_of(alloc, base, tree, wanted.vars, plans) {
        Ok(ready) => respond_new(alloc, shelf, wanted, ready, at, rows),
        Err(PlanFault::Uncounted) => KeptResponse {
            answer: Err(RespondFault::Memory),
            planned: false,
        },
        Err(PlanFault::Counted) => KeptResponse {
            answer: Err(RespondFault::Memory),
            planned: true,
        },
    }
}

/// The response to a query, from the tree of its places, by a kept plan: the oldest on the shelf that serves it, or where
/// there is none, one that is made, and entered before it is run. It is the text of the query's execution over what a
/// store has at a moment, or says why there is none: `TooLarge` where more than 200,000 rows are visited or the text has
/// more than 64 MiB, `Store` where the store failed, or out of memory.
pub fn respond_kept<R: Rows, L: Ledger>(
    alloc: Global,
    base: &Arc<Base>,
    shelf: &mut Shelf<KeptPlan>,
    wanted: &Wanted<'_>,
    tree: Tree,
    at: &R::At,
    rows: &mut R,
    plans: &mut Steps<L>,
) -> KeptResponse
    requires shelved { shelf.old.base ≡ arc_value base.now }
    requires asks { AsksFor (arc_value base.now) (asked_of wanted.now) tree }
    requires plannable { IsPlannable (arc_value base.now) tree (asked_of wanted.now).vars }
    requires root { IsRootOf (arc_value base.now) tree root.Query }
    requires few { length tree.places ≤ most_places }
    requires served { R.serves rows.old at.now (arc_value base.now).catalog }
    ensures serves { (a : R.At) (c : CatalogParts)
        → R.serves rows.old a c → R.serves rows.new a c }
    ensures serves_no_more { (a : R.At) (c : CatalogParts)
        → R.serves rows.new a c → R.serves rows.old a c }
    ensures told { (a : R.At) → R.tables_of rows.new a ≡ R.tables_of rows.old a }
    ensures base { shelf.new.base ≡ shelf.old.base }

    // Whatever was ever entered, of which the shelf has the last: the plan is found, or made and
    // entered, and then run.
    ensures served { (history : List KeptParts) → Shows shelf.old history
        → ServesOn shelf.old shelf.new (R.tables_of rows.old at.now) (asked_of wanted.now) tree
        history
        (counts (R.sent rows.old) (R.got rows.old) (R.faults rows.old) plans.old)
        (counts (R.sent rows.new) (R.got rows.new) (R.faults rows.new) plans.new) result }
{
    match shelf.look(wanted.text, wanted.operation, wanted.vars) {
        Ok(Some(kept)) => {
            kept.know();
            let answer = run_kept(alloc, &kept, wanted.vars, at, rows);
            KeptResponse {
                answer,
                planned: false,
            }
        }
        Ok(None) => respond_anew(alloc, base, shelf, wanted, tree, at, rows, plans),
        Err(AllocError) => KeptResponse {
            answer: Err(RespondFault::Memory),
            planned: false,
        },
    }
}
