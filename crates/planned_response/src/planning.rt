//! The plan of a tree, ready to be run.

ghost use Rattle.std.specs.Prelude.{◌≡◌, IfOk};
ghost use Rattle.std.specs.Arc.{arc_value};
ghost use Rattle.plan_steps.specs.Fetches.{IsTreeOver, IsPlain, IsMerged};
ghost use Rattle.step_plan.specs.Planned.{IsPlannable};
ghost use Rattle.planned_response.specs.Plans.{CountsMade, IsLeanFor, IsMadeFor};

use crate::fault::PlanFault;
use batch_execute::ReadyEntry;
use dedupe_steps::dedupe;
use inline_ready::laws::inlined_plans_are_ready;
use inline_select::inline;
use pg_base::{Base, Memory, Vars};
use place_tree::Tree;
use plan_steps::{Draft, Entry, Steps};
use std::alloc::{AllocError, Global};
use std::sync::Arc;
use std::sync::ledger::Ledger;
use step_plan::laws::plannable_trees_stand_over_bases;
use step_plan::make_steps;

/// A merged draft, with its fetches inlined.
fn inlined(alloc: Global, draft: Draft) -> Result<ReadyEntry, Memory>
    requires over_tree { IsTreeOver draft.base draft.tree }
    requires merged { IsMerged draft.base draft.tree draft.constraints draft.plan }
    ensures base { IfOk result (λ made. made.base ≡ draft.base) }
    ensures tree { IfOk result (λ made. made.tree ≡ draft.tree) }
    ensures constraints { IfOk result (λ made. made.constraints ≡ draft.constraints) }
    ensures lean { IfOk result IsLeanFor }
{
    draft.know();
    inlined_plans_are_ready();
    let draft = inline(alloc, draft)?;
    Ok(ReadyEntry::of(Entry::of(draft)))
}

/// A plain draft, with its equal fetches merged, and then inlined.
fn finished(alloc: Global, draft: Draft) -> Result<ReadyEntry, Memory>
    requires over_tree { IsTreeOver draft.base draft.tree }
    requires plain { IsPlain draft.base draft.tree draft.constraints draft.plan }
    ensures base { IfOk result (λ made. made.base ≡ draft.base) }
    ensures tree { IfOk result (λ made. made.tree ≡ draft.tree) }
    ensures constraints { IfOk result (λ made. made.constraints ≡ draft.constraints) }
    ensures lean { IfOk result IsLeanFor }
{
    let draft = dedupe(alloc, draft)?;
    inlined(alloc, draft)
}

/// The plan of a tree, made with these variables, ready to be run, and counted. It serves all variables that meet its
/// constraints, which are what is noted of these, and it sends no more statements than the tree needs.
///
/// # Errors
/// Out of memory, before the plan was counted or after that.
pub fn plan_of<L: Ledger>(
    alloc: Global,
    base: &Arc<Base>,
    tree: Tree,
    vars: &Vars,
    plans: &mut Steps<L>,
) -> Result<ReadyEntry, PlanFault>
    requires { IsPlannable (arc_value base.now) tree vars.now }
    ensures made { IfOk result (IsMadeFor (arc_value base.now) tree vars.now) }
    ensures counted { CountsMade plans.old plans.new result }
{
    base.know();
    base.catalog().know();
    plannable_trees_stand_over_bases();
    match make_steps(alloc, base, tree, vars, plans) {
        Ok(draft) => match finished(alloc, draft) {
            Ok(entry) => Ok(entry),
            Err(AllocError) => Err(PlanFault::Counted),
        },
        Err(AllocError) => Err(PlanFault::Uncounted),
    }
}
