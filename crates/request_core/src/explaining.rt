//! The plan that serves a request, explained.

ghost use Rattle.std.specs.Prelude.{◌≡◌, List, IfOk, IfSome, option_map};
ghost use Rattle.std.specs.Arc.{arc_value};
ghost use Rattle.pg_base.specs.declared.vars.Vars.{Vars as VarsParts};
ghost use Rattle.place_tree.specs.declared.place.Tree.{Tree as TreeParts};
ghost use Rattle.place_tree.specs.Needs.{needed_statements};
ghost use Rattle.step_plan.specs.Planned.{IsPlannable};
ghost use Rattle.plan_cache.specs.Shelf.{Shows, Look};
ghost use Rattle.kept_responses.specs.Kept.{KeptParts, key_for, Fits};
ghost use Rattle.explain_text.specs.Explained.{explained as explained_text};
ghost use Rattle.plan_steps.specs.View.{IsSoundFor};
ghost use Rattle.request_core.specs.Asked.{asked_parts, wanted_with};
ghost use Rattle.request_core.specs.Explained as spec;
ghost use Rattle.request_core.specs.declared.explaining.Explanation.TheVariants as explanation;
ghost use Rattle.request_core.specs.Prepared.{MayBeServed};
ghost use Rattle.request_core.specs.Spent.{PlansAtMostOne};

use crate::asked::Asked;
use crate::house::OwnHouse;
use crate::preparing::{Prepared, prepare_asked};
use crate::responding::wanted_of;
use batch_execute::ReadyEntry;
use explain_text::explain;
use kept_responses::KeptPlan;
use needed_count::needed;
use pg_base::{Blob, Memory, Vars};
use place_tree::Tree;
use plan_steps::Steps;
use planned_response::{PlanFault, plan_of};
use std::alloc::{AllocError, Global};
use std::sync::Arc;
use std::sync::ledger::Ledger;

/// What is explained of a request.
#[derive(Drop)]
pub enum Explanation {
    /// It is refused before a plan is looked for, with this response.
    Refused(Blob),
    /// The text of the plan that serves it.
    Plan(Blob),
}

/// The text of a plan that is ready.
fn ready_text(alloc: Global, needs: u64, ready: &ReadyEntry) -> Result<Explanation, Memory>
    ensures sound { IsSoundFor ready.now }
    ensures text { IfOk result (λ x. x ≡ explanation.Plan
        (explained_text needs ready.now.base ready.now.constraints ready.now.plan)) }
{
    let entry = ready.entry();
    entry.know();
    let text = explain(alloc, needs, entry)?;
    Ok(Explanation::Plan(text))
}

/// The number of statements that the tree needs.
fn needs_of(alloc: Global, house: &OwnHouse, vars: &Vars, tree: &Tree) -> Result<u64, Memory>
    ensures { IfOk result (λ needs. needs
        ≡ needed_statements house.now.base vars.now tree.now) }
{
    needed(alloc, house.base(), vars, tree)
}

/// The oldest plan that is kept and serves what is asked.
fn find_plan(house: &OwnHouse, asked: &Asked, vars: &Vars) -> Result<Option<Arc<KeptPlan>>, Memory>
    ensures look { (history : List KeptParts) → Shows house.now.shelf history
        → IfOk result (λ found. Look key_for (wanted_with (asked_parts asked.now) vars.now)
        history (option_map arc_value found)) }
    ensures base { IfOk result (λ found. IfSome found
        (λ kept. (arc_value kept).planned.base ≡ house.now.base)) }
{
    house.know();
    let wanted = wanted_of(asked, vars);
    house
        .shelf()
        .look(wanted.text, wanted.operation, wanted.vars)
}

/// The text of a plan that is kept.
fn kept_text(
    alloc: Global,
    house: &OwnHouse,
    needs: u64,
    kept: &Arc<KeptPlan>,
) -> Result<Explanation, Memory>
    requires { (arc_value kept.now).planned.base ≡ house.now.base }
    ensures fits { Fits (arc_value kept.now) }
    ensures text { (vars : VarsParts) (tree : TreeParts)
        → needs ≡ needed_statements house.now.base vars tree
        → IfOk result (spec.IsTextOf house.now.base vars tree (arc_value kept.now).planned) }
{
    let _ = house;
    kept.know();
    ready_text(alloc, needs, kept.ready())
}

/// The text of a plan that is made.
fn new_text<L: Ledger>(
    alloc: Global,
    house: &OwnHouse,
    needs: u64,
    tree: Tree,
    vars: &Vars,
    plans: &mut Steps<L>,
) -> Result<Explanation, Memory>
    requires plannable { IsPlannable house.now.base tree vars.now }
    requires needs { needs ≡ needed_statements house.now.base vars.now tree }
    ensures text { IfOk result (spec.IsTextOfNew house.now.base vars.now tree) }
    ensures planned { PlansAtMostOne plans.old plans.new }
{
    match plan_of(alloc, house.shared_base(), tree, vars, plans) {
        Ok(ready) => ready_text(alloc, needs, &ready),
        Err(PlanFault::Uncounted) => Err(AllocError),
        Err(PlanFault::Counted) => Err(AllocError),
    }
}

/// The text of the plan that serves the tree: one that is kept, or one that is made.
fn tree_text<L: Ledger>(
    alloc: Global,
    house: &OwnHouse,
    asked: &Asked,
    tree: Tree,
    vars: &Vars,
    plans: &mut Steps<L>,
) -> Result<Explanation, Memory>
    requires may { MayBeServed house.now.base (asked_parts asked.now) tree vars.now }
    ensures text { (history : List KeptParts) → Shows house.now.shelf history
        → IfOk result (spec.ExplainsTree house.now.base
        (wanted_with (asked_parts asked.now) vars.now) tree history) }
    ensures planned { PlansAtMostOne plans.old plans.new }
{
    let needs = needs_of(alloc, house, vars, &tree)?;
    let found = find_plan(house, asked, vars)?;
    match found {
        Some(kept) => kept_text(alloc, house, needs, &kept),
        None => new_text(alloc, house, needs, tree, vars, plans),
    }
}

/// What serves a request, explained: its first refusal, or else the text of the oldest plan that is kept and serves it, or
/// of one that is made. Nothing is run, and no plan is entered.
///
/// # Errors
/// Out of memory.
pub fn explained<L: Ledger>(
    alloc: Global,
    house: &OwnHouse,
    asked: &Asked,
    plans: &mut Steps<L>,
) -> Result<Explanation, Memory>
    ensures text { (history : List KeptParts) → Shows house.now.shelf history
        → IfOk result (spec.IsExplanation house.now.base (asked_parts asked.now) history) }
    ensures planned { PlansAtMostOne plans.old plans.new }
{
    house.know();
    let prepared = prepare_asked(alloc, house.base(), asked)?;
    match prepared {
        Prepared::Refused(text) => Ok(Explanation::Refused(text)),
        Prepared::Accepted(tree, vars) => tree_text(alloc, house, asked, tree, &vars, plans),
    }
}
