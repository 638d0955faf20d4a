//! The draft of a tree.

ghost use Rattle.std.specs.Prelude.{◌≡◌, ◌+◌, IfOk, OnOk, OnErr};
ghost use Rattle.std.specs.Arc.{arc_value};
ghost use Rattle.plan_constraints.specs.Noted.{noted as noted_for};
ghost use Rattle.plan_steps.specs.Fetches.{IsPlain};
ghost use Rattle.plan_steps.specs.Sound.{IsSound};
ghost use Rattle.plan_steps.specs.View.{planned};
ghost use Rattle.step_plan.specs.Drafted.{drafted as drafted_for};
ghost use Rattle.step_plan.specs.Planned.{IsPlannable};

use crate::drafting::drafted;
use crate::laws::{drafted_are_plain, drafted_are_sound};
use crate::noting::noted;
use pg_base::{Base, Memory, Vars};
use place_tree::Tree;
use plan_steps::{Draft, Plan, Steps};
use std::alloc::Global;
use std::sync::Arc;
use std::sync::ledger::Ledger;

/// The plan of a tree, which is sound and plain.
fn plan_of(alloc: Global, base: &Base, tree: &Tree, vars: &Vars) -> Result<Plan, Memory>
    requires { IsPlannable base.now tree.now vars.now }
    ensures plan { IfOk result (λ plan. plan ≡ drafted_for base.now tree.now vars.now) }
    ensures sound { IfOk result (λ plan.
        IsSound base.now plan tree.now (noted_for base.now vars.now tree.now)) }
    ensures plain { IfOk result (λ plan.
        IsPlain base.now tree.now (noted_for base.now vars.now tree.now) plan) }
{
    base.know();
    base.catalog().know();
    drafted_are_sound();
    drafted_are_plain();
    drafted(alloc, base, vars, tree)
}

/// The plain draft of the tree of an operation, made with these variables, and counted.
///
/// # Errors
/// Out of memory; nothing is counted then.
pub fn make_steps<L: Ledger>(
    alloc: Global,
    base: &Arc<Base>,
    tree: Tree,
    vars: &Vars,
    plans: &mut Steps<L>,
) -> Result<Draft, Memory>
    requires { IsPlannable (arc_value base.now) tree vars.now }
    ensures draft { IfOk result (λ draft. draft ≡ planned (arc_value base.now)
        (drafted_for (arc_value base.now) tree vars.now) tree
        (noted_for (arc_value base.now) vars.now tree)) }
    ensures plain { IfOk result (λ draft.
        IsPlain draft.base draft.tree draft.constraints draft.plan) }
    ensures counted { OnOk result (plans.new ≡ plans.old + 1) }
    ensures kept { OnErr result (plans.new ≡ plans.old) }
{
    let constraints = noted(alloc, base, vars, &tree)?;
    let plan = plan_of(alloc, base, &tree, vars)?;
    let base = Arc::try_clone(base)?;
    Ok(Draft::begin(base, plan, tree, constraints, plans))
}
