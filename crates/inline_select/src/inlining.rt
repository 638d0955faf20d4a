//! Drafts whose fetches are inlined.

ghost use Rattle.std.specs.Prelude.{◌≡◌, IfOk};
ghost use Rattle.plan_steps.specs.Fetches.{IsTreeOver, IsMerged};
ghost use Rattle.plan_steps.specs.Sound.{IsLean};
ghost use Rattle.inline_select.specs.Inlined.{inlined};

use crate::copies::{copy_layers, copy_out};
use crate::moving::inlined_steps;
use pg_base::Memory;
use plan_steps::{Draft, Plan};
use std::alloc::Global;

fn inlined_plan(alloc: Global, plan: &Plan) -> Result<Plan, Memory>
    ensures { IfOk result (λ made. made ≡ inlined plan.now) }
{
    let steps = inlined_steps(alloc, plan.steps.as_slice())?;
    let layers = copy_layers(alloc, plan.layers.as_slice())?;
    let out = copy_out(alloc, plan.out.as_slice())?;
    Ok(Plan { steps, layers, out })
}

/// The draft in which each fetch that is free to move stands among the children of the fetch on whose row it hangs, and is
/// read from what that one finds. A list of which a part is asked for stays a statement of its own, and so does what
/// hangs on no fetch: a field at the root, or under the row that a mutation gave. What is left to be sent is at most what
/// the request needs.
///
/// # Errors
///
/// [`Memory`] where memory runs out.
pub fn inline(alloc: Global, draft: Draft) -> Result<Draft, Memory>
    requires over_tree { IsTreeOver draft.base draft.tree }
    requires merged { IsMerged draft.base draft.tree draft.constraints draft.plan }
    ensures inlined { IfOk result (λ made. made ≡ record draft { plan = inlined draft.plan }) }
    ensures lean { IfOk result (λ made. IsLean made.base made.plan made.tree made.constraints) }
{
    draft.know();
    let plan = inlined_plan(alloc, draft.plan())?;
    Ok(draft.renew(plan))
}
