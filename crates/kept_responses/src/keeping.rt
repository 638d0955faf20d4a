//! A plan, kept and entered.

ghost use Rattle.std.specs.Prelude.{◌≡◌, [], ◌∷◌, ◌++◌, List, IfOk, OnOk, OnErr};
ghost use Rattle.std.specs.Arc.{arc_value};
ghost use Rattle.plan_cache.specs.Shelf.{Shows};
ghost use Rattle.kept_responses.specs.Kept.{KeptParts, kept_parts, Fits};
ghost use Rattle.kept_responses.specs.Served.{asked_of};

use crate::kept_plan::KeptPlan;
use crate::wanted::Wanted;
use batch_execute::ReadyEntry;
use pg_base::Memory;
use plan_cache::Shelf;
use std::alloc::Global;
use std::sync::Arc;

/// Enters a kept plan.
fn enter(alloc: Global, shelf: &mut Shelf<KeptPlan>, kept: &Arc<KeptPlan>) -> Result<(), Memory>
    requires base { (arc_value kept.now).planned.base ≡ shelf.old.base }
    ensures entered { OnOk result ((history : List KeptParts) → Shows shelf.old history
        → Shows shelf.new (history ++ arc_value kept.now ∷ [])) }
    ensures kept { OnErr result (shelf.new ≡ shelf.old) }
    ensures base { shelf.new.base ≡ shelf.old.base }
{
    let key = kept.key(alloc)?;
    let entry = Arc::try_clone(kept)?;
    shelf.enter(key, entry);
    Ok(())
}

/// Keeps a plan under what was looked for, and enters it.
///
/// # Errors
/// Out of memory; nothing is entered then.
pub(crate) fn keep(
    alloc: Global,
    shelf: &mut Shelf<KeptPlan>,
    wanted: &Wanted<'_>,
    ready: ReadyEntry,
) -> Result<Arc<KeptPlan>, Memory>
    requires base { ready.base ≡ shelf.old.base }
    requires fits { Fits (kept_parts (asked_of wanted.now).text (asked_of wanted.now).operation
        ready) }
    ensures kept { IfOk result (λ kept. arc_value kept
        ≡ kept_parts (asked_of wanted.now).text (asked_of wanted.now).operation ready) }
    ensures entered { IfOk result (λ kept. (history : List KeptParts) → Shows shelf.old history
        → Shows shelf.new (history ++ arc_value kept ∷ [])) }
    ensures stays { OnErr result (shelf.new ≡ shelf.old) }
    ensures base { shelf.new.base ≡ shelf.old.base }
{
    let kept = KeptPlan::of(alloc, wanted.text, wanted.operation, ready)?;
    let kept = Arc::new(alloc, kept)?;
    enter(alloc, shelf, &kept)?;
    Ok(kept)
}
