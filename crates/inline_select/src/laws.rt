//! Laws of inlined plans. The calls do nothing: their contracts are the laws.

ghost use Rattle.inline_select.specs.Laws as law;

/// A fetch of an inlined plan has below it, beside its own children, the inlined fetches that are free to move to it.
pub fn fetches_stand_below()
    ensures { law.FetchesStandBelow }
{}

/// A fetch that is free to move is read once the plan is inlined, and any other is sent.
pub fn moved_fetches_are_read()
    ensures { law.MovedFetchesAreRead }
{}

/// The inlined plan of a merged one is sound.
pub fn inlined_plans_are_sound()
    ensures { law.InlinedPlansAreSound }
{}

/// And it is lean.
pub fn inlined_plans_are_lean()
    ensures { law.InlinedPlansAreLean }
{}
