//! Laws of inlined plans that are run. The calls do nothing: their contracts are the laws.

ghost use Rattle.inline_ready.specs.Laws as law;

/// The inlined plan of a merged one, of a tree over its base, is ready to be run.
pub fn inlined_plans_are_ready()
    ensures { law.InlinedPlansAreReady }
{}
