//! Laws of merged plans. The calls do nothing: their contracts are the laws.

ghost use Rattle.dedupe_steps.specs.Laws as law;

/// A plan that is well formed has one quotient at most.
pub fn quotients_are_one()
    ensures { law.QuotientsAreOne }
{}

/// The quotient of a plan is well formed, as the plan is.
pub fn quotients_are_well_formed()
    ensures { law.QuotientsAreWellFormed }
{}

/// The quotient of a plain plan is merged: row fields of one signature share their fetch.
pub fn quotients_are_merged()
    ensures { law.QuotientsAreMerged }
{}

/// And it is sound.
pub fn quotients_are_sound()
    ensures { law.QuotientsAreSound }
{}
