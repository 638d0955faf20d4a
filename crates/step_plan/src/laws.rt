//! Laws of what is noted and drafted: functions that do nothing, each with a law as its contract.

ghost use Rattle.step_plan.specs.DraftLaws as drafts;
ghost use Rattle.step_plan.specs.Laws as law;

use gql_collect::laws::agreeing_variables_collect_the_same;

/// Variables that meet what is noted for the tree of an operation collect the same tree.
pub fn noted_keep_trees()
    ensures { law.NotedKeepTrees }
{
    agreeing_variables_collect_the_same();
}

/// A tree of which a plan can be made is a tree over its base.
pub fn plannable_trees_stand_over_bases()
    ensures { drafts.PlannableTreesStandOverBases }
{}

/// The plan that is drafted for a tree is well formed.
pub fn drafted_are_well_formed()
    ensures { drafts.DraftedAreWellFormed }
{}

/// Its steps serve each place, for all variables that meet what is noted.
pub fn drafted_serve()
    ensures { drafts.DraftedServe }
{}

/// Each row field has a fetch of its own in it, which tells of its window, its arguments and its errors, and there are no
/// others.
pub fn drafted_are_plain()
    ensures { drafts.DraftedArePlain }
{}

/// And so it is sound: it shows what execution gives, and finds no more rows than that visits.
pub fn drafted_are_sound()
    ensures { drafts.DraftedAreSound }
{}
