//! Laws of plans. The calls do nothing: their contracts are the laws.

ghost use Rattle.plan_steps.specs.Fetches as fetches;
ghost use Rattle.plan_steps.specs.Serves as law;

/// A plan that is well formed, whose steps serve each place of a tree, and that finds no more rows than execution visits,
/// is sound.
pub fn served_plans_are_sound()
    ensures { law.ServedPlansAreSound }
{}

/// A tree whose places stand where their fields belong, over a base whose catalog is valid, is a tree over the base.
pub fn typed_trees_stand_over_bases()
    ensures { fetches.TypedTreesStandOverBases }
{}

/// A plan that is well formed, and whose fetches are those of the row fields of a tree, finds no more rows than execution
/// visits.
pub fn fetches_find_few()
    ensures { fetches.FetchesFindFew }
{}

/// And it is sound.
pub fn fetches_are_sound()
    ensures { fetches.FetchesAreSound }
{}
