//! Laws of the trees of valid documents: functions that do nothing, each with a law as its contract.

ghost use Rattle.fitting_trees.specs.ValidTrees as law;

use gql_collect::laws::collected_trees_are_well_formed;

/// A plan can be made of the tree of an operation of a valid document, with its coerced variables.
pub fn valid_trees_are_plannable()
    ensures { law.ValidTreesArePlannable }
{
    collected_trees_are_well_formed();
}

/// No place of the tree of a query is a mutation field.
pub fn query_trees_have_no_mutations()
    ensures { law.QueryTreesHaveNoMutations }
{
    collected_trees_are_well_formed();
}
