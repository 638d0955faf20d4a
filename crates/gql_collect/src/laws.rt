//! Laws of collection. The calls do nothing: their contracts are the laws.

ghost use Rattle.gql_collect.specs.CollectLaws as law;

/// Two lists of variables that agree on what collection asked collect the same tree.
pub fn agreeing_variables_collect_the_same()
    ensures { law.AgreeingVariablesCollectTheSame }
{}

/// In a tree parents stand earlier, types are those of the fields above, and each field is one of its type.
pub fn collected_trees_are_well_formed()
    ensures { law.CollectedTreesAreWellFormed }
{}

/// What a field gives at a state, by its type, number, arguments and position.
pub trait Giver {
    ghost use Rattle.place_tree.specs.declared.place.Place.{Place};
    ghost use Rattle.place_tree.specs.declared.answer.Answer.{Answer};

    type State;

    ghost given: { Place → Self.State → Answer Self.State };
}

/// Execution by the places of a tree is execution by selection sets (section 6.3), whatever the fields give.
pub fn execution_by_places_is_by_selection_sets<G: Giver>()
    ensures { law.ExecutionByPlaces G.given }
{}

/// The data of a query, by the places of its tree, is what its selection sets give.
pub fn queries_execute_by_selection_sets()
    ensures { law.QueriesExecuteBySelectionSets }
{}

/// The levels of a tree with at most 2,000 places are all of its levels.
pub fn levels_cut_nothing()
    ensures { law.LevelsCutNothing }
{}
