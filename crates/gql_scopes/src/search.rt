//! The first node that breaks a rule.

ghost use Rattle.std.specs.Prelude.{◌≡◌, find, option_map};
ghost use Rattle.gql_nodes.specs.Listed.{at_view, views};
ghost use Rattle.gql_nodes.specs.Nodes.{pos_of};
ghost use Rattle.gql_scopes.specs.Tests.{test_of};

use crate::rule::ScopeRule;
use crate::tables::Tables;
use crate::{
    all_variable_usages_are_allowed, all_variable_uses_defined, all_variables_used,
    directives_are_defined, directives_are_in_valid_locations, directives_are_unique_per_location,
    fragment_spread_is_possible, fragment_spread_target_defined, fragment_spread_type_existence,
    fragment_spreads_must_not_form_cycles, fragments_must_be_used, fragments_on_composite_types,
    input_object_field_names, input_object_field_uniqueness, input_object_required_fields,
    unique_fragment_names, values_of_correct_type, variable_uniqueness, variables_are_input_types,
};
use gql_nodes::{At, position_of};
use gql_reader::Document;
use pg_base::{Pos, Schema};

/// Whether the node breaks the rule.
fn breaks(
    schema: &Schema,
    document: &Document,
    tables: &Tables,
    rule: ScopeRule,
    at: &At<'_>,
) -> bool
    ensures { result ≡ test_of schema.now document.now tables.now rule (at_view at.now) }
{
    let (within, node) = (at.within, &at.node);
    match rule {
        ScopeRule::UniqueFragmentNames => unique_fragment_names::breaks(node),
        ScopeRule::FragmentSpreadTypeExistence => {
            fragment_spread_type_existence::breaks(schema, node)
        }
        ScopeRule::FragmentsOnCompositeTypes => fragments_on_composite_types::breaks(schema, node),
        ScopeRule::FragmentsMustBeUsed => fragments_must_be_used::breaks(tables, node),
        ScopeRule::FragmentSpreadTargetDefined => {
            fragment_spread_target_defined::breaks(tables, node)
        }
        ScopeRule::FragmentSpreadsMustNotFormCycles => {
            fragment_spreads_must_not_form_cycles::breaks(tables, within, node)
        }
        ScopeRule::FragmentSpreadIsPossible => {
            fragment_spread_is_possible::breaks(schema, document, tables, node)
        }
        ScopeRule::ValuesOfCorrectType => values_of_correct_type::breaks(schema, node),
        ScopeRule::InputObjectFieldNames => input_object_field_names::breaks(node),
        ScopeRule::InputObjectFieldUniqueness => input_object_field_uniqueness::breaks(node),
        ScopeRule::InputObjectRequiredFields => input_object_required_fields::breaks(schema, node),
        ScopeRule::DirectivesAreDefined => directives_are_defined::breaks(node),
        ScopeRule::DirectivesAreInValidLocations => directives_are_in_valid_locations::breaks(node),
        ScopeRule::DirectivesAreUniquePerLocation => {
            directives_are_unique_per_location::breaks(node)
        }
        ScopeRule::VariableUniqueness => variable_uniqueness::breaks(node),
        ScopeRule::VariablesAreInputTypes => variables_are_input_types::breaks(schema, node),
        ScopeRule::AllVariableUsesDefined => {
            all_variable_uses_defined::breaks(document, tables, within, node)
        }
        ScopeRule::AllVariablesUsed => all_variables_used::breaks(tables, within, node),
        ScopeRule::AllVariableUsagesAreAllowed => {
            all_variable_usages_are_allowed::breaks(schema, document, tables, within, node)
        }
    }
}

/// Where the first node stands that breaks the rule.
pub(crate) fn first_breaking(
    schema: &Schema,
    document: &Document,
    tables: &Tables,
    rule: ScopeRule,
    nodes: &[At<'_>],
) -> Option<Pos>
    ensures { result ≡ option_map (λ x. pos_of x.node)
        (find (test_of schema.now document.now tables.now rule) (views nodes.now)) }
{
    for at in nodes {
        if breaks(schema, document, tables, rule, at) {
            return Some(position_of(&at.node));
        }
    }
    None
}
