//! The rules of validation on fragments, values, directives and variables: sections 5.5 to 5.8 of the GraphQL
//! specification (October 2021).
#![tactic(auto)]

mod all_variable_usages_are_allowed;
mod all_variable_uses_defined;
mod all_variables_used;
mod check;
mod compatible;
mod conditions;
mod directives_are_defined;
mod directives_are_in_valid_locations;
mod directives_are_unique_per_location;
mod fragment_spread_is_possible;
mod fragment_spread_target_defined;
mod fragment_spread_type_existence;
mod fragment_spreads_must_not_form_cycles;
mod fragments_must_be_used;
mod fragments_on_composite_types;
mod input_object_field_names;
mod input_object_field_uniqueness;
mod input_object_required_fields;
mod names;
mod order;
mod places;
mod rule;
mod search;
mod tables;
mod unique_fragment_names;
mod uses;
mod values_of_correct_type;
mod variable_uniqueness;
mod variables_are_input_types;
mod wanted;

pub use check::check_scopes;
pub use rule::ScopeRule;
