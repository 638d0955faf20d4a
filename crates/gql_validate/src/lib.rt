//! The rules of validation on the shape of a document: sections 5.1 to 5.4 of the GraphQL specification (October 2021).
#![tactic(auto)]

mod argument_names;
mod argument_uniqueness;
mod check;
mod executable_definitions;
mod field_selection_merging;
mod field_selections;
mod joined_sets;
mod leaf_field_selections;
mod lone_anonymous_operation;
mod paired_fields;
mod pairs;
mod required_arguments;
mod rule;
mod same_values;
mod search;
mod set_graph;
mod set_pairs;
mod single_root_field;
mod slots;
mod spoiled;
mod tables;
mod unique_operation_names;

pub use check::check_shapes;
pub use rule::ShapeRule;
