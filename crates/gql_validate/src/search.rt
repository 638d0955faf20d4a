//! The first node that breaks a rule which is a test of single nodes.

ghost use Rattle.std.specs.Prelude.{◌≡◌, find, option_map};
ghost use Rattle.gql_nodes.specs.Listed.{view, views};
ghost use Rattle.gql_nodes.specs.Nodes.{pos_of};
ghost use Rattle.gql_validate.specs.Shapes.{test_of};

use crate::rule::ShapeRule;
use crate::{
    argument_names, argument_uniqueness, executable_definitions, field_selections,
    leaf_field_selections, lone_anonymous_operation, required_arguments, single_root_field,
    unique_operation_names,
};
use gql_nodes::{At, Node, position_of};
use gql_reader::Document;
use pg_base::{Pos, Schema};

/// Whether a node breaks a rule; for merging no test of one node tells.
fn breaks(schema: &Schema, document: &Document, rule: ShapeRule, node: &Node<'_>) -> bool
    ensures { result ≡ test_of schema.now document.now rule (view node.now) }
{
    match rule {
        ShapeRule::ExecutableDefinitions => executable_definitions::breaks(node),
        ShapeRule::UniqueOperationNames => unique_operation_names::breaks(node),
        ShapeRule::LoneAnonymousOperation => lone_anonymous_operation::breaks(document, node),
        ShapeRule::SingleRootField => single_root_field::breaks(schema, node),
        ShapeRule::FieldSelections => field_selections::breaks(node),
        ShapeRule::FieldSelectionMerging => false,
        ShapeRule::LeafFieldSelections => leaf_field_selections::breaks(schema, node),
        ShapeRule::ArgumentNames => argument_names::breaks(node),
        ShapeRule::ArgumentUniqueness => argument_uniqueness::breaks(node),
        ShapeRule::RequiredArguments => required_arguments::breaks(node),
    }
}

/// Where the first node stands that breaks the rule.
pub(crate) fn first_breaking(
    schema: &Schema,
    document: &Document,
    rule: ShapeRule,
    nodes: &[At<'_>],
) -> Option<Pos>
    ensures { result ≡ option_map (λ x. pos_of x.node)
        (find (λ x. test_of schema.now document.now rule x.node) (views nodes.now)) }
{
    for at in nodes {
        if breaks(schema, document, rule, &at.node) {
            return Some(position_of(&at.node));
        }
    }
    None
}
