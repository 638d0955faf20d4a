//! Fragment spread type existence (5.5.1.2).

ghost use Rattle.std.specs.Prelude.{◌≡◌, is_none, option_map};
ghost use Rattle.gql_types.specs.Types.{type_named};
ghost use Rattle.gql_scopes.specs.Conditions.{if_some, definition_condition};
ghost use Rattle.gql_nodes.specs.Listed.{view};
ghost use Rattle.gql_scopes.specs.FragmentSpreadTypeExistence as spec;

use crate::conditions::definition_condition;
use gql_nodes::Node;
use gql_types::type_named;
use pg_base::{Schema, Text};

fn is_unknown(schema: &Schema, condition: Option<&Text>) -> bool
    ensures { result ≡ if_some (λ name. is_none (type_named schema.now name))
        (option_map (λ name. name.now) condition.entry) }
{
    match condition {
        None => false,
        Some(name) => type_named(schema, name).is_none(),
    }
}

/// Whether the node breaks the rule.
pub(crate) fn breaks(schema: &Schema, node: &Node<'_>) -> bool
    ensures { result ≡ spec.breaks schema.now (view node.now) }
{
    match node {
        Node::Definition { definition, .. } => is_unknown(schema, definition_condition(definition)),
        Node::Variable { .. } => false,
        Node::Field { .. } => false,
        Node::Spread { .. } => false,
        Node::Inline { inline, .. } => is_unknown(schema, inline.type_condition.as_ref()),
        Node::Directive { .. } => false,
        Node::Argument { .. } => false,
        Node::Value { .. } => false,
        Node::ObjectField { .. } => false,
    }
}
