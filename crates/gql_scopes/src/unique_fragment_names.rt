//! Unique fragment names (5.5.1.1).

ghost use Rattle.std.specs.Prelude.{◌≡◌, ◌&&◌, is_some};
ghost use Rattle.gql_nodes.specs.Uses.{as_fragment};
ghost use Rattle.gql_nodes.specs.Listed.{view};
ghost use Rattle.gql_scopes.specs.UniqueFragmentNames as spec;

use gql_nodes::Node;
use gql_reader::Definition;

fn is_fragment(definition: &Definition) -> bool
    ensures { result ≡ is_some (as_fragment definition.now) }
{
    match definition {
        Definition::Operation(_) => false,
        Definition::Fragment(_) => true,
        Definition::Foreign(_) => false,
    }
}

/// Whether the node breaks the rule.
pub(crate) fn breaks(node: &Node<'_>) -> bool
    ensures { result ≡ spec.breaks (view node.now) }
{
    match node {
        Node::Definition {
            repeated,
            definition,
        } => *repeated && is_fragment(definition),
        Node::Variable { .. } => false,
        Node::Field { .. } => false,
        Node::Spread { .. } => false,
        Node::Inline { .. } => false,
        Node::Directive { .. } => false,
        Node::Argument { .. } => false,
        Node::Value { .. } => false,
        Node::ObjectField { .. } => false,
    }
}
