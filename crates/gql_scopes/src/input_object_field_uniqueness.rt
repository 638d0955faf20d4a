//! Input object field uniqueness (5.6.3).

ghost use Rattle.std.specs.Prelude.{◌≡◌};
ghost use Rattle.gql_nodes.specs.Listed.{view};
ghost use Rattle.gql_scopes.specs.InputObjectFieldUniqueness as spec;

use gql_nodes::Node;

/// Whether the node breaks the rule.
pub(crate) fn breaks(node: &Node<'_>) -> bool
    ensures { result ≡ spec.breaks (view node.now) }
{
    match node {
        Node::Definition { .. } => false,
        Node::Variable { .. } => false,
        Node::Field { .. } => false,
        Node::Spread { .. } => false,
        Node::Inline { .. } => false,
        Node::Directive { .. } => false,
        Node::Argument { .. } => false,
        Node::Value { .. } => false,
        Node::ObjectField { repeated, .. } => *repeated,
    }
}
