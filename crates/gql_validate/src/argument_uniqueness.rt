//! Argument uniqueness (5.4.2).

ghost use Rattle.std.specs.Prelude.{◌≡◌};
ghost use Rattle.gql_nodes.specs.Listed.{view};
ghost use Rattle.gql_validate.specs.ArgumentUniqueness as spec;

use gql_nodes::Node;

/// Whether the node breaks the rule.
pub(crate) fn breaks(node: &Node<'_>) -> bool
    ensures { result ≡ spec.breaks (view node.now) }
{
    match node {
        Node::Definition { .. } => false,
        Node::Variable { .. } => false,
        Node::Field { .. } => false,
        Node::Spread { .. } => false,
        Node::Inline { .. } => false,
        Node::Directive { .. } => false,
        Node::Argument { repeated, .. } => *repeated,
        Node::Value { .. } => false,
        Node::ObjectField { .. } => false,
    }
}
