//! Operation name uniqueness (5.2.1.1).

ghost use Rattle.std.specs.Prelude.{◌≡◌};
ghost use Rattle.gql_nodes.specs.Listed.{view};
ghost use Rattle.gql_validate.specs.UniqueOperationNames as spec;

use gql_nodes::Node;
use gql_reader::Definition;

fn is_operation(definition: &Definition) -> bool
    ensures { result ≡ spec.is_operation definition.now }
{
    match definition {
        Definition::Operation(_) => true,
        Definition::Fragment(_) => false,
        Definition::Foreign(_) => false,
    }
}

/// Whether the node breaks the rule.
pub(crate) fn breaks(node: &Node<'_>) -> bool
    ensures { result ≡ spec.breaks (view node.now) }
{
    match node {
        Node::Definition {
            repeated,
            definition,
        } => *repeated && is_operation(definition),
        Node::Variable { .. } => false,
        Node::Field { .. } => false,
        Node::Spread { .. } => false,
        Node::Inline { .. } => false,
        Node::Directive { .. } => false,
        Node::Argument { .. } => false,
        Node::Value { .. } => false,
        Node::ObjectField { .. } => false,
    }
}
