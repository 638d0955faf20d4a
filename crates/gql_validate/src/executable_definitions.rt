//! Executable definitions (5.1.1).

ghost use Rattle.std.specs.Prelude.{◌≡◌};
ghost use Rattle.gql_nodes.specs.Listed.{view};
ghost use Rattle.gql_validate.specs.ExecutableDefinitions as spec;

use gql_nodes::Node;
use gql_reader::Definition;

fn is_foreign(definition: &Definition) -> bool
    ensures { result ≡ spec.is_foreign definition.now }
{
    match definition {
        Definition::Operation(_) => false,
        Definition::Fragment(_) => false,
        Definition::Foreign(_) => true,
    }
}

/// Whether the node breaks the rule.
pub(crate) fn breaks(node: &Node<'_>) -> bool
    ensures { result ≡ spec.breaks (view node.now) }
{
    match node {
        Node::Definition { definition, .. } => is_foreign(definition),
        Node::Variable { .. } => false,
        Node::Field { .. } => false,
        Node::Spread { .. } => false,
        Node::Inline { .. } => false,
        Node::Directive { .. } => false,
        Node::Argument { .. } => false,
        Node::Value { .. } => false,
        Node::ObjectField { .. } => false,
    }
}
