//! Single root field (5.2.3.1): each operation has a root type.

ghost use Rattle.std.specs.Prelude.{◌≡◌};
ghost use Rattle.gql_nodes.specs.Listed.{view};
ghost use Rattle.gql_validate.specs.SingleRootField as spec;

use gql_nodes::{Node, root_of};
use gql_reader::Definition;
use pg_base::Schema;

fn has_no_root(schema: &Schema, definition: &Definition) -> bool
    ensures { result ≡ spec.has_no_root schema.now definition.now }
{
    match definition {
        Definition::Operation(operation) => root_of(schema, operation.kind).is_none(),
        Definition::Fragment(_) => false,
        Definition::Foreign(_) => false,
    }
}

/// Whether the node breaks the rule.
pub(crate) fn breaks(schema: &Schema, node: &Node<'_>) -> bool
    ensures { result ≡ spec.breaks schema.now (view node.now) }
{
    match node {
        Node::Definition { definition, .. } => has_no_root(schema, definition),
        Node::Variable { .. } => false,
        Node::Field { .. } => false,
        Node::Spread { .. } => false,
        Node::Inline { .. } => false,
        Node::Directive { .. } => false,
        Node::Argument { .. } => false,
        Node::Value { .. } => false,
        Node::ObjectField { .. } => false,
    }
}
