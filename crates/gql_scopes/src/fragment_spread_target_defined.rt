//! Fragment spread target defined (5.5.2.1).

ghost use Rattle.std.specs.Prelude.{◌≡◌};
ghost use Rattle.gql_nodes.specs.Listed.{view};
ghost use Rattle.gql_scopes.specs.Tests as tests;

use crate::tables::Tables;
use gql_nodes::Node;

/// Whether the node breaks the rule.
pub(crate) fn breaks(tables: &Tables, node: &Node<'_>) -> bool
    ensures { result ≡ tests.spreads_undefined tables.now (view node.now) }
{
    match node {
        Node::Definition { .. } => false,
        Node::Variable { .. } => false,
        Node::Field { .. } => false,
        Node::Spread { spread, .. } => tables.fragment(&spread.name).is_none(),
        Node::Inline { .. } => false,
        Node::Directive { .. } => false,
        Node::Argument { .. } => false,
        Node::Value { .. } => false,
        Node::ObjectField { .. } => false,
    }
}
