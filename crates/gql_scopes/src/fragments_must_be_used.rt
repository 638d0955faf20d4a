//! Fragments must be used (5.5.1.4).

ghost use Rattle.std.specs.Prelude.{◌≡◌, not};
ghost use Rattle.gql_nodes.specs.Names.{is_among};
ghost use Rattle.gql_nodes.specs.Uses.{as_fragment};
ghost use Rattle.gql_scopes.specs.Conditions.{if_some};
ghost use Rattle.gql_scopes.specs.Tests as tests;
ghost use Rattle.gql_nodes.specs.Listed.{view};

use crate::names::NameSet;
use crate::tables::Tables;
use gql_nodes::Node;
use gql_reader::Definition;

fn is_unused(spreads: &NameSet, definition: &Definition) -> bool
    ensures { result
        ≡ if_some (λ f. not (is_among f.name spreads.now)) (as_fragment definition.now) }
{
    match definition {
        Definition::Operation(_) => false,
        Definition::Fragment(fragment) => !spreads.has(&fragment.name),
        Definition::Foreign(_) => false,
    }
}

/// Whether the node breaks the rule.
pub(crate) fn breaks(tables: &Tables, node: &Node<'_>) -> bool
    ensures { result ≡ tests.is_unused_fragment tables.now (view node.now) }
{
    match node {
        Node::Definition { definition, .. } => is_unused(tables.spreads(), definition),
        Node::Variable { .. } => false,
        Node::Field { .. } => false,
        Node::Spread { .. } => false,
        Node::Inline { .. } => false,
        Node::Directive { .. } => false,
        Node::Argument { .. } => false,
        Node::Value { .. } => false,
        Node::ObjectField { .. } => false,
    }
}
