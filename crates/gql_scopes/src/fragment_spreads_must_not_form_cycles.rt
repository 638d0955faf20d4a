//! Fragment spreads must not form cycles (5.5.2.2).

ghost use Rattle.std.specs.Prelude.{◌≡◌};
ghost use Rattle.gql_nodes.specs.Names.{place_in};
ghost use Rattle.gql_scopes.specs.Conditions.{if_some};
ghost use Rattle.gql_scopes.specs.Tests as tests;
ghost use Rattle.gql_nodes.specs.Listed.{view};

use crate::tables::Tables;
use gql_nodes::Node;
use pg_base::Text;

fn comes_back(tables: &Tables, within: usize, name: &Text) -> bool
    ensures { result ≡ if_some (tests.comes_back tables.now within)
        (place_in tables.now.fragments name.now) }
{
    match tables.fragment(name) {
        None => false,
        Some(target) => !tables.ordered() && tables.reaches(target, within),
    }
}

/// Whether the node breaks the rule.
pub(crate) fn breaks(tables: &Tables, within: usize, node: &Node<'_>) -> bool
    ensures { result ≡ tests.is_on_cycle tables.now within (view node.now) }
{
    match node {
        Node::Definition { .. } => false,
        Node::Variable { .. } => false,
        Node::Field { .. } => false,
        Node::Spread { spread, .. } => comes_back(tables, within, &spread.name),
        Node::Inline { .. } => false,
        Node::Directive { .. } => false,
        Node::Argument { .. } => false,
        Node::Value { .. } => false,
        Node::ObjectField { .. } => false,
    }
}
