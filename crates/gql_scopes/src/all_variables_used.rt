//! All variables used (5.8.4).

ghost use Rattle.std.specs.Prelude.{◌≡◌};
ghost use Rattle.std.specs.List.{list_any};
ghost use Rattle.gql_nodes.specs.Names.{is_among};
ghost use Rattle.gql_scopes.specs.Tables.{row};
ghost use Rattle.gql_scopes.specs.Tests as tests;
ghost use Rattle.gql_nodes.specs.Listed.{view};

use crate::tables::Tables;
use gql_nodes::Node;
use pg_base::Text;

fn is_used(tables: &Tables, reached: &[usize], name: &Text) -> bool
    ensures { result
        ≡ list_any (λ place. is_among name.now (row tables.now.used place)) reached.now }
{
    for place in reached {
        if tables.uses(*place, name) {
            return true;
        }
    }
    false
}

/// Whether the node breaks the rule.
pub(crate) fn breaks(tables: &Tables, within: usize, node: &Node<'_>) -> bool
    ensures { result ≡ tests.is_unused_variable tables.now within (view node.now) }
{
    match node {
        Node::Definition { .. } => false,
        Node::Variable { variable, .. } => !is_used(tables, tables.reached(within), &variable.name),
        Node::Field { .. } => false,
        Node::Spread { .. } => false,
        Node::Inline { .. } => false,
        Node::Directive { .. } => false,
        Node::Argument { .. } => false,
        Node::Value { .. } => false,
        Node::ObjectField { .. } => false,
    }
}
