//! Directives are in valid locations (5.7.2).

ghost use Rattle.std.specs.Prelude.{◌≡◌};
ghost use Rattle.gql_nodes.specs.Listed.{view};
ghost use Rattle.gql_scopes.specs.DirectivesAreInValidLocations as spec;

use gql_nodes::{Location, Node};

fn is_valid(location: Location) -> bool
    ensures { result ≡ spec.is_valid location }
{
    match location {
        Location::Field => true,
        Location::FragmentSpread => true,
        Location::InlineFragment => true,
        Location::Other => false,
    }
}

/// Whether the node breaks the rule.
pub(crate) fn breaks(node: &Node<'_>) -> bool
    ensures { result ≡ spec.breaks (view node.now) }
{
    match node {
        Node::Definition { .. } => false,
        Node::Variable { .. } => false,
        Node::Field { .. } => false,
        Node::Spread { .. } => false,
        Node::Inline { .. } => false,
        Node::Directive { defs, location, .. } => defs.is_some() && !is_valid(*location),
        Node::Argument { .. } => false,
        Node::Value { .. } => false,
        Node::ObjectField { .. } => false,
    }
}
