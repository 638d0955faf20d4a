//! Field selections (5.3.1).

ghost use Rattle.std.specs.Prelude.{◌≡◌, option_map};
ghost use Rattle.gql_nodes.specs.Listed.{view};
ghost use Rattle.gql_nodes.specs.Listed.{known_at};
ghost use Rattle.gql_validate.specs.FieldSelections as spec;

use gql_nodes::{Known, Node};

fn is_missing(parent: Option<u32>, known: Option<Known<'_>>) -> bool
    ensures { result ≡ spec.is_missing parent (option_map known_at known.entry) }
{
    match parent {
        None => false,
        Some(_) => known.is_none(),
    }
}

/// Whether the node breaks the rule.
pub(crate) fn breaks(node: &Node<'_>) -> bool
    ensures { result ≡ spec.breaks (view node.now) }
{
    match node {
        Node::Definition { .. } => false,
        Node::Variable { .. } => false,
        Node::Field { parent, known, .. } => is_missing(*parent, *known),
        Node::Spread { .. } => false,
        Node::Inline { .. } => false,
        Node::Directive { .. } => false,
        Node::Argument { .. } => false,
        Node::Value { .. } => false,
        Node::ObjectField { .. } => false,
    }
}
