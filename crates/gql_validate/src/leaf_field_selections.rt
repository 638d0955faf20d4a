//! Leaf field selections (5.3.3).

ghost use Rattle.std.specs.Prelude.{◌≡◌, option_map};
ghost use Rattle.gql_nodes.specs.Listed.{view};
ghost use Rattle.gql_nodes.specs.Listed.{known_at};
ghost use Rattle.pg_base.specs.Schema.{kind_at, is_object as is_object_kind};
ghost use Rattle.gql_validate.specs.LeafFieldSelections as spec;

use gql_nodes::{Known, Node};
use gql_reader::Selection;
use gql_types::object_at;
use pg_base::Schema;

fn are_unlike(is_object: bool, selections: &[Selection]) -> bool
    ensures { result ≡ spec.are_unlike is_object selections.now }
{
    if is_object {
        selections.is_empty()
    } else {
        !selections.is_empty()
    }
}

fn is_object(schema: &Schema, ty: u32) -> bool
    ensures { result ≡ is_object_kind (kind_at schema.now ty) }
{
    object_at(schema, ty).is_some()
}

fn selects_badly(schema: &Schema, known: Option<Known<'_>>, selections: &[Selection]) -> bool
    ensures { result ≡ spec.selects_badly schema.now
        (option_map known_at known.entry) selections.now }
{
    match known {
        None => false,
        Some(field) => are_unlike(is_object(schema, field.ty.name), selections),
    }
}

/// Whether the node breaks the rule.
pub(crate) fn breaks(schema: &Schema, node: &Node<'_>) -> bool
    ensures { result ≡ spec.breaks schema.now (view node.now) }
{
    match node {
        Node::Definition { .. } => false,
        Node::Variable { .. } => false,
        Node::Field { known, field, .. } => selects_badly(
            schema,
            *known,
            field.selections.as_slice(),
        ),
        Node::Spread { .. } => false,
        Node::Inline { .. } => false,
        Node::Directive { .. } => false,
        Node::Argument { .. } => false,
        Node::Value { .. } => false,
        Node::ObjectField { .. } => false,
    }
}
