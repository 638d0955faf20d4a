//! Fragment spread is possible (5.5.2.3).

ghost use Rattle.std.specs.Prelude.{◌≡◌, option_map, option_and_then};
ghost use Rattle.gql_nodes.specs.Uses as uses;
ghost use Rattle.gql_scopes.specs.Tests as tests;
ghost use Rattle.gql_types.specs.Types as types;
ghost use Rattle.gql_nodes.specs.Listed.{view};
ghost use Rattle.gql_scopes.specs.FragmentSpreadIsPossible as spec;

use crate::tables::Tables;
use crate::uses::fragment_at;
use gql_nodes::Node;
use gql_reader::Document;
use gql_types::object_named;
use pg_base::{Schema, Text};

fn differ(parent: Option<u32>, ty: Option<u32>) -> bool
    ensures { result ≡ spec.differ parent ty }
{
    match parent {
        None => false,
        Some(one) => match ty {
            None => false,
            Some(other) => one != other,
        },
    }
}

fn condition_type(schema: &Schema, condition: Option<&Text>) -> Option<u32>
    ensures { result ≡ option_and_then (types.object_named schema.now)
        (option_map (λ name. name.now) condition.entry) }
{
    match condition {
        None => None,
        Some(name) => object_named(schema, name),
    }
}

/// The type of the fragment at the place.
fn fragment_type(schema: &Schema, document: &Document, place: Option<usize>) -> Option<u32>
    ensures { result ≡ option_and_then (λ f. types.object_named schema.now f.type_condition)
        (option_and_then (uses.fragment_at document.now) place) }
{
    match place {
        None => None,
        Some(at) => match fragment_at(document, at) {
            None => None,
            Some(fragment) => object_named(schema, &fragment.type_condition),
        },
    }
}

/// The type of the fragment with the name.
fn target_type(schema: &Schema, document: &Document, tables: &Tables, name: &Text) -> Option<u32>
    ensures { result ≡ tests.target_type schema.now document.now tables.now name.now }
{
    fragment_type(schema, document, tables.fragment(name))
}

/// Whether the node breaks the rule.
pub(crate) fn breaks(schema: &Schema, document: &Document, tables: &Tables, node: &Node<'_>) -> bool
    ensures { result ≡ tests.is_impossible schema.now document.now tables.now (view node.now) }
{
    match node {
        Node::Definition { .. } => false,
        Node::Variable { .. } => false,
        Node::Field { .. } => false,
        Node::Spread { parent, spread, .. } => differ(
            *parent,
            target_type(schema, document, tables, &spread.name),
        ),
        Node::Inline { parent, inline, .. } => differ(
            *parent,
            condition_type(schema, inline.type_condition.as_ref()),
        ),
        Node::Directive { .. } => false,
        Node::Argument { .. } => false,
        Node::Value { .. } => false,
        Node::ObjectField { .. } => false,
    }
}
