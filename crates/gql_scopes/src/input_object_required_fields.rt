//! Input object required fields (5.6.4).

ghost use Rattle.std.specs.Prelude.{◌≡◌, ◌&&◌, not, option_map};
ghost use Rattle.std.specs.List.{list_any};
ghost use Rattle.gql_types.specs.Positions.{ty_if};
ghost use Rattle.gql_types.specs.Types.{inputs_at as the_inputs};
ghost use Rattle.gql_scopes.specs.Conditions.{if_some};
ghost use Rattle.gql_scopes.specs.GivenFields as listed;
ghost use Rattle.gql_nodes.specs.Listed.{view};
ghost use Rattle.gql_scopes.specs.InputObjectRequiredFields as spec;

use gql_nodes::Node;
use gql_reader::{ObjectField, Value, ValueKind};
use gql_types::{Position, inputs_at};
use pg_base::{ArgDef, Schema, Text};

pub(crate) fn is_null(value: &Value) -> bool
    ensures { result ≡ spec.is_null value.now.kind }
{
    match &value.kind {
        ValueKind::Variable(_) => false,
        ValueKind::Int(_) => false,
        ValueKind::Float(_) => false,
        ValueKind::String(_) => false,
        ValueKind::Boolean(_) => false,
        ValueKind::Null => true,
        ValueKind::Enum(_) => false,
        ValueKind::List(_) => false,
        ValueKind::Object(_) => false,
    }
}

fn is_given_as(field: &ObjectField, name: &Text) -> bool
    ensures { result ≡ listed.is_given_as name.now field.now }
{
    field.name == *name && !is_null(&field.value)
}

fn gives(fields: &[ObjectField], name: &Text) -> bool
    ensures { result ≡ list_any (listed.is_given_as name.now) fields.now }
{
    fields.iter().any(|field| is_given_as(field, name))
}

fn is_lacking(fields: &[ObjectField], def: &ArgDef) -> bool
    ensures { result ≡ listed.is_lacking fields.now def.now }
{
    def.ty.not_null && !gives(fields, &def.name)
}

fn lacks(fields: &[ObjectField], defs: &[ArgDef]) -> bool
    ensures { result ≡ list_any (listed.is_lacking fields.now) defs.now }
{
    defs.iter().any(|def| is_lacking(fields, def))
}

fn lacks_any(fields: &[ObjectField], defs: Option<&[ArgDef]>) -> bool
    ensures { result ≡ if_some (λ d. list_any (listed.is_lacking fields.now) d)
        (option_map (λ d. d.now) defs.entry) }
{
    match defs {
        None => false,
        Some(all) => lacks(fields, all),
    }
}

fn lacks_field(schema: &Schema, ty: Option<Position<'_>>, value: &Value) -> bool
    ensures { result ≡ spec.lacks_field schema.now (ty_if ty.entry) value.now.kind }
{
    match &value.kind {
        ValueKind::Variable(_) => false,
        ValueKind::Int(_) => false,
        ValueKind::Float(_) => false,
        ValueKind::String(_) => false,
        ValueKind::Boolean(_) => false,
        ValueKind::Null => false,
        ValueKind::Enum(_) => false,
        ValueKind::List(_) => false,
        ValueKind::Object(fields) => lacks_any(fields.as_slice(), inputs_at(schema, ty)),
    }
}

/// Whether the node breaks the rule.
pub(crate) fn breaks(schema: &Schema, node: &Node<'_>) -> bool
    ensures { result ≡ spec.breaks schema.now (view node.now) }
{
    match node {
        Node::Definition { .. } => false,
        Node::Variable { .. } => false,
        Node::Field { .. } => false,
        Node::Spread { .. } => false,
        Node::Inline { .. } => false,
        Node::Directive { .. } => false,
        Node::Argument { .. } => false,
        Node::Value { ty, value } => lacks_field(schema, *ty, value),
        Node::ObjectField { .. } => false,
    }
}
