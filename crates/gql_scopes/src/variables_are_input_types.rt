//! Variables are input types (5.8.2).

ghost use Rattle.std.specs.Prelude.{◌≡◌, not};
ghost use Rattle.pg_base.specs.Schema as types;
ghost use Rattle.gql_types.specs.Positions.{ty_if};
ghost use Rattle.gql_types.specs.Types.{ty_written};
ghost use Rattle.gql_nodes.specs.Listed.{view};
ghost use Rattle.gql_scopes.specs.VariablesAreInputTypes as spec;

use gql_nodes::Node;
use gql_reader::Type;
use gql_types::{Position, written};
use pg_base::{Schema, TypeDef, TypeKind};

fn is_input(def: &TypeDef) -> bool
    ensures { result ≡ types.is_input def.now.kind }
{
    match &def.kind {
        TypeKind::Scalar => true,
        TypeKind::Object(_) => false,
        TypeKind::Enum(_) => true,
        TypeKind::Input(_) => true,
    }
}

/// A built-in type stands at no place, and is a scalar.
fn is_input_at(schema: &Schema, ty: u32) -> bool
    ensures { result ≡ types.is_input (types.kind_at schema.now ty) }
{
    match schema.types().get(ty as usize) {
        None => true,
        Some(def) => is_input(def),
    }
}

fn is_input_position(schema: &Schema, ty: Option<Position<'_>>) -> bool
    ensures { result ≡ spec.is_input_ty schema.now (ty_if ty.entry) }
{
    match ty {
        None => false,
        Some(at) => is_input_at(schema, at.name()),
    }
}

fn is_input_type(schema: &Schema, ty: &Type) -> bool
    ensures { result ≡ spec.is_input_ty schema.now (ty_written schema.now ty.now) }
{
    is_input_position(schema, written(schema, ty))
}

/// Whether the node breaks the rule.
pub(crate) fn breaks(schema: &Schema, node: &Node<'_>) -> bool
    ensures { result ≡ spec.breaks schema.now (view node.now) }
{
    match node {
        Node::Definition { .. } => false,
        Node::Variable { variable, .. } => !is_input_type(schema, &variable.ty),
        Node::Field { .. } => false,
        Node::Spread { .. } => false,
        Node::Inline { .. } => false,
        Node::Directive { .. } => false,
        Node::Argument { .. } => false,
        Node::Value { .. } => false,
        Node::ObjectField { .. } => false,
    }
}
