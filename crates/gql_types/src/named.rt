//! What a schema has by a name.

ghost use Rattle.std.specs.Prelude.{◌≡◌, ◌<◌, ◌^◌, length, option_map, IfSome};
ghost use Rattle.std.specs.Str.{bytes_eq};
ghost use Rattle.pg_base.specs.Schema.{kind_at};
ghost use Rattle.pg_base.specs.Schema as spec;
ghost use Rattle.gql_types.specs.Types as types;
ghost use Rattle.gql_types.specs.Positions.{ty_if};

use crate::position::Position;
use pg_base::schema::{BOOLEAN, INT, STRING};
use pg_base::{ArgDef, Schema, Text, TypeDef, TypeKind};

fn is_word(name: &Text, word: &str) -> bool
    ensures { result ≡ bytes_eq name.now word.now }
{
    name.bytes() == word.as_bytes()
}

fn place_of(defs: &[TypeDef], name: &Text) -> Option<usize>
    ensures place { result ≡ types.place_named defs.now name.now }
    ensures within { IfSome result (λ place. place < length defs.now) }
{
    defs.iter().position(|def| def.name == *name)
}

fn place_among(defs: &[TypeDef], name: &Text) -> Option<u32>
    requires { length defs.now < 2 ^ 32 }
    ensures { result ≡ types.place_named defs.now name.now }
{
    match place_of(defs, name) {
        Some(place) => Some(place as u32),
        None => None,
    }
}

/// The number of the type with the name.
pub fn type_named(schema: &Schema, name: &Text) -> Option<u32>
    ensures { result ≡ types.type_named schema.now name.now }
{
    if is_word(name, "Int") {
        return Some(INT);
    }
    if is_word(name, "String") {
        return Some(STRING);
    }
    if is_word(name, "Boolean") {
        return Some(BOOLEAN);
    }
    schema.know();
    place_among(schema.types(), name)
}

fn is_object(def: &TypeDef) -> bool
    ensures { result ≡ spec.is_object def.now.kind }
{
    match &def.kind {
        TypeKind::Scalar => false,
        TypeKind::Object(_) => true,
        TypeKind::Enum(_) => false,
        TypeKind::Input(_) => false,
    }
}

/// The type with the number, where it is an object type.
pub fn object_at(schema: &Schema, ty: u32) -> Option<u32>
    ensures { result ≡ types.object_at schema.now ty }
{
    match schema.types().get(ty as usize) {
        None => None,
        Some(def) => {
            if is_object(def) {
                return Some(ty);
            }
            None
        }
    }
}

/// The object type with the name.
pub fn object_named(schema: &Schema, name: &Text) -> Option<u32>
    ensures { result ≡ types.object_named schema.now name.now }
{
    match type_named(schema, name) {
        Some(ty) => object_at(schema, ty),
        None => None,
    }
}

/// The first argument or input field with the name.
pub fn arg_named<'a>(defs: &'a [ArgDef], name: &Text) -> Option<&'a ArgDef>
    ensures { option_map (λ d. d.now) result ≡ types.arg_named defs.now name.now }
{
    defs.iter().find(|def| def.name == *name)
}

/// The fields of the input type with the number.
pub fn inputs_of(schema: &Schema, ty: u32) -> Option<&[ArgDef]>
    ensures { option_map (λ d. d.now) result ≡ types.inputs_in (kind_at schema.now ty) }
{
    match schema.types().get(ty as usize) {
        None => None,
        Some(def) => match &def.kind {
            TypeKind::Input(fields) => Some(fields.as_slice()),
            TypeKind::Scalar => None,
            TypeKind::Object(_) => None,
            TypeKind::Enum(_) => None,
        },
    }
}

/// The fields of an object that stands where the type is expected.
pub fn inputs_at<'a>(schema: &'a Schema, at: Option<Position<'_>>) -> Option<&'a [ArgDef]>
    ensures { option_map (λ d. d.now) result ≡ types.inputs_at schema.now (ty_if at.entry) }
{
    let Some(position) = at else { return None };
    inputs_of(schema, position.name())
}
