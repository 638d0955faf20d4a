//! What is read where a type is expected.

ghost use Rattle.std.specs.Prelude.{◌≡◌};
ghost use Rattle.std.specs.Str.{bytes_eq};
ghost use Rattle.gql_input.specs.Inputs as spec;

use pg_base::schema::{BOOLEAN, INT, STRING};
use pg_base::{ArgDef, Schema, Text, TypeDef, TypeKind};

/// What is read where a type is expected.
#[derive(Clone, Copy)]
pub enum Input<'a> {
    /// An integer of 32 bits.
    Int,
    /// An integer of 64 bits.
    BigInt,
    /// A text: String, or Cursor.
    Text,
    Boolean,
    /// A case of an enum.
    Enum(&'a [Text]),
    /// The fields of an object.
    Object(&'a [ArgDef]),
    /// Nothing: the type is no input type.
    Nothing,
}

fn is_word(name: &Text, word: &str) -> bool
    ensures { result ≡ bytes_eq name.now word.now }
{
    name.bytes() == word.as_bytes()
}

fn scalar_named<'a>(name: &Text) -> Input<'a>
    ensures { spec.reads result ≡ spec.scalar_named name.now }
{
    if is_word(name, "BigInt") {
        return Input::BigInt;
    }
    if is_word(name, "Cursor") {
        return Input::Text;
    }
    Input::Nothing
}

fn input_of(def: &TypeDef) -> Input<'_>
    ensures { spec.reads result ≡ spec.reads_of def.now.kind def.now.name }
{
    match &def.kind {
        TypeKind::Scalar => scalar_named(&def.name),
        TypeKind::Object(_) => Input::Nothing,
        TypeKind::Enum(cases) => Input::Enum(cases.as_slice()),
        TypeKind::Input(fields) => Input::Object(fields.as_slice()),
    }
}

/// What is read where the type with the number is expected.
pub fn input_at(schema: &Schema, ty: u32) -> Input<'_>
    ensures { spec.reads result ≡ spec.reads_at schema.now ty }
{
    if ty == INT {
        return Input::Int;
    }
    if ty == STRING {
        return Input::Text;
    }
    if ty == BOOLEAN {
        return Input::Boolean;
    }
    match schema.types().get(ty as usize) {
        Some(def) => input_of(def),
        None => Input::Nothing,
    }
}
