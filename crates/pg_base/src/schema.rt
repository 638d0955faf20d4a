//! The schema: types, their fields, and what each field does (GraphQL October 2021, section 3).

ghost use Rattle.std.specs.Prelude.{◌≡◌};
ghost use Rattle.pg_base.specs.Schema.{IsValidSchema};

use crate::{Does, Text};
use sqlite_items::Items;
use std::marker::Model;

/// The number of the built-in type Int, in place of a place among the schema's types.
pub const INT: u32 = 4_294_967_293;

/// The number of the built-in type String.
pub const STRING: u32 = 4_294_967_294;

/// The number of the built-in type Boolean.
pub const BOOLEAN: u32 = 4_294_967_295;

/// A type where it is used: a place among the schema's types, or the number of a built-in one.
#[derive(Clone, Copy, PartialEq, Eq)]
pub struct TypeRef {
    pub name: u32,
    /// Whether it is a list of that type.
    pub list: bool,
    /// Whether no item of the list is null.
    pub item_not_null: bool,
    /// Whether it is never null as a whole.
    pub not_null: bool,
}

/// An argument of a field, or a field of an input type.
#[derive(Drop)]
pub struct ArgDef {
    pub name: Text,
    pub ty: TypeRef,
}

#[derive(Drop)]
pub struct FieldDef {
    pub name: Text,
    pub args: Items<ArgDef>,
    pub ty: TypeRef,
    pub does: Does,
    /// Why the field is deprecated, where it is.
    pub deprecated: Option<Text>,
}

#[derive(Drop)]
pub enum TypeKind {
    Scalar,
    Object(Items<FieldDef>),
    Enum(Items<Text>),
    Input(Items<ArgDef>),
}

#[derive(Drop)]
pub struct TypeDef {
    pub name: Text,
    pub kind: TypeKind,
}

/// The types of a schema, and which of them is Query, and Mutation where there is one. Each value of this type is
/// valid: each type that a field or an argument names is there and may stand there, and types, fields, arguments and
/// cases can be numbered with 32 bits.
#[derive(Drop)]
pub struct Schema {
    types: Items<TypeDef>,
    query: u32,
    mutation: Option<u32>,
}

impl Model for Schema {
    ghost use Rattle.pg_base.specs.Schema.{SchemaParts, IsValidSchema};

    ghost Value = { SchemaParts };

    ghost view = { λ s. record { types = s.types; query = s.query; mutation = s.mutation } };

    ghost invariant = { λ s.
        IsValidSchema (record { types = s.types; query = s.query; mutation = s.mutation }) };
}

impl Schema {
    pub fn of(types: Items<TypeDef>, query: u32, mutation: Option<u32>) -> Schema
        requires { IsValidSchema (record { types = types; query = query; mutation = mutation }) }
        ensures { result ≡ record { types = types; query = query; mutation = mutation } }
    {
        Schema {
            types,
            query,
            mutation,
        }
    }

    pub fn types(&self) -> &[TypeDef]
        ensures { result.now ≡ self.now.types }
    {
        self.types.as_slice()
    }

    /// The place of the type Query.
    pub fn query(&self) -> u32
        ensures { result ≡ self.now.query }
    {
        self.query
    }

    /// The place of the type Mutation.
    pub fn mutation(&self) -> Option<u32>
        ensures { result ≡ self.now.mutation }
    {
        self.mutation
    }

    /// Tells what the type keeps, and does nothing.
    pub fn know(&self)
        ensures { IsValidSchema self.now }
    {
        let _ = &self.types;
    }
}
