//! Types of positions.

ghost use Rattle.std.specs.Prelude.{◌≡◌, ℕ, option_map};
ghost use Rattle.gql_types.specs.Types as types;
ghost use Rattle.gql_types.specs.Positions.{ty_at, ty_if};

use crate::named::{arg_named, type_named};
use gql_reader::Type;
use pg_base::{ArgDef, Schema, Text, TypeRef};

/// The type that is expected where a value stands.
#[derive(Clone, Copy)]
pub enum Position<'a> {
    /// Of an argument or an input field.
    Of(TypeRef),
    /// Of a variable as its definition writes it, and the number of the type inside all its lists.
    Written { name: u32, ty: &'a Type },
}

impl<'a> Position<'a> {
    /// The number of the type inside all lists.
    #[tactic(auto, using(crate::proofs::WrittenTypes::name_inside))]
    pub fn name(self) -> u32
        ensures { result ≡ types.innermost (ty_at self.entry) }
    {
        match self {
            Position::Of(ty) => ty.name,
            Position::Written { name, .. } => name,
        }
    }

    pub fn is_not_null(self) -> bool
        ensures { result ≡ types.is_not_null (ty_at self.entry) }
    {
        match self {
            Position::Of(ty) => ty.not_null,
            Position::Written { ty, .. } => is_non_null(ty),
        }
    }

    /// The type of the items, where a list is expected.
    pub fn item(self) -> Option<Position<'a>>
        ensures { ty_if result ≡ types.item_of (ty_at self.entry) }
    {
        match self {
            Position::Of(ty) => item_of_ref(ty),
            Position::Written { name, ty } => item_of_written(name, ty),
        }
    }
}

fn is_non_null(ty: &Type) -> bool
    ensures { (name : ℕ) → result ≡ types.is_not_null (types.ty_as name ty.now) }
{
    match ty {
        Type::Named { non_null, .. } => *non_null,
        Type::List { non_null, .. } => *non_null,
    }
}

fn item_of_ref<'a>(ty: TypeRef) -> Option<Position<'a>>
    ensures { ty_if result ≡ types.item_of (types.ty_of ty) }
{
    if ty.list {
        Some(Position::Of(TypeRef {
            name: ty.name,
            list: false,
            item_not_null: false,
            not_null: ty.item_not_null,
        }))
    } else {
        None
    }
}

fn item_of_written<'a>(name: u32, ty: &'a Type) -> Option<Position<'a>>
    ensures { ty_if result ≡ types.item_of (types.ty_as name ty.now) }
{
    match ty {
        Type::Named { .. } => None,
        Type::List { item, .. } => Some(Position::Written {
            name,
            ty: item.get(),
        }),
    }
}

/// The name inside all lists.
fn innermost_name(ty: &Type) -> &Text
    ensures { result.now ≡ types.innermost_name ty.now }
{
    match ty {
        Type::Named { name, .. } => name,
        Type::List { item, .. } => innermost_name(item.get()),
    }
}

/// The type that a document writes, where the schema has its name.
pub fn written<'a>(schema: &Schema, ty: &'a Type) -> Option<Position<'a>>
    ensures { ty_if result ≡ types.ty_written schema.now ty.now }
{
    match type_named(schema, innermost_name(ty)) {
        Some(name) => Some(Position::Written { name, ty }),
        None => None,
    }
}

/// The type that is expected for an argument or an input field, where it is known.
pub fn expected<'a>(defs: Option<&[ArgDef]>, name: &Text) -> Option<Position<'a>>
    ensures { ty_if result ≡ types.expected (option_map (λ d. d.now) defs.entry) name.now }
{
    let Some(all) = defs else { return None };
    expected_among(all, name)
}

fn expected_among<'a>(defs: &[ArgDef], name: &Text) -> Option<Position<'a>>
    ensures { ty_if result
        ≡ option_map (λ d. types.ty_of d.ty) (types.arg_named defs.now name.now) }
{
    match arg_named(defs, name) {
        Some(def) => Some(Position::Of(def.ty)),
        None => None,
    }
}
