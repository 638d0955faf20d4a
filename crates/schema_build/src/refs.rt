//! Types where they are used, and what is made of them.

ghost use Rattle.std.specs.Prelude.{◌≡◌, ◌++◌, [], ◌∷◌, IfOk, OnOk};
ghost use Rattle.pg_base.specs.TypeRefs as spec;

use crate::places::Places;
use pg_base::schema::{BOOLEAN, INT, STRING};
use pg_base::{ArgDef, Does, FieldDef, Kind, Memory, Role, Text, TypeRef};
use sqlite_items::Items;
use std::alloc::Global;

pub(crate) fn one(name: u32, not_null: bool) -> TypeRef
    ensures { result ≡ spec.one name not_null }
{
    TypeRef {
        name,
        list: false,
        item_not_null: false,
        not_null,
    }
}

pub(crate) fn many(name: u32, not_null: bool) -> TypeRef
    ensures { result ≡ spec.many name not_null }
{
    TypeRef {
        name,
        list: true,
        item_not_null: true,
        not_null,
    }
}

// The type of a column of the kind.
pub(crate) fn type_of_kind(types: &Places, kind: Kind) -> u32
    ensures { result ≡ spec.type_of_kind types.now kind }
{
    match kind {
        Kind::Int => INT,
        Kind::BigInt => types.of_role(Role::BigInt),
        Kind::Text => STRING,
        Kind::Varchar(_n) => STRING,
        Kind::Bool => BOOLEAN,
        Kind::Enum(place) => types.of_role(Role::Enum(place)),
    }
}

pub(crate) fn put_argument(
    alloc: Global,
    args: &mut Vec<ArgDef>,
    name: &str,
    ty: TypeRef,
) -> Result<(), Memory>
    ensures { OnOk result (args.new.items ≡ args.old.items ++ spec.argument name.now ty ∷ []) }
{
    let name = Text::of(alloc, name)?;
    args.push(ArgDef { name, ty })?;
    Ok(())
}

// A field that takes no arguments.
pub(crate) fn put_field(
    alloc: Global,
    fields: &mut Vec<FieldDef>,
    name: &str,
    ty: TypeRef,
    does: Does,
) -> Result<(), Memory>
    ensures { OnOk result (fields.new.items
        ≡ fields.old.items ++ spec.field name.now ty does ∷ []) }
{
    let name = Text::of(alloc, name)?;
    let args = Items::new(alloc);
    let deprecated = None;
    fields.push(FieldDef {
        name,
        args,
        ty,
        does,
        deprecated,
    })?;
    Ok(())
}
