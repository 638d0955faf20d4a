//! Parent types, fields and the arguments of directives.

ghost use Rattle.std.specs.Prelude.{◌≡◌, ◌∷◌, [], ◌||◌, IfOk, option_map};
ghost use Rattle.std.specs.Str.{bytes_eq};
ghost use Rattle.pg_base.specs.Schema.{kind_at, fields_of};
ghost use Rattle.gql_nodes.specs.Fields as spec;
ghost use Rattle.gql_nodes.specs.Listed.{known_at};

use gql_reader::OperationKind;
use gql_types::{object_at, object_named};
use pg_base::schema::{BOOLEAN, STRING};
use pg_base::{ArgDef, FieldDef, Memory, Schema, Text, TypeKind, TypeRef};
use sqlite_items::Items;
use std::alloc::Global;

/// What rules ask of a field of the schema: its arguments and its type.
#[derive(Clone, Copy)]
pub struct Known<'a> {
    pub args: &'a [ArgDef],
    pub ty: TypeRef,
}

/// The root type of an operation, if there is one.
pub fn root_of(schema: &Schema, kind: OperationKind) -> Option<u32>
    ensures { result ≡ spec.root_of schema.now kind }
{
    match kind {
        OperationKind::Query => Some(schema.query()),
        OperationKind::Mutation => schema.mutation(),
        OperationKind::Subscription => None,
    }
}

/// The parent type within an inline fragment.
pub(crate) fn within_condition(
    schema: &Schema,
    parent: Option<u32>,
    type_condition: &Option<Text>,
) -> Option<u32>
    ensures { result ≡ spec.within_condition schema.now parent type_condition.now }
{
    match type_condition {
        None => parent,
        Some(name) => object_named(schema, name),
    }
}

fn is_word(name: &Text, word: &str) -> bool
    ensures { result ≡ bytes_eq name.now word.now }
{
    name.bytes() == word.as_bytes()
}

fn required(name: u32) -> TypeRef
    ensures { result ≡ spec.required name }
{
    TypeRef {
        name,
        list: false,
        item_not_null: false,
        not_null: true,
    }
}

fn fields_at(schema: &Schema, ty: u32) -> &[FieldDef]
    ensures { result.now ≡ fields_of (kind_at schema.now ty) }
{
    match schema.types().get(ty as usize) {
        None => &[],
        Some(def) => match &def.kind {
            TypeKind::Scalar => &[],
            TypeKind::Object(fields) => fields.as_slice(),
            TypeKind::Enum(_) => &[],
            TypeKind::Input(_) => &[],
        },
    }
}

fn field_among<'a>(fields: &'a [FieldDef], name: &Text) -> Option<Known<'a>>
    ensures { option_map known_at result ≡ spec.field_among fields.now name.now }
{
    for field in fields {
        if field.name == *name {
            return Some(Known {
                args: field.args.as_slice(),
                ty: field.ty,
            });
        }
    }
    None
}

fn field_named<'a>(schema: &'a Schema, parent: u32, name: &Text) -> Option<Known<'a>>
    ensures { option_map known_at result ≡ spec.field_named schema.now parent name.now }
{
    if is_word(name, "__typename") {
        return Some(Known {
            args: &[],
            ty: required(STRING),
        });
    }
    field_among(fields_at(schema, parent), name)
}

/// The field of the name, where the parent type is known and has it.
pub fn field_of<'a>(schema: &'a Schema, parent: Option<u32>, name: &Text) -> Option<Known<'a>>
    ensures { option_map known_at result ≡ spec.field_of schema.now parent name.now }
{
    match parent {
        None => None,
        Some(ty) => field_named(schema, ty, name),
    }
}

/// The parent type of the selection set below a field.
pub(crate) fn below(schema: &Schema, known: Option<Known<'_>>) -> Option<u32>
    ensures { result ≡ spec.below schema.now (option_map known_at known.entry) }
{
    match known {
        None => None,
        Some(field) => object_at(schema, field.ty.name),
    }
}

/// The arguments that a field has.
pub(crate) fn args_of<'a>(known: Option<Known<'a>>) -> Option<&'a [ArgDef]>
    ensures { option_map (λ x. x.now) result ≡ spec.args_of (option_map known_at known.entry) }
{
    match known {
        None => None,
        Some(field) => Some(field.args),
    }
}

/// The arguments of `skip` and of `include`.
pub fn if_args(alloc: Global) -> Result<Items<ArgDef>, Memory>
    ensures { IfOk result (λ args. args ≡ spec.if_args) }
{
    let mut args = Items::new(alloc);
    args.push(ArgDef {
        name: Text::of(alloc, "if")?,
        ty: required(BOOLEAN),
    })?;
    Ok(args)
}

/// The arguments of the directive with the name, where there is one.
pub fn directive_args<'a>(if_args: &'a [ArgDef], name: &Text) -> Option<&'a [ArgDef]>
    requires { if_args.now ≡ spec.if_args }
    ensures { option_map (λ x. x.now) result ≡ spec.directive_args name.now }
{
    if is_word(name, "skip") {
        return Some(if_args);
    }
    if is_word(name, "include") {
        return Some(if_args);
    }
    None
}
