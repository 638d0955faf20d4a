//! Nulls at non-null positions of arguments.

ghost use Rattle.std.specs.Prelude.{◌≡◌, ◌++◌, ◌<◌, ◌^◌, IfOk, codes, length};
ghost use Rattle.place_tree.specs.Arguments as spec;
ghost use Rattle.list_execution.specs.Listed.{some_null, some_member_null};

use crate::arguments::argument;
use crate::lookups::inputs_at;
use pg_base::{ArgDef, Member, Memory, Schema, Text, TypeRef, Value, Vars};
use place_tree::Place;
use std::alloc::Global;

fn item_type(ty: TypeRef) -> TypeRef
    ensures { result ≡ spec.item_type ty }
{
    TypeRef {
        name: ty.name,
        list: false,
        item_not_null: false,
        not_null: ty.item_not_null,
    }
}

/// The type of the first field that has the name; one that takes nulls where none has it.
fn type_in(inputs: &[ArgDef], name: &Text) -> TypeRef
    ensures { result ≡ spec.type_in inputs.now name.now }
{
    for input in inputs {
        if input.name == *name {
            return input.ty;
        }
    }
    TypeRef {
        name: 0,
        list: false,
        item_not_null: false,
        not_null: false,
    }
}

#[cycle(nulls)]
fn has_null(schema: &Schema, ty: TypeRef, value: &Value) -> bool
    ensures { result ≡ spec.has_null schema.now ty value.now }
{
    match value {
        Value::Null => ty.not_null,
        Value::Int(_) => false,
        Value::Bool(_) => false,
        Value::Text(_) => false,
        Value::Case(_) => false,
        Value::List(items) => some_has_null(schema, item_type(ty), items.as_slice()),
        Value::Object(members) => {
            member_has_null(schema, inputs_at(schema, ty.name), members.as_slice())
        }
    }
}

#[cycle(nulls)]
fn some_has_null(schema: &Schema, ty: TypeRef, items: &[Value]) -> bool
    ensures { result ≡ some_null schema.now ty items.now }
{
    for item in items {
        if has_null(schema, ty, item) {
            return true;
        }
    }
    false
}

#[cycle(nulls)]
fn member_has_null(schema: &Schema, inputs: &[ArgDef], members: &[Member]) -> bool
    ensures { result ≡ some_member_null schema.now inputs.now members.now }
{
    for member in members {
        if has_null(schema, type_in(inputs, &member.name), &member.value) {
            return true;
        }
    }
    false
}

fn given_null(schema: &Schema, ty: TypeRef, given: &Option<Value>) -> bool
    ensures { result ≡ spec.given_null schema.now ty given.now }
{
    match given {
        None => false,
        Some(value) => has_null(schema, ty, value),
    }
}

fn null_message(alloc: Global, name: &Text) -> Result<Text, Memory>
    ensures { IfOk result (λ text. text ≡ codes "null for argument " ++ name.now) }
{
    let mut message = Vec::new(alloc);
    message.extend_from_slice(b"null for argument ")?;
    message.extend_from_slice(name.bytes())?;
    Ok(Text::of_bytes(message))
}

fn is_null_given(
    alloc: Global,
    schema: &Schema,
    vars: &Vars,
    place: &Place,
    arg: u32,
    ty: TypeRef,
) -> Result<bool, Memory>
    ensures { IfOk result (λ b. b ≡
        spec.given_null schema.now ty (spec.argument vars.now place.now arg)) }
{
    let given = argument(alloc, vars, place, arg)?;
    Ok(given_null(schema, ty, &given))
}

/// The first argument that has a null at a non-null position, as an error.
pub(crate) fn null_error(
    alloc: Global,
    schema: &Schema,
    vars: &Vars,
    place: &Place,
    args: &[ArgDef],
) -> Result<Option<Text>, Memory>
    requires few { length args.now < 2 ^ 32 }
    ensures { IfOk result (λ error. error ≡
        spec.null_error schema.now vars.now place.now 0 args.now) }
{
    for i in 0..args.len() {
        if is_null_given(alloc, schema, vars, place, i as u32, args[i].ty)? {
            let message = null_message(alloc, &args[i].name)?;
            return Ok(Some(message));
        }
    }
    Ok(None)
}
