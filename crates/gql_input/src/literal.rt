//! Literals at their positions' types.

ghost use Rattle.std.specs.Prelude.{◌≡◌};
ghost use Rattle.pg_base.specs.Schema.{SchemaParts};
ghost use Rattle.gql_types.specs.Positions.{ty_at, ty_if};
ghost use Rattle.gql_input.specs.declared.argument.ArgValue.{ArgValue};
ghost use Rattle.gql_input.specs.Coerced.{Answers};
ghost use Rattle.gql_input.specs.Coercions as common;
ghost use Rattle.gql_input.specs.Inputs.{reads, has_fields as has_fields_at};
ghost use Rattle.gql_input.specs.Leaves.{leaf_of};
ghost use Rattle.gql_input.specs.Listed.{each_literal, each_field};
ghost use Rattle.gql_input.specs.Literals as spec;

use crate::argument::{ArgMember, ArgValue};
use crate::fault::{InputError, MISSING, NULL_GIVEN, UNKNOWN_FIELD, WRONG_KIND};
use crate::input::{Input, input_at};
use crate::leaf::{Leaf, argument_of, boolean_at, case_at, spelled_at, string_at};
use crate::lists::argument_in_lists;
use crate::texts::as_str;
use gql_reader::{ObjectField, Value, ValueKind};
use gql_types::{Position, arg_named};
use pg_base::{ArgDef, Schema};
use sqlite_items::Items;
use std::alloc::Global;

fn leaf_argument(
    alloc: Global,
    at: Position<'_>,
    leaf: Result<Leaf<'_>, u8>,
) -> Result<ArgValue, InputError>
    ensures { Answers (spec.leaf_at (ty_at at.entry) (common.map_ok leaf_of leaf.entry)) result }
{
    match leaf {
        Ok(leaf) => {
            let value = argument_of(alloc, leaf)?;
            let listed = argument_in_lists(alloc, at, value)?;
            Ok(listed)
        }
        Err(which) => Err(InputError::Fault(which)),
    }
}

fn is_read(leaf: Result<Leaf<'_>, u8>) -> bool
    ensures { result ≡ common.is_ok (common.map_ok leaf_of leaf.entry) }
{
    match leaf {
        Ok(_) => true,
        Err(_) => false,
    }
}

fn has_fields(input: Input<'_>) -> bool
    ensures { result ≡ has_fields_at (reads input.entry) }
{
    match input {
        Input::Int => false,
        Input::BigInt => false,
        Input::Text => false,
        Input::Boolean => false,
        Input::Enum(_) => false,
        Input::Object(_) => true,
        Input::Nothing => false,
    }
}

/// Whether a literal, by itself, can stand where the type is expected: what a list or an object holds are literals of
/// their own. A variable can stand anywhere here.
pub fn fits(schema: &Schema, value: &Value, at: Position<'_>) -> bool
    ensures { result ≡ spec.fits schema.now value.now.kind (ty_at at.entry) }
{
    let input = input_at(schema, at.name());
    match &value.kind {
        ValueKind::Variable(_) => true,
        ValueKind::Int(text) => is_read(spelled_at(input, as_str(text))),
        ValueKind::Float(_) => false,
        ValueKind::String(text) => is_read(string_at(input, as_str(text))),
        ValueKind::Boolean(truth) => is_read(boolean_at(input, *truth)),
        ValueKind::Null => !at.is_not_null(),
        ValueKind::Enum(name) => is_read(case_at(input, as_str(name))),
        ValueKind::List(_) => at.item().is_some(),
        ValueKind::Object(_) => has_fields(input),
    }
}

/// A list of one for each list that is expected, unless there is a fault.
fn listed(
    alloc: Global,
    at: Position<'_>,
    value: Result<ArgValue, InputError>,
) -> Result<ArgValue, InputError>
    ensures { (due : common.Coercion ArgValue) → Answers due value
        → Answers (common.map_ok (common.in_lists spec.one (ty_at at.entry)) due) result }
{
    match value {
        Ok(value) => {
            let listed = argument_in_lists(alloc, at, value)?;
            Ok(listed)
        }
        Err(fault) => Err(fault),
    }
}

/// What the literal becomes where the type is expected: numbers are read, an object has its fields in the order of the
/// schema, what isn't a list is a list of one where one is expected, and a variable stands for itself.
///
/// # Errors
/// The number of the literal's first fault, which no literal of a valid document has, or out of memory.
#[cycle(literal)]
pub fn coerce_literal(
    alloc: Global,
    schema: &Schema,
    value: &Value,
    at: Position<'_>,
) -> Result<ArgValue, InputError>
    ensures { Answers (spec.literal_at schema.now value.now.kind (ty_at at.entry)) result }
{
    let input = input_at(schema, at.name());
    match &value.kind {
        ValueKind::Variable(name) => Ok(ArgValue::Variable(name.copy(alloc)?)),
        ValueKind::Int(text) => leaf_argument(alloc, at, spelled_at(input, as_str(text))),
        ValueKind::Float(_) => Err(InputError::Fault(WRONG_KIND)),
        ValueKind::String(text) => leaf_argument(alloc, at, string_at(input, as_str(text))),
        ValueKind::Boolean(truth) => leaf_argument(alloc, at, boolean_at(input, *truth)),
        ValueKind::Null => {
            if at.is_not_null() {
                return Err(InputError::Fault(NULL_GIVEN));
            }
            Ok(ArgValue::Null)
        }
        ValueKind::Enum(name) => leaf_argument(alloc, at, case_at(input, as_str(name))),
        ValueKind::List(items) => coerce_list(alloc, schema, items.as_slice(), at.item()),
        ValueKind::Object(fields) => {
            listed(
                alloc,
                at,
                coerce_object(alloc, schema, fields.as_slice(), input),
            )
        }
    }
}

#[cycle(literal)]
fn coerce_list(
    alloc: Global,
    schema: &Schema,
    items: &[Value],
    at: Option<Position<'_>>,
) -> Result<ArgValue, InputError>
    ensures { Answers
        (common.list_at spec.many (ty_if at.entry) (each_literal schema.now items.now)) result }
{
    match at {
        None => Err(InputError::Fault(WRONG_KIND)),
        Some(item) => {
            let values = coerce_items(alloc, schema, items, item)?;
            Ok(ArgValue::List(values))
        }
    }
}

#[cycle(literal)]
fn coerce_items(
    alloc: Global,
    schema: &Schema,
    items: &[Value],
    at: Position<'_>,
) -> Result<Items<ArgValue>, InputError>
    ensures { Answers (each_literal schema.now items.now (ty_at at.entry)) result }
{
    let mut values = Items::new(alloc);
    for item in items {
        let value = coerce_literal(alloc, schema, item, at)?;
        values.push(value)?;
    }
    Ok(values)
}

/// An object, where one is read.
#[cycle(literal)]
fn coerce_object(
    alloc: Global,
    schema: &Schema,
    fields: &[ObjectField],
    input: Input<'_>,
) -> Result<ArgValue, InputError>
    ensures { Answers
        (spec.object_at (reads input.entry) (each_field schema.now fields.now)) result }
{
    match input {
        Input::Int => Err(InputError::Fault(WRONG_KIND)),
        Input::BigInt => Err(InputError::Fault(WRONG_KIND)),
        Input::Text => Err(InputError::Fault(WRONG_KIND)),
        Input::Boolean => Err(InputError::Fault(WRONG_KIND)),
        Input::Enum(_) => Err(InputError::Fault(WRONG_KIND)),
        Input::Object(defs) => {
            let members = coerce_fields(alloc, schema, fields, defs)?;
            Ok(ArgValue::Object(members))
        }
        Input::Nothing => Err(InputError::Fault(WRONG_KIND)),
    }
}

fn has_unknown(fields: &[ObjectField], defs: &[ArgDef]) -> bool
    ensures { (schema : SchemaParts) → result
        ≡ common.has_unknown defs.now (each_field schema fields.now) }
{
    for field in fields {
        if arg_named(defs, &field.name).is_none() {
            return true;
        }
    }
    false
}

#[cycle(literal)]
fn coerce_fields(
    alloc: Global,
    schema: &Schema,
    fields: &[ObjectField],
    defs: &[ArgDef],
) -> Result<Items<ArgMember>, InputError>
    ensures { Answers
        (common.fields_at spec.member defs.now (each_field schema.now fields.now)) result }
{
    if has_unknown(fields, defs) {
        return Err(InputError::Fault(UNKNOWN_FIELD));
    }
    let mut members = Items::new(alloc);
    for def in defs {
        let Some(member) = coerce_field(alloc, schema, fields, def)? else {
            continue;
        };
        members.push(member)?;
    }
    Ok(members)
}

/// The field of the definition, where it is written.
#[cycle(literal)]
fn coerce_field(
    alloc: Global,
    schema: &Schema,
    fields: &[ObjectField],
    def: &ArgDef,
) -> Result<Option<ArgMember>, InputError>
    ensures { Answers (common.member_at (spec.member def.now.name) def.now.ty.not_null
        (common.given_for (each_field schema.now fields.now) def.now)) result }
{
    for field in fields {
        if field.name == def.name {
            let value = coerce_literal(alloc, schema, &field.value, Position::Of(def.ty))?;
            let name = def.name.copy(alloc)?;
            return Ok(Some(ArgMember { name, value }));
        }
    }
    if def.ty.not_null {
        return Err(InputError::Fault(MISSING));
    }
    Ok(None)
}
