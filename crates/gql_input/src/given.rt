//! What is given in JSON, at the types of variables.

ghost use Rattle.std.specs.Prelude.{◌≡◌, is_some, string_bytes};
ghost use Rattle.serde_json.specs.Find.{as_i64};
ghost use Rattle.serde_json.specs.View.{view, number_view, items_view, members_view};
ghost use Rattle.gql_types.specs.Positions.{ty_at, ty_if};
ghost use Rattle.gql_types.specs.Types.{arg_named};
ghost use Rattle.pg_base.specs.declared.value.Value.{Value as Held};
ghost use Rattle.gql_input.specs.Coerced.{Answers};
ghost use Rattle.gql_input.specs.Coercions as common;
ghost use Rattle.gql_input.specs.Given as spec;
ghost use Rattle.gql_input.specs.Inputs.{reads};
ghost use Rattle.gql_input.specs.Leaves as leaves;
ghost use Rattle.pg_base.specs.Schema.{SchemaParts};

use crate::fault::{InputError, MISSING, NULL_GIVEN, UNKNOWN_FIELD, WRONG_KIND};
use crate::input::{Input, input_at};
use crate::leaf::{Leaf, boolean_at, integer_at, json_string_at, value_of};
use crate::lists::value_in_lists;
use gql_types::Position;
use pg_base::{ArgDef, Member, Schema, Value};
use serde_json::{Map, Number, Value as Json};
use sqlite_items::Items;
use std::alloc::Global;

fn leaf_value(
    alloc: Global,
    at: Position<'_>,
    leaf: Result<Leaf<'_>, u8>,
) -> Result<Value, InputError>
    ensures { Answers
        (spec.leaf_at (ty_at at.entry) (common.map_ok leaves.leaf_of leaf.entry)) result }
{
    match leaf {
        Ok(leaf) => {
            let value = value_of(alloc, leaf)?;
            let listed = value_in_lists(alloc, at, value)?;
            Ok(listed)
        }
        Err(which) => Err(InputError::Fault(which)),
    }
}

fn number_at<'a>(input: Input<'_>, number: &Number) -> Result<Leaf<'a>, u8>
    ensures { common.map_ok leaves.leaf_of result
        ≡ leaves.number_at (reads input.entry) (as_i64 (number_view number.now)) }
{
    match number.as_i64() {
        Some(integer) => integer_at(input, integer),
        None => Err(WRONG_KIND),
    }
}

/// A list of one for each list that is expected, unless there is a fault.
fn listed(
    alloc: Global,
    at: Position<'_>,
    value: Result<Value, InputError>,
) -> Result<Value, InputError>
    ensures { (due : common.Coercion Held) → Answers due value
        → Answers (common.map_ok (common.in_lists spec.one (ty_at at.entry)) due) result }
{
    match value {
        Ok(value) => {
            let listed = value_in_lists(alloc, at, value)?;
            Ok(listed)
        }
        Err(fault) => Err(fault),
    }
}

/// What is given becomes this where the type is expected, or has a fault.
#[cycle(given)]
pub(crate) fn coerce_given(
    alloc: Global,
    schema: &Schema,
    given: &Json,
    at: Position<'_>,
) -> Result<Value, InputError>
    ensures { Answers (spec.given_at schema.now (view given.now) (ty_at at.entry)) result }
{
    let input = input_at(schema, at.name());
    match given {
        Json::Null => {
            if at.is_not_null() {
                return Err(InputError::Fault(NULL_GIVEN));
            }
            Ok(Value::Null)
        }
        Json::Bool(truth) => leaf_value(alloc, at, boolean_at(input, *truth)),
        Json::Number(number) => leaf_value(alloc, at, number_at(input, number)),
        Json::String(text) => leaf_value(alloc, at, json_string_at(input, text.as_str())),
        Json::Array(items) => coerce_list(alloc, schema, items, at.item()),
        Json::Object(members) => { listed(alloc, at, coerce_object(alloc, schema, members, input)) }
    }
}

#[cycle(given)]
fn coerce_list(
    alloc: Global,
    schema: &Schema,
    items: &Vec<Json>,
    at: Option<Position<'_>>,
) -> Result<Value, InputError>
    ensures { Answers (common.list_at spec.many (ty_if at.entry)
        (spec.items_at schema.now (items_view items.now.items))) result }
{
    match at {
        None => Err(InputError::Fault(WRONG_KIND)),
        Some(item) => {
            let values = coerce_items(alloc, schema, items, item)?;
            Ok(Value::List(values))
        }
    }
}

#[cycle(given)]
fn coerce_items(
    alloc: Global,
    schema: &Schema,
    items: &Vec<Json>,
    at: Position<'_>,
) -> Result<Items<Value>, InputError>
    ensures { Answers
        (spec.items_at schema.now (items_view items.now.items) (ty_at at.entry)) result }
{
    let mut values = Items::new(alloc);
    for item in items {
        let value = coerce_given(alloc, schema, item, at)?;
        values.push(value)?;
    }
    Ok(values)
}

/// An object, where one is read.
#[cycle(given)]
fn coerce_object(
    alloc: Global,
    schema: &Schema,
    members: &Map<String, Json>,
    input: Input<'_>,
) -> Result<Value, InputError>
    ensures { Answers (spec.object_at (reads input.entry)
        (spec.given_fields schema.now (members_view members.now.entries))) result }
{
    match input {
        Input::Int => Err(InputError::Fault(WRONG_KIND)),
        Input::BigInt => Err(InputError::Fault(WRONG_KIND)),
        Input::Text => Err(InputError::Fault(WRONG_KIND)),
        Input::Boolean => Err(InputError::Fault(WRONG_KIND)),
        Input::Enum(_) => Err(InputError::Fault(WRONG_KIND)),
        Input::Object(defs) => {
            let fields = coerce_fields(alloc, schema, members, defs)?;
            Ok(Value::Object(fields))
        }
        Input::Nothing => Err(InputError::Fault(WRONG_KIND)),
    }
}

fn is_defined(name: &String, defs: &[ArgDef]) -> bool
    ensures { result ≡ is_some (arg_named defs.now (string_bytes name.now)) }
{
    for def in defs {
        if def.name.bytes() == name.as_bytes() {
            return true;
        }
    }
    false
}

fn has_unknown(members: &Map<String, Json>, defs: &[ArgDef]) -> bool
    ensures { (schema : SchemaParts) → result ≡ common.has_unknown defs.now
        (spec.given_fields schema (members_view members.now.entries)) }
{
    for (name, _) in members.iter() {
        if !is_defined(name, defs) {
            return true;
        }
    }
    false
}

#[cycle(given)]
fn coerce_fields(
    alloc: Global,
    schema: &Schema,
    members: &Map<String, Json>,
    defs: &[ArgDef],
) -> Result<Items<Member>, InputError>
    ensures { Answers (common.fields_at spec.member defs.now
        (spec.given_fields schema.now (members_view members.now.entries))) result }
{
    if has_unknown(members, defs) {
        return Err(InputError::Fault(UNKNOWN_FIELD));
    }
    let mut fields = Items::new(alloc);
    for def in defs {
        let Some(field) = coerce_field(alloc, schema, members, def)? else {
            continue;
        };
        fields.push(field)?;
    }
    Ok(fields)
}

/// The field of the definition, where it is given.
#[cycle(given)]
fn coerce_field(
    alloc: Global,
    schema: &Schema,
    members: &Map<String, Json>,
    def: &ArgDef,
) -> Result<Option<Member>, InputError>
    ensures { Answers (common.member_at (spec.member def.now.name) def.now.ty.not_null
        (common.given_for
        (spec.given_fields schema.now (members_view members.now.entries)) def.now)) result }
{
    for (key, member) in members.iter() {
        if key.as_bytes() == def.name.bytes() {
            let value = coerce_given(alloc, schema, member, Position::Of(def.ty))?;
            let name = def.name.copy(alloc)?;
            return Ok(Some(Member { name, value }));
        }
    }
    if def.ty.not_null {
        return Err(InputError::Fault(MISSING));
    }
    Ok(None)
}
