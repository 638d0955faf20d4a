//! The arguments of a place (GraphQL October 2021, section 6.4.1).

ghost use Rattle.std.specs.Prelude.{◌≡◌, IfOk, option_map};
ghost use Rattle.pg_base.specs.Value as values;
ghost use Rattle.place_tree.specs.Arguments as spec;

use gql_input::{ArgValue, value_with};
use pg_base::{Memory, Text, Value, Vars};
use place_tree::{Place, PlaceArg};
use std::alloc::Global;

/// The places of a connection's arguments.
pub(crate) const FIRST: u32 = 0;

pub(crate) const LAST: u32 = 1;

pub(crate) const OFFSET: u32 = 2;

pub(crate) const BEFORE: u32 = 3;

pub(crate) const AFTER: u32 = 4;

pub(crate) const ORDER_BY: u32 = 5;

pub(crate) const CONDITION: u32 = 6;

/// What is written for an argument.
fn written(args: &[PlaceArg], arg: u32) -> Option<&ArgValue>
    ensures { option_map (λ v. v.now) result ≡ spec.written args.now arg }
{
    for item in args {
        if item.arg == arg {
            return Some(&item.value);
        }
    }
    None
}

/// What is given for an argument of a place.
pub(crate) fn argument(
    alloc: Global,
    vars: &Vars,
    place: &Place,
    arg: u32,
) -> Result<Option<Value>, Memory>
    ensures { IfOk result (λ v. v ≡ spec.argument vars.now place.now arg) }
{
    match written(place.args.as_slice(), arg) {
        Some(value) => {
            let given = value_with(alloc, vars, value)?;
            Ok(given)
        }
        None => Ok(None),
    }
}

fn natural(number: i64) -> Option<u64>
    ensures { result ≡ spec.natural_of number }
{
    if number < 0 {
        return None;
    }
    Some(number as u64)
}

/// The number that is given, where it is one from 0.
pub(crate) fn number_of(given: &Option<Value>) -> Option<u64>
    ensures { result ≡ spec.number_of given.now }
{
    match given {
        None => None,
        Some(value) => value_number(value),
    }
}

fn value_number(value: &Value) -> Option<u64>
    ensures { result ≡ spec.value_number value.now }
{
    match value {
        Value::Null => None,
        Value::Int(number) => natural(*number),
        Value::Bool(_) => None,
        Value::Text(_) => None,
        Value::Case(_) => None,
        Value::List(_) => None,
        Value::Object(_) => None,
    }
}

fn is_below_zero(number: i64) -> bool
    ensures { result ≡ spec.is_below_zero number }
{
    number < 0
}

fn is_negative_value(value: &Value) -> bool
    ensures { result ≡ spec.is_negative_value value.now }
{
    match value {
        Value::Null => false,
        Value::Int(number) => is_below_zero(*number),
        Value::Bool(_) => false,
        Value::Text(_) => false,
        Value::Case(_) => false,
        Value::List(_) => false,
        Value::Object(_) => false,
    }
}

pub(crate) fn is_negative(given: &Option<Value>) -> bool
    ensures { result ≡ spec.is_negative given.now }
{
    match given {
        None => false,
        Some(value) => is_negative_value(value),
    }
}

pub(crate) fn value_text(value: &Value) -> Option<&Text>
    ensures { option_map (λ t. t.now) result ≡ spec.value_text value.now }
{
    match value {
        Value::Null => None,
        Value::Int(_) => None,
        Value::Bool(_) => None,
        Value::Text(text) => Some(text),
        Value::Case(_) => None,
        Value::List(_) => None,
        Value::Object(_) => None,
    }
}

/// The text that is given, where it is one.
pub(crate) fn text_of(given: &Option<Value>) -> Option<&Text>
    ensures { option_map (λ t. t.now) result ≡ spec.text_of given.now }
{
    match given {
        None => None,
        Some(value) => value_text(value),
    }
}

pub(crate) fn is_null(value: &Value) -> bool
    ensures { result ≡ values.is_null value.now }
{
    match value {
        Value::Null => true,
        Value::Int(_) => false,
        Value::Bool(_) => false,
        Value::Text(_) => false,
        Value::Case(_) => false,
        Value::List(_) => false,
        Value::Object(_) => false,
    }
}

/// Whether an argument is given and isn't null.
pub(crate) fn is_given(given: &Option<Value>) -> bool
    ensures { result ≡ spec.is_given given.now }
{
    match given {
        None => false,
        Some(value) => !is_null(value),
    }
}
