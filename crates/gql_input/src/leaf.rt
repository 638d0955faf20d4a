//! What scalars and enums read (sections 3.5 and 3.9).

ghost use Rattle.std.specs.Prelude.{◌≡◌, IfOk};
ghost use Rattle.std.specs.Str.{bytes_eq};
ghost use Rattle.std.specs.List.{list_any};
ghost use Rattle.gql_input.specs.Coercions.{map_ok};
ghost use Rattle.gql_input.specs.Inputs.{reads, int, cases};
ghost use Rattle.gql_input.specs.Leaves as spec;

use crate::argument::ArgValue;
use crate::fault::{OUT_OF_RANGE, WRONG_KIND};
use crate::input::Input;
use crate::spelled::read_integer;
use pg_base::{Memory, Text, Value};
use std::alloc::Global;

/// What a scalar or an enum holds.
#[derive(Clone, Copy)]
pub(crate) enum Leaf<'a> {
    Int(i64),
    Bool(bool),
    Text(&'a str),
    Case(&'a str),
}

pub(crate) fn value_of(alloc: Global, leaf: Leaf<'_>) -> Result<Value, Memory>
    ensures { IfOk result (λ v. v ≡ spec.as_value (spec.leaf_of leaf.entry)) }
{
    match leaf {
        Leaf::Int(number) => Ok(Value::Int(number)),
        Leaf::Bool(truth) => Ok(Value::Bool(truth)),
        Leaf::Text(text) => Ok(Value::Text(Text::of(alloc, text)?)),
        Leaf::Case(name) => Ok(Value::Case(Text::of(alloc, name)?)),
    }
}

pub(crate) fn argument_of(alloc: Global, leaf: Leaf<'_>) -> Result<ArgValue, Memory>
    ensures { IfOk result (λ v. v ≡ spec.as_argument (spec.leaf_of leaf.entry)) }
{
    match leaf {
        Leaf::Int(number) => Ok(ArgValue::Int(number)),
        Leaf::Bool(truth) => Ok(ArgValue::Bool(truth)),
        Leaf::Text(text) => Ok(ArgValue::Text(Text::of(alloc, text)?)),
        Leaf::Case(name) => Ok(ArgValue::Case(Text::of(alloc, name)?)),
    }
}

fn int_of<'a>(number: i64) -> Result<Leaf<'a>, u8>
    ensures { map_ok spec.leaf_of result ≡ spec.integer_at int number }
{
    if -2_147_483_648 <= number && number <= 2_147_483_647 {
        Ok(Leaf::Int(number))
    } else {
        Err(OUT_OF_RANGE)
    }
}

pub(crate) fn integer_at<'a>(input: Input<'_>, number: i64) -> Result<Leaf<'a>, u8>
    ensures { map_ok spec.leaf_of result ≡ spec.integer_at (reads input.entry) number }
{
    match input {
        Input::Int => int_of(number),
        Input::BigInt => Ok(Leaf::Int(number)),
        Input::Text => Err(WRONG_KIND),
        Input::Boolean => Err(WRONG_KIND),
        Input::Enum(_) => Err(WRONG_KIND),
        Input::Object(_) => Err(WRONG_KIND),
        Input::Nothing => Err(WRONG_KIND),
    }
}

pub(crate) fn boolean_at<'a>(input: Input<'_>, truth: bool) -> Result<Leaf<'a>, u8>
    ensures { map_ok spec.leaf_of result ≡ spec.boolean_at (reads input.entry) truth }
{
    match input {
        Input::Int => Err(WRONG_KIND),
        Input::BigInt => Err(WRONG_KIND),
        Input::Text => Err(WRONG_KIND),
        Input::Boolean => Ok(Leaf::Bool(truth)),
        Input::Enum(_) => Err(WRONG_KIND),
        Input::Object(_) => Err(WRONG_KIND),
        Input::Nothing => Err(WRONG_KIND),
    }
}

/// An integer as a text spells it.
pub(crate) fn spelled_at<'a>(input: Input<'_>, text: &str) -> Result<Leaf<'a>, u8>
    ensures { map_ok spec.leaf_of result ≡ spec.spelled_at (reads input.entry) text.now }
{
    match read_integer(text) {
        Ok(number) => integer_at(input, number),
        Err(which) => Err(which),
    }
}

pub(crate) fn string_at<'a>(input: Input<'_>, text: &'a str) -> Result<Leaf<'a>, u8>
    ensures { map_ok spec.leaf_of result ≡ spec.string_at (reads input.entry) text.now }
{
    match input {
        Input::Int => Err(WRONG_KIND),
        Input::BigInt => spelled_at(Input::BigInt, text),
        Input::Text => Ok(Leaf::Text(text)),
        Input::Boolean => Err(WRONG_KIND),
        Input::Enum(_) => Err(WRONG_KIND),
        Input::Object(_) => Err(WRONG_KIND),
        Input::Nothing => Err(WRONG_KIND),
    }
}

fn is_among(name: &str, names: &[Text]) -> bool
    ensures { result ≡ list_any (λ other. bytes_eq other name.now) names.now }
{
    for other in names {
        if other.bytes() == name.as_bytes() {
            return true;
        }
    }
    false
}

fn case_among<'a>(name: &'a str, names: &[Text]) -> Result<Leaf<'a>, u8>
    ensures { map_ok spec.leaf_of result ≡ spec.case_at (cases names.now) name.now }
{
    if is_among(name, names) {
        Ok(Leaf::Case(name))
    } else {
        Err(WRONG_KIND)
    }
}

pub(crate) fn case_at<'a>(input: Input<'_>, name: &'a str) -> Result<Leaf<'a>, u8>
    ensures { map_ok spec.leaf_of result ≡ spec.case_at (reads input.entry) name.now }
{
    match input {
        Input::Int => Err(WRONG_KIND),
        Input::BigInt => Err(WRONG_KIND),
        Input::Text => Err(WRONG_KIND),
        Input::Boolean => Err(WRONG_KIND),
        Input::Enum(names) => case_among(name, names),
        Input::Object(_) => Err(WRONG_KIND),
        Input::Nothing => Err(WRONG_KIND),
    }
}

/// A string of JSON, where a case of an enum is a string too.
pub(crate) fn json_string_at<'a>(input: Input<'_>, text: &'a str) -> Result<Leaf<'a>, u8>
    ensures { map_ok spec.leaf_of result ≡ spec.json_string_at (reads input.entry) text.now }
{
    match input {
        Input::Int => string_at(Input::Int, text),
        Input::BigInt => string_at(Input::BigInt, text),
        Input::Text => string_at(Input::Text, text),
        Input::Boolean => string_at(Input::Boolean, text),
        Input::Enum(names) => case_at(Input::Enum(names), text),
        Input::Object(fields) => string_at(Input::Object(fields), text),
        Input::Nothing => string_at(Input::Nothing, text),
    }
}
