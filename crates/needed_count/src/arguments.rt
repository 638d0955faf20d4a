//! The arguments of a place (GraphQL October 2021, section 6.4.1).

ghost use Rattle.std.specs.Prelude.{◌≡◌, IfOk, option_map};
ghost use Rattle.pg_base.specs.Value as values;
ghost use Rattle.place_tree.specs.Arguments as spec;

use gql_input::{ArgValue, value_with};
use pg_base::{Memory, Value, Vars};
use place_tree::{Place, PlaceArg};
use std::alloc::Global;

/// What is written for an argument.
fn written(args: &[PlaceArg], arg: u32) -> Option<&ArgValue>
    ensures { option_map (λ v. v.now) result ≡ spec.written args.now arg }
{
    for item in args {
        if item.arg == arg {
            return Some(&item.value);
        }
    }
    None
}

/// What is given for an argument of a place.
fn argument(alloc: Global, vars: &Vars, place: &Place, arg: u32) -> Result<Option<Value>, Memory>
    ensures { IfOk result (λ v. v ≡ spec.argument vars.now place.now arg) }
{
    match written(place.args.as_slice(), arg) {
        Some(value) => {
            let given = value_with(alloc, vars, value)?;
            Ok(given)
        }
        None => Ok(None),
    }
}

fn is_null(value: &Value) -> bool
    ensures { result ≡ values.is_null value.now }
{
    match value {
        Value::Null => true,
        Value::Int(_) => false,
        Value::Bool(_) => false,
        Value::Text(_) => false,
        Value::Case(_) => false,
        Value::List(_) => false,
        Value::Object(_) => false,
    }
}

/// Whether an argument is given and isn't null.
fn is_given(given: &Option<Value>) -> bool
    ensures { result ≡ spec.is_given given.now }
{
    match given {
        None => false,
        Some(value) => !is_null(value),
    }
}

/// Whether an argument of a place is given and isn't null.
fn gives(alloc: Global, vars: &Vars, place: &Place, arg: u32) -> Result<bool, Memory>
    ensures { IfOk result (λ so. so ≡ spec.is_given (spec.argument vars.now place.now arg)) }
{
    let given = argument(alloc, vars, place, arg)?;
    Ok(is_given(&given))
}

/// Whether first, last, offset, before or after, which are the first five arguments of a connection, is given and isn't
/// null.
pub(crate) fn is_windowed(alloc: Global, vars: &Vars, place: &Place) -> Result<bool, Memory>
    ensures { IfOk result (λ so. so ≡ spec.is_windowed vars.now place.now) }
{
    let first = gives(alloc, vars, place, 0)?;
    let last = gives(alloc, vars, place, 1)?;
    let offset = gives(alloc, vars, place, 2)?;
    let before = gives(alloc, vars, place, 3)?;
    let after = gives(alloc, vars, place, 4)?;
    Ok(first || last || offset || before || after)
}
