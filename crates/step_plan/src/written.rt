//! What is written and given for the arguments of a place.

ghost use Rattle.std.specs.Prelude.{◌≡◌, IfOk, option_map};
ghost use Rattle.place_tree.specs.Arguments as arguments;

use gql_input::{ArgValue, value_with};
use pg_base::{Memory, Value, Vars};
use place_tree::{Place, PlaceArg};
use std::alloc::Global;

/// The places of a list's arguments.
pub(crate) const FIRST: u32 = 0;

pub(crate) const LAST: u32 = 1;

pub(crate) const OFFSET: u32 = 2;

pub(crate) const BEFORE: u32 = 3;

pub(crate) const AFTER: u32 = 4;

pub(crate) const ORDER_BY: u32 = 5;

pub(crate) const CONDITION: u32 = 6;

/// What is written for an argument.
pub(crate) fn written(args: &[PlaceArg], arg: u32) -> Option<&ArgValue>
    ensures { option_map (λ a. a.now) result ≡ arguments.written args.now arg }
{
    for a in args {
        if a.arg == arg {
            return Some(&a.value);
        }
    }
    None
}

/// What is given for an argument of a place.
pub(crate) fn argument(
    alloc: Global,
    vars: &Vars,
    place: &Place,
    arg: u32,
) -> Result<Option<Value>, Memory>
    ensures { IfOk result (λ v. v ≡ arguments.argument vars.now place.now arg) }
{
    match written(place.args.as_slice(), arg) {
        Some(value) => {
            let given = value_with(alloc, vars, value)?;
            Ok(given)
        }
        None => Ok(None),
    }
}
