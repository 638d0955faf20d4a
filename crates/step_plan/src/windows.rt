//! The slots of windows.

ghost use Rattle.std.specs.Prelude.{◌≡◌, IfOk, Some, option_map};
ghost use Rattle.pg_base.specs.Vars as variables;
ghost use Rattle.place_tree.specs.Arguments as arguments;
ghost use Rattle.step_plan.specs.Slots as spec;

use crate::variables::{is_null, path_to};
use crate::written::{AFTER, BEFORE, FIRST, LAST, OFFSET, written};
use gql_input::ArgValue;
use pg_base::{Cell, Memory, Text, Value, Vars};
use place_tree::Place;
use plan_steps::{Slot, SlotWindow};
use std::alloc::Global;

/// Whether a variable holds something other than null.
fn is_given(found: Option<&Value>) -> bool
    ensures { result ≡ arguments.is_given (option_map (λ v. v.now) found.entry) }
{
    match found {
        None => false,
        Some(value) => !is_null(value),
    }
}

fn variable_slot(alloc: Global, vars: &Vars, name: &Text) -> Result<Option<Slot>, Memory>
    ensures { IfOk result (λ slot. slot ≡ spec.variable_slot
        (arguments.is_given (variables.variable vars.now name.now)) name.now) }
{
    let given = is_given(vars.get(name));
    if !given {
        return Ok(None);
    }
    let path = path_to(alloc, name)?;
    Ok(Some(Slot::Var(path)))
}

/// The slot of an argument of a window.
fn written_slot(alloc: Global, vars: &Vars, value: &ArgValue) -> Result<Option<Slot>, Memory>
    ensures { IfOk result (λ slot. slot ≡
        spec.window_slot vars.now (Some value.now)) }
{
    match value {
        ArgValue::Variable(name) => variable_slot(alloc, vars, name),
        ArgValue::Null => Ok(None),
        ArgValue::Int(number) => Ok(Some(Slot::Const(Cell::Int(*number)))),
        ArgValue::Bool(_) => Ok(None),
        ArgValue::Text(text) => {
            let copy = text.copy(alloc)?;
            Ok(Some(Slot::Const(Cell::Text(copy))))
        }
        ArgValue::Case(_) => Ok(None),
        ArgValue::List(_) => Ok(None),
        ArgValue::Object(_) => Ok(None),
    }
}

fn window_slot(alloc: Global, vars: &Vars, value: Option<&ArgValue>) -> Result<Option<Slot>, Memory>
    ensures { IfOk result (λ slot. slot ≡
        spec.window_slot vars.now (option_map (λ v. v.now) value.entry)) }
{
    match value {
        None => Ok(None),
        Some(value) => written_slot(alloc, vars, value),
    }
}

/// The slots of the window of a list.
pub(crate) fn window_slots(alloc: Global, vars: &Vars, place: &Place) -> Result<SlotWindow, Memory>
    ensures { IfOk result (λ window. window ≡ spec.window_slots vars.now place.now) }
{
    let args = place.args.as_slice();
    let first = window_slot(alloc, vars, written(args, FIRST))?;
    let last = window_slot(alloc, vars, written(args, LAST))?;
    let offset = window_slot(alloc, vars, written(args, OFFSET))?;
    let before = window_slot(alloc, vars, written(args, BEFORE))?;
    let after = window_slot(alloc, vars, written(args, AFTER))?;
    Ok(SlotWindow {
        first,
        last,
        offset,
        before,
        after,
    })
}
