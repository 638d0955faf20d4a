//! The step that shows the id which a client gave to a mutation.

ghost use Rattle.std.specs.Prelude.{◌≡◌, IfOk, Some, option_map};
ghost use Rattle.std.specs.Str.{bytes_eq};
ghost use Rattle.gql_input.specs.declared.argument.ArgValue.TheVariants as of_arg;
ghost use Rattle.place_tree.specs.Exec as exec;
ghost use Rattle.step_plan.specs.Added as spec;
ghost use Rattle.step_plan.specs.Listed.{written_among};

use crate::variables::{path_below, path_to};
use crate::written::written;
use gql_input::{ArgMember, ArgValue};
use pg_base::{Memory, Text, Value};
use place_tree::Place;
use plan_steps::Step;
use std::alloc::Global;

fn is_id_name(name: &Text) -> bool
    ensures { result ≡ bytes_eq name.now spec.id_name }
{
    name.bytes() == b"clientMutationId".as_slice()
}

/// What is written for the id in an input.
fn id_among(members: &[ArgMember]) -> Option<&ArgValue>
    ensures { option_map (λ v. v.now) result ≡ written_among members.now spec.id_name }
{
    for member in members {
        if is_id_name(&member.name) {
            return Some(&member.value);
        }
    }
    None
}

fn variable_id(alloc: Global, name: &Text) -> Result<Step, Memory>
    ensures { IfOk result (λ step. step ≡
        spec.id_written (Some (of_arg.Variable
        name.now))) }
{
    let path = path_to(alloc, name)?;
    Ok(Step::Var(path))
}

fn text_id(alloc: Global, text: &Text) -> Result<Step, Memory>
    ensures { IfOk result (λ step. step ≡
        spec.id_written (Some (of_arg.Text
        text.now))) }
{
    let copy = text.copy(alloc)?;
    Ok(Step::Const(Value::Text(copy)))
}

fn value_id(alloc: Global, value: &ArgValue) -> Result<Step, Memory>
    ensures { IfOk result (λ step. step ≡ spec.id_written (Some value.now)) }
{
    match value {
        ArgValue::Variable(name) => variable_id(alloc, name),
        ArgValue::Null => Ok(Step::Const(Value::Null)),
        ArgValue::Int(_) => Ok(Step::Const(Value::Null)),
        ArgValue::Bool(_) => Ok(Step::Const(Value::Null)),
        ArgValue::Text(text) => text_id(alloc, text),
        ArgValue::Case(_) => Ok(Step::Const(Value::Null)),
        ArgValue::List(_) => Ok(Step::Const(Value::Null)),
        ArgValue::Object(_) => Ok(Step::Const(Value::Null)),
    }
}

fn id_written(alloc: Global, value: Option<&ArgValue>) -> Result<Step, Memory>
    ensures { IfOk result (λ step. step ≡
        spec.id_written (option_map (λ v. v.now) value.entry)) }
{
    match value {
        None => Ok(Step::Const(Value::Null)),
        Some(value) => value_id(alloc, value),
    }
}

fn field_id(alloc: Global, name: &Text) -> Result<Step, Memory>
    ensures { IfOk result (λ step. step ≡
        spec.id_in (Some (of_arg.Variable
        name.now))) }
{
    let field = Text::of(alloc, "clientMutationId")?;
    let path = path_below(alloc, name, &field)?;
    Ok(Step::Var(path))
}

fn input_id(alloc: Global, input: &ArgValue) -> Result<Step, Memory>
    ensures { IfOk result (λ step. step ≡ spec.id_in (Some input.now)) }
{
    match input {
        ArgValue::Variable(name) => field_id(alloc, name),
        ArgValue::Null => Ok(Step::Const(Value::Null)),
        ArgValue::Int(_) => Ok(Step::Const(Value::Null)),
        ArgValue::Bool(_) => Ok(Step::Const(Value::Null)),
        ArgValue::Text(_) => Ok(Step::Const(Value::Null)),
        ArgValue::Case(_) => Ok(Step::Const(Value::Null)),
        ArgValue::List(_) => Ok(Step::Const(Value::Null)),
        ArgValue::Object(members) => id_written(alloc, id_among(members.as_slice())),
    }
}

fn id_in(alloc: Global, input: Option<&ArgValue>) -> Result<Step, Memory>
    ensures { IfOk result (λ step. step ≡ spec.id_in (option_map (λ v. v.now) input.entry)) }
{
    match input {
        None => Ok(Step::Const(Value::Null)),
        Some(input) => input_id(alloc, input),
    }
}

fn place_above<'a>(places: &'a [Place], place: &Place) -> Option<&'a Place>
    ensures { option_map (λ p. p.now) result ≡ exec.place_above places.now place.now }
{
    match place.parent {
        None => None,
        Some(above) => places.get(above as usize),
    }
}

fn id_of(alloc: Global, mutation: Option<&Place>) -> Result<Step, Memory>
    ensures { IfOk result (λ step. step ≡ spec.id_of (option_map (λ p. p.now) mutation.entry)) }
{
    match mutation {
        None => Ok(Step::Const(Value::Null)),
        Some(mutation) => id_in(alloc, written(mutation.args.as_slice(), 0)),
    }
}

/// The step for a place below a mutation's.
pub(crate) fn id_step(alloc: Global, places: &[Place], place: &Place) -> Result<Step, Memory>
    ensures { IfOk result (λ step. step ≡ spec.id_of (exec.place_above places.now place.now)) }
{
    id_of(alloc, place_above(places, place))
}
