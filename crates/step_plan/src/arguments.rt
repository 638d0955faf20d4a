//! What is noted of the arguments of a list.

ghost use Rattle.std.specs.Prelude.{◌≡◌, ◌++◌, ◌∷◌, Some, IfOk, OnOk, map, drop, option_map};
ghost use Rattle.place_tree.specs.Arguments as arguments;
ghost use Rattle.pg_base.specs.Vars.{variable};
ghost use Rattle.plan_constraints.specs.Noted as spec;
ghost use Rattle.plan_constraints.specs.Same.{with_constraints};
ghost use Rattle.step_plan.specs.Listed.{noted_as, noted_members, vars_in_items, vars_in_members};

use crate::variables::{How, note_field, note_variable, path_to};
use crate::written::written;
use gql_input::{ArgMember, ArgValue};
use pg_base::{Member, Memory, Text, Value, Vars};
use place_tree::{Place, PlaceArg};
use plan_constraints::{Constraint, note};
use sqlite_items::Items;
use std::alloc::Global;

/// Notes each variable in an argument.
#[cycle(notes)]
pub(crate) fn note_in(
    alloc: Global,
    vars: &Vars,
    how: How,
    arg: &ArgValue,
    list: &mut Items<Constraint>,
) -> Result<(), Memory>
    ensures { OnOk result (list.new ≡
        with_constraints list.old (map (noted_as how vars.now) (spec.vars_in arg.now))) }
{
    match arg {
        ArgValue::Variable(name) => note_variable(alloc, vars, how, name, list),
        ArgValue::Null => Ok(()),
        ArgValue::Int(_) => Ok(()),
        ArgValue::Bool(_) => Ok(()),
        ArgValue::Text(_) => Ok(()),
        ArgValue::Case(_) => Ok(()),
        ArgValue::List(items) => note_items(alloc, vars, how, items.as_slice(), list),
        ArgValue::Object(members) => note_members(alloc, vars, how, members.as_slice(), list),
    }
}

#[cycle(notes)]
fn note_items(
    alloc: Global,
    vars: &Vars,
    how: How,
    items: &[ArgValue],
    list: &mut Items<Constraint>,
) -> Result<(), Memory>
    ensures { OnOk result (list.new ≡
        with_constraints list.old (map (noted_as how vars.now) (vars_in_items items.now))) }
{
    for item in items {
        note_in(alloc, vars, how, item, list)?;
    }
    Ok(())
}

#[cycle(notes)]
fn note_members(
    alloc: Global,
    vars: &Vars,
    how: How,
    members: &[ArgMember],
    list: &mut Items<Constraint>,
) -> Result<(), Memory>
    ensures { OnOk result (list.new ≡
        with_constraints list.old (map (noted_as how vars.now) (vars_in_members members.now))) }
{
    for member in members {
        note_in(alloc, vars, how, &member.value, list)?;
    }
    Ok(())
}

/// Notes first, last, offset, before or after.
fn note_window(
    alloc: Global,
    vars: &Vars,
    args: &[PlaceArg],
    arg: u32,
    list: &mut Items<Constraint>,
) -> Result<(), Memory>
    ensures { OnOk result (list.new ≡
        with_constraints list.old (spec.noted_window vars.now (arguments.written args.now arg))) }
{
    let Some(ArgValue::Variable(name)) = written(args, arg) else {
        return Ok(());
    };
    note_variable(alloc, vars, How::Shape, name, list)
}

/// Notes an order.
fn note_order(
    alloc: Global,
    vars: &Vars,
    args: &[PlaceArg],
    list: &mut Items<Constraint>,
) -> Result<(), Memory>
    ensures { OnOk result (list.new ≡
        with_constraints list.old (spec.noted_order vars.now (arguments.written args.now 5))) }
{
    match written(args, 5) {
        Some(order) => note_in(alloc, vars, How::Whole, order, list),
        None => Ok(()),
    }
}

fn names_of(alloc: Global, members: &[Member]) -> Result<Items<Text>, Memory>
    ensures { IfOk result (λ names. names ≡ map (λ m. m.name) members.now) }
{
    let mut names = Items::new(alloc);
    for member in members {
        names.push(member.name.copy(alloc)?)?;
    }
    Ok(names)
}

fn note_fields(
    alloc: Global,
    vars: &Vars,
    name: &Text,
    members: &[Member],
    list: &mut Items<Constraint>,
) -> Result<(), Memory>
    ensures { OnOk result (list.new ≡ with_constraints list.old
        (map (spec.field_shape vars.now name.now) (map (λ m. m.name) members.now))) }
{
    for member in members {
        note_field(alloc, vars, name, &member.name, list)?;
    }
    Ok(())
}

/// Notes the keys of an object, and the shape of each of its fields.
fn note_object(
    alloc: Global,
    vars: &Vars,
    name: &Text,
    members: &[Member],
    list: &mut Items<Constraint>,
) -> Result<(), Memory>
    ensures { OnOk result (list.new ≡ with_constraints list.old
        (noted_members vars.now name.now members.now)) }
{
    let path = path_to(alloc, name)?;
    let names = names_of(alloc, members)?;
    note(list, Constraint::Keys(path, names))?;
    note_fields(alloc, vars, name, members, list)
}

/// Notes what the variable of a condition holds, where it is an object.
fn note_held(
    alloc: Global,
    vars: &Vars,
    name: &Text,
    value: &Value,
    list: &mut Items<Constraint>,
) -> Result<(), Memory>
    ensures { OnOk result (list.new ≡ with_constraints list.old
        (spec.noted_fields vars.now name.now (Some value.now))) }
{
    match value {
        Value::Object(members) => note_object(alloc, vars, name, members.as_slice(), list),
        Value::Null => Ok(()),
        Value::Int(_) => Ok(()),
        Value::Bool(_) => Ok(()),
        Value::Text(_) => Ok(()),
        Value::Case(_) => Ok(()),
        Value::List(_) => Ok(()),
    }
}

fn note_value(
    alloc: Global,
    vars: &Vars,
    name: &Text,
    found: Option<&Value>,
    list: &mut Items<Constraint>,
) -> Result<(), Memory>
    ensures { OnOk result (list.new ≡ with_constraints list.old
        (spec.noted_fields vars.now name.now (option_map (λ v. v.now) found.entry))) }
{
    match found {
        Some(value) => note_held(alloc, vars, name, value, list),
        None => Ok(()),
    }
}

/// Notes a condition that is a variable.
fn note_condition_variable(
    alloc: Global,
    vars: &Vars,
    name: &Text,
    list: &mut Items<Constraint>,
) -> Result<(), Memory>
    ensures { OnOk result (list.new ≡ with_constraints list.old
        (spec.shape_of vars.now name.now
        ∷ spec.noted_fields vars.now name.now (variable vars.now name.now))) }
{
    note_variable(alloc, vars, How::Shape, name, list)?;
    note_value(alloc, vars, name, vars.get(name), list)
}

fn note_condition_value(
    alloc: Global,
    vars: &Vars,
    condition: &ArgValue,
    list: &mut Items<Constraint>,
) -> Result<(), Memory>
    ensures { OnOk result (list.new ≡
        with_constraints list.old (spec.noted_condition vars.now (Some condition.now))) }
{
    match condition {
        ArgValue::Variable(name) => note_condition_variable(alloc, vars, name, list),
        ArgValue::Null => Ok(()),
        ArgValue::Int(_) => Ok(()),
        ArgValue::Bool(_) => Ok(()),
        ArgValue::Text(_) => Ok(()),
        ArgValue::Case(_) => Ok(()),
        ArgValue::List(_) => note_in(alloc, vars, How::Shape, condition, list),
        ArgValue::Object(_) => note_in(alloc, vars, How::Shape, condition, list),
    }
}

/// Notes a condition.
fn note_condition(
    alloc: Global,
    vars: &Vars,
    args: &[PlaceArg],
    list: &mut Items<Constraint>,
) -> Result<(), Memory>
    ensures { OnOk result (list.new ≡
        with_constraints list.old (spec.noted_condition vars.now (arguments.written args.now 6))) }
{
    match written(args, 6) {
        Some(condition) => note_condition_value(alloc, vars, condition, list),
        None => Ok(()),
    }
}

/// Notes the arguments of a list, in the order of the schema.
pub(crate) fn note_arguments(
    alloc: Global,
    vars: &Vars,
    place: &Place,
    list: &mut Items<Constraint>,
) -> Result<(), Memory>
    ensures { OnOk result (list.new ≡
        with_constraints list.old (spec.noted_arguments vars.now place.now)) }
{
    let args = place.args.as_slice();
    note_window(alloc, vars, args, 0, list)?;
    note_window(alloc, vars, args, 1, list)?;
    note_window(alloc, vars, args, 2, list)?;
    note_window(alloc, vars, args, 3, list)?;
    note_window(alloc, vars, args, 4, list)?;
    note_order(alloc, vars, args, list)?;
    note_condition(alloc, vars, args, list)
}
