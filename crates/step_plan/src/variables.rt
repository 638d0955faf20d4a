//! What is noted of one variable.

ghost use Rattle.std.specs.Prelude.{◌≡◌, IfOk, OnOk, option_map};
ghost use Rattle.pg_base.specs.Value as values;
ghost use Rattle.plan_constraints.specs.Constraints as constraints;
ghost use Rattle.plan_constraints.specs.Noted as spec;
ghost use Rattle.plan_constraints.specs.Path.{to_variable, to_field};
ghost use Rattle.plan_constraints.specs.Same.{with_constraint};
ghost use Rattle.step_plan.specs.Listed.{noted_as};

use pg_base::{Memory, Text, Value, Vars};
use plan_constraints::{Constraint, Part, note, value_at};
use sqlite_items::Items;
use std::alloc::Global;

/// What is noted of a variable: its value, or its shape alone.
#[derive(Clone, Copy)]
pub enum How {
    Whole,
    Shape,
}

/// The path to a variable.
pub(crate) fn path_to(alloc: Global, name: &Text) -> Result<Items<Part>, Memory>
    ensures { IfOk result (λ path. path ≡ to_variable name.now) }
{
    let mut path = Items::new(alloc);
    path.push(Part::Name(name.copy(alloc)?))?;
    Ok(path)
}

/// The path to a field of a variable.
pub(crate) fn path_below(alloc: Global, name: &Text, field: &Text) -> Result<Items<Part>, Memory>
    ensures { IfOk result (λ path. path ≡ to_field name.now field.now) }
{
    let mut path = Items::new(alloc);
    path.push(Part::Name(name.copy(alloc)?))?;
    path.push(Part::Name(field.copy(alloc)?))?;
    Ok(path)
}

pub(crate) fn is_null(value: &Value) -> bool
    ensures { result ≡ values.is_null value.now }
{
    match value {
        Value::Null => true,
        Value::Int(_) => false,
        Value::Bool(_) => false,
        Value::Text(_) => false,
        Value::Case(_) => false,
        Value::List(_) => false,
        Value::Object(_) => false,
    }
}

/// That nothing stands at the path, a null, or something else.
fn shape(path: Items<Part>, found: Option<&Value>) -> Constraint
    ensures { result ≡ constraints.shape path (option_map (λ v. v.now) found.entry) }
{
    match found {
        None => Constraint::Exists(path, false),
        Some(value) => Constraint::Null(path, is_null(value)),
    }
}

fn whole_of_value(alloc: Global, path: Items<Part>, value: &Value) -> Result<Constraint, Memory>
    ensures { IfOk result (λ c. c ≡ constraints.whole_of_value path value.now) }
{
    if is_null(value) {
        return Ok(Constraint::Null(path, true));
    }
    let copy = value.copy(alloc)?;
    Ok(Constraint::Value(path, copy))
}

/// That nothing stands at the path, a null, or this value.
fn whole(alloc: Global, path: Items<Part>, found: Option<&Value>) -> Result<Constraint, Memory>
    ensures { IfOk result (λ c. c ≡ constraints.whole path (option_map (λ v. v.now) found.entry)) }
{
    match found {
        None => Ok(Constraint::Exists(path, false)),
        Some(value) => whole_of_value(alloc, path, value),
    }
}

fn constraint_on(alloc: Global, vars: &Vars, how: How, name: &Text) -> Result<Constraint, Memory>
    ensures { IfOk result (λ c. c ≡ noted_as how vars.now name.now) }
{
    let path = path_to(alloc, name)?;
    match how {
        How::Whole => whole(alloc, path, vars.get(name)),
        How::Shape => Ok(shape(path, vars.get(name))),
    }
}

/// Notes a variable.
pub(crate) fn note_variable(
    alloc: Global,
    vars: &Vars,
    how: How,
    name: &Text,
    list: &mut Items<Constraint>,
) -> Result<(), Memory>
    ensures { OnOk result
        (list.new ≡ with_constraint list.old (noted_as how vars.now name.now)) }
{
    let constraint = constraint_on(alloc, vars, how, name)?;
    note(list, constraint)
}

fn field_shape(alloc: Global, vars: &Vars, name: &Text, field: &Text) -> Result<Constraint, Memory>
    ensures { IfOk result (λ c. c ≡ spec.field_shape vars.now name.now field.now) }
{
    let path = path_below(alloc, name, field)?;
    let found = value_at(vars, path.as_slice());
    let null = match found {
        None => None,
        Some(value) => Some(is_null(value)),
    };
    match null {
        None => Ok(Constraint::Exists(path, false)),
        Some(null) => Ok(Constraint::Null(path, null)),
    }
}

/// Notes the shape of a field of a variable.
pub(crate) fn note_field(
    alloc: Global,
    vars: &Vars,
    name: &Text,
    field: &Text,
    list: &mut Items<Constraint>,
) -> Result<(), Memory>
    ensures { OnOk result
        (list.new ≡ with_constraint list.old (spec.field_shape vars.now name.now field.now)) }
{
    let constraint = field_shape(alloc, vars, name, field)?;
    note(list, constraint)
}
