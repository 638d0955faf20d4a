//! The slots of cells: of the keys of rows, and of the conditions of lists.

ghost use Rattle.std.specs.Prelude.{◌≡◌, ◌<◌, ◌^◌, IfOk, Some, length, map, option_map, unwrap_or, filter_map, is_some};
ghost use Rattle.gql_input.specs.Arguments as given;
ghost use Rattle.pg_base.specs.Schema as schemas;
ghost use Rattle.place_tree.specs.Arguments as arguments;
ghost use Rattle.place_tree.specs.Fields as finding;
ghost use Rattle.plan_constraints.specs.Path as paths;
ghost use Rattle.plan_steps.specs.declared.plan.Slot.TheVariants as of_slot;
ghost use Rattle.step_plan.specs.Listed.{written_slots};
ghost use Rattle.step_plan.specs.Slots as spec;

use crate::lookups::cases_at;
use crate::names::{Compared, FILTERING, columns_with, compared_field, place_named};
use crate::variables::{path_below, path_to};
use crate::written::written;
use gql_input::{ArgMember, ArgValue};
use pg_base::{ArgDef, Cell, ColumnDef, Member, Memory, Schema, Text, TypeRef, Value, Vars};
use place_tree::Place;
use plan_steps::{Slot, SlotEqual};
use sqlite_items::Items;
use std::alloc::Global;

// ---- cells

/// The place of a case in the enum at a place of the schema; 0 where it has none.
fn case_place(schema: &Schema, ty: u32, name: &Text) -> u32
    ensures { result ≡ unwrap_or
        (finding.place_named (schemas.cases_of (schemas.kind_at schema.now ty)) name.now) 0 }
{
    match place_named(cases_at(schema, ty), name) {
        None => 0,
        Some(place) => place as u32,
    }
}

/// The cell that a literal is, at a position of a type.
fn literal_cell(
    alloc: Global,
    schema: &Schema,
    ty: TypeRef,
    literal: &ArgValue,
) -> Result<Cell, Memory>
    ensures { IfOk result (λ cell. cell ≡ spec.literal_cell schema.now ty literal.now) }
{
    match literal {
        ArgValue::Variable(_) => Ok(Cell::Null),
        ArgValue::Null => Ok(Cell::Null),
        ArgValue::Int(number) => Ok(Cell::Int(*number)),
        ArgValue::Bool(truth) => Ok(Cell::Bool(*truth)),
        ArgValue::Text(text) => Ok(Cell::Text(text.copy(alloc)?)),
        ArgValue::Case(name) => Ok(Cell::EnumCase(case_place(schema, ty.name, name))),
        ArgValue::List(_) => Ok(Cell::Null),
        ArgValue::Object(_) => Ok(Cell::Null),
    }
}

fn const_slot(
    alloc: Global,
    schema: &Schema,
    ty: TypeRef,
    literal: &ArgValue,
) -> Result<Slot, Memory>
    ensures { IfOk result (λ slot. slot ≡
        of_slot.Const
        (spec.literal_cell schema.now ty literal.now)) }
{
    let cell = literal_cell(alloc, schema, ty, literal)?;
    Ok(Slot::Const(cell))
}

fn var_slot(alloc: Global, name: &Text) -> Result<Slot, Memory>
    ensures { IfOk result (λ slot. slot ≡
        of_slot.Var
        (paths.to_variable name.now)) }
{
    let path = path_to(alloc, name)?;
    Ok(Slot::Var(path))
}

fn cell_slot(alloc: Global, schema: &Schema, ty: TypeRef, value: &ArgValue) -> Result<Slot, Memory>
    ensures { IfOk result (λ slot. slot ≡ spec.cell_slot schema.now ty value.now) }
{
    match value {
        ArgValue::Variable(name) => var_slot(alloc, name),
        ArgValue::Null => const_slot(alloc, schema, ty, value),
        ArgValue::Int(_) => const_slot(alloc, schema, ty, value),
        ArgValue::Bool(_) => const_slot(alloc, schema, ty, value),
        ArgValue::Text(_) => const_slot(alloc, schema, ty, value),
        ArgValue::Case(_) => const_slot(alloc, schema, ty, value),
        ArgValue::List(_) => const_slot(alloc, schema, ty, value),
        ArgValue::Object(_) => const_slot(alloc, schema, ty, value),
    }
}

// ---- keys

fn slot_or_null(
    alloc: Global,
    schema: &Schema,
    ty: TypeRef,
    value: Option<&ArgValue>,
) -> Result<Slot, Memory>
    ensures { IfOk result (λ slot. slot ≡
        spec.slot_or_null schema.now ty (option_map (λ v. v.now) value.entry)) }
{
    match value {
        None => Ok(Slot::Const(Cell::Null)),
        Some(value) => cell_slot(alloc, schema, ty, value),
    }
}

/// The slots of the arguments of a key.
pub(crate) fn key_slots(
    alloc: Global,
    schema: &Schema,
    place: &Place,
    args: &[ArgDef],
) -> Result<Items<Slot>, Memory>
    requires few { length args.now < 2 ^ 32 }
    ensures { IfOk result (λ slots. slots ≡ spec.key_slots schema.now place.now 0 args.now) }
{
    let mut slots = Items::new(alloc);
    for i in 0..args.len() {
        let value = written(place.args.as_slice(), i as u32);
        slots.push(slot_or_null(alloc, schema, args[i].ty, value)?)?;
    }
    Ok(slots)
}

// ---- conditions that are variables

fn field_at(
    alloc: Global,
    of: Option<Compared>,
    name: &Text,
    field: &Text,
) -> Result<Option<SlotEqual>, Memory>
    ensures { IfOk result (λ equal. equal ≡ spec.equal_slot_at of
        (λ ty. of_slot.Var
        (paths.to_field name.now field.now))) }
{
    match of {
        None => Ok(None),
        Some(of) => {
            let path = path_below(alloc, name, field)?;
            Ok(Some(SlotEqual {
                column: of.column,
                slot: Slot::Var(path),
            }))
        }
    }
}

fn field_slot(
    alloc: Global,
    inputs: &[ArgDef],
    columns: &[u32],
    name: &Text,
    field: &Text,
) -> Result<Option<SlotEqual>, Memory>
    ensures { IfOk result (λ equal. equal ≡
        spec.field_slot inputs.now columns.now name.now field.now) }
{
    field_at(alloc, compared_field(inputs, columns, field), name, field)
}

fn field_slots(
    alloc: Global,
    inputs: &[ArgDef],
    columns: &[u32],
    name: &Text,
    members: &[Member],
) -> Result<Items<SlotEqual>, Memory>
    ensures { IfOk result (λ equals. equals ≡
        filter_map (spec.field_slot inputs.now columns.now name.now)
        (map (λ m. m.name) members.now)) }
{
    let mut equals = Items::new(alloc);
    for member in members {
        let Some(equal) = field_slot(alloc, inputs, columns, name, &member.name)? else {
            continue;
        };
        equals.push(equal)?;
    }
    Ok(equals)
}

fn value_slots(
    alloc: Global,
    inputs: &[ArgDef],
    columns: &[u32],
    name: &Text,
    value: &Value,
) -> Result<Items<SlotEqual>, Memory>
    ensures { IfOk result (λ equals. equals ≡
        filter_map (spec.field_slot inputs.now columns.now name.now)
        (map (λ m. m.name) (arguments.members_or_none (Some value.now)))) }
{
    match value {
        Value::Null => Ok(Items::new(alloc)),
        Value::Int(_) => Ok(Items::new(alloc)),
        Value::Bool(_) => Ok(Items::new(alloc)),
        Value::Text(_) => Ok(Items::new(alloc)),
        Value::Case(_) => Ok(Items::new(alloc)),
        Value::List(_) => Ok(Items::new(alloc)),
        Value::Object(members) => {
            let equals = field_slots(alloc, inputs, columns, name, members.as_slice())?;
            Ok(equals)
        }
    }
}

/// The slots of the fields that the variable of a condition holds.
fn held_slots(
    alloc: Global,
    inputs: &[ArgDef],
    columns: &[u32],
    name: &Text,
    held: Option<&Value>,
) -> Result<Items<SlotEqual>, Memory>
    ensures { IfOk result (λ equals. equals ≡
        filter_map (spec.field_slot inputs.now columns.now name.now)
        (map (λ m. m.name) (arguments.members_or_none (option_map (λ v. v.now) held.entry)))) }
{
    match held {
        None => Ok(Items::new(alloc)),
        Some(value) => value_slots(alloc, inputs, columns, name, value),
    }
}

// ---- conditions that are written

/// Whether a value is given: it is no variable without an entry.
fn has_value(vars: &Vars, value: &ArgValue) -> bool
    ensures { result ≡ is_some
        (given.value_with vars.now value.now) }
{
    match value {
        ArgValue::Variable(name) => vars.get(name).is_some(),
        ArgValue::Null => true,
        ArgValue::Int(_) => true,
        ArgValue::Bool(_) => true,
        ArgValue::Text(_) => true,
        ArgValue::Case(_) => true,
        ArgValue::List(_) => true,
        ArgValue::Object(_) => true,
    }
}

fn written_at(
    alloc: Global,
    schema: &Schema,
    of: Option<Compared>,
    value: &ArgValue,
) -> Result<Option<SlotEqual>, Memory>
    ensures { IfOk result (λ equal. equal ≡
        spec.equal_slot_at of (λ ty. spec.cell_slot schema.now ty value.now)) }
{
    match of {
        None => Ok(None),
        Some(of) => {
            let slot = cell_slot(alloc, schema, of.ty, value)?;
            Ok(Some(SlotEqual {
                column: of.column,
                slot,
            }))
        }
    }
}

fn member_slot(
    alloc: Global,
    schema: &Schema,
    vars: &Vars,
    inputs: &[ArgDef],
    columns: &[u32],
    member: &ArgMember,
) -> Result<Option<SlotEqual>, Memory>
    ensures { IfOk result (λ equal. equal ≡ spec.member_slot schema.now vars.now inputs.now
        columns.now member.now.name member.now.value) }
{
    if !has_value(vars, &member.value) {
        return Ok(None);
    }
    let of = compared_field(inputs, columns, &member.name);
    written_at(alloc, schema, of, &member.value)
}

fn member_slots(
    alloc: Global,
    schema: &Schema,
    vars: &Vars,
    inputs: &[ArgDef],
    columns: &[u32],
    members: &[ArgMember],
) -> Result<Items<SlotEqual>, Memory>
    ensures { IfOk result (λ equals. equals ≡
        written_slots schema.now vars.now inputs.now columns.now members.now) }
{
    let mut equals = Items::new(alloc);
    for member in members {
        let Some(equal) = member_slot(alloc, schema, vars, inputs, columns, member)? else {
            continue;
        };
        equals.push(equal)?;
    }
    Ok(equals)
}

fn condition_over(
    alloc: Global,
    schema: &Schema,
    vars: &Vars,
    inputs: &[ArgDef],
    columns: &[u32],
    condition: &ArgValue,
) -> Result<Items<SlotEqual>, Memory>
    ensures { IfOk result (λ equals. equals ≡ spec.condition_over schema.now vars.now inputs.now
        columns.now (Some condition.now)) }
{
    match condition {
        ArgValue::Variable(name) => held_slots(alloc, inputs, columns, name, vars.get(name)),
        ArgValue::Null => Ok(Items::new(alloc)),
        ArgValue::Int(_) => Ok(Items::new(alloc)),
        ArgValue::Bool(_) => Ok(Items::new(alloc)),
        ArgValue::Text(_) => Ok(Items::new(alloc)),
        ArgValue::Case(_) => Ok(Items::new(alloc)),
        ArgValue::List(_) => Ok(Items::new(alloc)),
        ArgValue::Object(members) => {
            let members = members.as_slice();
            let equals = member_slots(alloc, schema, vars, inputs, columns, members)?;
            Ok(equals)
        }
    }
}

/// The slots of a condition.
pub(crate) fn condition_slots(
    alloc: Global,
    schema: &Schema,
    vars: &Vars,
    inputs: &[ArgDef],
    columns: &[ColumnDef],
    condition: Option<&ArgValue>,
) -> Result<Items<SlotEqual>, Memory>
    requires few { length columns.now < 2 ^ 32 }
    ensures { IfOk result (λ equals. equals ≡ spec.condition_slots schema.now vars.now inputs.now
        columns.now (option_map (λ c. c.now) condition.entry)) }
{
    match condition {
        None => Ok(Items::new(alloc)),
        Some(condition) => {
            let places = columns_with(alloc, FILTERING, columns)?;
            let over = places.as_slice();
            let equals = condition_over(alloc, schema, vars, inputs, over, condition)?;
            Ok(equals)
        }
    }
}
