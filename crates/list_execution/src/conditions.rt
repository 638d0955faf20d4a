//! Cells that arguments give, and the condition of a connection.

ghost use Rattle.std.specs.Prelude.{◌≡◌, ◌<◌, ◌^◌, IfOk, length, option_map, unwrap_or, filter_map};
ghost use Rattle.pg_base.specs.Schema as schema_of;
ghost use Rattle.pg_base.specs.Value.{members_of};
ghost use Rattle.place_tree.specs.Arguments as spec;
ghost use Rattle.place_tree.specs.Fields.{place_named};
ghost use Rattle.place_tree.specs.Fetch.{key_cells};

use crate::arguments::argument;
use crate::lookups::cases_at;
use crate::names::{FILTERING, arg_named, columns_with, place_named};
use pg_base::{ArgDef, Cell, ColumnDef, Member, Memory, Schema, Text, TypeRef, Value, Vars};
use place_tree::Place;
use rel_model::Equal;
use sqlite_items::Items;
use std::alloc::Global;

/// The place of a case in the enum at a place of the schema; 0 where it has none.
fn case_place(schema: &Schema, ty: u32, name: &Text) -> u32
    ensures { result ≡ unwrap_or
        (place_named (schema_of.cases_of (schema_of.kind_at schema.now ty)) name.now) 0 }
{
    match place_named(cases_at(schema, ty), name) {
        None => 0,
        Some(place) => place as u32,
    }
}

/// The cell that a value is, at a position of a type.
fn cell_of(alloc: Global, schema: &Schema, ty: TypeRef, value: &Value) -> Result<Cell, Memory>
    ensures { IfOk result (λ cell. cell ≡ spec.cell_of schema.now ty value.now) }
{
    match value {
        Value::Null => Ok(Cell::Null),
        Value::Int(number) => Ok(Cell::Int(*number)),
        Value::Bool(truth) => Ok(Cell::Bool(*truth)),
        Value::Text(text) => Ok(Cell::Text(text.copy(alloc)?)),
        Value::Case(name) => Ok(Cell::EnumCase(case_place(schema, ty.name, name))),
        Value::List(_) => Ok(Cell::Null),
        Value::Object(_) => Ok(Cell::Null),
    }
}

fn cell_or_null(
    alloc: Global,
    schema: &Schema,
    ty: TypeRef,
    given: &Option<Value>,
) -> Result<Cell, Memory>
    ensures { IfOk result (λ cell. cell ≡ spec.cell_or_null schema.now ty given.now) }
{
    match given {
        None => Ok(Cell::Null),
        Some(value) => {
            let cell = cell_of(alloc, schema, ty, value)?;
            Ok(cell)
        }
    }
}

// ---- keys

fn key_cell(
    alloc: Global,
    schema: &Schema,
    vars: &Vars,
    place: &Place,
    arg: u32,
    ty: TypeRef,
) -> Result<Cell, Memory>
    ensures { IfOk result (λ cell. cell ≡
        spec.cell_or_null schema.now ty (spec.argument vars.now place.now arg)) }
{
    let given = argument(alloc, vars, place, arg)?;
    let cell = cell_or_null(alloc, schema, ty, &given)?;
    Ok(cell)
}

/// The cells that the arguments of a place give.
pub(crate) fn cells_of_args(
    alloc: Global,
    schema: &Schema,
    vars: &Vars,
    place: &Place,
    args: &[ArgDef],
) -> Result<Items<Cell>, Memory>
    requires few { length args.now < 2 ^ 32 }
    ensures { IfOk result (λ cells. cells ≡
        key_cells schema.now vars.now place.now 0 args.now) }
{
    let mut cells = Items::new(alloc);
    for i in 0..args.len() {
        cells.push(key_cell(alloc, schema, vars, place, i as u32, args[i].ty)?)?;
    }
    Ok(cells)
}

// ---- conditions

fn equal_at(
    alloc: Global,
    column: Option<u32>,
    input: Option<&ArgDef>,
    schema: &Schema,
    value: &Value,
) -> Result<Option<Equal>, Memory>
    ensures { IfOk result (λ equal. equal ≡
        spec.equal_at column (option_map (λ a. a.now) input.entry) schema.now value.now) }
{
    match column {
        None => Ok(None),
        Some(column) => match input {
            None => Ok(None),
            Some(input) => {
                let cell = cell_of(alloc, schema, input.ty, value)?;
                Ok(Some(Equal { column, cell }))
            }
        },
    }
}

/// The equality that a given field is.
fn equal_of(
    alloc: Global,
    schema: &Schema,
    inputs: &[ArgDef],
    columns: &[u32],
    member: &Member,
) -> Result<Option<Equal>, Memory>
    ensures { IfOk result (λ equal. equal ≡
        spec.equal_of schema.now inputs.now columns.now member.now) }
{
    match arg_named(inputs, &member.name) {
        None => Ok(None),
        Some(place) => {
            let column = columns.get(place).copied();
            let equal = equal_at(alloc, column, inputs.get(place), schema, &member.value)?;
            Ok(equal)
        }
    }
}

fn equals_of(
    alloc: Global,
    schema: &Schema,
    inputs: &[ArgDef],
    columns: &[u32],
    members: &[Member],
) -> Result<Items<Equal>, Memory>
    ensures { IfOk result (λ condition. condition ≡
        filter_map (spec.equal_of schema.now inputs.now columns.now) members.now) }
{
    let mut condition = Items::new(alloc);
    for member in members {
        let Some(equal) = equal_of(alloc, schema, inputs, columns, member)? else {
            continue;
        };
        condition.push(equal)?;
    }
    Ok(condition)
}

fn value_equals(
    alloc: Global,
    schema: &Schema,
    inputs: &[ArgDef],
    columns: &[u32],
    value: &Value,
) -> Result<Items<Equal>, Memory>
    ensures { IfOk result (λ condition. condition ≡
        filter_map (spec.equal_of schema.now inputs.now columns.now) (members_of value.now)) }
{
    match value {
        Value::Null => Ok(Items::new(alloc)),
        Value::Int(_) => Ok(Items::new(alloc)),
        Value::Bool(_) => Ok(Items::new(alloc)),
        Value::Text(_) => Ok(Items::new(alloc)),
        Value::Case(_) => Ok(Items::new(alloc)),
        Value::List(_) => Ok(Items::new(alloc)),
        Value::Object(members) => {
            let equals = equals_of(alloc, schema, inputs, columns, members.as_slice())?;
            Ok(equals)
        }
    }
}

/// The condition that is given; an absent or null one is none.
pub(crate) fn condition_of(
    alloc: Global,
    schema: &Schema,
    inputs: &[ArgDef],
    columns: &[ColumnDef],
    given: &Option<Value>,
) -> Result<Items<Equal>, Memory>
    requires few { length columns.now < 2 ^ 32 }
    ensures { IfOk result (λ condition. condition ≡
        spec.condition_of schema.now inputs.now columns.now given.now) }
{
    match given {
        None => Ok(Items::new(alloc)),
        Some(value) => {
            let places = columns_with(alloc, FILTERING, columns)?;
            let condition = value_equals(alloc, schema, inputs, places.as_slice(), value)?;
            Ok(condition)
        }
    }
}
