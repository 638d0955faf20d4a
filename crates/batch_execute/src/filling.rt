//! A fetch with its slots filled from the variables, as the statement that it sends.

ghost use Rattle.std.specs.Prelude.{◌≡◌, ◌++◌, ◌<◌, ◌^◌, IfOk, Some, length, map, option_map, slice_get, unwrap_or, drop};
ghost use Rattle.pg_base.specs.declared.kind.Kind.TheVariants as kinds;
ghost use Rattle.place_tree.specs.Arguments as arguments;
ghost use Rattle.place_tree.specs.Fields.{columns_of as columns_there};
ghost use Rattle.plan_steps.specs.declared.plan.FetchStep.{out-FetchStep};
ghost use Rattle.plan_steps.specs.declared.plan.Slot.TheVariants as slots;
ghost use Rattle.plan_steps.specs.Filled as spec;

use list_execution::{bool_cell, cases_at, columns_of, int_cell, mark_in, place_named};
use pg_base::{Base, Cell, ColumnDef, Kind, Mark, Memory, Text, Value, Vars};
use plan_constraints::{Part, value_at};
use plan_steps::{FetchStep, Slot, SlotEqual, SlotWindow};
use rel_model::{By, Equal, Window};
use sqlite_items::Items;
use std::alloc::Global;
use stmt_tree::{Child, Stmt};

/// How many types of a schema stand before those of the enums.
const BEFORE_ENUMS: u32 = 3;

// ---- cells

fn plain_text(alloc: Global, kind: Kind, text: &Text) -> Result<Option<Cell>, Memory>
    ensures { IfOk result (λ cell. cell ≡ spec.plain_text kind text.now) }
{
    match kind {
        Kind::Text => Ok(Some(Cell::Text(text.copy(alloc)?))),
        Kind::Varchar(_) => Ok(Some(Cell::Text(text.copy(alloc)?))),
        Kind::Int => Ok(None),
        Kind::BigInt => Ok(None),
        Kind::Bool => Ok(None),
        Kind::Enum(_) => Ok(None),
    }
}

/// The names that the cases of an enum have in the schema.
fn enum_cases(base: &Base, place: u32) -> &[Text]
    ensures value { result.now ≡ spec.enum_cases base.now place }
    ensures few { length result.now < 2 ^ 32 }
{
    base.know();
    base.catalog().know();
    if place as usize >= base.catalog().enums().len() {
        return &[];
    }
    cases_at(base.schema(), BEFORE_ENUMS + place)
}

/// The case of an enum that has this name in the schema.
fn named_case(base: &Base, place: u32, name: &Text) -> Option<Cell>
    ensures { result ≡ spec.named_cell base.now (kinds.Enum place) name.now }
{
    match place_named(enum_cases(base, place), name) {
        None => None,
        Some(case) => Some(Cell::EnumCase(case as u32)),
    }
}

fn named_cell(base: &Base, kind: Kind, name: &Text) -> Option<Cell>
    ensures { result ≡ spec.named_cell base.now kind name.now }
{
    match kind {
        Kind::Text => None,
        Kind::Varchar(_) => None,
        Kind::Int => None,
        Kind::BigInt => None,
        Kind::Bool => None,
        Kind::Enum(place) => named_case(base, place, name),
    }
}

/// The cell that a value is in a column of a kind.
fn kind_cell(alloc: Global, base: &Base, kind: Kind, value: &Value) -> Result<Option<Cell>, Memory>
    ensures { IfOk result (λ cell. cell ≡ spec.kind_cell base.now kind value.now) }
{
    match value {
        Value::Null => Ok(None),
        Value::Int(number) => Ok(int_cell(kind, *number)),
        Value::Bool(truth) => Ok(bool_cell(kind, *truth)),
        Value::Text(text) => {
            let cell = plain_text(alloc, kind, text)?;
            Ok(cell)
        }
        Value::Case(name) => Ok(named_cell(base, kind, name)),
        Value::List(_) => Ok(None),
        Value::Object(_) => Ok(None),
    }
}

fn given_cell(
    alloc: Global,
    base: &Base,
    column: &ColumnDef,
    value: Option<&Value>,
) -> Result<Cell, Memory>
    ensures { IfOk result (λ cell. cell ≡
        spec.column_cell base.now (Some column.now) (option_map (λ v. v.now) value.entry)) }
{
    match value {
        None => Ok(Cell::Null),
        Some(value) => {
            let cell = kind_cell(alloc, base, column.kind, value)?;
            Ok(cell.unwrap_or(Cell::Null))
        }
    }
}

/// The cell of a value at a column: null where it doesn't fit.
fn column_cell(
    alloc: Global,
    base: &Base,
    column: Option<&ColumnDef>,
    value: Option<&Value>,
) -> Result<Cell, Memory>
    ensures { IfOk result (λ cell. cell ≡
        spec.column_cell base.now (option_map (λ c. c.now) column.entry)
        (option_map (λ v. v.now) value.entry)) }
{
    match column {
        None => Ok(Cell::Null),
        Some(column) => {
            let cell = given_cell(alloc, base, column, value)?;
            Ok(cell)
        }
    }
}

/// The cell of what stands at a path, at a column of a table.
fn variable_cell(
    alloc: Global,
    base: &Base,
    vars: &Vars,
    table: u32,
    column: u32,
    path: &[Part],
) -> Result<Cell, Memory>
    ensures { IfOk result (λ cell. cell ≡
        spec.slot_cell base.now vars.now table column (slots.Var path.now)) }
{
    let columns = columns_of(base.catalog(), table);
    let cell = column_cell(
        alloc,
        base,
        columns.get(column as usize),
        value_at(vars, path),
    )?;
    Ok(cell)
}

/// The cell of a slot at a column of a table.
fn slot_cell(
    alloc: Global,
    base: &Base,
    vars: &Vars,
    table: u32,
    column: u32,
    slot: &Slot,
) -> Result<Cell, Memory>
    ensures { IfOk result (λ cell. cell ≡
        spec.slot_cell base.now vars.now table column slot.now) }
{
    match slot {
        Slot::Const(cell) => cell.copy(alloc),
        Slot::Var(path) => variable_cell(alloc, base, vars, table, column, path.as_slice()),
    }
}

fn filled_equals(
    alloc: Global,
    base: &Base,
    vars: &Vars,
    table: u32,
    condition: &[SlotEqual],
) -> Result<Items<Equal>, Memory>
    ensures { IfOk result (λ equals. equals ≡
        map (spec.filled_equal base.now vars.now table) condition.now) }
{
    let mut equals = Items::new(alloc);
    for equal in condition {
        let cell = slot_cell(alloc, base, vars, table, equal.column, &equal.slot)?;
        equals.push(Equal {
            column: equal.column,
            cell,
        })?;
    }
    Ok(equals)
}

/// The cells of a key whose slots are filled, one for each column that they are compared with.
pub(crate) fn filled_key(
    alloc: Global,
    base: &Base,
    vars: &Vars,
    table: u32,
    by: &[u32],
    key: &[Slot],
) -> Result<Items<Cell>, Memory>
    ensures { IfOk result (λ cells. cells ≡
        spec.filled_key base.now vars.now table by.now key.now) }
{
    let mut cells = Items::new(alloc);
    for i in 0..by.len().min(key.len()) {
        cells.push(slot_cell(alloc, base, vars, table, by[i], &key[i])?)?;
    }
    Ok(cells)
}

// ---- windows

fn natural(number: i64) -> Option<u64>
    ensures { result ≡ arguments.natural_of number }
{
    if number < 0 {
        return None;
    }
    Some(number as u64)
}

fn cell_number(cell: &Cell) -> Option<u64>
    ensures { result ≡ arguments.number_of (spec.const_value cell.now) }
{
    match cell {
        Cell::Null => None,
        Cell::Int(number) => natural(*number),
        Cell::Bool(_) => None,
        Cell::Text(_) => None,
        Cell::EnumCase(_) => None,
    }
}

fn value_number(value: Option<&Value>) -> Option<u64>
    ensures { result ≡ arguments.number_of (option_map (λ v. v.now) value.entry) }
{
    match value {
        None => None,
        Some(value) => match value {
            Value::Null => None,
            Value::Int(number) => natural(*number),
            Value::Bool(_) => None,
            Value::Text(_) => None,
            Value::Case(_) => None,
            Value::List(_) => None,
            Value::Object(_) => None,
        },
    }
}

/// The number that a slot of a window holds, where it holds one from 0.
fn slot_number(vars: &Vars, slot: &Option<Slot>) -> Option<u64>
    ensures { result ≡ arguments.number_of (spec.slot_value vars.now slot.now) }
{
    match slot {
        None => None,
        Some(slot) => match slot {
            Slot::Const(cell) => cell_number(cell),
            Slot::Var(path) => value_number(value_at(vars, path.as_slice())),
        },
    }
}

fn cell_text(cell: &Cell) -> Option<&Text>
    ensures { option_map (λ t. t.now) result
        ≡ arguments.text_of (spec.const_value cell.now) }
{
    match cell {
        Cell::Null => None,
        Cell::Int(_) => None,
        Cell::Bool(_) => None,
        Cell::Text(text) => Some(text),
        Cell::EnumCase(_) => None,
    }
}

fn value_text(value: Option<&Value>) -> Option<&Text>
    ensures { option_map (λ t. t.now) result
        ≡ arguments.text_of (option_map (λ v. v.now) value.entry) }
{
    match value {
        None => None,
        Some(value) => match value {
            Value::Null => None,
            Value::Int(_) => None,
            Value::Bool(_) => None,
            Value::Text(text) => Some(text),
            Value::Case(_) => None,
            Value::List(_) => None,
            Value::Object(_) => None,
        },
    }
}

/// The text that a slot of a window holds, where it holds one.
fn slot_text<'a>(vars: &'a Vars, slot: &'a Option<Slot>) -> Option<&'a Text>
    ensures { option_map (λ t. t.now) result
        ≡ arguments.text_of (spec.slot_value vars.now slot.now) }
{
    match slot {
        None => None,
        Some(slot) => match slot {
            Slot::Const(cell) => cell_text(cell),
            Slot::Var(path) => value_text(value_at(vars, path.as_slice())),
        },
    }
}

/// The mark that the cursor in a slot of a window names.
fn slot_mark(
    alloc: Global,
    base: &Base,
    vars: &Vars,
    table: u32,
    order: &[By],
    slot: &Option<Slot>,
) -> Result<Option<Mark>, Memory>
    ensures { IfOk result (λ mark. mark ≡ arguments.mark_given base.now.catalog
        (columns_there base.now.catalog table) order.now (spec.slot_value vars.now slot.now)) }
{
    let columns = columns_of(base.catalog(), table);
    let mark = mark_in(alloc, base.catalog(), columns, order, slot_text(vars, slot))?;
    Ok(mark)
}

fn filled_window(
    alloc: Global,
    base: &Base,
    vars: &Vars,
    table: u32,
    order: &[By],
    window: &SlotWindow,
) -> Result<Window, Memory>
    ensures { IfOk result (λ filled. filled ≡
        spec.filled_window base.now vars.now table order.now window.now) }
{
    let offset = slot_number(vars, &window.offset);
    let before = slot_mark(alloc, base, vars, table, order, &window.before)?;
    let after = slot_mark(alloc, base, vars, table, order, &window.after)?;
    Ok(Window {
        first: slot_number(vars, &window.first),
        last: slot_number(vars, &window.last),
        offset: offset.unwrap_or(0),
        before,
        after,
    })
}

// ---- statements

/// The statement that a fetch sends.
#[cycle(filling)]
pub(crate) fn stmt_of(
    alloc: Global,
    base: &Base,
    vars: &Vars,
    fetch: &FetchStep,
) -> Result<Stmt, Memory>
    ensures { IfOk result (λ stmt. stmt ≡ spec.stmt_of base.now vars.now fetch.now) }
{
    let order = fetch.order.as_slice();
    let by = Items::from_slice(alloc, fetch.by.as_slice())?;
    let condition = filled_equals(alloc, base, vars, fetch.table, fetch.condition.as_slice())?;
    let window = filled_window(alloc, base, vars, fetch.table, order, &fetch.window)?;
    let order = Items::from_slice(alloc, order)?;
    let children = children_of(alloc, base, vars, fetch.children.as_slice())?;
    Ok(Stmt {
        table: fetch.table,
        by,
        condition,
        order,
        window,
        rows: fetch.rows,
        children,
    })
}

/// Fetches as statements below another one.
#[cycle(filling)]
fn children_of(
    alloc: Global,
    base: &Base,
    vars: &Vars,
    fetches: &[FetchStep],
) -> Result<Items<Child>, Memory>
    ensures { IfOk result (λ children. children ≡
        map (spec.child_of base.now vars.now) fetches.now) }
{
    let mut children = Items::new(alloc);
    for fetch in fetches {
        let parent_columns = Items::from_slice(alloc, fetch.parent_columns.as_slice())?;
        let stmt = stmt_of(alloc, base, vars, fetch)?;
        children.push(Child {
            parent_columns,
            stmt,
        })?;
    }
    Ok(children)
}
