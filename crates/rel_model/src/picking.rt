//! The rows of a table that a key and a condition pick, and rows by their numbers.

ghost use Rattle.std.specs.Prelude.{◌≡◌, IfOk, length, map, drop, not, ◌&&◌};
ghost use Rattle.std.specs.Option.{option_copied};
ghost use Rattle.rel_model.specs.Picked as spec;
ghost use Rattle.rel_model.specs.Tables.{cells_at};

use crate::{Equal, Row, Tables};
use pg_base::{Cell, Memory};
use sqlite_items::Items;
use std::alloc::Global;

#[tactic(auto, unfolding(crate::specs::Picked::same_cell))]
fn is_same(a: &Cell, b: &Cell) -> bool
    ensures { result ≡ spec.same_cell a.now b.now }
{
    match a {
        Cell::Null => match b {
            Cell::Null => true,
            _ => false,
        },
        Cell::Int(x) => match b {
            Cell::Int(y) => *x == *y,
            _ => false,
        },
        Cell::Bool(x) => match b {
            Cell::Bool(y) => *x == *y,
            _ => false,
        },
        Cell::Text(x) => match b {
            Cell::Text(y) => *x == *y,
            _ => false,
        },
        Cell::EnumCase(x) => match b {
            Cell::EnumCase(y) => *x == *y,
            _ => false,
        },
    }
}

#[tactic(auto, unfolding(crate::specs::Picked::is_null))]
pub fn is_null(cell: &Cell) -> bool
    ensures { result ≡ spec.is_null cell.now }
{
    match cell {
        Cell::Null => true,
        Cell::Int(_) | Cell::Bool(_) | Cell::Text(_) | Cell::EnumCase(_) => false,
    }
}

/// Whether a row has the cell at a place, a null being the same as a null.
fn has_cell(cells: &[Cell], place: u32, cell: &Cell) -> bool
    ensures { result ≡ spec.same_cell (spec.cell_at cells.now place) cell.now }
{
    let null = Cell::Null;
    is_same(cells.get(place as usize).unwrap_or(&null), cell)
}

fn has_key_cell(cells: &[Cell], place: u32, value: &Cell) -> bool
    ensures { result ≡
        (not (spec.is_null value.now) && spec.same_cell (spec.cell_at cells.now place) value.now) }
{
    if is_null(value) {
        return false;
    }
    has_cell(cells, place, value)
}

fn has_key(by: &[u32], key: &[Cell], cells: &[Cell]) -> bool
    ensures { result ≡ spec.has_key by.now key.now cells.now }
{
    for i in 0..by.len().min(key.len()) {
        if !has_key_cell(cells, by[i], &key[i]) {
            return false;
        }
    }
    true
}

fn meets(condition: &[Equal], cells: &[Cell]) -> bool
    ensures { result ≡ spec.meets condition.now cells.now }
{
    for equal in condition {
        if !has_cell(cells, equal.column, &equal.cell) {
            return false;
        }
    }
    true
}

/// Whether a row has the key at these columns, with no null in it, and meets the condition.
pub fn passes(by: &[u32], key: &[Cell], condition: &[Equal], row: &Row) -> bool
    ensures { result ≡ spec.passes by.now key.now condition.now row.now }
{
    let cells = row.cells.as_slice();
    if !has_key(by, key, cells) {
        return false;
    }
    meets(condition, cells)
}

/// Whether two rows have one cell at a place, and no null.
fn agree_at(xs: &[Cell], ys: &[Cell], place: u32) -> bool
    ensures { result ≡
        (not (spec.is_null (spec.cell_at xs.now place))
        && spec.same_cell (spec.cell_at ys.now place) (spec.cell_at xs.now place)) }
{
    let null = Cell::Null;
    has_key_cell(ys, place, xs.get(place as usize).unwrap_or(&null))
}

/// Whether two rows have the same cells at these places, none of them null.
pub fn agree(places: &[u32], xs: &[Cell], ys: &[Cell]) -> bool
    ensures { result ≡ spec.has_key places.now (cells_at places.now xs.now) ys.now }
{
    for place in places {
        if !agree_at(xs, ys, *place) {
            return false;
        }
    }
    true
}

/// The rows of a table.
pub(crate) fn rows_of(tables: &Tables, table: u32) -> &[Row]
    ensures { result.now ≡ spec.rows_of tables.now table }
{
    match tables.lists.get(table as usize) {
        Some(list) => list.rows.as_slice(),
        None => &[],
    }
}

fn pick_from(
    alloc: Global,
    rows: &[Row],
    by: &[u32],
    key: &[Cell],
    condition: &[Equal],
) -> Result<Items<u64>, Memory>
    requires { length key.now ≡ length by.now }
    ensures { IfOk result (λ found. found ≡
        spec.numbers_of (spec.picked_from by.now key.now condition.now rows.now)) }
{
    let mut found = Items::new(alloc);
    for row in rows {
        if passes(by, key, condition, row) {
            found.push(row.number)?;
        }
    }
    Ok(found)
}

/// The numbers of the rows, in row order, whose cells at `by` are the key and that meet the condition. A null in the key
/// finds nothing, a null in the condition finds nulls.
pub fn pick(
    alloc: Global,
    tables: &Tables,
    table: u32,
    by: &[u32],
    key: &[Cell],
    condition: &[Equal],
) -> Result<Items<u64>, Memory>
    requires { length key.now ≡ length by.now }
    ensures { IfOk result (λ found. found ≡
        spec.numbers_of (spec.picked tables.now table by.now key.now condition.now)) }
{
    pick_from(alloc, rows_of(tables, table), by, key, condition)
}

/// The row with a number, found by halving the rows.
pub fn find_row(rows: &[Row], number: u64) -> Option<&Row>
    requires { spec.AreRising rows.now }
    ensures { option_copied result ≡ spec.row_numbered rows.now number }
{
    let mut rest = rows;
    'rest: while !rest.is_empty() {
        let middle = rest.len() / 2;
        let row = &rest[middle];
        if row.number == number {
            return Some(row);
        }
        if row.number < number {
            rest = &rest[middle + 1..];
            continue;
        }
        rest = &rest[..middle];
    }
    None
}

/// The rows that have these numbers, in their order.
pub(crate) fn rows_numbered<'a>(
    alloc: Global,
    rows: &'a [Row],
    numbers: &[u64],
) -> Result<Vec<&'a Row>, Memory>
    requires { spec.AreRising rows.now }
    ensures { IfOk result (λ found.
        map (λ r. r.now) found.items ≡ spec.rows_numbered rows.now numbers.now) }
{
    let mut found = Vec::with_capacity(alloc, numbers.len())?;
    for number in numbers {
        if let Some(row) = find_row(rows, *number) {
            found.push(row)?;
        }
    }
    Ok(found)
}
