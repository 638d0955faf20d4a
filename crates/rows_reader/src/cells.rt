//! The cells that values become.

ghost use Rattle.std.specs.Prelude.{◌≡◌, false, None, find, length, IfOk, map, drop};
ghost use Rattle.pg_base.specs.Catalog.{IsValidEnum};
ghost use Rattle.pg_base.specs.Lists.{Each};
ghost use Rattle.rows_reader.specs.Cells as spec;
ghost use Rattle.rows_reader.specs.Rows.{value_at, slots_of, cells_of, all_raised};
ghost use Rattle.rows_reader.specs.Faults.{fails};
ghost use Rattle.rows_reader.specs.declared.values.Check.TheVariants as check;

use crate::numbers::bigint_number;
use crate::values::{case_of, value_at};
use ddl_reader::{CompactText, Literal, RowText};
use pg_base::{Cell, ColumnDef, EnumDef, Kind, Memory};
use sqlite_items::Items;
use std::alloc::Global;

fn cell_of_number(text: &CompactText) -> Cell
    ensures { result ≡ spec.cell_of_number text.now }
{
    match bigint_number(text) {
        Some(number) => Cell::Int(number),
        None => Cell::Null,
    }
}

fn cell_of_label(enums: &[EnumDef], place: u32, label: &CompactText) -> Cell
    requires { Each IsValidEnum enums.now }
    ensures { result ≡ spec.cell_of_label enums.now place label.now }
{
    match case_of(enums, place, label) {
        Some(case) => Cell::EnumCase(case as u32),
        None => Cell::Null,
    }
}

fn cell_of_string(
    alloc: Global,
    enums: &[EnumDef],
    kind: Kind,
    text: &CompactText,
) -> Result<Cell, Memory>
    requires { Each IsValidEnum enums.now }
    ensures { IfOk result (λ cell. cell ≡ spec.cell_of_string enums.now kind text.now) }
{
    match kind {
        Kind::Text => Ok(Cell::Text(text.to_text(alloc)?)),
        Kind::Varchar(_) => Ok(Cell::Text(text.to_text(alloc)?)),
        Kind::Int => Ok(Cell::Null),
        Kind::BigInt => Ok(Cell::Null),
        Kind::Bool => Ok(Cell::Null),
        Kind::Enum(place) => Ok(cell_of_label(enums, place, text)),
    }
}

fn default_cell(alloc: Global, column: &ColumnDef, counter: i64) -> Result<Cell, Memory>
    requires { spec.is_spent column.now counter ≡ false }
    ensures { IfOk result (λ cell. cell ≡ spec.default_cell column.now counter) }
{
    if column.identity {
        return Ok(Cell::Int(counter + 1));
    }
    match &column.default {
        Some(cell) => cell.copy(alloc),
        None => Ok(Cell::Null),
    }
}

#[tactic(auto, unfolding(crate::specs::Cells::cell_of, crate::specs::Cells::is_bad))]
fn cell_of(
    alloc: Global,
    enums: &[EnumDef],
    column: &ColumnDef,
    counter: i64,
    value: &Literal,
) -> Result<Cell, Memory>
    requires enums { Each IsValidEnum enums.now }
    requires kind { spec.is_bad column.now counter value.now ≡ false }
    ensures { IfOk result
        (λ cell. cell ≡ spec.cell_of enums.now column.now counter value.now) }
{
    match value {
        Literal::Number(text) => Ok(cell_of_number(text)),
        Literal::Str(text) => cell_of_string(alloc, enums, column.kind, text),
        Literal::True => Ok(Cell::Bool(true)),
        Literal::False => Ok(Cell::Bool(false)),
        Literal::Null => Ok(Cell::Null),
        Literal::Default => default_cell(alloc, column, counter),
    }
}

/// The cell of a row in the column at a place.
fn cell_at(
    alloc: Global,
    enums: &[EnumDef],
    column: &ColumnDef,
    counter: i64,
    row: &RowText,
    place: usize,
) -> Result<Cell, Memory>
    requires enums { Each IsValidEnum enums.now }
    requires kind { spec.is_bad column.now counter (value_at row.now place) ≡ false }
    ensures { IfOk result
        (λ cell. cell ≡ spec.cell_of enums.now column.now counter (value_at row.now place)) }
{
    let default = Literal::Default;
    cell_of(
        alloc,
        enums,
        column,
        counter,
        value_at(row, place, &default),
    )
}

/// The cells of a row, one for each column.
pub(crate) fn cells_of(
    alloc: Global,
    enums: &[EnumDef],
    columns: &[ColumnDef],
    counters: &[i64],
    row: &RowText,
) -> Result<Items<Cell>, Memory>
    requires enums { Each IsValidEnum enums.now }
    requires counters { length counters.now ≡ length columns.now }
    requires kinds { find (fails check.Kind enums.now)
        (slots_of columns.now counters.now row.now) ≡ None }
    ensures { IfOk result
        (λ cells. cells ≡ cells_of enums.now (slots_of columns.now counters.now row.now)) }
{
    let mut cells = Vec::with_capacity(alloc, columns.len())?;
    for i in 0..columns.len() {
        let cell = cell_at(alloc, enums, &columns[i], counters[i], row, i)?;
        cells.push(cell)?;
    }
    Ok(Items::from_vec(cells))
}

#[tactic(auto, unfolding(crate::specs::Cells::raised))]
fn raised(identity: bool, counter: i64, cell: &Cell) -> i64
    ensures { result ≡ spec.raised identity counter cell.now }
{
    if identity {
        if let Cell::Int(value) = cell {
            if counter < *value {
                return *value;
            }
        }
    }
    counter
}

/// The last identity values after these cells.
pub(crate) fn all_raised(
    alloc: Global,
    columns: &[ColumnDef],
    counters: &[i64],
    cells: &[Cell],
) -> Result<Items<i64>, Memory>
    requires counters { length counters.now ≡ length columns.now }
    requires cells { length cells.now ≡ length columns.now }
    ensures { IfOk result (λ all. all ≡ all_raised columns.now counters.now cells.now) }
{
    let mut all = Vec::with_capacity(alloc, columns.len())?;
    for i in 0..columns.len() {
        all.push(raised(columns[i].identity, counters[i], &cells[i]))?;
    }
    Ok(Items::from_vec(all))
}
