//! The faults of a row, number by number.

ghost use Rattle.std.specs.Prelude.{◌≡◌, None, find, length, option_map, IfOk};
ghost use Rattle.std.specs.Option.{option_copied};
ghost use Rattle.pg_base.specs.Lists.{Each};
ghost use Rattle.rows_reader.specs.Faults as spec;
ghost use Rattle.rows_reader.specs.Keys.{is_taken};
ghost use Rattle.rows_reader.specs.Kept.{IsIndexOf};
ghost use Rattle.rows_reader.specs.Loaded.{Tells};
ghost use Rattle.rows_reader.specs.Rows.{slots_of};

use crate::fault::{
    BAD_LITERAL, ENUM_CASE, LIMIT, LoadError, NOT_NULL, RowsFault, TEXT_LENGTH, UNIQUE, VALUE_COUNT,
};
use crate::index::{Indexes, has_null, key_of};
use crate::values::{Check, fails_at};
use ddl_reader::RowText;
use pg_base::limits::MOST_ROWS;
use pg_base::{Cell, ColumnDef, EnumDef, KeyDef, Memory, Pos, TableDef, Text};
use rel_model::{Row, TableRows, is_null};
use std::alloc::Global;

/// The fault of this number at the name, if there is one.
pub(crate) fn refuse(
    alloc: Global,
    pos: Pos,
    which: u8,
    found: Option<&Text>,
) -> Result<(), LoadError>
    ensures { Tells (spec.else_next pos which (option_copied found.entry) None) result }
{
    let Some(name) = found else {
        return Ok(());
    };
    let name = name.copy(alloc)?;
    Err(LoadError::Fault(RowsFault { which, pos, name }))
}

/// The name, where the test holds.
fn when(test: bool, name: &Text) -> Option<&Text>
    ensures { option_copied result ≡ spec.when test name.now }
{
    if test { Some(name) } else { None }
}

fn past_limit<'a>(table: &'a TableDef, list: &TableRows) -> Option<&'a Text>
    ensures { option_copied result ≡ spec.past_limit table.now list.now }
{
    when(list.rows.len() >= MOST_ROWS, &table.name)
}

fn wrong_count<'a>(table: &'a TableDef, row: &RowText) -> Option<&'a Text>
    ensures { option_copied result ≡ spec.wrong_count table.now row.now }
{
    when(row.cells.len() != row.columns.len(), &table.name)
}

/// The first column whose value fails the check.
fn first_failing<'a>(
    check: Check,
    enums: &[EnumDef],
    columns: &'a [ColumnDef],
    counters: &[i64],
    row: &RowText,
) -> Option<&'a Text>
    requires { length counters.now ≡ length columns.now }
    ensures { option_copied result
        ≡ spec.first_failing check enums.now (slots_of columns.now counters.now row.now) }
{
    for i in 0..columns.len() {
        let column = &columns[i];
        if fails_at(check, enums, column, counters[i], row, i) {
            return Some(&column.name);
        }
    }
    None
}

/// The first fault of what is written.
#[tactic(auto, unfolding(crate::specs::Faults::fault_of_values))]
pub(crate) fn check_values(
    alloc: Global,
    enums: &[EnumDef],
    table: &TableDef,
    list: &TableRows,
    row: &RowText,
) -> Result<(), LoadError>
    requires { length list.now.counters ≡ length table.now.columns }
    ensures { Tells (spec.fault_of_values enums.now table.now list.now row.now) result }
{
    let pos = row.pos;
    let columns = table.columns.as_slice();
    let counters = list.counters.as_slice();
    refuse(alloc, pos, LIMIT, past_limit(table, list))?;
    refuse(alloc, pos, VALUE_COUNT, wrong_count(table, row))?;
    refuse(
        alloc,
        pos,
        BAD_LITERAL,
        first_failing(Check::Kind, enums, columns, counters, row),
    )?;
    refuse(
        alloc,
        pos,
        ENUM_CASE,
        first_failing(Check::Case, enums, columns, counters, row),
    )?;
    refuse(
        alloc,
        pos,
        TEXT_LENGTH,
        first_failing(Check::Length, enums, columns, counters, row),
    )
}

fn lacks_value(column: &ColumnDef, cell: &Cell) -> bool
    ensures { result ≡ spec.lacks_value column.now cell.now }
{
    column.not_null && is_null(cell)
}

/// The first column that takes no null and would have one.
fn first_null<'a>(columns: &'a [ColumnDef], cells: &[Cell]) -> Option<&'a Text>
    ensures { option_copied result ≡ spec.first_null columns.now cells.now }
{
    for i in 0..columns.len().min(cells.len()) {
        let column = &columns[i];
        if lacks_value(column, &cells[i]) {
            return Some(&column.name);
        }
    }
    None
}

/// Whether some row has a row's cells in a key's columns, none of them null.
fn is_taken(
    alloc: Global,
    places: &[u32],
    indexes: &Indexes,
    rows: &[Row],
    cells: &[Cell],
) -> Result<bool, Memory>
    requires { Each (IsIndexOf rows.now) indexes.now }
    ensures { IfOk result (λ taken. taken ≡ is_taken places.now rows.now cells.now) }
{
    let key = key_of(alloc, places, cells)?;
    if has_null(key.as_slice()) {
        return Ok(false);
    }
    indexes.find(alloc, rows, places, &key)
}

/// The first key in whose columns a row has the same cells.
fn first_taken<'a>(
    alloc: Global,
    keys: &'a [KeyDef],
    indexes: &Indexes,
    rows: &[Row],
    cells: &[Cell],
) -> Result<Option<&'a Text>, Memory>
    requires { Each (IsIndexOf rows.now) indexes.now }
    ensures { IfOk result
        (λ found. option_copied found ≡ spec.first_taken keys.now rows.now cells.now) }
{
    for key in keys {
        let taken = is_taken(alloc, key.columns.as_slice(), indexes, rows, cells)?;
        if taken {
            return Ok(Some(&key.name));
        }
    }
    Ok(None)
}

/// The first fault of the cells that a row becomes.
#[tactic(auto, unfolding(crate::specs::Faults::fault_of_cells))]
pub(crate) fn check_cells(
    alloc: Global,
    table: &TableDef,
    list: &TableRows,
    indexes: &Indexes,
    pos: Pos,
    cells: &[Cell],
) -> Result<(), LoadError>
    requires { Each (IsIndexOf list.now.rows) indexes.now }
    ensures { Tells (spec.fault_of_cells table.now list.now pos cells.now) result }
{
    let rows = list.rows.as_slice();
    refuse(
        alloc,
        pos,
        NOT_NULL,
        first_null(table.columns.as_slice(), cells),
    )?;
    let taken = first_taken(alloc, table.keys.as_slice(), indexes, rows, cells)?;
    refuse(alloc, pos, UNIQUE, taken)
}
