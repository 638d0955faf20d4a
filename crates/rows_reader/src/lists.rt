//! Rows that are put into the lists of their tables.

ghost use Rattle.std.specs.Prelude.{◌≡◌, ◌<◌, ◌+◌, Ok, map, length, IfOk, OnOk};
ghost use Rattle.pg_base.specs.Catalog.{IsValidEnum};
ghost use Rattle.pg_base.specs.Lists.{Each};
ghost use Rattle.pg_base.specs.Limits.{most_rows};
ghost use Rattle.rows_reader.specs.Faults as spec;
ghost use Rattle.rows_reader.specs.Kept.{IsKept, HasCounters, grown};
ghost use Rattle.rows_reader.specs.Loaded.{Answers, Tells, no_rows, unless_fault};
ghost use Rattle.rows_reader.specs.Rows.{row_cells, list_with};

use crate::cells::{all_raised, cells_of};
use crate::fault::LoadError;
use crate::faults::{check_cells, check_values};
use crate::index::Indexes;
use ddl_reader::RowText;
use pg_base::{Cell, EnumDef, Memory, TableDef};
use rel_model::{Row, TableRows};
use sqlite_items::Items;
use std::alloc::Global;

/// The lists of the tables before any row.
pub(crate) fn opening(alloc: Global, tables: &[TableDef]) -> Result<Vec<TableRows>, Memory>
    ensures { IfOk result (λ lists. lists.items ≡ map no_rows tables.now) }
{
    let mut lists = Vec::with_capacity(alloc, tables.len())?;
    for table in tables {
        let list = TableRows::of(alloc, table.columns.len(), Items::new(alloc))?;
        lists.push(list)?;
    }
    Ok(lists)
}

/// The cells that a row becomes, or its first fault.
fn checked_cells(
    alloc: Global,
    enums: &[EnumDef],
    table: &TableDef,
    list: &TableRows,
    indexes: &Indexes,
    row: &RowText,
) -> Result<Items<Cell>, LoadError>
    requires enums { Each IsValidEnum enums.now }
    requires counters { HasCounters table.now list.now }
    requires kept { IsKept list.now indexes.now }
    ensures { Answers (unless_fault (spec.fault_of enums.now table.now list.now row.now)
        (Ok (row_cells enums.now table.now list.now row.now))) result }
{
    check_values(alloc, enums, table, list, row)?;
    let columns = table.columns.as_slice();
    let cells = cells_of(alloc, enums, columns, list.counters.as_slice(), row)?;
    check_cells(alloc, table, list, indexes, row.pos, cells.as_slice())?;
    Ok(cells)
}

/// Puts a row of these cells last.
fn put(
    alloc: Global,
    table: &TableDef,
    list: &mut TableRows,
    indexes: &mut Indexes,
    cells: Items<Cell>,
) -> Result<(), Memory>
    requires limit { length list.old.rows < most_rows }
    requires next { list.old.next_number ≡ length list.old.rows + 1 }
    requires counters { HasCounters table.now list.old }
    requires cells { length cells ≡ length table.now.columns }
    ensures list { OnOk result (list.new ≡ list_with table.now list.old cells) }
    ensures indexes { OnOk result (indexes.new ≡ map (grown cells) indexes.old) }
{
    let counters = list.counters.as_slice();
    let raised = all_raised(alloc, table.columns.as_slice(), counters, cells.as_slice())?;
    indexes.add(alloc, cells.as_slice())?;
    let number = list.next_number;
    list.rows.push(Row { number, cells })?;
    list.next_number = number + 1;
    list.counters = raised;
    Ok(())
}

/// Puts a row into the list of its table, with its indexes.
pub(crate) fn add(
    alloc: Global,
    enums: &[EnumDef],
    table: &TableDef,
    list: &mut TableRows,
    indexes: &mut Indexes,
    row: &RowText,
) -> Result<(), LoadError>
    requires enums { Each IsValidEnum enums.now }
    requires counters { HasCounters table.now list.old }
    requires kept { IsKept list.old indexes.old }
    ensures fault { Tells (spec.fault_of enums.now table.now list.old row.now) result }
    ensures list { OnOk result (list.new ≡ list_with table.now list.old
        (row_cells enums.now table.now list.old row.now)) }
    ensures counters { OnOk result (HasCounters table.now list.new) }
    ensures kept { OnOk result (IsKept list.new indexes.new) }
{
    let cells = checked_cells(alloc, enums, table, list, indexes, row)?;
    put(alloc, table, list, indexes, cells)?;
    Ok(())
}
