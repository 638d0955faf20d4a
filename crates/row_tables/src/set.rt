//! The rows of all tables.

ghost use Rattle.std.specs.Prelude.{◌≡◌, ◌≤◌, ◌<◌, ◌-◌, ◌^◌, ◌++◌, None, Some, IfOk, OnOk, IfSome, length, slice_get, slice_index_or, map, drop};
ghost use Rattle.std.specs.Option.{option_copied};
ghost use Rattle.pg_base.specs.Lists.{Each, EachPair};
ghost use Rattle.shared_list.specs.Lists.{IsRun};
ghost use Rattle.rel_model.specs.Tables.{IsUniqueIn};
ghost use Rattle.rel_model.specs.Picked.{row_numbered};
ghost use Rattle.row_tables.specs.Rows as spec;
ghost use Rattle.row_tables.specs.Set.{AreListsOf, set_of, list_at, kept_at, key_at, list_with, list_without, tables_with, parts_of, row_with_key, IsListOf};

use crate::RowSlot;
use crate::table::Table;
use pg_base::{Catalog, Cell, Memory, TableDef};
use rel_model::{Row, TableRows, Tables};
use shared_list::Shared;
use std::alloc::Global;
use std::marker::Model;

/// The rows of all tables of a catalog. Contracts see it as the plain lists of rows and, beside them, the columns of the
/// catalog's keys and identities, by which look-ups and counters go.
#[derive(Drop)]
pub struct TableSet {
    tables: Vec<Shared<Table>>,
}

impl Model for TableSet {
    ghost use Rattle.std.specs.Prelude.{map};
    ghost use Rattle.row_tables.specs.Set.{SetParts};

    ghost Value = { SetParts };

    ghost view = { λ s. record {
      tables = record { lists = map (λ t. t.list) s.tables.items };
      kept = map (λ t. t.kept) s.tables.items;
    } };
}

fn tables_of(
    alloc: Global,
    defs: &[TableDef],
    lists: &[TableRows],
) -> Result<Vec<Shared<Table>>, Memory>
    requires { EachPair IsListOf defs.now lists.now }
    ensures { IfOk result (λ made. made.items ≡ parts_of defs.now lists.now) }
{
    let mut made = Vec::with_capacity(alloc, defs.len())?;
    for (i, def) in defs.iter().enumerate() {
        made.push(Shared::new(alloc, Table::of(alloc, def, &lists[i])?)?)?;
    }
    Ok(made)
}

/// Appends an owner of each table.
fn share_tables(out: &mut Vec<Shared<Table>>, tables: &[Shared<Table>]) -> Result<(), Memory>
    ensures { OnOk result (out.new.items ≡ out.old.items ++ tables.now) }
{
    for table in tables {
        out.push(table.share()?)?;
    }
    Ok(())
}

impl TableSet {
    /// The set of these tables and of the columns of the catalog's keys and identities.
    pub fn of(alloc: Global, catalog: &Catalog, tables: &Tables) -> Result<TableSet, Memory>
        requires { AreListsOf catalog.now tables.now }
        ensures { IfOk result (λ s. s ≡ set_of catalog.now tables.now) }
    {
        let tables = tables_of(alloc, catalog.tables(), tables.lists.as_slice())?;
        Ok(TableSet { tables })
    }

    /// The number of tables.
    pub fn tables(&self) -> usize
        ensures { result ≡ length self.now.tables.lists }
    {
        self.tables.len()
    }

    /// The number of rows of a table.
    pub fn len(&self, table: u32) -> usize
        requires { table < length self.now.tables.lists }
        ensures { result ≡ length (list_at self.now table).rows }
    {
        self.tables[table as usize].get().len()
    }

    /// The row at a place of a table, in the order of the rows' numbers.
    pub fn at(&self, table: u32, place: usize) -> &Row
        requires table { table < length self.now.tables.lists }
        requires place { place < length (list_at self.now table).rows }
        ensures { slice_get (list_at self.now table).rows place ≡ Some result.now }
    {
        self.tables[table as usize].get().at(place)
    }

    /// Rows of a table from a place on, one at least: those that lie side by side. Going from run to run passes over a table
    /// faster than going from place to place.
    pub fn run(&self, table: u32, place: usize) -> &[RowSlot]
        requires table { table < length self.now.tables.lists }
        requires place { place < length (list_at self.now table).rows }
        ensures some { 0 < length result.now }
        ensures run { IsRun (list_at self.now table).rows place result.now }
    {
        self.tables[table as usize].get().run(place)
    }

    /// The number that the next row of a table gets.
    pub fn next_number(&self, table: u32) -> u64
        requires { table < length self.now.tables.lists }
        ensures { result ≡ (list_at self.now table).next_number }
    {
        self.tables[table as usize].get().next_number()
    }

    /// The last identity value of a column.
    pub fn counter(&self, table: u32, column: u32) -> i64
        requires table { table < length self.now.tables.lists }
        requires column { column < length (list_at self.now table).counters }
        ensures { slice_get (list_at self.now table).counters column ≡ Some result }
    {
        self.tables[table as usize].get().counters()[column as usize]
    }

    /// The row of a table with a number; none where there is no such table or row.
    pub fn get(&self, table: u32, number: u64) -> Option<&Row>
        ensures { option_copied result ≡ row_numbered (list_at self.now table).rows number }
    {
        let at = table as usize;
        if at >= self.tables.len() {
            return None;
        }
        self.tables[at].get().get(number)
    }

    /// The row of a table with these cells in a key's columns; none where there is no such table, key or row, or where a
    /// cell is null.
    pub fn by_key(&self, table: u32, key: u32, cells: &[Cell]) -> Option<&Row>
        ensures { option_copied result ≡ row_with_key self.now table key cells.now }
    {
        let at = table as usize;
        if at >= self.tables.len() {
            return None;
        }
        let rows = self.tables[at].get();
        if key as usize >= rows.keys() {
            return None;
        }
        rows.by_key(key as usize, cells)
    }

    /// Whether no row of a table but that with its number has a row's cells in a key's columns.
    pub fn is_free(&self, table: u32, key: u32, row: &Row) -> bool
        requires table { table < length self.now.tables.lists }
        requires key { key < length (kept_at self.now table).keys }
        ensures { result ≡ spec.is_free_in (key_at (kept_at self.now table) key) row.now
            (list_at self.now table).rows }
    {
        self.tables[table as usize].get().is_free(key as usize, row)
    }

    fn with_table(&self, alloc: Global, at: usize, table: Table) -> Result<TableSet, Memory>
        requires place { at < length self.now.tables.lists }
        requires kept { table.kept ≡ kept_at self.now at }
        ensures { IfOk result (λ s. s ≡
            record { tables = tables_with self.now at table.list; kept = self.now.kept }) }
    {
        let mut tables = Vec::with_capacity(alloc, self.tables.len())?;
        share_tables(&mut tables, self.tables.as_slice())?;
        tables[at] = Shared::new(alloc, table)?;
        Ok(TableSet { tables })
    }

    /// The set with a row in place of the one with its number, or last. The next number is then above the row's, and each
    /// identity counter is at least its cell.
    pub fn with(&self, alloc: Global, table: u32, row: Row) -> Result<TableSet, Memory>
        requires table { table < length self.now.tables.lists }
        requires place { row_numbered (list_at self.now table).rows row.number ≡ None →
            (list_at self.now table).next_number ≤ row.number }
        requires small { row.number < 2 ^ 64 - 1 }
        requires cells { length row.cells ≡ length (kept_at self.now table).identities }
        requires keys { Each (IsUniqueIn (spec.put row (list_at self.now table).rows))
            (kept_at self.now table).keys }
        ensures tables { IfOk result (λ s. s.tables ≡ tables_with self.now table
            (list_with (kept_at self.now table) row (list_at self.now table))) }
        ensures kept { IfOk result (λ s. s.kept ≡ self.now.kept) }
    {
        let at = table as usize;
        let made = self.tables[at].get().with(alloc, row)?;
        self.with_table(alloc, at, made)
    }

    /// The set without the row of a number. The next number and the counters stay.
    pub fn without(&self, alloc: Global, table: u32, number: u64) -> Result<TableSet, Memory>
        requires table { table < length self.now.tables.lists }
        ensures tables { IfOk result (λ s. s.tables ≡ tables_with self.now table
            (list_without number (list_at self.now table))) }
        ensures kept { IfOk result (λ s. s.kept ≡ self.now.kept) }
    {
        let at = table as usize;
        let made = self.tables[at].get().without(alloc, number)?;
        self.with_table(alloc, at, made)
    }
}
