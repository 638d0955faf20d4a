//! One table of a set.

ghost use Rattle.std.specs.Prelude.{◌≡◌, ◌≤◌, ◌<◌, ◌-◌, ◌^◌, [], None, Some, IfOk, length, slice_get, slice_index_or, map, drop};
ghost use Rattle.std.specs.List.{list_all};
ghost use Rattle.std.specs.Option.{option_copied};
ghost use Rattle.pg_base.specs.Lists.{Each};
ghost use Rattle.shared_list.specs.Lists.{IsRun};
ghost use Rattle.rel_model.specs.Tables.{IsUniqueIn};
ghost use Rattle.rel_model.specs.Picked.{AreRising, row_numbered, passes as passes_key};
ghost use Rattle.row_tables.specs.Rows as spec;
ghost use Rattle.row_tables.specs.Set.{IsListOf, kept_columns, list_with, list_without, key_at};
ghost use Rattle.row_tables.specs.Seat.{IsSeat};

use crate::KeptColumns;
use crate::item::{ByNumber, RowItem, RowSlot};
use pg_base::{Cell, Memory, TableDef};
use rel_model::{Row, TableRows, agree, copy_row, passes};
use shared_list::{Shared, SharedList};
use sqlite_items::Items;
use std::alloc::Global;
use std::marker::Model;

/// The rows of a table, with what is kept of its columns.
#[derive(Drop)]
pub(crate) struct Table {
    rows: SharedList<RowItem>,
    next_number: u64,
    counters: Items<i64>,
    kept: Shared<KeptColumns>,
}

impl Model for Table {
    ghost use Rattle.row_tables.specs.Set.{TableParts, IsKept};

    ghost Value = { TableParts };

    ghost view = { λ t. record {
      list = record { rows = t.rows; next_number = t.next_number; counters = t.counters };
      kept = t.kept;
    } };

    ghost invariant = { λ t. IsKept (record {
      list = record { rows = t.rows; next_number = t.next_number; counters = t.counters };
      kept = t.kept;
    }) };
}

/// The place of the row with a number.
fn seat_of(rows: &SharedList<RowItem>, number: u64) -> Option<usize>
    requires { AreRising rows.now }
    ensures { IsSeat number rows.now result }
{
    let at = rows.place(&ByNumber { number });
    if at >= rows.len() {
        return None;
    }
    let row = rows.get(at).row();
    if row.number == number {
        return Some(at);
    }
    None
}

/// The first row of a run that has these cells in a key's columns.
fn found_in<'a>(run: &'a [RowSlot], places: &[u32], cells: &[Cell]) -> Option<&'a Row>
    requires { length cells.now ≡ length places.now }
    ensures { option_copied result ≡ spec.first (passes_key places.now cells.now []) run.now }
{
    for slot in run {
        let row = slot.get().row();
        if passes(places, cells, &[], row) {
            return Some(row);
        }
    }
    None
}

/// The row with these cells in a key's columns.
fn find_by<'a>(rows: &'a SharedList<RowItem>, places: &[u32], cells: &[Cell]) -> Option<&'a Row>
    ensures { option_copied result ≡ spec.row_by places.now cells.now rows.now }
{
    if cells.len() != places.len() {
        return None;
    }
    let mut at = 0;
    'runs: while at < rows.len() {
        let run = rows.run_from(at);
        if let Some(row) = found_in(run, places, cells) {
            return Some(row);
        }
        at += run.len();
    }
    None
}

/// Whether no row of a run but that with its number has a row's cells in a key's columns.
fn is_free_in(run: &[RowSlot], places: &[u32], row: &Row) -> bool
    ensures { result ≡ spec.is_free_in places.now row.now run.now }
{
    for slot in run {
        let other = slot.get().row();
        if other.number != row.number {
            if agree(places, row.cells.as_slice(), other.cells.as_slice()) {
                return false;
            }
        }
    }
    true
}

fn is_free(rows: &SharedList<RowItem>, places: &[u32], row: &Row) -> bool
    ensures { result ≡ spec.is_free_in places.now row.now rows.now }
{
    let mut at = 0;
    'runs: while at < rows.len() {
        let run = rows.run_from(at);
        if !is_free_in(run, places, row) {
            return false;
        }
        at += run.len();
    }
    true
}

/// The rows with one in place of the one with its number, or last.
fn put_row(
    alloc: Global,
    rows: &SharedList<RowItem>,
    row: Row,
) -> Result<SharedList<RowItem>, Memory>
    requires { AreRising rows.now }
    ensures { IfOk result (λ made. made ≡ spec.put row rows.now) }
{
    let number = row.number;
    let item = Shared::new(alloc, RowItem::of(row))?;
    match seat_of(rows, number) {
        Some(at) => {
            let made = rows.with_set(alloc, at, item)?;
            Ok(made)
        }
        None => {
            let made = rows.with_insert(alloc, rows.len(), item)?;
            Ok(made)
        }
    }
}

/// The rows but the one with the number.
fn leave_out(
    alloc: Global,
    rows: &SharedList<RowItem>,
    number: u64,
) -> Result<SharedList<RowItem>, Memory>
    requires { AreRising rows.now }
    ensures { IfOk result (λ made. made ≡ spec.left_out number rows.now) }
{
    match seat_of(rows, number) {
        Some(at) => {
            let made = rows.with_removed(alloc, at)?;
            Ok(made)
        }
        None => {
            let made = rows.share(alloc)?;
            Ok(made)
        }
    }
}

fn share_rows(alloc: Global, rows: &[Row]) -> Result<SharedList<RowItem>, Memory>
    ensures { IfOk result (λ made. made ≡ rows.now) }
{
    let mut made = SharedList::new(alloc);
    for row in rows {
        let item = Shared::new(alloc, RowItem::of(copy_row(alloc, row)?))?;
        made = made.with_insert(alloc, made.len(), item)?;
    }
    Ok(made)
}

#[tactic(auto, unfolding(crate::specs::Rows::raised))]
fn raised(identity: bool, counter: i64, cell: &Cell) -> i64
    ensures { result ≡ spec.raised identity counter cell.now }
{
    if identity {
        if let Cell::Int(value) = cell {
            if counter < *value {
                return *value;
            }
        }
    }
    counter
}

fn raise_all(
    alloc: Global,
    identities: &[bool],
    counters: &[i64],
    cells: &[Cell],
) -> Result<Items<i64>, Memory>
    requires counters { length counters.now ≡ length identities.now }
    requires cells { length cells.now ≡ length identities.now }
    ensures { IfOk result (λ all. all ≡ spec.all_raised identities.now counters.now cells.now) }
{
    let mut all = Vec::with_capacity(alloc, identities.len())?;
    for i in 0..identities.len() {
        all.push(raised(identities[i], counters[i], &cells[i]))?;
    }
    Ok(Items::from_vec(all))
}

fn next_above(next: u64, number: u64) -> u64
    requires { number < 2 ^ 64 - 1 }
    ensures { result ≡ spec.next_above next number }
{
    if next <= number { number + 1 } else { next }
}

fn copy_counters(alloc: Global, counters: &[i64]) -> Result<Items<i64>, Memory>
    ensures { IfOk result (λ copy. copy ≡ counters.now) }
{
    Ok(Items::from_vec(Vec::from_slice(alloc, counters)?))
}

impl Table {
    pub fn of(alloc: Global, table: &TableDef, list: &TableRows) -> Result<Table, Memory>
        requires { IsListOf table.now list.now }
        ensures { IfOk result (λ t. t ≡ record { list = list.now; kept = kept_columns table.now }) }
    {
        let kept = Shared::new(alloc, KeptColumns::of(alloc, table)?)?;
        let rows = share_rows(alloc, list.rows.as_slice())?;
        let counters = copy_counters(alloc, list.counters.as_slice())?;
        Ok(Table {
            rows,
            next_number: list.next_number,
            counters,
            kept,
        })
    }

    pub fn len(&self) -> usize
        ensures { result ≡ length self.now.list.rows }
    {
        self.rows.len()
    }

    pub fn at(&self, place: usize) -> &Row
        requires { place < length self.now.list.rows }
        ensures { slice_get self.now.list.rows place ≡ Some result.now }
    {
        self.rows.get(place).row()
    }

    pub fn run(&self, place: usize) -> &[RowSlot]
        requires { place < length self.now.list.rows }
        ensures some { 0 < length result.now }
        ensures run { IsRun self.now.list.rows place result.now }
    {
        self.rows.run_from(place)
    }

    pub fn next_number(&self) -> u64
        ensures { result ≡ self.now.list.next_number }
    {
        self.next_number
    }

    pub fn counters(&self) -> &[i64]
        ensures { result.now ≡ self.now.list.counters }
    {
        self.counters.as_slice()
    }

    pub fn get(&self, number: u64) -> Option<&Row>
        ensures { option_copied result ≡ row_numbered self.now.list.rows number }
    {
        match seat_of(&self.rows, number) {
            Some(at) => Some(self.rows.get(at).row()),
            None => None,
        }
    }

    pub fn by_key(&self, key: usize, cells: &[Cell]) -> Option<&Row>
        requires { key < length self.now.kept.keys }
        ensures { option_copied result ≡
            spec.row_by (key_at self.now.kept key) cells.now self.now.list.rows }
    {
        let places = &self.kept.get().keys.as_slice()[key];
        find_by(&self.rows, places.as_slice(), cells)
    }

    pub fn is_free(&self, key: usize, row: &Row) -> bool
        requires { key < length self.now.kept.keys }
        ensures { result ≡
            spec.is_free_in (key_at self.now.kept key) row.now self.now.list.rows }
    {
        let places = &self.kept.get().keys.as_slice()[key];
        is_free(&self.rows, places.as_slice(), row)
    }

    pub fn keys(&self) -> usize
        ensures { result ≡ length self.now.kept.keys }
    {
        self.kept.get().keys.len()
    }

    pub fn with(&self, alloc: Global, row: Row) -> Result<Table, Memory>
        requires place { row_numbered self.now.list.rows row.number ≡ None →
            self.now.list.next_number ≤ row.number }
        requires small { row.number < 2 ^ 64 - 1 }
        requires cells { length row.cells ≡ length self.now.kept.identities }
        ensures { IfOk result (λ t. t ≡
            record { list = list_with self.now.kept row self.now.list; kept = self.now.kept }) }
    {
        let next_number = next_above(self.next_number, row.number);
        let identities = self.kept.get().identities.as_slice();
        let cells = row.cells.as_slice();
        let counters = raise_all(alloc, identities, self.counters.as_slice(), cells)?;
        let rows = put_row(alloc, &self.rows, row)?;
        let kept = self.kept.share()?;
        Ok(Table {
            rows,
            next_number,
            counters,
            kept,
        })
    }

    pub fn without(&self, alloc: Global, number: u64) -> Result<Table, Memory>
        ensures { IfOk result (λ t. t ≡
            record { list = list_without number self.now.list; kept = self.now.kept }) }
    {
        let rows = leave_out(alloc, &self.rows, number)?;
        let counters = copy_counters(alloc, self.counters.as_slice())?;
        let kept = self.kept.share()?;
        Ok(Table {
            rows,
            next_number: self.next_number,
            counters,
            kept,
        })
    }
}
