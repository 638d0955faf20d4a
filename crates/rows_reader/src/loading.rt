//! The tables of a script.

ghost use Rattle.std.specs.Prelude.{◌≡◌, ◌<◌, [], length, IfOk, OnOk};
ghost use Rattle.pg_base.specs.Lists.{Each};
ghost use Rattle.ddl_reader.specs.Rows.{IsRowOf};
ghost use Rattle.rel_model.specs.Tables.{AreValidTables};
ghost use Rattle.rows_reader.specs.Kept.{IsIndexOf, AreKept};
ghost use Rattle.rows_reader.specs.Loaded as spec;
ghost use Rattle.rows_reader.specs.Loaded.{Tells};

use crate::fault::LoadError;
use crate::index::Indexes;
use crate::lists::{add, opening};
use crate::references::check_references;
use crate::texts::know_rows;
use ddl_reader::{RowText, Script};
use pg_base::{Catalog, KeyDef, LinkDef, Memory, TableDef};
use rel_model::{TableRows, Tables};
use sqlite_items::Items;
use std::alloc::Global;

fn indexes_of(alloc: Global, keys: &[KeyDef]) -> Result<Indexes, Memory>
    ensures { IfOk result (λ indexes. Each (IsIndexOf []) indexes) }
{
    let mut indexes = Indexes::new(alloc);
    for key in keys {
        indexes.have(alloc, key.columns.as_slice())?;
    }
    Ok(indexes)
}

fn have_targets(alloc: Global, links: &[LinkDef], indexes: &mut Vec<Indexes>) -> Result<(), Memory>
    requires { Each (λ l. l.target < length indexes.old.items) links.now }
    ensures length { OnOk result (length indexes.new.items ≡ length indexes.old.items) }
    ensures empty { OnOk result
        (Each (Each (IsIndexOf [])) indexes.old.items
        → Each (Each (IsIndexOf [])) indexes.new.items) }
{
    for link in links {
        indexes[link.target as usize].have(alloc, link.target_columns.as_slice())?;
    }
    Ok(())
}

/// The indexes of each table before any row: one for the columns of each key, and of each reference to the table.
fn all_indexes(alloc: Global, tables: &[TableDef]) -> Result<Vec<Indexes>, Memory>
    requires { Each (λ t. Each (λ l. l.target < length tables.now) t.links) tables.now }
    ensures length { IfOk result (λ all. length all.items ≡ length tables.now) }
    ensures empty { IfOk result (λ all. Each (Each (IsIndexOf [])) all.items) }
{
    let mut all = Vec::with_capacity(alloc, tables.len())?;
    for table in tables {
        all.push(indexes_of(alloc, table.keys.as_slice())?)?;
    }
    for table in tables {
        have_targets(alloc, table.links.as_slice(), &mut all)?;
    }
    Ok(all)
}

fn add_row(
    alloc: Global,
    catalog: &Catalog,
    lists: &mut Vec<TableRows>,
    indexes: &mut Vec<Indexes>,
    row: &RowText,
) -> Result<(), LoadError>
    requires row { IsRowOf catalog.now row.now }
    requires kept { AreKept catalog.now lists.old.items indexes.old.items }
    ensures fault { Tells (spec.next_fault catalog.now lists.old.items row.now) result }
    ensures lists { OnOk result
        (lists.new.items ≡ spec.lists_with catalog.now lists.old.items row.now) }
    ensures kept { OnOk result (AreKept catalog.now lists.new.items indexes.new.items) }
{
    catalog.know();
    let at = row.table as usize;
    let table = &catalog.tables()[at];
    let enums = catalog.enums();
    add(alloc, enums, table, &mut lists[at], &mut indexes[at], row)?;
    Ok(())
}

/// Puts the rows into the lists of their tables.
fn add_rows(
    alloc: Global,
    catalog: &Catalog,
    lists: &mut Vec<TableRows>,
    indexes: &mut Vec<Indexes>,
    rows: &[RowText],
) -> Result<(), LoadError>
    requires rows { Each (IsRowOf catalog.now) rows.now }
    requires kept { AreKept catalog.now lists.old.items indexes.old.items }
    ensures lists { spec.Adds (spec.lists_after catalog.now lists.old.items rows.now)
        result lists.new.items }
    ensures kept { OnOk result (AreKept catalog.now lists.new.items indexes.new.items) }
{
    for row in rows {
        add_row(alloc, catalog, lists, indexes, row)?;
    }
    Ok(())
}

/// The tables that a script's rows make: row after row, each with the next number of its table; references are judged when
/// the last row stands.
///
/// # Errors
/// The first fault of the first row that has one, in the order 6, 2, 1, 7, 8, 3, 4, or else the first reference that finds
/// nothing; or out of memory.
pub fn load(alloc: Global, catalog: &Catalog, script: &Script) -> Result<Tables, LoadError>
    requires { Each (IsRowOf catalog.now) script.now.rows }
    ensures rows { spec.Answers (spec.rows_of catalog.now script.now.rows) result }
    ensures valid { IfOk result (AreValidTables catalog.now) }
{
    let rows = script.rows.as_slice();
    catalog.know();
    know_rows(rows);
    let mut lists = opening(alloc, catalog.tables())?;
    let mut indexes = all_indexes(alloc, catalog.tables())?;
    add_rows(alloc, catalog, &mut lists, &mut indexes, rows)?;
    check_references(alloc, catalog, &lists, &indexes, rows)?;
    Ok(Tables {
        lists: Items::from_vec(lists),
    })
}
