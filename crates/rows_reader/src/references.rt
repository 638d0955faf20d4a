//! References, judged when the last row stands.

ghost use Rattle.std.specs.Prelude.{◌≡◌, ◌<◌, ◌^◌, Ok, length, slice_index_or, IfOk};
ghost use Rattle.std.specs.Option.{option_copied};
ghost use Rattle.pg_base.specs.Lists.{Each, EachPair};
ghost use Rattle.ddl_reader.specs.Rows.{IsRowOf};
ghost use Rattle.rel_model.specs.declared.tables.Row.{Row};
ghost use Rattle.rows_reader.specs.Kept.{IsKept, AreKept};
ghost use Rattle.rows_reader.specs.Loaded as spec;
ghost use Rattle.rows_reader.specs.Loaded.{Tells, lists_after, opening};

use crate::fault::{LoadError, REFERENCE};
use crate::faults::refuse;
use crate::index::{Indexes, has_null, key_of};
use ddl_reader::RowText;
use pg_base::{Catalog, Cell, LinkDef, Memory, Pos, Text};
use rel_model::TableRows;
use std::alloc::Global;

/// Whether the cells of a reference, none of them null, stand in no row of its target.
fn finds_nothing(
    alloc: Global,
    lists: &[TableRows],
    indexes: &[Indexes],
    cells: &[Cell],
    link: &LinkDef,
) -> Result<bool, Memory>
    requires kept { EachPair IsKept lists.now indexes.now }
    requires target { link.now.target < length lists.now }
    ensures { IfOk result (λ lost. lost ≡ spec.finds_nothing lists.now cells.now link.now) }
{
    let key = key_of(alloc, link.columns.as_slice(), cells)?;
    if has_null(key.as_slice()) {
        return Ok(false);
    }
    let target = link.target as usize;
    let rows = lists[target].rows.as_slice();
    let found = indexes[target].find(alloc, rows, link.target_columns.as_slice(), &key)?;
    Ok(!found)
}

/// The first of a row's references that finds nothing.
fn first_lost<'a>(
    alloc: Global,
    lists: &[TableRows],
    indexes: &[Indexes],
    links: &'a [LinkDef],
    cells: &[Cell],
) -> Result<Option<&'a Text>, Memory>
    requires kept { EachPair IsKept lists.now indexes.now }
    requires targets { Each (λ l. l.target < length lists.now) links.now }
    ensures { IfOk result (λ found. option_copied found
        ≡ spec.first_lost lists.now links.now cells.now) }
{
    for link in links {
        let lost = finds_nothing(alloc, lists, indexes, cells, link)?;
        if lost {
            return Ok(Some(&link.name));
        }
    }
    Ok(None)
}

fn check_row(
    alloc: Global,
    lists: &[TableRows],
    indexes: &[Indexes],
    links: &[LinkDef],
    pos: Pos,
    cells: &[Cell],
) -> Result<(), LoadError>
    requires kept { EachPair IsKept lists.now indexes.now }
    requires targets { Each (λ l. l.target < length lists.now) links.now }
    ensures { Tells (spec.lost_reference lists.now links.now pos cells.now) result }
{
    let lost = first_lost(alloc, lists, indexes, links, cells)?;
    refuse(alloc, pos, REFERENCE, lost)
}

/// The references of a row's table.
fn links_of<'a>(catalog: &'a Catalog, row: &RowText) -> &'a [LinkDef]
    requires { IsRowOf catalog.now row.now }
    ensures value { result.now ≡ (spec.table_at catalog.now row.now.table).links }
    ensures targets { Each (λ l. l.target < length catalog.now.tables) result.now }
{
    catalog.know();
    catalog.tables()[row.table as usize].links.as_slice()
}

/// The cells of the row at a place.
fn cells_at(list: &TableRows, place: usize) -> &[Cell]
    requires { place < length list.now.rows }
    ensures cells { (none : Row) → result.now ≡ (slice_index_or list.now.rows place none).cells }
    ensures room { place < 2 ^ 63 }
{
    list.rows.as_slice()[place].cells.as_slice()
}

/// The fault of the first row with a reference that finds nothing. The n-th row of a table in the script is the n-th of
/// its list.
pub(crate) fn check_references(
    alloc: Global,
    catalog: &Catalog,
    lists: &[TableRows],
    indexes: &[Indexes],
    rows: &[RowText],
) -> Result<(), LoadError>
    requires rows { Each (IsRowOf catalog.now) rows.now }
    requires kept { AreKept catalog.now lists.now indexes.now }
    requires all { lists_after catalog.now (opening catalog.now) rows.now ≡ Ok lists.now }
    ensures { Tells
        (spec.reference_fault catalog.now lists.now (opening catalog.now) rows.now) result }
{
    let mut passed = vec![in alloc; 0usize; lists.len()]?;
    for row in rows {
        let table = row.table as usize;
        let place = passed[table];
        let cells = cells_at(&lists[table], place);
        let links = links_of(catalog, row);
        check_row(alloc, lists, indexes, links, row.pos, cells)?;
        passed[table] = place + 1;
    }
    Ok(())
}
