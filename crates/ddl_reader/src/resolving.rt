//! The names of INSERTs, looked up in the whole catalog.

ghost use Rattle.std.specs.Prelude.{◌≡◌, ◌≤◌, ◌++◌, map, min, length, reverse, option_map, IfOk, OnOk};
ghost use Rattle.std.specs.Option.{option_copied};
ghost use Rattle.pg_base.specs.Limits.{most_columns};
ghost use Rattle.pg_base.specs.Lists.{EachPair};
ghost use Rattle.pg_catalog.specs.Names.{column_names, places_of};
ghost use Rattle.ddl_reader.specs.Script as spec;
ghost use Rattle.ddl_reader.specs.Destinations as kept;
ghost use Rattle.ddl_reader.specs.Inserts.{inserts_in};

use crate::columns::Columns;
use crate::fault::ScriptFault;
use crate::inserts::{InsertPlace, Inserts};
use crate::known::{Known, first_double, names_in};
use crate::script::RowText;
use crate::statement::{InsertStatement, Row};
use pg_base::{Memory, Sequence, TableDef, Text};
use pg_catalog::{CatalogFault, Growing};
use sqlite_items::{Items, at};
use std::alloc::{AllocError, Global};

/// An INSERT's table, how many columns it has, and the places of those that the INSERT names.
#[derive(Drop)]
pub(crate) struct Destination {
    table: u32,
    width: u32,
    columns: Option<Columns>,
}

const DOUBLE_COLUMN: u8 = 2;

const UNKNOWN_TABLE: u8 = 3;

const UNKNOWN_COLUMN: u8 = 4;

/// The fault of this number at the INSERT's table.
fn insert_fault(
    alloc: Global,
    which: u8,
    insert: &InsertStatement,
    name: &Text,
) -> Result<ScriptFault, Memory>
    ensures { IfOk result (λ fault. fault ≡ spec.insert_fault which insert.now name.now) }
{
    let name = name.copy(alloc)?;
    Ok(ScriptFault::Catalog(CatalogFault {
        which,
        pos: insert.table.pos,
        name,
    }))
}

/// No column is named twice.
fn check_double(alloc: Global, insert: &InsertStatement) -> Result<(), ScriptFault>
    ensures { spec.Tells (spec.double_column insert.now) result }
{
    let Some(names) = &insert.columns else {
        return Ok(());
    };
    let Some(name) = first_double(alloc, names.as_slice())? else {
        return Ok(());
    };
    let fault = insert_fault(alloc, DOUBLE_COLUMN, insert, name)?;
    Err(fault)
}

/// The columns that an INSERT names, in its table.
fn look_up_columns(
    alloc: Global,
    place: u32,
    table: &TableDef,
    known: &Known,
    insert: &InsertStatement,
) -> Result<Destination, ScriptFault>
    requires width { length table.now.columns ≤ most_columns }
    requires names { known.now ≡ column_names table.now }
    ensures fault { spec.Tells (spec.unknown_column insert.now table.now) result }
    ensures found { IfOk result (λ d. d ≡ kept.destination place table.now insert.now) }
{
    let width = table.columns.len() as u32;
    let Some(names) = &insert.columns else {
        return Ok(Destination {
            table: place,
            width,
            columns: None,
        });
    };
    if let Some(name) = known.first_missing(names.as_slice()) {
        let fault = insert_fault(alloc, UNKNOWN_COLUMN, insert, name)?;
        return Err(fault);
    }
    let places = known.places(alloc, names.as_slice())?;
    let columns = Columns::named(alloc, places)?;
    Ok(Destination {
        table: place,
        width,
        columns: Some(columns),
    })
}

/// The table of an INSERT, and its columns there.
fn look_up_table(
    alloc: Global,
    catalog: &Growing,
    known: &[Known],
    insert: &InsertStatement,
) -> Result<Destination, ScriptFault>
    requires { known.now ≡ map column_names catalog.now.tables }
    ensures fault { spec.Tells (spec.unknown_name catalog.now insert.now) result }
    ensures found { IfOk result (kept.IsDestination catalog.now insert.now) }
{
    catalog.know();
    let Some(place) = catalog.table_place(&insert.table.text) else {
        let fault = insert_fault(alloc, UNKNOWN_TABLE, insert, &insert.table.text)?;
        return Err(fault);
    };
    look_up_columns(
        alloc,
        place as u32,
        &catalog.tables()[place],
        &known[place],
        insert,
    )
}

fn look_up(
    alloc: Global,
    catalog: &Growing,
    known: &[Known],
    insert: &InsertStatement,
) -> Result<Destination, ScriptFault>
    requires { known.now ≡ map column_names catalog.now.tables }
    ensures fault { spec.Tells (spec.names_fault catalog.now insert.now) result }
    ensures found { IfOk result (kept.IsDestination catalog.now insert.now) }
{
    check_double(alloc, insert)?;
    look_up_table(alloc, catalog, known, insert)
}

/// What each of these INSERTs names, or the first fault.
fn look_up_all(
    alloc: Global,
    catalog: &Growing,
    inserts: &[InsertStatement],
) -> Result<Items<Destination>, ScriptFault>
    ensures fault { spec.Tells (spec.first_fault catalog.now inserts.now) result }
    ensures found { IfOk result (EachPair (kept.IsDestination catalog.now) inserts.now) }
{
    catalog.know();
    let known = names_in(alloc, catalog.tables())?;
    let mut found = Items::new(alloc);
    for insert in inserts {
        let into = look_up(alloc, catalog, known.as_slice(), insert)?;
        found.push(into)?;
    }
    Ok(found)
}

/// The columns of a row of this many values: those that the INSERT names, or the table's first ones.
fn columns_for(into: &Destination, values: usize) -> Result<Columns, Memory>
    ensures { IfOk result (λ columns. columns ≡ kept.columns_into into.now values) }
{
    match &into.columns {
        Some(columns) => columns.share(),
        None => Ok(Columns::first(values.min(into.width as usize) as u32)),
    }
}

/// A row, with the places of its table and columns.
fn row_text(
    places: &[InsertPlace],
    destinations: &[Destination],
    row: Row,
) -> Result<RowText, Memory>
    ensures { IfOk result (kept.IsRowInto places.now destinations.now row) }
{
    let Row { pos, insert, cells } = row;
    let Some(place) = at(places, insert) else {
        return Err(AllocError);
    };
    let Some(into) = at(destinations, place.first) else {
        return Err(AllocError);
    };
    let columns = columns_for(into, cells.len())?;
    Ok(RowText {
        pos,
        table: into.table,
        columns,
        cells,
    })
}

/// The rows, from the last on.
fn rows_backwards(
    alloc: Global,
    places: &[InsertPlace],
    destinations: &[Destination],
    rows: Items<Row>,
) -> Result<Sequence<RowText>, Memory>
    ensures { IfOk result (λ made.
        EachPair (kept.IsRowInto places.now destinations.now) rows (reverse made)) }
{
    let mut left = rows;
    let mut made = Sequence::new(alloc);
    while let Some(row) = left.pop() {
        let text = row_text(places, destinations, row)?;
        made.push(text)?;
    }
    Ok(made)
}

/// The rows from the last on, in the same place.
fn reversed(rows: Sequence<RowText>) -> Sequence<RowText>
    ensures { result ≡ reverse rows }
{
    let mut rows = rows.into_vec();
    rows.reverse();
    Sequence::of(rows)
}

/// The rows of the INSERTs at these places, with the places of their tables and columns.
fn rows_at(
    alloc: Global,
    catalog: &Growing,
    firsts: &[InsertStatement],
    places: &[InsertPlace],
    rows: Items<Row>,
) -> Result<Sequence<RowText>, ScriptFault>
    ensures fault { spec.Tells (spec.first_fault catalog.now firsts.now) result }
    ensures rows { IfOk result
        (EachPair (spec.IsResolved catalog.now (inserts_in firsts.now places.now)) rows) }
{
    let found = look_up_all(alloc, catalog, firsts)?;
    let backwards = rows_backwards(alloc, places, found.as_slice(), rows)?;
    Ok(reversed(backwards))
}

/// The rows, with the places of their tables and columns.
pub(crate) fn resolved_rows(
    alloc: Global,
    catalog: &Growing,
    inserts: &Inserts,
    rows: Items<Row>,
) -> Result<Sequence<RowText>, ScriptFault>
    ensures fault { spec.Tells (spec.first_fault catalog.now inserts.now) result }
    ensures rows { IfOk result
        (EachPair (spec.IsResolved catalog.now inserts.now) rows) }
{
    let firsts = inserts.firsts.as_slice();
    rows_at(alloc, catalog, firsts, inserts.places.as_slice(), rows)
}
