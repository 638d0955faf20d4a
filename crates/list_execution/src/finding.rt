//! What a row field finds in the tables.

ghost use Rattle.std.specs.Prelude.{◌≡◌, IfOk, map, option_map, []};
ghost use Rattle.rel_model.specs.Picked as picked;
ghost use Rattle.rel_model.specs.Interval as interval;
ghost use Rattle.place_tree.specs.Exec as spec;
ghost use Rattle.place_tree.specs.declared.fetch.Shape.TheVariants as shape;

use pg_base::{Cell, Memory};
use place_tree::{Answer, Fetch, KeyCells, Leaf, Listed, Shape, Stand};
use rel_model::{
    Equal, Row, Tables, cells_at, copy_cells, copy_row, interval_in, passes, sort_rows,
};
use sqlite_items::Items;
use std::alloc::Global;

/// The rows of a table.
fn rows_of(tables: &Tables, table: u32) -> &[Row]
    ensures { result.now ≡ picked.rows_of tables.now table }
{
    match tables.lists.get(table as usize) {
        None => &[],
        Some(list) => list.rows.as_slice(),
    }
}

/// The cells of a key, at the cells of the row above.
fn key_of(alloc: Global, key: &KeyCells, above: &[Cell]) -> Result<Items<Cell>, Memory>
    ensures { IfOk result (λ cells. cells ≡ spec.key_of key.now above.now) }
{
    match key {
        KeyCells::Given(cells) => {
            let cells = copy_cells(alloc, cells.as_slice())?;
            Ok(cells)
        }
        KeyCells::OfParent(columns) => {
            let cells = cells_at(alloc, above, columns.as_slice())?;
            Ok(cells)
        }
    }
}

/// The rows that a key and a condition pick.
fn picked_from<'a>(
    alloc: Global,
    rows: &'a [Row],
    by: &[u32],
    key: &[Cell],
    condition: &[Equal],
) -> Result<Vec<&'a Row>, Memory>
    ensures { IfOk result (λ found. map (λ r. r.now) found.items
        ≡ picked.picked_from by.now key.now condition.now rows.now) }
{
    let mut found = Vec::new(alloc);
    for row in rows {
        if !passes(by, key, condition, row) {
            continue;
        }
        found.push(row)?;
    }
    Ok(found)
}

/// The first row that a key picks.
fn first_picked<'a>(rows: &'a [Row], by: &[u32], key: &[Cell]) -> Option<&'a Row>
    ensures { option_map (λ r. r.now) result
        ≡ spec.first_row (picked.picked_from by.now key.now [] rows.now) }
{
    for row in rows {
        if passes(by, key, &[], row) {
            return Some(row);
        }
    }
    None
}

/// Copies of rows, from one place up to another.
fn copies(alloc: Global, rows: &[&Row], from: u64, upto: u64) -> Result<Items<Row>, Memory>
    ensures { IfOk result (λ copies. copies
        ≡ interval.rows_between (from, upto) (map (λ r. r.now) rows.now)) }
{
    let mut copies = Items::new(alloc);
    for i in from..upto {
        let Some(row) = rows.get(i as usize) else {
            return Ok(copies);
        };
        copies.push(copy_row(alloc, row)?)?;
    }
    Ok(copies)
}

/// The ordered list that a fetch finds.
fn list_found<'a>(
    alloc: Global,
    tables: &'a Tables,
    fetch: &Fetch,
    above: &[Cell],
) -> Result<Vec<&'a Row>, Memory>
    ensures { IfOk result (λ list. map (λ r. r.now) list.items
        ≡ spec.list_found tables.now fetch.now above.now) }
{
    let key = key_of(alloc, &fetch.key, above)?;
    let rows = rows_of(tables, fetch.table);
    let condition = fetch.condition.as_slice();
    let mut list = picked_from(alloc, rows, fetch.by.as_slice(), key.as_slice(), condition)?;
    sort_rows(&mut list, fetch.order.as_slice())?;
    Ok(list)
}

/// Of an ordered list the part that is asked for.
fn listed(alloc: Global, fetch: Fetch, list: &[&Row]) -> Result<Listed, Memory>
    ensures { IfOk result (λ l. l ≡ spec.listed fetch (map (λ r. r.now) list.now)) }
{
    let (from, upto) = interval_in(list, fetch.order.as_slice(), &fetch.window);
    let rows = copies(alloc, list, from, upto)?;
    Ok(Listed {
        table: fetch.table,
        names: fetch.names,
        order: fetch.order,
        total: list.len() as u64,
        from,
        to: upto,
        rows,
    })
}

fn found_list(
    alloc: Global,
    tables: &Tables,
    fetch: Fetch,
    above: &[Cell],
) -> Result<Answer<Stand>, Memory>
    ensures { IfOk result (λ answer. answer ≡ spec.found_by tables.now fetch shape.List above.now) }
{
    let list = list_found(alloc, tables, &fetch, above)?;
    let listed = listed(alloc, fetch, list.as_slice())?;
    Ok(Answer::One(Stand::AtList(listed)))
}

fn row_or_null(alloc: Global, row: Option<&Row>) -> Result<Answer<Stand>, Memory>
    ensures { IfOk result (λ answer. answer ≡
        spec.row_or_null (option_map (λ r. r.now) row.entry)) }
{
    match row {
        None => Ok(Answer::Shows(Leaf::Null)),
        Some(row) => {
            let row = copy_row(alloc, row)?;
            Ok(Answer::One(Stand::AtRow(row)))
        }
    }
}

fn found_row(
    alloc: Global,
    tables: &Tables,
    fetch: &Fetch,
    above: &[Cell],
) -> Result<Answer<Stand>, Memory>
    ensures { IfOk result (λ answer. answer ≡
        spec.found_by tables.now fetch.now shape.Row above.now) }
{
    let key = key_of(alloc, &fetch.key, above)?;
    let rows = rows_of(tables, fetch.table);
    let found = first_picked(rows, fetch.by.as_slice(), key.as_slice());
    let answer = row_or_null(alloc, found)?;
    Ok(answer)
}

/// What a fetch finds below a row with these cells.
pub(crate) fn found_by(
    alloc: Global,
    tables: &Tables,
    fetch: Fetch,
    above: &[Cell],
) -> Result<Answer<Stand>, Memory>
    ensures { IfOk result (λ answer. answer ≡
        spec.found_by tables.now fetch fetch.shape above.now) }
{
    match fetch.shape {
        Shape::List => found_list(alloc, tables, fetch, above),
        Shape::Row => found_row(alloc, tables, &fetch, above),
    }
}
