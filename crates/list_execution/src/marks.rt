//! Marks that cursors name, and cursors of rows.

ghost use Rattle.std.specs.Prelude.{true, ◌≡◌, IfOk, option_map, slice_get};
ghost use Rattle.place_tree.specs.Arguments as arguments;
ghost use Rattle.place_tree.specs.Cursors as spec;
ghost use Rattle.place_tree.specs.Exec as exec;
ghost use Rattle.rel_model.specs.Ordered.{mark_of as mark_there};

use crate::lookups::{columns_of, labels_in};
use crate::names::place_named;
use cursor_text::{Cursor, read_cursor, write_cursor};
use pg_base::{Catalog, Cell, ColumnDef, Kind, Mark, Memory, Text, Value};
use place_tree::Leaf;
use rel_model::{By, Row, mark_of};
use sqlite_items::Items;
use std::alloc::Global;

// ---- from cursors to marks

/// The cell that a number is in a column of a kind.
pub fn int_cell(kind: Kind, number: i64) -> Option<Cell>
    ensures { result ≡ spec.int_cell kind number }
{
    match kind {
        Kind::Text => None,
        Kind::Varchar(_) => None,
        Kind::Int => Some(Cell::Int(number)),
        Kind::BigInt => Some(Cell::Int(number)),
        Kind::Bool => None,
        Kind::Enum(_) => None,
    }
}

/// The cell that a truth is in a column of a kind.
pub fn bool_cell(kind: Kind, truth: bool) -> Option<Cell>
    ensures { result ≡ spec.bool_cell kind truth }
{
    match kind {
        Kind::Text => None,
        Kind::Varchar(_) => None,
        Kind::Int => None,
        Kind::BigInt => None,
        Kind::Bool => Some(Cell::Bool(truth)),
        Kind::Enum(_) => None,
    }
}

/// The case of an enum that has the label.
fn case_cell(catalog: &Catalog, place: u32, label: &Text) -> Option<Cell>
    ensures { result ≡
        spec.case_cell (spec.labels_in (slice_get catalog.now.enums place)) label.now }
{
    match place_named(labels_in(catalog, place), label) {
        None => None,
        Some(case) => Some(Cell::EnumCase(case as u32)),
    }
}

fn text_cell(
    alloc: Global,
    catalog: &Catalog,
    kind: Kind,
    text: &Text,
) -> Result<Option<Cell>, Memory>
    ensures { IfOk result (λ cell. cell ≡ spec.text_cell catalog.now.enums kind text.now) }
{
    match kind {
        Kind::Text => Ok(Some(Cell::Text(text.copy(alloc)?))),
        Kind::Varchar(_) => Ok(Some(Cell::Text(text.copy(alloc)?))),
        Kind::Int => Ok(None),
        Kind::BigInt => Ok(None),
        Kind::Bool => Ok(None),
        Kind::Enum(place) => Ok(case_cell(catalog, place, text)),
    }
}

/// The cell that a cursor's value is in a column of a kind.
fn cursor_cell(
    alloc: Global,
    catalog: &Catalog,
    kind: Kind,
    value: &Value,
) -> Result<Option<Cell>, Memory>
    ensures { IfOk result (λ cell. cell ≡ spec.cursor_cell catalog.now.enums kind value.now) }
{
    match value {
        Value::Null => Ok(Some(Cell::Null)),
        Value::Int(number) => Ok(int_cell(kind, *number)),
        Value::Bool(truth) => Ok(bool_cell(kind, *truth)),
        Value::Text(text) => {
            let cell = text_cell(alloc, catalog, kind, text)?;
            Ok(cell)
        }
        Value::Case(_) => Ok(None),
        Value::List(_) => Ok(None),
        Value::Object(_) => Ok(None),
    }
}

fn column_cell(
    alloc: Global,
    catalog: &Catalog,
    column: Option<&ColumnDef>,
    value: &Value,
) -> Result<Option<Cell>, Memory>
    ensures { IfOk result (λ cell. cell ≡
        spec.column_cell catalog.now.enums (option_map (λ c. c.now) column.entry) value.now) }
{
    match column {
        None => Ok(None),
        Some(column) => {
            let cell = cursor_cell(alloc, catalog, column.kind, value)?;
            Ok(cell)
        }
    }
}

/// The cells of a cursor's values, where there is one for each column and each is one of its column.
fn cursor_cells(
    alloc: Global,
    catalog: &Catalog,
    columns: &[ColumnDef],
    order: &[By],
    values: &[Value],
) -> Result<Option<Items<Cell>>, Memory>
    ensures { IfOk result (λ cells. cells ≡
        spec.cursor_cells catalog.now.enums columns.now order.now values.now) }
{
    if values.len() != order.len() {
        return Ok(None);
    }
    let mut cells = Items::new(alloc);
    for i in 0..order.len() {
        let column = columns.get(order[i].column as usize);
        let Some(cell) = column_cell(alloc, catalog, column, &values[i])? else {
            return Ok(None);
        };
        cells.push(cell)?;
    }
    Ok(Some(cells))
}

/// The mark that a cursor is in an order of these columns.
pub(crate) fn mark_of_cursor(
    alloc: Global,
    catalog: &Catalog,
    columns: &[ColumnDef],
    order: &[By],
    cursor: &Cursor,
) -> Result<Option<Mark>, Memory>
    ensures { IfOk result (λ mark. mark ≡
        spec.mark_of_cursor catalog.now.enums columns.now order.now cursor.now) }
{
    match cursor_cells(alloc, catalog, columns, order, cursor.values.as_slice())? {
        None => Ok(None),
        Some(values) => Ok(Some(Mark {
            values,
            number: cursor.number,
        })),
    }
}

/// The mark that the cursor in a text names.
pub fn mark_in(
    alloc: Global,
    catalog: &Catalog,
    columns: &[ColumnDef],
    order: &[By],
    text: Option<&Text>,
) -> Result<Option<Mark>, Memory>
    ensures { IfOk result (λ mark. mark ≡ arguments.mark_in catalog.now columns.now order.now
        (option_map (λ t. t.now) text.entry)) }
{
    match text {
        None => Ok(None),
        Some(text) => match read_cursor(alloc, text.bytes())? {
            None => Ok(None),
            Some(cursor) => {
                let mark = mark_of_cursor(alloc, catalog, columns, order, &cursor)?;
                Ok(mark)
            }
        },
    }
}

// ---- from rows to cursors

/// The label of a case of an enum.
fn label_in(alloc: Global, labels: &[Text], case: u32) -> Result<Text, Memory>
    ensures { IfOk result (λ label. label ≡
        spec.label_or_none (slice_get labels.now case)) }
{
    match labels.get(case as usize) {
        None => {
            let none = Text::of(alloc, "")?;
            Ok(none)
        }
        Some(label) => {
            let label = label.copy(alloc)?;
            Ok(label)
        }
    }
}

fn label_of(alloc: Global, catalog: &Catalog, kind: Kind, case: u32) -> Result<Text, Memory>
    ensures { IfOk result (λ label. label ≡ spec.label_of catalog.now.enums kind case) }
{
    match kind {
        Kind::Text => Text::of(alloc, ""),
        Kind::Varchar(_) => Text::of(alloc, ""),
        Kind::Int => Text::of(alloc, ""),
        Kind::BigInt => Text::of(alloc, ""),
        Kind::Bool => Text::of(alloc, ""),
        Kind::Enum(place) => label_in(alloc, labels_in(catalog, place), case),
    }
}

fn label_at(
    alloc: Global,
    catalog: &Catalog,
    column: Option<&ColumnDef>,
    case: u32,
) -> Result<Text, Memory>
    ensures { IfOk result (λ label. label ≡
        spec.label_at catalog.now.enums (option_map (λ c. c.now) column.entry) case) }
{
    match column {
        None => Text::of(alloc, ""),
        Some(column) => label_of(alloc, catalog, column.kind, case),
    }
}

/// The case that a cell is.
fn case_in(cell: &Cell) -> Option<u32>
    ensures { result ≡ spec.case_in cell.now }
{
    match cell {
        Cell::Null => None,
        Cell::Int(_) => None,
        Cell::Bool(_) => None,
        Cell::Text(_) => None,
        Cell::EnumCase(case) => Some(*case),
    }
}

/// The labels of the cases among the cells by which a row is ordered.
fn labels_of(
    alloc: Global,
    catalog: &Catalog,
    columns: &[ColumnDef],
    order: &[By],
    cells: &[Cell],
) -> Result<Items<Text>, Memory>
    ensures { IfOk result (λ labels. labels ≡
        spec.labels_of catalog.now.enums columns.now order.now cells.now) }
{
    let mut labels = Items::new(alloc);
    for i in 0..order.len().min(cells.len()) {
        let Some(case) = case_in(&cells[i]) else {
            continue;
        };
        let column = columns.get(order[i].column as usize);
        labels.push(label_at(alloc, catalog, column, case)?)?;
    }
    Ok(labels)
}

fn has_cursor(names: &[Text], order: &[By], row: &Row) -> bool
    ensures { result ≡ exec.has_cursor names.now order.now row.now }
{
    names.len() == order.len() && row.number > 0
}

/// The text of the cursor of a row that has one.
fn mark_text(
    alloc: Global,
    catalog: &Catalog,
    table: u32,
    names: &[Text],
    order: &[By],
    row: &Row,
) -> Result<Text, Memory>
    requires { exec.has_cursor names.now order.now row.now ≡ true }
    ensures { IfOk result (λ text. text ≡ exec.mark_cursor catalog.now table names.now order.now
        (mark_there order.now row.now)) }
{
    let mark = mark_of(alloc, order, row)?;
    let columns = columns_of(catalog, table);
    let labels = labels_of(alloc, catalog, columns, order, mark.values.as_slice())?;
    let text = write_cursor(alloc, names, &mark, labels.as_slice())?;
    Ok(text)
}

/// The cursor of a row of a table, in an order that has these names.
pub fn row_cursor(
    alloc: Global,
    catalog: &Catalog,
    table: u32,
    names: &[Text],
    order: &[By],
    row: &Row,
) -> Result<Leaf, Memory>
    ensures { IfOk result (λ leaf. leaf ≡
        exec.row_cursor catalog.now table names.now order.now row.now) }
{
    if !has_cursor(names, order, row) {
        return Ok(Leaf::Null);
    }
    let text = mark_text(alloc, catalog, table, names, order, row)?;
    Ok(Leaf::Text(text))
}
