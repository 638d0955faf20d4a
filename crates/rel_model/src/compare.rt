//! How cells, rows and marks stand to one another in an order.

ghost use Rattle.std.specs.Prelude.{◌≡◌, map, drop};
ghost use Rattle.rel_model.specs.Ordered as spec;
ghost use Rattle.rel_model.specs.Picked.{cell_at};

use crate::{By, Row};
use pg_base::{Cell, Mark};
use std::cmp::Ordering;

fn cell_rank(cell: &Cell) -> u8
    ensures { result ≡ spec.rank cell.now }
{
    match cell {
        Cell::Int(_) => 0,
        Cell::Bool(_) => 1,
        Cell::Text(_) => 2,
        Cell::EnumCase(_) => 3,
        Cell::Null => 4,
    }
}

fn cell_number(cell: &Cell) -> i64
    ensures { result ≡ spec.number cell.now }
{
    match cell {
        Cell::Int(number) => *number,
        Cell::Bool(true) => 1,
        Cell::Bool(false) => 0,
        Cell::EnumCase(case) => i64::from(*case),
        Cell::Text(_) | Cell::Null => 0,
    }
}

fn cell_bytes(cell: &Cell) -> &[u8]
    ensures { result.now ≡ spec.bytes cell.now }
{
    match cell {
        Cell::Text(text) => text.bytes(),
        Cell::Int(_) | Cell::Bool(_) | Cell::EnumCase(_) | Cell::Null => b"",
    }
}

/// Ascending; null is last.
#[tactic(auto, unfolding(crate::specs::Ordered::cell_order))]
pub fn compare_cells(a: &Cell, b: &Cell) -> Ordering
    ensures { result ≡ spec.cell_order a.now b.now }
{
    let by_rank = cell_rank(a).cmp(&cell_rank(b));
    let by_number = cell_number(a).cmp(&cell_number(b));
    let by_bytes = cell_bytes(a).cmp(cell_bytes(b));
    by_rank.then(by_number.then(by_bytes))
}

/// The cells at a place, a null where there is none.
fn compare_at(by: By, xs: &[Cell], ys: &[Cell], x: usize, y: usize) -> Ordering
    ensures { result ≡ spec.turned by.descending
        (spec.cell_order (cell_at xs.now x) (cell_at ys.now y)) }
{
    let null = Cell::Null;
    let order = compare_cells(xs.get(x).unwrap_or(&null), ys.get(y).unwrap_or(&null));
    if by.descending {
        order.reverse()
    } else {
        order
    }
}

/// How a row's cells stand to values of an order.
pub fn compare_row_values(order: &[By], cells: &[Cell], values: &[Cell]) -> Ordering
    ensures { result ≡ spec.cells_order order.now (spec.cells_by order.now cells.now) values.now }
{
    for i in 0..order.len() {
        let by = order[i];
        let found = compare_at(by, cells, values, by.column as usize, i);
        if found.is_ne() {
            return found;
        }
    }
    Ordering::Equal
}

/// How two rows' cells stand in an order, whatever their numbers.
pub fn compare_both(order: &[By], xs: &[Cell], ys: &[Cell]) -> Ordering
    ensures { result ≡
        spec.cells_order order.now
        (spec.cells_by order.now xs.now) (spec.cells_by order.now ys.now) }
{
    for i in 0..order.len() {
        let by = order[i];
        let found = compare_at(by, xs, ys, by.column as usize, by.column as usize);
        if found.is_ne() {
            return found;
        }
    }
    Ordering::Equal
}

/// How two rows stand in an order.
pub fn compare_rows(order: &[By], a: &Row, b: &Row) -> Ordering
    ensures { result ≡ spec.row_order order.now a.now b.now }
{
    let by_values = compare_both(order, a.cells.as_slice(), b.cells.as_slice());
    by_values.then(a.number.cmp(&b.number))
}

/// How a row stands to a mark.
pub fn compare_row(order: &[By], row: &Row, mark: &Mark) -> Ordering
    ensures { result ≡ spec.mark_order order.now (spec.mark_of order.now row.now) mark.now }
{
    let by_values = compare_row_values(order, row.cells.as_slice(), mark.values.as_slice());
    by_values.then(row.number.cmp(&mark.number))
}
