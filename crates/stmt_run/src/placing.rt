//! Rows with marks, by which they are put in the order of a key's columns.

ghost use Rattle.std.specs.Prelude.{◌≡◌, IfOk, OnOk, map, drop};
ghost use Rattle.pg_base.specs.Lists.{Each};
ghost use Rattle.rel_model.specs.Ordered as ordered;
ghost use Rattle.stmt_run.specs.Grouped as spec;
ghost use Rattle.stmt_run.specs.Marks as marks;

use pg_base::{Cell, Memory};
use rel_model::{By, Row, compare_both};
use std::alloc::Global;
use std::cmp::Ordering;

/// A row with the mark of its cells in a key.
#[derive(Clone, Copy, Drop)]
pub(crate) struct Placed<'a> {
    pub mark: u64,
    pub row: &'a Row,
}

/// Rows in the order of their cells in a key, and the mark of each.
#[derive(Drop)]
pub(crate) struct Grouped<'a> {
    pub rows: Vec<&'a Row>,
    pub marks: Vec<u64>,
}

fn int_mark(number: i64) -> u64
    ensures { result ≡ marks.int_mark number }
{
    if number < 0 {
        return (number - i64::MIN) as u64;
    }
    number as u64 + 9_223_372_036_854_775_808
}

fn cell_mark(cell: &Cell) -> u64
    ensures { result ≡ marks.cell_mark cell.now }
{
    match cell {
        Cell::Int(number) => int_mark(*number),
        Cell::Bool(_) | Cell::Text(_) | Cell::EnumCase(_) | Cell::Null => u64::MAX,
    }
}

/// The mark of a key.
pub(crate) fn key_mark(columns: &[u32], key: &[Cell]) -> u64
    ensures { result ≡ marks.key_mark columns.now key.now }
{
    if columns.is_empty() {
        return 0;
    }
    let null = Cell::Null;
    cell_mark(key.first().unwrap_or(&null))
}

fn row_mark(columns: &[u32], row: &Row) -> u64
    ensures { result ≡ marks.row_mark columns.now row.now }
{
    let Some(column) = columns.first() else {
        return 0;
    };
    let null = Cell::Null;
    cell_mark(row.cells.as_slice().get(*column as usize).unwrap_or(&null))
}

fn place_rows<'a>(
    alloc: Global,
    columns: &[u32],
    rows: &[&'a Row],
) -> Result<Vec<Placed<'a>>, Memory>
    ensures rows { IfOk result (λ placed.
        map (λ p. p.row.now) placed.items ≡ map (λ r. r.now) rows.now) }
    ensures marks { IfOk result (λ placed. Each (marks.IsMarked columns.now) placed.items) }
{
    let mut placed = Vec::with_capacity(alloc, rows.len())?;
    for row in rows {
        placed.push(Placed {
            mark: row_mark(columns, row),
            row,
        })?;
    }
    Ok(placed)
}

fn compare_placed(order: &[By], a: &Placed, b: &Placed) -> Ordering
    ensures { result ≡ marks.placed_order order.now a.now b.now }
{
    if a.mark < b.mark {
        return Ordering::Less;
    }
    if b.mark < a.mark {
        return Ordering::Greater;
    }
    compare_both(order, a.row.cells.as_slice(), b.row.cells.as_slice())
}

fn sort_placed(placed: &mut Vec<Placed>, order: &[By]) -> Result<(), Memory>
    ensures { OnOk result (placed.new.items ≡
        ordered.sorted_by (marks.placed_before order.now) placed.old.items) }
{
    placed.sort_by(|a, b| compare_placed(order, a, b))
}

/// The rows and their marks.
fn parted<'a>(alloc: Global, placed: &[Placed<'a>]) -> Result<Grouped<'a>, Memory>
    ensures rows { IfOk result (λ g.
        map (λ r. r.now) g.rows.items ≡ map (λ p. p.row.now) placed.now) }
    ensures marks { IfOk result (λ g. g.marks.items ≡ map (λ p. p.mark) placed.now) }
{
    let mut rows = Vec::with_capacity(alloc, placed.len())?;
    let mut marks = Vec::with_capacity(alloc, placed.len())?;
    for one in placed {
        rows.push(one.row)?;
        marks.push(one.mark)?;
    }
    Ok(Grouped { rows, marks })
}

/// Puts rows in the order of their cells in a key's columns, of which `order` is the ascending order.
pub(crate) fn group_rows<'a>(
    alloc: Global,
    rows: &[&'a Row],
    columns: &[u32],
    order: &[By],
) -> Result<Grouped<'a>, Memory>
    requires { order.now ≡ ordered.ascending columns.now }
    ensures rows { IfOk result (λ g. map (λ r. r.now) g.rows.items ≡
        spec.grouped order.now (map (λ r. r.now) rows.now)) }
    ensures marks { IfOk result (λ g. g.marks.items ≡
        map (marks.row_mark columns.now) (map (λ r. r.now) g.rows.items)) }
{
    let mut placed = place_rows(alloc, columns, rows)?;
    sort_placed(&mut placed, order)?;
    let grouped = parted(alloc, placed.as_slice())?;
    Ok(grouped)
}
