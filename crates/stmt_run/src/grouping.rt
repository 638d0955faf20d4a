//! Rows in the order of a key's columns, so that the rows of many keys are found by one sort.

ghost use Rattle.std.specs.Prelude.{◌≡◌, ◌++◌, ◌≤◌, ◌-◌, IfOk, OnOk, List, map, take, drop, length};
ghost use Rattle.std.specs.List.{prefix_len, list_any};
ghost use Rattle.pg_base.specs.declared.cell.Cell.TheVariants as cell;
ghost use Rattle.rel_model.specs.declared.tables.Row.{Row as RowParts};
ghost use Rattle.rel_model.specs.Ordered as ordered;
ghost use Rattle.rel_model.specs.Picked as picked;
ghost use Rattle.std.specs.Ordering.{nat_cmp, ordering_then};
ghost use Rattle.stmt_run.specs.Grouped as spec;
ghost use Rattle.stmt_run.specs.Marks as marked;

use crate::placing::key_mark;
use pg_base::{Cell, Memory};
use rel_model::{By, Row, compare_row_values, is_null};
use std::alloc::Global;

/// The ascending order by these columns.
pub(crate) fn ascending(alloc: Global, columns: &[u32]) -> Result<Vec<By>, Memory>
    ensures { IfOk result (λ order. order.items ≡ ordered.ascending columns.now) }
{
    let mut order = Vec::with_capacity(alloc, columns.len())?;
    for column in columns {
        order.push(By {
            column: *column,
            descending: false,
        })?;
    }
    Ok(order)
}

/// Whether a row, of which the mark is given, stands before a key or, where the key counts too, not after it.
#[tactic(auto, unfolding(crate::specs::Grouped::is_under))]
fn is_under(order: &[By], row: &Row, row_mark: u64, key: &[Cell], mark: u64, with_key: bool) -> bool
    requires { ordering_then (nat_cmp row_mark mark) (spec.stands_at order.now key.now row.now)
        ≡ spec.stands_at order.now key.now row.now }
    ensures { result ≡ spec.is_under with_key (spec.stands_at order.now key.now row.now) }
{
    if row_mark < mark {
        return true;
    }
    if mark < row_mark {
        return false;
    }
    let found = compare_row_values(order, row.cells.as_slice(), key);
    if with_key {
        return !found.is_gt();
    }
    found.is_lt()
}

/// The number of rows before a key or, where the key counts too, not after it.
fn seek(
    columns: &[u32],
    order: &[By],
    rows: &[&Row],
    marks: &[u64],
    key: &[Cell],
    with_key: bool,
) -> usize
    requires order { order.now ≡ ordered.ascending columns.now }
    requires rows { (xs : List RowParts) × (map (λ r. r.now) rows.now ≡ spec.grouped order.now xs) }
    requires marks { marks.now ≡ map (marked.row_mark columns.now) (map (λ r. r.now) rows.now) }
    ensures { result ≡ prefix_len (λ r. spec.is_under with_key (spec.stands_at order.now key.now r))
        (map (λ r. r.now) rows.now) }
{
    let sought = key_mark(columns, key);
    let mut low = 0;
    let mut high = rows.len();
    'low: while low < high {
        let middle = low + (high - low) / 2;
        if is_under(order, rows[middle], marks[middle], key, sought, with_key) {
            low = middle + 1;
            continue;
        }
        high = middle;
    }
    low
}

/// From which place on, and up to which, rows stand at a key.
pub(crate) fn bounds(
    columns: &[u32],
    order: &[By],
    rows: &[&Row],
    marks: &[u64],
    key: &[Cell],
) -> (usize, usize)
    requires order { order.now ≡ ordered.ascending columns.now }
    requires rows { (xs : List RowParts) × (map (λ r. r.now) rows.now ≡ spec.grouped order.now xs) }
    requires marks { marks.now ≡ map (marked.row_mark columns.now) (map (λ r. r.now) rows.now) }
    ensures order { result.0 ≤ result.1 }
    ensures end { result.1 ≤ length rows.now }
    ensures group { take (result.1 - result.0) (drop result.0 (map (λ r. r.now) rows.now)) ≡
        spec.group_at order.now key.now (map (λ r. r.now) rows.now) }
{
    let from = seek(columns, order, rows, marks, key, false);
    let to = seek(columns, order, rows, marks, key, true);
    (from, to)
}

/// Whether a key has a null.
pub(crate) fn has_null(key: &[Cell]) -> bool
    ensures { result ≡ list_any picked.is_null key.now }
{
    key.iter().any(|cell| is_null(cell))
}
