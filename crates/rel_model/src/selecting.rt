//! The first rows in an order, found by one pass where they are few.

ghost use Rattle.std.specs.Prelude.{◌≡◌, ◌≤◌, ◌+◌, IfOk, OnOk, List, map, take, drop, length, true};
ghost use Rattle.std.specs.List.{prefix_len};
ghost use Rattle.rel_model.specs.declared.tables.Row.{Row as RowParts};
ghost use Rattle.rel_model.specs.Ordered as spec;

use crate::compare::compare_rows;
use crate::{By, Row};
use pg_base::Memory;
use std::alloc::Global;

/// Whether a row comes after the first rows that are kept, of which there are as many as are asked for.
fn is_past(first: &[&Row], row: &Row, order: &[By], count: usize) -> bool
    requires { (xs : List RowParts) ×
        (map (λ r. r.now) first.now ≡ take count (spec.ordered order.now xs)) }
    ensures { result ≡ true →
        take count (spec.inserted (spec.precedes order.now) row.now (map (λ r. r.now) first.now))
        ≡ map (λ r. r.now) first.now }
{
    if count == 0 {
        return true;
    }
    if first.len() < count {
        return false;
    }
    let last = first[count - 1];
    compare_rows(order, last, row).is_lt()
}

/// The number of rows at the front that precede a row.
fn place_of(first: &[&Row], row: &Row, order: &[By]) -> usize
    ensures place { result ≡
        prefix_len (λ r. spec.precedes order.now r row.now) (map (λ r. r.now) first.now) }
    ensures bound { result ≤ length first.now }
{
    for i in 0..first.len() {
        if !compare_rows(order, first[i], row).is_lt() {
            return i;
        }
    }
    first.len()
}

fn put_in<'a>(
    first: &mut Vec<&'a Row>,
    row: &'a Row,
    order: &[By],
    count: usize,
) -> Result<(), Memory>
    ensures { OnOk result (map (λ r. r.now) first.new.items ≡ take count
        (spec.inserted (spec.precedes order.now) row.now (map (λ r. r.now) first.old.items))) }
{
    let at = place_of(first.as_slice(), row, order);
    first.insert(at, row)?;
    first.truncate(count);
    Ok(())
}

/// The first rows in an order.
pub fn first_rows<'a>(
    alloc: Global,
    rows: &[&'a Row],
    order: &[By],
    count: usize,
) -> Result<Vec<&'a Row>, Memory>
    ensures { IfOk result (λ first. map (λ r. r.now) first.items ≡
        take count (spec.ordered order.now (map (λ r. r.now) rows.now))) }
{
    let mut first = Vec::new(alloc);
    let mut at = rows.len();
    'rows: while at > 0 {
        at -= 1;
        let row = rows[at];
        if is_past(first.as_slice(), row, order, count) {
            continue;
        }
        put_in(&mut first, row, order, count)?;
    }
    Ok(first)
}
