//! The part of an ordered list that a window asks for.

ghost use Rattle.std.specs.Prelude.{◌≡◌, ◌≤◌, ◌+◌, length, map, drop, count_by};
ghost use Rattle.rel_model.specs.Picked as picked;
ghost use Rattle.rel_model.specs.Interval as spec;

use crate::compare::compare_row;
use crate::picking::{find_row, rows_of};
use crate::{By, Row, Tables, Window};
use pg_base::Mark;

/// Whether a row is before a mark or, where the mark counts too, not after it.
#[tactic(auto, unfolding(crate::specs::Interval::is_before))]
fn is_before(order: &[By], mark: &Mark, with_mark: bool, row: &Row) -> bool
    ensures { result ≡ spec.is_before order.now mark.now with_mark row.now }
{
    let found = compare_row(order, row, mark);
    if with_mark {
        return !found.is_gt();
    }
    found.is_lt()
}

fn count_in(rows: &[&Row], order: &[By], mark: &Mark, with_mark: bool) -> u64
    ensures { result ≡
        count_by (spec.is_before order.now mark.now with_mark) (map (λ r. r.now) rows.now) }
{
    let mut count = 0;
    for row in rows {
        if is_before(order, mark, with_mark, row) {
            count += 1;
        }
    }
    count
}

fn begin_in(rows: &[&Row], order: &[By], after: &Option<Mark>) -> u64
    ensures { result ≡ spec.begin_after order.now after.now (map (λ r. r.now) rows.now) }
{
    match after {
        None => 0,
        Some(mark) => count_in(rows, order, mark, true),
    }
}

fn end_in(rows: &[&Row], order: &[By], before: &Option<Mark>) -> u64
    ensures { result ≡ spec.end_before order.now before.now (map (λ r. r.now) rows.now) }
{
    match before {
        None => rows.len() as u64,
        Some(mark) => count_in(rows, order, mark, false),
    }
}

fn end_of_first(first: Option<u64>, from: u64, to: u64) -> u64
    ensures { result ≡ spec.end_of_first first from to }
{
    match first {
        None => to,
        Some(count) => to.min(from.saturating_add(count)),
    }
}

fn begin_of_last(last: Option<u64>, from: u64, to: u64) -> u64
    ensures { result ≡ spec.begin_of_last last from to }
{
    match last {
        None => from,
        Some(count) => from.max(to.saturating_sub(count)),
    }
}

/// What a window leaves of the places from one on and up to another, as its marks have them.
fn windowed(begin: u64, end: u64, window: &Window) -> (u64, u64)
    ensures { result ≡ spec.windowed begin end window.now }
{
    let to = begin.max(end);
    let from = to.min(begin.saturating_add(window.offset));
    let to = end_of_first(window.first, from, to);
    (begin_of_last(window.last, from, to), to)
}

/// From which place on, and up to which, a list of rows is asked for.
pub fn interval_in(rows: &[&Row], order: &[By], window: &Window) -> (u64, u64)
    ensures { result ≡ spec.interval_of order.now window.now (map (λ r. r.now) rows.now) }
{
    let begin = begin_in(rows, order, &window.after);
    let end = end_in(rows, order, &window.before);
    windowed(begin, end, window)
}

// ---- the same of rows that are told by their numbers, with no list of them

fn count_numbered(rows: &[Row], numbers: &[u64], order: &[By], mark: &Mark, with_mark: bool) -> u64
    requires { picked.AreRising rows.now }
    ensures { result ≡
        count_by (spec.is_before order.now mark.now with_mark)
        (picked.rows_numbered rows.now numbers.now) }
{
    let mut count = 0;
    for number in numbers {
        if let Some(row) = find_row(rows, *number) {
            if is_before(order, mark, with_mark, row) {
                count += 1;
            }
        }
    }
    count
}

fn count_found(rows: &[Row], numbers: &[u64]) -> u64
    requires { picked.AreRising rows.now }
    ensures { result ≡ length (picked.rows_numbered rows.now numbers.now) }
{
    let mut count = 0;
    for number in numbers {
        if let Some(_) = find_row(rows, *number) {
            count += 1;
        }
    }
    count
}

fn begin_numbered(rows: &[Row], numbers: &[u64], order: &[By], after: &Option<Mark>) -> u64
    requires { picked.AreRising rows.now }
    ensures { result ≡
        spec.begin_after order.now after.now (picked.rows_numbered rows.now numbers.now) }
{
    match after {
        None => 0,
        Some(mark) => count_numbered(rows, numbers, order, mark, true),
    }
}

fn end_numbered(rows: &[Row], numbers: &[u64], order: &[By], before: &Option<Mark>) -> u64
    requires { picked.AreRising rows.now }
    ensures { result ≡
        spec.end_before order.now before.now (picked.rows_numbered rows.now numbers.now) }
{
    match before {
        None => count_found(rows, numbers),
        Some(mark) => count_numbered(rows, numbers, order, mark, false),
    }
}

/// From which place on, and up to which, the list of the rows with these numbers is asked for.
pub fn interval(
    tables: &Tables,
    table: u32,
    sorted: &[u64],
    order: &[By],
    window: &Window,
) -> (u64, u64)
    requires { picked.AreRising (picked.rows_of tables.now table) }
    ensures { result ≡
        spec.interval_of order.now window.now (picked.rows_at tables.now table sorted.now) }
{
    let rows = rows_of(tables, table);
    let begin = begin_numbered(rows, sorted, order, &window.after);
    let end = end_numbered(rows, sorted, order, &window.before);
    windowed(begin, end, window)
}
