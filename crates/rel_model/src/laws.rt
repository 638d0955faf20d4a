//! Laws of the definitions: functions that do nothing, each with a law as its contract.

ghost use Rattle.std.specs.Prelude.{◌≡◌, ◌≢◌, ◌≤◌, ℕ, ℤ, List, length, slice_range, pos, true, false};
ghost use Rattle.std.specs.Bool.{Decides};
ghost use Rattle.std.specs.Cmp.{IsTotalOrder};
ghost use Rattle.std.specs.List.Sorted.{IsPermutation, IsSortedBy};
ghost use Rattle.std.specs.declared.cmp.Ordering.TheVariants as ordering;
ghost use Rattle.std.specs.Ordering.{nat_cmp, int_cmp};
ghost use Rattle.std.specs.Cmp.Lexicographic.{slice_cmp};
ghost use Rattle.pg_base.specs.declared.cell.Cell.TheVariants as cell;
ghost use Rattle.pg_base.specs.Lists.{Each, AreDistinct};
ghost use Rattle.rel_model.specs.Tables.{AreNumbered, HoldNoNull, cells_at};
ghost use Rattle.rel_model.specs.Picked as picked;
ghost use Rattle.rel_model.specs.Ordered as spec;
ghost use Rattle.rel_model.specs.Interval as part;

use crate::{By, Equal, Row, Window};
use pg_base::Cell;

/// The test of cells finds what is equal, nulls too.
pub fn same_cells_are_equal(a: &Cell, b: &Cell)
    ensures { Decides (picked.same_cell a.now b.now) (a.now ≡ b.now) }
{}

/// The test of keys finds what has these cells, none of them null.
pub fn found_keys_agree(by: &[u32], key: &[Cell], cells: &[Cell])
    requires { length key.now ≡ length by.now }
    ensures { Decides (picked.has_key by.now key.now cells.now)
        ((cells_at by.now cells.now ≡ key.now) × HoldNoNull key.now) }
{}

/// The test of conditions finds what has all these cells, a null where it says null.
pub fn found_conditions_agree(condition: &[Equal], cells: &[Cell])
    ensures { Decides (picked.meets condition.now cells.now)
        (Each (λ e. picked.cell_at cells.now e.column ≡ e.cell) condition.now) }
{}

/// Ascending, null is last; integers stand by value, false before true, texts by bytes, enum cases by declaration.
pub fn cells_stand_by_value(before: &Cell)
    ensures null { before.now ≢ cell.Null
        → spec.cell_order before.now cell.Null ≡ ordering.Less }
    ensures integers { (m n : ℤ) → spec.cell_order (cell.Int m) (cell.Int n) ≡ int_cmp m n }
    ensures truths { spec.cell_order (cell.Bool false) (cell.Bool true) ≡ ordering.Less }
    ensures texts { (s t : List ℕ)
        → spec.cell_order (cell.Text s) (cell.Text t) ≡ slice_cmp nat_cmp s t }
    ensures cases { (m n : ℕ)
        → spec.cell_order (cell.EnumCase m) (cell.EnumCase n) ≡ int_cmp (pos m) (pos n) }
{}

/// The order of marks, and so that of rows, is total: each two are less, alike or greater, and the three are transitive.
pub fn marks_are_ordered(order: &[By])
    ensures { IsTotalOrder (spec.mark_order order.now) }
{}

/// Rows that stand alike have one number.
pub fn rows_stand_apart(order: &[By], r: &Row, s: &Row)
    ensures { spec.row_order order.now r.now s.now ≡ ordering.Equal → r.now.number ≡ s.now.number }
{}

/// The ordered list has the same rows, and none stands after one that it precedes.
pub fn ordered_rows_are_sorted(order: &[By], rows: &[Row])
    ensures rows { IsPermutation rows.now (spec.ordered order.now rows.now) }
    ensures sorted { IsSortedBy (spec.precedes order.now) (spec.ordered order.now rows.now) }
{}

/// Of rows with numbers of their own, the ordered list is the one sorted list.
pub fn ordered_rows_are_unique(order: &[By], rows: &[Row], sorted: &[Row])
    requires numbers { AreDistinct (picked.numbers_of rows.now) }
    requires rows { IsPermutation rows.now sorted.now }
    requires sorted { IsSortedBy (spec.precedes order.now) sorted.now }
    ensures { sorted.now ≡ spec.ordered order.now rows.now }
{}

/// The rows between two places are those from the one on and up to the other.
pub fn rows_between_are_a_part(list: &[Row], from: usize, to: usize)
    ensures { part.rows_between (from, «to») list.now ≡ slice_range list.now from «to» }
{}

/// The part that a window asks for lies in the list.
pub fn intervals_lie_within(order: &[By], window: &Window, list: &[Row])
    ensures order { (part.interval_of order.now window.now list.now).0
        ≤ (part.interval_of order.now window.now list.now).1 }
    ensures end { (part.interval_of order.now window.now list.now).1 ≤ length list.now }
{}

/// Rows with the numbers of a valid table rise.
pub fn numbered_rows_rise(from: u64, below: u64, rows: &[Row])
    requires { AreNumbered from below rows.now }
    ensures { picked.AreRising rows.now }
{}
