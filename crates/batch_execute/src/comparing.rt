//! Whether two fetches are the same in every part.

ghost use Rattle.std.specs.Prelude.{◌≡◌, nat_eq, drop, map};
ghost use Rattle.std.specs.Cmp.Lexicographic.{pointwise};
ghost use Rattle.rel_model.specs.Picked as picked;
ghost use Rattle.place_tree.specs.Fold.{same_place};
ghost use Rattle.plan_constraints.specs.Same as paths;
ghost use Rattle.plan_steps.specs.declared.plan.FetchStep.{out-FetchStep};
ghost use Rattle.plan_steps.specs.Same as spec;

use pg_base::Cell;
use plan_constraints::Part;
use plan_steps::{FetchStep, Slot, SlotEqual, SlotWindow};
use rel_model::By;

#[tactic(auto, unfolding(rel_model::specs::Picked::same_cell))]
fn is_same_cell(a: &Cell, b: &Cell) -> bool
    ensures { result ≡ picked.same_cell a.now b.now }
{
    match a {
        Cell::Null => match b {
            Cell::Null => true,
            _ => false,
        },
        Cell::Int(x) => match b {
            Cell::Int(y) => *x == *y,
            _ => false,
        },
        Cell::Bool(x) => match b {
            Cell::Bool(y) => *x == *y,
            _ => false,
        },
        Cell::Text(x) => match b {
            Cell::Text(y) => *x == *y,
            _ => false,
        },
        Cell::EnumCase(x) => match b {
            Cell::EnumCase(y) => *x == *y,
            _ => false,
        },
    }
}

fn is_same_path(a: &[Part], b: &[Part]) -> bool
    ensures { result ≡ paths.same_path a.now b.now }
{
    for i in 0..a.len() {
        if i >= b.len() {
            return false;
        }
        if !a[i].is_same(&b[i]) {
            return false;
        }
    }
    a.len() == b.len()
}

fn is_same_slot(a: &Slot, b: &Slot) -> bool
    ensures { result ≡ spec.same_slot a.now b.now }
{
    match a {
        Slot::Const(x) => match b {
            Slot::Const(y) => is_same_cell(x, y),
            Slot::Var(_) => false,
        },
        Slot::Var(p) => match b {
            Slot::Const(_) => false,
            Slot::Var(q) => is_same_path(p.as_slice(), q.as_slice()),
        },
    }
}

fn is_same_optional(a: &Option<Slot>, b: &Option<Slot>) -> bool
    ensures { result ≡ spec.same_optional a.now b.now }
{
    match a {
        None => match b {
            None => true,
            Some(_) => false,
        },
        Some(x) => match b {
            None => false,
            Some(y) => is_same_slot(x, y),
        },
    }
}

fn is_same_window(a: &SlotWindow, b: &SlotWindow) -> bool
    ensures { result ≡ spec.same_window a.now b.now }
{
    if !is_same_optional(&a.first, &b.first) {
        return false;
    }
    if !is_same_optional(&a.last, &b.last) {
        return false;
    }
    if !is_same_optional(&a.offset, &b.offset) {
        return false;
    }
    if !is_same_optional(&a.before, &b.before) {
        return false;
    }
    is_same_optional(&a.after, &b.after)
}

fn is_same_equal(a: &SlotEqual, b: &SlotEqual) -> bool
    ensures { result ≡ spec.same_equal a.now b.now }
{
    if a.column != b.column {
        return false;
    }
    is_same_slot(&a.slot, &b.slot)
}

fn is_same_by(a: By, b: By) -> bool
    ensures { result ≡ spec.same_by a b }
{
    a.column == b.column && a.descending == b.descending
}

fn is_same_place(a: Option<u32>, b: Option<u32>) -> bool
    ensures { result ≡ same_place a b }
{
    match a {
        None => b.is_none(),
        Some(x) => match b {
            None => false,
            Some(y) => x == y,
        },
    }
}

fn are_same_columns(a: &[u32], b: &[u32]) -> bool
    ensures { result ≡ pointwise nat_eq a.now b.now }
{
    a == b
}

fn are_same_equals(a: &[SlotEqual], b: &[SlotEqual]) -> bool
    ensures { result ≡ pointwise spec.same_equal a.now b.now }
{
    for i in 0..a.len() {
        if i >= b.len() {
            return false;
        }
        if !is_same_equal(&a[i], &b[i]) {
            return false;
        }
    }
    a.len() == b.len()
}

fn are_same_slots(a: &[Slot], b: &[Slot]) -> bool
    ensures { result ≡ pointwise spec.same_slot a.now b.now }
{
    for i in 0..a.len() {
        if i >= b.len() {
            return false;
        }
        if !is_same_slot(&a[i], &b[i]) {
            return false;
        }
    }
    a.len() == b.len()
}

fn are_same_orders(a: &[By], b: &[By]) -> bool
    ensures { result ≡ pointwise spec.same_by a.now b.now }
{
    for i in 0..a.len() {
        if i >= b.len() {
            return false;
        }
        if !is_same_by(a[i], b[i]) {
            return false;
        }
    }
    a.len() == b.len()
}

/// Whether two fetches are the same but for what stands below their rows.
fn is_same_top(a: &FetchStep, b: &FetchStep) -> bool
    ensures { result ≡ spec.same_top (out-FetchStep a.now) (out-FetchStep b.now) }
{
    if a.table != b.table {
        return false;
    }
    if !are_same_columns(a.by.as_slice(), b.by.as_slice()) {
        return false;
    }
    if !is_same_place(a.parent, b.parent) {
        return false;
    }
    if !are_same_columns(a.parent_columns.as_slice(), b.parent_columns.as_slice()) {
        return false;
    }
    if !are_same_equals(a.condition.as_slice(), b.condition.as_slice()) {
        return false;
    }
    if !are_same_slots(a.key.as_slice(), b.key.as_slice()) {
        return false;
    }
    if !are_same_orders(a.order.as_slice(), b.order.as_slice()) {
        return false;
    }
    if !is_same_window(&a.window, &b.window) {
        return false;
    }
    a.rows == b.rows
}

/// Whether two fetches are the same in every part.
#[cycle(same)]
pub(crate) fn is_same_fetch(a: &FetchStep, b: &FetchStep) -> bool
    ensures { result ≡ spec.same_fetch a.now b.now }
{
    if !is_same_top(a, b) {
        return false;
    }
    are_same_fetches(a.children.as_slice(), b.children.as_slice())
}

#[cycle(same)]
fn are_same_fetches(a: &[FetchStep], b: &[FetchStep]) -> bool
    ensures { result ≡ spec.all_same (map spec.same_fetch a.now) b.now }
{
    for i in 0..a.len() {
        if i >= b.len() {
            return false;
        }
        if !is_same_fetch(&a[i], &b[i]) {
            return false;
        }
    }
    a.len() == b.len()
}
