//! Whether a catalog has the places that a statement names.

ghost use Rattle.std.specs.Prelude.{◌≡◌, ◌↔◌, IsTrue, length, drop};
ghost use Rattle.pg_base.specs.Lists.{Each};
ghost use Rattle.stmt_tree.specs.declared.stmt.Child.TheViews.{out-Stmt, out-Child};
ghost use Rattle.stmt_tree.specs.Form.{IsStmtOf, IsLayerOf};
ghost use Rattle.stmt_tree.specs.Places as spec;

use crate::{Child, Stmt};
use pg_base::{Catalog, Mark};
use rel_model::{By, Equal};
use sqlite_items::at;

fn are_below(width: usize, places: &[u32]) -> bool
    ensures { result ≡ spec.are_below width places.now }
{
    places.iter().all(|place| (*place as usize) < width)
}

fn conditions_fit(width: usize, condition: &[Equal]) -> bool
    ensures { result ≡ spec.conditions_fit width condition.now }
{
    condition
        .iter()
        .all(|equal| (equal.column as usize) < width)
}

fn orders_fit(width: usize, order: &[By]) -> bool
    ensures { result ≡ spec.orders_fit width order.now }
{
    order.iter().all(|by| (by.column as usize) < width)
}

/// Whether a child's key is as long as what it is compared with, and taken from columns that are there.
fn child_fits(width: usize, child: &Child) -> bool
    ensures { result ≡ spec.child_fits width child.now }
{
    if child.parent_columns.len() != child.stmt.by.len() {
        return false;
    }
    are_below(width, child.parent_columns.as_slice())
}

fn keys_fit(width: usize, children: &[Child]) -> bool
    ensures { result ≡ spec.keys_fit width children.now }
{
    children.iter().all(|child| child_fits(width, child))
}

fn mark_fits(count: usize, mark: &Option<Mark>) -> bool
    ensures { result ≡ spec.mark_fits count mark.now }
{
    match mark {
        Some(mark) => mark.values.len() == count,
        None => true,
    }
}

/// Whether the places of a statement's own are in a table of this width.
fn places_fit(width: usize, stmt: &Stmt) -> bool
    ensures { result ≡ spec.places_fit width (out-Stmt stmt.now) }
{
    if !are_below(width, stmt.by.as_slice()) {
        return false;
    }
    if !conditions_fit(width, stmt.condition.as_slice()) {
        return false;
    }
    if !orders_fit(width, stmt.order.as_slice()) {
        return false;
    }
    keys_fit(width, stmt.children.as_slice())
}

fn marks_fit(stmt: &Stmt) -> bool
    ensures { result ≡ spec.marks_fit (out-Stmt stmt.now) }
{
    let count = stmt.order.len();
    if !mark_fits(count, &stmt.window.after) {
        return false;
    }
    mark_fits(count, &stmt.window.before)
}

/// Whether a statement's own places are in range.
fn layer_fits(catalog: &Catalog, stmt: &Stmt) -> bool
    ensures { IsTrue result ↔ IsLayerOf catalog.now (out-Stmt stmt.now) }
{
    let Some(table) = at(catalog.tables(), stmt.table as usize) else {
        return false;
    };
    if !places_fit(table.columns.len(), stmt) {
        return false;
    }
    marks_fit(stmt)
}

/// Whether the catalog has the places that the statement names, and those that the statements below it name. Statements
/// from outside are tested so before a store runs them.
#[cycle(fitting)]
pub fn fits(catalog: &Catalog, stmt: &Stmt) -> bool
    ensures { IsTrue result ↔ IsStmtOf catalog.now stmt.now }
{
    if !layer_fits(catalog, stmt) {
        return false;
    }
    all_fit(catalog, stmt.children.as_slice())
}

#[cycle(fitting)]
fn all_fit(catalog: &Catalog, children: &[Child]) -> bool
    ensures { IsTrue result ↔
        Each (λ k. IsStmtOf catalog.now (out-Child k).stmt) children.now }
{
    for child in children {
        if !fits(catalog, &child.stmt) {
            return false;
        }
    }
    true
}
