//! Whether the places of fetches are in range.

ghost use Rattle.std.specs.Prelude.{◌≡◌, nat_lt, length, drop};
ghost use Rattle.std.specs.List.{list_all};
ghost use Rattle.plan_steps.specs.declared.plan.FetchStep.{out-FetchStep};
ghost use Rattle.plan_steps.specs.Check as spec;
ghost use Rattle.plan_steps.specs.Named as named;

use crate::chains::{fetch_at, is_given, item_at};
use crate::plan::{FetchStep, SlotEqual, Step};
use pg_base::Catalog;
use rel_model::By;
use sqlite_items::at;

pub(crate) fn are_below(width: usize, columns: &[u32]) -> bool
    ensures { result ≡ spec.are_below width columns.now }
{
    columns.iter().all(|column| (*column as usize) < width)
}

/// How many columns a table has.
pub(crate) fn width_of(catalog: &Catalog, table: u32) -> usize
    ensures { result ≡ spec.width_of catalog.now table }
{
    match at(catalog.tables(), table as usize) {
        Some(found) => found.columns.len(),
        None => 0,
    }
}

fn conditions_fit(width: usize, condition: &[SlotEqual]) -> bool
    ensures { result ≡ spec.conditions_fit width condition.now }
{
    condition
        .iter()
        .all(|equal| (equal.column as usize) < width)
}

fn orders_fit(width: usize, order: &[By]) -> bool
    ensures { result ≡ spec.orders_fit width order.now }
{
    order.iter().all(|by| (by.column as usize) < width)
}

/// Whether a fetch's own table and columns are in range.
fn own_fits(catalog: &Catalog, fetch: &FetchStep) -> bool
    ensures { result ≡ spec.own_fits catalog.now (out-FetchStep fetch.now) }
{
    if fetch.table as usize >= catalog.tables().len() {
        return false;
    }
    let width = width_of(catalog, fetch.table);
    if !are_below(width, fetch.by.as_slice()) {
        return false;
    }
    if !conditions_fit(width, fetch.condition.as_slice()) {
        return false;
    }
    orders_fit(width, fetch.order.as_slice())
}

/// Whether the key is taken from a row of so many columns.
fn key_below(width: usize, fetch: &FetchStep) -> bool
    ensures { result ≡ spec.key_below width (out-FetchStep fetch.now) }
{
    if fetch.parent_columns.len() != fetch.by.len() {
        return false;
    }
    are_below(width, fetch.parent_columns.as_slice())
}

/// Whether a fetch below a row of so many columns fits, with those below it.
#[cycle(fitting)]
fn child_fits(catalog: &Catalog, child: &FetchStep, width: usize) -> bool
    ensures { result ≡ spec.child_fits catalog.now child.now width }
{
    if !key_below(width, child) {
        return false;
    }
    if !own_fits(catalog, child) {
        return false;
    }
    children_fit(
        catalog,
        width_of(catalog, child.table),
        child.children.as_slice(),
    )
}

#[cycle(fitting)]
fn children_fit(catalog: &Catalog, width: usize, children: &[FetchStep]) -> bool
    ensures { result ≡ spec.children_fit catalog.now width children.now }
{
    for child in children {
        if !child_fits(catalog, child, width) {
            return false;
        }
    }
    true
}

fn has_key(fetch: &FetchStep) -> bool
    ensures { result ≡ spec.has_key fetch.now (out-FetchStep fetch.now).parent }
{
    match fetch.parent {
        Some(_) => fetch.parent_columns.len() == fetch.by.len(),
        None => fetch.key.len() == fetch.by.len(),
    }
}

fn item_has(catalog: &Catalog, steps: &[Step], columns: &[u32], step: usize) -> bool
    ensures { result ≡
        spec.item_has catalog.now steps.now columns.now (named.item_at steps.now step) }
{
    let Some(fetch) = item_at(steps, step) else {
        return false;
    };
    match fetch_at(steps, fetch as usize) {
        Some(found) => are_below(width_of(catalog, found.table), columns),
        None => false,
    }
}

/// Whether the step is a row that has the columns, or the row that a mutation gives.
pub(crate) fn row_has(catalog: &Catalog, steps: &[Step], columns: &[u32], step: usize) -> bool
    ensures { result ≡ spec.row_has catalog.now steps.now columns.now step }
{
    is_given(steps, step) || item_has(catalog, steps, columns, step)
}

fn parent_has(catalog: &Catalog, steps: &[Step], fetch: &FetchStep) -> bool
    ensures { result ≡
        spec.parent_has catalog.now steps.now fetch.now (out-FetchStep fetch.now).parent }
{
    match fetch.parent {
        Some(parent) => {
            row_has(
                catalog,
                steps,
                fetch.parent_columns.as_slice(),
                parent as usize,
            )
        }
        None => true,
    }
}

/// Whether a fetch is in range, has a key as long as what it is compared with, and hangs on a row.
pub(crate) fn fetch_fits(catalog: &Catalog, steps: &[Step], fetch: &FetchStep) -> bool
    ensures { result ≡ spec.fetch_fits catalog.now steps.now fetch.now }
{
    if !own_fits(catalog, fetch) {
        return false;
    }
    if !children_fit(
        catalog,
        width_of(catalog, fetch.table),
        fetch.children.as_slice(),
    ) {
        return false;
    }
    if !has_key(fetch) {
        return false;
    }
    parent_has(catalog, steps, fetch)
}
