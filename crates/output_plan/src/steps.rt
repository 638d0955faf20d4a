//! The text of what steps show, appended.

ghost use Rattle.std.specs.Prelude.{◌≡◌, ◌++◌, IfOk, OnOk, Some, option_map};
ghost use Rattle.place_tree.specs.Response.{leaf_text};
ghost use Rattle.place_tree.specs.Exec as exec;
ghost use Rattle.plan_steps.specs.Values as values;
ghost use Rattle.stmt_tree.specs.declared.found.Found.TheViews.{out-Found};
ghost use Rattle.batch_execute.specs.Reading as reading;
ghost use Rattle.batch_execute.specs.Trails.{trail_of};
ghost use Rattle.output_plan.specs.Laid as spec;

use crate::leaves::{put_cell, put_count, put_input, put_leaf, put_null, put_truth};
use crate::reader::{
    Reader, fetch_at, first_tree, found_there, item_at, last_tree, names_at, rows_found, tree_there,
};
use batch_execute::{Spot, tree_on};
use list_execution::row_cursor;
use pg_base::{Catalog, Memory, Schema, Text, TypeRef, Value};
use place_tree::Leaf;
use plan_constraints::value_at;
use plan_steps::{FetchStep, Step};
use rel_model::{Row, copy_cells};
use sqlite_items::at;
use std::alloc::Global;
use stmt_tree::{Found, RowTree};

// ---- variables and cells

fn put_variable(out: &mut Vec<u8>, value: Option<&Value>) -> Result<(), Memory>
    ensures { OnOk result (out.new.items ≡ out.old.items ++ leaf_text
        (spec.variable_leaf (option_map (λ v. v.now) value.entry))) }
{
    match value {
        None => put_null(out)?,
        Some(value) => put_input(out, value)?,
    }
    Ok(())
}

fn put_column(
    out: &mut Vec<u8>,
    schema: &Schema,
    ty: TypeRef,
    tree: Option<&RowTree>,
    column: u32,
) -> Result<(), Memory>
    ensures { OnOk result (out.new.items ≡ out.old.items ++ leaf_text (exec.leaf_of schema.now ty
        (values.cell_in (option_map values.row_of (option_map (λ t. t.now) tree.entry)) column))) }
{
    match tree {
        None => put_null(out)?,
        Some(tree) => match at(tree.cells.as_slice(), column as usize) {
            None => put_null(out)?,
            Some(cell) => put_cell(out, schema, ty, cell)?,
        },
    }
    Ok(())
}

// ---- cursors

fn cursor_of(
    alloc: Global,
    catalog: &Catalog,
    fetch: &FetchStep,
    names: &[Text],
    tree: &RowTree,
) -> Result<Leaf, Memory>
    ensures { IfOk result (λ leaf. leaf ≡ spec.cursor_by catalog.now names.now (Some fetch.now)
        (Some (values.row_of tree.now))) }
{
    let row = Row {
        number: tree.number,
        cells: copy_cells(alloc, tree.cells.as_slice())?,
    };
    let order = fetch.order.as_slice();
    let leaf = row_cursor(alloc, catalog, fetch.table, names, order, &row)?;
    Ok(leaf)
}

fn put_row_cursor(
    alloc: Global,
    out: &mut Vec<u8>,
    catalog: &Catalog,
    fetch: &FetchStep,
    names: &[Text],
    tree: &RowTree,
) -> Result<(), Memory>
    ensures { OnOk result (out.new.items ≡ out.old.items ++ leaf_text
        (spec.cursor_by catalog.now names.now (Some fetch.now)
        (Some (values.row_of tree.now)))) }
{
    let leaf = cursor_of(alloc, catalog, fetch, names, tree)?;
    put_leaf(out, &leaf)?;
    Ok(())
}

/// Appends the cursor of a row in the order of the fetch at a place.
fn put_cursor(
    alloc: Global,
    out: &mut Vec<u8>,
    r: &Reader<'_>,
    fetch: u32,
    tree: Option<&RowTree>,
) -> Result<(), Memory>
    ensures { OnOk result (out.new.items ≡ out.old.items ++ leaf_text (spec.cursor_at
        (spec.laid_of r.now) fetch
        (option_map values.row_of (option_map (λ t. t.now) tree.entry)))) }
{
    match fetch_at(r.steps, fetch as usize) {
        None => put_null(out)?,
        Some(step) => match tree {
            None => put_null(out)?,
            Some(tree) => {
                let names = names_at(r.names, fetch as usize);
                put_row_cursor(alloc, out, r.base.catalog(), step, names, tree)?
            }
        },
    }
    Ok(())
}

fn put_item_cursor<'a>(
    alloc: Global,
    out: &mut Vec<u8>,
    r: &Reader<'a>,
    trail: &[Spot<'a>],
    fetch: Option<u32>,
) -> Result<(), Memory>
    ensures { OnOk result (out.new.items ≡ out.old.items ++ leaf_text (spec.item_cursor
        (spec.laid_of r.now) (trail_of trail.now) fetch)) }
{
    match fetch {
        None => put_null(out)?,
        Some(fetch) => put_cursor(alloc, out, r, fetch, tree_on(trail, fetch))?,
    }
    Ok(())
}

// ---- lists

fn total_of(found: Option<&Found>) -> u64
    ensures { result ≡ (out-Found (reading.found_or (option_map (λ f. f.now) found.entry))).total }
{
    match found {
        None => 0,
        Some(found) => found.total,
    }
}

fn from_of(found: Option<&Found>) -> u64
    ensures { result ≡ (out-Found (reading.found_or (option_map (λ f. f.now) found.entry))).from }
{
    match found {
        None => 0,
        Some(found) => found.from,
    }
}

fn to_of(found: Option<&Found>) -> u64
    ensures { result ≡ (out-Found (reading.found_or (option_map (λ f. f.now) found.entry))).to }
{
    match found {
        None => 0,
        Some(found) => found.to,
    }
}

fn put_has_next(out: &mut Vec<u8>, found: Option<&Found>) -> Result<(), Memory>
    ensures { OnOk result (out.new.items ≡ out.old.items ++ leaf_text (spec.has_next
        (reading.found_or (option_map (λ f. f.now) found.entry)))) }
{
    let after = to_of(found) < total_of(found);
    put_truth(out, after)?;
    Ok(())
}

fn put_has_previous(out: &mut Vec<u8>, found: Option<&Found>) -> Result<(), Memory>
    ensures { OnOk result (out.new.items ≡ out.old.items ++ leaf_text (spec.has_previous
        (reading.found_or (option_map (λ f. f.now) found.entry)))) }
{
    let before = 0 < from_of(found);
    put_truth(out, before)?;
    Ok(())
}

/// Appends a part of the page of a fetch.
fn put_page(
    alloc: Global,
    out: &mut Vec<u8>,
    r: &Reader<'_>,
    fetch: u32,
    found: Option<&Found>,
    part: u8,
) -> Result<(), Memory>
    ensures { OnOk result (out.new.items ≡ out.old.items ++ leaf_text (spec.page_of
        (spec.laid_of r.now) fetch (reading.found_or (option_map (λ f. f.now) found.entry)) part)) }
{
    if part == 0 {
        put_has_next(out, found)?;
        return Ok(());
    }
    if part == 1 {
        put_has_previous(out, found)?;
        return Ok(());
    }
    if part == 2 {
        put_cursor(alloc, out, r, fetch, first_tree(rows_found(found)))?;
        return Ok(());
    }
    put_cursor(alloc, out, r, fetch, last_tree(rows_found(found)))?;
    Ok(())
}

// ---- steps

fn put_step<'a>(
    alloc: Global,
    out: &mut Vec<u8>,
    r: &Reader<'a>,
    trail: &[Spot<'a>],
    ty: TypeRef,
    step: &Step,
) -> Result<(), Memory>
    ensures { OnOk result (out.new.items ≡ out.old.items ++ leaf_text (spec.leaf_by
        (spec.laid_of r.now) (trail_of trail.now) ty (Some step.now))) }
{
    match step {
        Step::Const(value) => put_input(out, value)?,
        Step::Var(path) => put_variable(out, value_at(r.vars, path.as_slice()))?,
        Step::Given => put_null(out)?,
        Step::Fetch(_) => put_null(out)?,
        Step::Item(_) => put_null(out)?,
        Step::Column(item, column) => {
            put_column(
                out,
                r.base.schema(),
                ty,
                tree_there(r, trail, *item),
                *column,
            )?
        }
        Step::Count(fetch) => put_count(out, total_of(found_there(r, trail, *fetch)))?,
        Step::Page(fetch, part) => {
            put_page(alloc, out, r, *fetch, found_there(r, trail, *fetch), *part)?
        }
        Step::CursorOf(item) => {
            put_item_cursor(alloc, out, r, trail, item_at(r.steps, *item as usize))?
        }
    }
    Ok(())
}

/// Appends what the step at a place shows at a field of a type.
pub(crate) fn put_value<'a>(
    alloc: Global,
    out: &mut Vec<u8>,
    r: &Reader<'a>,
    trail: &[Spot<'a>],
    ty: TypeRef,
    step: u32,
) -> Result<(), Memory>
    ensures { OnOk result (out.new.items ≡ out.old.items ++ leaf_text (spec.leaf_there
        (spec.laid_of r.now) (trail_of trail.now) ty step)) }
{
    match at(r.steps, step as usize) {
        None => put_null(out)?,
        Some(step) => put_step(alloc, out, r, trail, ty, step)?,
    }
    Ok(())
}
