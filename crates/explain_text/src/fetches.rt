//! The lines of fetches, appended.

ghost use Rattle.std.specs.Prelude.{◌≡◌, ◌++◌, ◌+◌, [], false, OnOk, IfOk, map, sum};
ghost use Rattle.plan_steps.specs.declared.plan.FetchStep.{out-FetchStep};
ghost use Rattle.explain_text.specs.Explained as spec;
ghost use Rattle.explain_text.specs.Values.{separated};
ghost use Rattle.explain_text.specs.WayLines as ways;

use crate::pieces::{put, put_before, put_number};
use batch_execute::{Way, ways_of};
use pg_base::{Catalog, ColumnDef, Memory};
use plan_steps::{FetchStep, Step};
use sqlite_items::at;
use std::alloc::{AllocError, Global};

/// How many fetches there are, once those of a tree are counted too. A number that 64 bits don't hold is out of memory,
/// since so many fetches don't fit there.
#[cycle(count)]
fn count_nodes(fetch: &FetchStep, before: u64) -> Result<u64, Memory>
    ensures { IfOk result (λ count. count ≡ before + spec.nodes fetch.now) }
{
    let own = before.checked_add(1).ok_or(AllocError)?;
    let count = count_children(fetch.children.as_slice(), own)?;
    Ok(count)
}

#[cycle(count)]
fn count_children(children: &[FetchStep], before: u64) -> Result<u64, Memory>
    ensures { IfOk result (λ count. count ≡ before + sum (map spec.nodes children.now)) }
{
    let mut count = before;
    for child in children {
        count = count_nodes(child, count)?;
    }
    Ok(count)
}

fn name_of(columns: &[ColumnDef], column: u32) -> &[u8]
    ensures { result.now ≡ spec.column_name columns.now column }
{
    match at(columns, column as usize) {
        Some(def) => def.name.bytes(),
        None => b"",
    }
}

fn put_columns(out: &mut Vec<u8>, columns: &[ColumnDef], by: &[u32]) -> Result<(), Memory>
    ensures { OnOk result (out.new.items ≡ out.old.items
        ++ separated 44 (spec.column_name columns.now) false by.now) }
{
    let mut due = false;
    for column in by {
        put_before(out, b',', due)?;
        put(out, name_of(columns, *column))?;
        due = true;
    }
    Ok(())
}

/// Appends the columns that the key is compared with, or a minus where no row above has the key.
fn put_by(out: &mut Vec<u8>, columns: &[ColumnDef], fetch: &FetchStep) -> Result<(), Memory>
    ensures { OnOk result (out.new.items ≡ out.old.items ++ spec.columns_text columns.now
        (out-FetchStep fetch.now).parent (out-FetchStep fetch.now).by) }
{
    match fetch.parent {
        None => put(out, b"-"),
        Some(_) => put_columns(out, columns, fetch.by.as_slice()),
    }
}

fn put_nodes(out: &mut Vec<u8>, fetch: &FetchStep) -> Result<(), Memory>
    ensures { OnOk result (out.new.items ≡ out.old.items ++ spec.nodes_end fetch.now) }
{
    put(out, b" nodes ")?;
    put_number(out, count_nodes(fetch, 0)?)?;
    put(out, b"\n")?;
    Ok(())
}

/// Appends the line of a fetch of a table with a name and columns.
fn put_line(
    out: &mut Vec<u8>,
    name: &[u8],
    columns: &[ColumnDef],
    fetch: &FetchStep,
) -> Result<(), Memory>
    ensures { OnOk result (out.new.items ≡ out.old.items
        ++ spec.line_in name.now columns.now fetch.now) }
{
    put(out, b"fetch ")?;
    put(out, name)?;
    put(out, b" by ")?;
    put_by(out, columns, fetch)?;
    put_nodes(out, fetch)?;
    Ok(())
}

fn put_fetch(out: &mut Vec<u8>, catalog: &Catalog, fetch: &FetchStep) -> Result<(), Memory>
    ensures { OnOk result (out.new.items ≡ out.old.items
        ++ spec.fetch_line catalog.now fetch.now) }
{
    match at(catalog.tables(), fetch.table as usize) {
        Some(table) => put_line(out, table.name.bytes(), table.columns.as_slice(), fetch),
        None => put_line(out, b"", &[], fetch),
    }
}

fn put_shown(out: &mut Vec<u8>, catalog: &Catalog, step: &Step) -> Result<(), Memory>
    ensures { OnOk result (out.new.items ≡ out.old.items ++ spec.step_line catalog.now step.now) }
{
    match step {
        Step::Fetch(fetch) => put_fetch(out, catalog, fetch),
        Step::Const(_) => Ok(()),
        Step::Var(_) => Ok(()),
        Step::Given => Ok(()),
        Step::Item(_) => Ok(()),
        Step::Column(_, _) => Ok(()),
        Step::Count(_) => Ok(()),
        Step::Page(_, _) => Ok(()),
        Step::CursorOf(_) => Ok(()),
    }
}

/// Appends the line of a step, where it is a statement of its own.
fn put_step(out: &mut Vec<u8>, catalog: &Catalog, step: &Step, way: &Way) -> Result<(), Memory>
    ensures { OnOk result (out.new.items ≡ out.old.items
        ++ ways.line_by catalog.now step.now way.now) }
{
    match way {
        Way::Once => put_shown(out, catalog, step),
        Way::Sent(_) => put_shown(out, catalog, step),
        Way::Other => Ok(()),
        Way::Read(_, _) => Ok(()),
    }
}

/// Appends the lines of steps, each with how its rows are come by.
fn put_steps(
    out: &mut Vec<u8>,
    catalog: &Catalog,
    steps: &[Step],
    how: &[Way],
) -> Result<(), Memory>
    ensures { OnOk result (out.new.items ≡ out.old.items
        ++ ways.lines_by catalog.now steps.now how.now) }
{
    for (step, way) in steps.iter().zip(how) {
        put_step(out, catalog, step, way)?;
    }
    Ok(())
}

pub(crate) fn put_fetches(
    alloc: Global,
    out: &mut Vec<u8>,
    catalog: &Catalog,
    steps: &[Step],
) -> Result<(), Memory>
    ensures { OnOk result (out.new.items ≡ out.old.items
        ++ spec.fetch_lines catalog.now steps.now) }
{
    let how = ways_of(alloc, steps)?;
    put_steps(out, catalog, steps, how.as_slice())?;
    Ok(())
}
