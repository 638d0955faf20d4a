//! The rows of a fetch that stand in what was found so far, and the number of the rows that were found.

ghost use Rattle.std.specs.Prelude.{◌≡◌, ◌++◌, IfOk, OnOk, Some, map, option_map, sum, drop};
ghost use Rattle.stmt_tree.specs.Meaning as meaning;
ghost use Rattle.batch_execute.specs.Held as spec;
ghost use Rattle.batch_execute.specs.Reading as reading;
ghost use Rattle.batch_execute.specs.Taken.{Takes};

use crate::fetched::Fetched;
use crate::way::Way;
use crate::ways::way_of;
use pg_base::Memory;
use plan_steps::Step;
use sqlite_items::at;
use std::alloc::Global;
use stmt_tree::{Found, RowTree};

// ---- rows

fn put_rows<'a>(rows: &'a [RowTree], out: &mut Vec<&'a RowTree>) -> Result<(), Memory>
    ensures { OnOk result (map (λ t. t.now) out.new.items ≡
        map (λ t. t.now) out.old.items ++ rows.now) }
{
    for row in rows {
        out.push(row)?;
    }
    Ok(())
}

fn put_found<'a>(found: Option<&'a Found>, out: &mut Vec<&'a RowTree>) -> Result<(), Memory>
    ensures { OnOk result (map (λ t. t.now) out.new.items ≡ map (λ t. t.now) out.old.items
        ++ spec.rows_of (option_map (λ f. f.now) found.entry)) }
{
    match found {
        None => Ok(()),
        Some(found) => {
            put_rows(found.rows.as_slice(), out)?;
            Ok(())
        }
    }
}

fn found_at(fetched: &[Fetched], step: usize) -> &[Found]
    ensures { result.now ≡ (reading.fetched_at fetched.now step).found }
{
    match fetched.get(step) {
        None => &[],
        Some(fetched) => fetched.found(),
    }
}

fn child_found(tree: &RowTree, child: usize) -> Option<&Found>
    ensures { option_map (λ f. f.now) result ≡ reading.found_below (Some tree.now) child }
{
    at(tree.children.as_slice(), child)
}

/// All rows that a statement found.
fn all_rows(alloc: Global, found: &[Found]) -> Result<Vec<&RowTree>, Memory>
    ensures { IfOk result (λ trees.
        map (λ t. t.now) trees.items ≡ spec.all_rows found.now) }
{
    let mut trees = Vec::new(alloc);
    for one in found {
        put_rows(one.rows.as_slice(), &mut trees)?;
    }
    Ok(trees)
}

/// The rows that a child found below these.
fn rows_below<'a>(
    alloc: Global,
    child: usize,
    above: &[&'a RowTree],
) -> Result<Vec<&'a RowTree>, Memory>
    ensures { IfOk result (λ trees. map (λ t. t.now) trees.items ≡
        spec.rows_below child (map (λ t. t.now) above.now)) }
{
    let mut trees = Vec::new(alloc);
    for tree in above {
        put_found(child_found(tree, child), &mut trees)?;
    }
    Ok(trees)
}

/// The rows of a step that stand in what was found, where it hangs on at most so many others.
pub(crate) fn held_within<'a>(
    alloc: Global,
    steps: &[Step],
    fetched: &'a [Fetched],
    left: usize,
    step: usize,
) -> Result<Vec<&'a RowTree>, Memory>
    ensures { IfOk result (λ trees. map (λ t. t.now) trees.items ≡
        spec.held_within left steps.now fetched.now step) }
{
    if left == 0 {
        return Ok(Vec::new(alloc));
    }
    match way_of(steps, step) {
        Way::Other => Ok(Vec::new(alloc)),
        Way::Once => all_rows(alloc, found_at(fetched, step)),
        Way::Sent(_) => all_rows(alloc, found_at(fetched, step)),
        Way::Read(above, child) => {
            let above = held_within(alloc, steps, fetched, left - 1, above as usize)?;
            let trees = rows_below(alloc, child, above.as_slice())?;
            Ok(trees)
        }
    }
}

// ---- numbers

/// Takes the number of rows that were found from what is left. False where there are more.
#[cycle(taking)]
pub(crate) fn take_all(found: &[Found], left: &mut u64) -> bool
    ensures { Takes left.old left.new (meaning.trees_in_all found.now) result }
{
    for one in found {
        if !take_rows(one.rows.as_slice(), left) {
            return false;
        }
    }
    true
}

#[cycle(taking)]
fn take_rows(rows: &[RowTree], left: &mut u64) -> bool
    ensures { Takes left.old left.new (sum (map meaning.trees_of rows.now)) result }
{
    for tree in rows {
        if !take_tree(tree, left) {
            return false;
        }
    }
    true
}

#[cycle(taking)]
fn take_tree(tree: &RowTree, left: &mut u64) -> bool
    ensures { Takes left.old left.new (meaning.trees_of tree.now) result }
{
    if *left == 0 {
        return false;
    }
    *left -= 1;
    take_all(tree.children.as_slice(), left)
}
