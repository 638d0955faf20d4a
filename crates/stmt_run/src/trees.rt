//! Row trees from the rows of a batch and what its children found.

ghost use Rattle.std.specs.Prelude.{◌≡◌, ◌+◌, ◌++◌, IfOk, OnOk, map, take, drop, length};
ghost use Rattle.stmt_tree.specs.Batches.{firsts, trees_from};
ghost use Rattle.stmt_run.specs.Laid.{founds_of};

use crate::laid::Shape;
use crate::queue::Queue;
use pg_base::{Memory, Sequence};
use rel_model::{Row, copy_cells};
use sqlite_items::Items;
use std::alloc::Global;
use stmt_tree::{Found, RowTree};

/// Takes the first of a queue, where there is one.
fn take_first<T: Drop>(queue: &mut Queue<T>, list: &mut Vec<T>) -> Result<(), Memory>
    ensures taken { OnOk result (list.new.items ≡ list.old.items ++ take 1 queue.old) }
    ensures left { OnOk result (queue.new ≡ drop 1 queue.old) }
{
    if let Some(item) = queue.next() {
        list.push(item)?;
    }
    Ok(())
}

/// Takes the first of each column.
fn take_firsts(alloc: Global, columns: &mut Vec<Queue<Found>>) -> Result<Items<Found>, Memory>
    ensures taken { IfOk result (λ list. list ≡ firsts columns.old.items) }
    ensures left { OnOk result (columns.new.items ≡ map (λ c. drop 1 c) columns.old.items) }
{
    let mut list = Vec::with_capacity(alloc, columns.len())?;
    for i in 0..columns.len() {
        take_first(&mut columns[i], &mut list)?;
    }
    Ok(Items::from_vec(list))
}

/// The trees of rows, with each column's entries at them.
fn grow_trees(
    alloc: Global,
    rows: &[&Row],
    mut columns: Vec<Queue<Found>>,
) -> Result<Vec<RowTree>, Memory>
    ensures { IfOk result (λ trees. trees.items ≡
        trees_from (map (λ r. r.now) rows.now) columns.items) }
{
    let mut trees = Vec::with_capacity(alloc, rows.len())?;
    for row in rows {
        let children = take_firsts(alloc, &mut columns)?;
        trees.push(RowTree {
            number: row.number,
            cells: copy_cells(alloc, row.cells.as_slice())?,
            children,
        })?;
    }
    Ok(trees)
}

/// Takes the next trees.
fn take_trees(
    alloc: Global,
    trees: &mut Queue<RowTree>,
    count: usize,
) -> Result<Items<RowTree>, Memory>
    ensures taken { IfOk result (λ list. list ≡ take count trees.old) }
    ensures left { OnOk result (trees.new ≡ drop count trees.old) }
{
    let mut list = Vec::with_capacity(alloc, count)?;
    for _turn in 0..count {
        take_first(trees, &mut list)?;
    }
    Ok(Items::from_vec(list))
}

/// What was found for each key, from the trees of all.
fn give_out(alloc: Global, shapes: &[Shape], trees: Vec<RowTree>) -> Result<Sequence<Found>, Memory>
    ensures { IfOk result (λ found. found ≡ founds_of shapes.now trees.items) }
{
    let mut left = Queue::of(trees);
    let mut found = Vec::with_capacity(alloc, shapes.len())?;
    for shape in shapes {
        let rows = take_trees(alloc, &mut left, shape.count)?;
        found.push(Found {
            total: shape.total,
            from: shape.from,
            to: shape.to,
            rows,
        })?;
    }
    Ok(Sequence::of(found))
}

/// What was found for each key, from the rows of all and what each child found for each row.
pub(crate) fn put_together(
    alloc: Global,
    shapes: &[Shape],
    rows: &[&Row],
    columns: Vec<Queue<Found>>,
) -> Result<Sequence<Found>, Memory>
    ensures { IfOk result (λ found. found ≡
        founds_of shapes.now (trees_from (map (λ r. r.now) rows.now) columns.items)) }
{
    let trees = grow_trees(alloc, rows, columns)?;
    give_out(alloc, shapes, trees)
}
