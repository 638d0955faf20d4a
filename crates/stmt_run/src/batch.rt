//! What a statement finds for a list of keys: the rows of all keys at once, and each child asked once for all of them.

ghost use Rattle.std.specs.Prelude.{◌≡◌, ◌++◌, ◌+◌, IfOk, map, sum, drop, length};
ghost use Rattle.stmt_tree.specs.Meaning.{meaning_of, trees_in_all};
ghost use Rattle.stmt_tree.specs.Batches.{column, key_below};
ghost use Rattle.stmt_run.specs.Gives.{Gives};

use crate::laying::lay_out;
use crate::queue::Queue;
use crate::trees::put_together;
use pg_base::{Memory, Sequence};
use rel_model::{Row, cells_at};
use row_tables::TableSet;
use std::alloc::Global;
use stmt_tree::{Child, Found, Key, RunFault, Stmt};

/// The keys of a child for rows.
fn keys_below(alloc: Global, child: &Child, rows: &[&Row]) -> Result<Vec<Key>, Memory>
    ensures { IfOk result (λ keys. keys.items ≡
        map (key_below child.now) (map (λ r. r.now) rows.now)) }
{
    let columns = child.parent_columns.as_slice();
    let mut keys = Vec::with_capacity(alloc, rows.len())?;
    for row in rows {
        let cells = cells_at(alloc, row.cells.as_slice(), columns)?;
        keys.push(Key { cells })?;
    }
    Ok(keys)
}

/// What the statement finds for each key, taken from the room.
#[cycle(batch)]
pub(crate) fn find_batch(
    alloc: Global,
    set: &TableSet,
    stmt: &Stmt,
    keys: &[Key],
    room: &mut u64,
) -> Result<Sequence<Found>, RunFault>
    ensures { Gives trees_in_all room.old room.new result
        (meaning_of set.now.tables stmt.now keys.now) }
{
    let mut rows = Vec::new(alloc);
    let shapes = lay_out(alloc, set, stmt, keys, room, &mut rows)?;
    let columns = find_columns(alloc, set, stmt.children.as_slice(), rows.as_slice(), room)?;
    let found = put_together(
        alloc,
        shapes.as_slice(),
        rows.as_slice(),
        columns.into_vec(),
    )?;
    Ok(found)
}

/// What each child finds for each row.
#[cycle(batch)]
fn find_columns(
    alloc: Global,
    set: &TableSet,
    children: &[Child],
    rows: &[&Row],
    room: &mut u64,
) -> Result<Sequence<Queue<Found>>, RunFault>
    ensures { Gives (λ columns. sum (map trees_in_all columns)) room.old room.new result
        (map (column set.now.tables (map (λ r. r.now) rows.now)) children.now) }
{
    let mut columns = Sequence::new(alloc);
    for child in children {
        let found = find_below(alloc, set, child, rows, room)?;
        columns.push(Queue::of(found.into_vec()))?;
    }
    Ok(columns)
}

#[cycle(batch)]
fn find_below(
    alloc: Global,
    set: &TableSet,
    child: &Child,
    rows: &[&Row],
    room: &mut u64,
) -> Result<Sequence<Found>, RunFault>
    ensures { Gives trees_in_all room.old room.new result
        (column set.now.tables (map (λ r. r.now) rows.now) child.now) }
{
    let keys = keys_below(alloc, child, rows)?;
    find_batch(alloc, set, &child.stmt, keys.as_slice(), room)
}
