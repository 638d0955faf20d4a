//! A batch laid out: what each key finds, and the rows of all keys in one list, as far as there is room for them.

ghost use Rattle.std.specs.Prelude.{◌≡◌, ◌++◌, ◌+◌, ◌-◌, ◌≤◌, IsTrue, IfOk, OnOk, map, take, drop, length};
ghost use Rattle.pg_base.specs.Lists.{Each};
ghost use Rattle.stmt_tree.specs.Batches.{all_parts, list_for, lists_for, part_in};
ghost use Rattle.stmt_tree.specs.declared.stmt.Child.TheViews.{out-Stmt};
ghost use Rattle.rel_model.specs.Picked.{picked};
ghost use Rattle.rel_model.specs.Ordered.{ordered};
ghost use Rattle.stmt_run.specs.Gives.{IsTaken};
ghost use Rattle.stmt_run.specs.Grouped.{IsGrouped};
ghost use Rattle.stmt_run.specs.Laid.{IsLaid, list_between, shape_of};
ghost use Rattle.stmt_run.specs.Marks.{row_mark};

use crate::grouping::{ascending, bounds, has_null};
use crate::laid::{Laid, LaidGroups, Shape};
use crate::picking::pick_rows;
use crate::placing::group_rows;
use pg_base::{Cell, Memory, Sequence};
use rel_model::{By, Row, first_rows, interval_in, sort_rows};
use row_tables::TableSet;
use std::alloc::Global;
use stmt_tree::{Key, RunFault, Stmt};

/// The first rows of a list, up to this number, are found by one pass over it.
const PAGE: usize = 64;

/// Below this number of keys a pass for each is made.
const FEW: usize = 4;

/// Takes room for rows, where there is as much.
fn take_room(room: &mut u64, count: usize) -> Result<(), RunFault>
    ensures { IsTaken count room.old room.new result }
{
    if *room < count as u64 {
        return Err(RunFault::TooMany);
    }
    *room -= count as u64;
    Ok(())
}

/// Keeps the first rows of a list in an order.
fn keep_first<'a>(
    alloc: Global,
    list: &mut Vec<&'a Row>,
    order: &[By],
    count: usize,
) -> Result<(), Memory>
    ensures { OnOk result (map (λ r. r.now) list.new.items ≡
        take count (ordered order.now (map (λ r. r.now) list.old.items))) }
{
    if count < list.len() {
        if count <= PAGE {
            *list = first_rows(alloc, list.as_slice(), order, count)?;
            return Ok(());
        }
    }
    sort_rows(list, order)?;
    list.truncate(count);
    Ok(())
}

/// Appends the rows from a place on, and gives their number.
fn append_from<'a>(all: &mut Vec<&'a Row>, rows: &[&'a Row], from: usize) -> Result<usize, Memory>
    ensures count { IfOk result (λ n. n ≡ length (drop from rows.now)) }
    ensures rows { OnOk result (all.new.items ≡ all.old.items ++ drop from rows.now) }
{
    if from >= rows.len() {
        return Ok(0);
    }
    let part = &rows[from..];
    all.extend_from_slice(part)?;
    Ok(part.len())
}

/// Appends the rows of a list that are asked for.
fn lay_list<'a>(
    alloc: Global,
    list: &mut Vec<&'a Row>,
    stmt: &Stmt,
    all: &mut Vec<&'a Row>,
) -> Result<Shape, Memory>
    ensures shape { IfOk result (λ s. s ≡
        shape_of stmt.now (ordered (out-Stmt stmt.now).order
        (map (λ r. r.now) list.old.items))) }
    ensures rows { OnOk result (map (λ r. r.now) all.new.items ≡ map (λ r. r.now) all.old.items
        ++ part_in stmt.now (ordered (out-Stmt stmt.now).order
        (map (λ r. r.now) list.old.items))) }
{
    let order = stmt.order.as_slice();
    let total = list.len() as u64;
    let (from, to) = interval_in(list.as_slice(), order, &stmt.window);
    if !stmt.rows {
        return Ok(Shape {
            total,
            from,
            to,
            count: 0,
        });
    }
    keep_first(alloc, list, order, to as usize)?;
    let count = append_from(all, list.as_slice(), from as usize)?;
    Ok(Shape {
        total,
        from,
        to,
        count,
    })
}

/// Appends the rows of one key that are asked for, by a pass over the table.
fn lay_key<'a>(
    alloc: Global,
    set: &'a TableSet,
    stmt: &Stmt,
    key: &[Cell],
    all: &mut Vec<&'a Row>,
) -> Result<Shape, Memory>
    ensures shape { IfOk result (λ s. s ≡
        shape_of stmt.now (list_for set.now.tables stmt.now key.now)) }
    ensures rows { OnOk result (map (λ r. r.now) all.new.items ≡ map (λ r. r.now) all.old.items
        ++ part_in stmt.now (list_for set.now.tables stmt.now key.now)) }
{
    let condition = stmt.condition.as_slice();
    let mut list = pick_rows(alloc, set, stmt.table, stmt.by.as_slice(), key, condition)?;
    let shape = lay_list(alloc, &mut list, stmt, all)?;
    Ok(shape)
}

/// From which place on, and up to which, the rows of a key stand among rows that are grouped.
fn places_of_key(
    set: &TableSet,
    stmt: &Stmt,
    order: &[By],
    rows: &[&Row],
    marks: &[u64],
    key: &[Cell],
) -> (usize, usize)
    requires grouped { IsGrouped set.now.tables stmt.now order.now (map (λ r. r.now) rows.now) }
    requires marks { marks.now ≡
        map (row_mark (out-Stmt stmt.now).by) (map (λ r. r.now) rows.now) }
    requires key { length key.now ≡ length (out-Stmt stmt.now).by }
    ensures order { result.0 ≤ result.1 }
    ensures end { result.1 ≤ length rows.now }
    ensures rows { take (result.1 - result.0) (drop result.0 (map (λ r. r.now) rows.now)) ≡
        picked set.now.tables (out-Stmt stmt.now).table (out-Stmt stmt.now).by key.now
        (out-Stmt stmt.now).condition }
{
    if has_null(key) {
        return (0, 0);
    }
    bounds(stmt.by.as_slice(), order, rows, marks, key)
}

/// Appends the rows of a group once more.
fn lay_again(alloc: Global, laid: Laid, all: &mut Vec<&Row>) -> Result<(), Memory>
    requires { laid.begin + laid.shape.count ≤ length all.old.items }
    ensures { OnOk result (all.new.items ≡
        all.old.items ++ take laid.shape.count (drop laid.begin all.old.items)) }
{
    let part = &all.as_slice()[laid.begin..laid.begin + laid.shape.count];
    let part = Vec::from_slice(alloc, part)?;
    all.extend_from_slice(part.as_slice())?;
    Ok(())
}

/// Appends the rows that are asked for of those from one place up to another. Rows that were laid out before aren't put
/// in order again.
fn lay_between<'a>(
    alloc: Global,
    stmt: &Stmt,
    rows: &[&'a Row],
    from: usize,
    to: usize,
    groups: &mut LaidGroups,
    all: &mut Vec<&'a Row>,
) -> Result<Shape, Memory>
    requires order { from ≤ to }
    requires end { to ≤ length rows.now }
    requires groups { Each (IsLaid stmt.now (map (λ r. r.now) rows.now)
        (map (λ r. r.now) all.old.items)) groups.old }
    ensures shape { IfOk result (λ s. s ≡
        shape_of stmt.now (list_between stmt.now (map (λ r. r.now) rows.now) from to)) }
    ensures rows { OnOk result (map (λ r. r.now) all.new.items ≡ map (λ r. r.now) all.old.items
        ++ part_in stmt.now (list_between stmt.now (map (λ r. r.now) rows.now) from to)) }
    ensures groups { OnOk result (Each (IsLaid stmt.now (map (λ r. r.now) rows.now)
        (map (λ r. r.now) all.new.items)) groups.new) }
{
    if let Some(laid) = groups.find(from, to) {
        lay_again(alloc, laid, all)?;
        return Ok(laid.shape);
    }
    let begin = all.len();
    let mut list = Vec::from_slice(alloc, &rows[from..to])?;
    let shape = lay_list(alloc, &mut list, stmt, all)?;
    groups.keep(Laid {
        from,
        to,
        shape,
        begin,
    })?;
    Ok(shape)
}

/// The numbers of each key's list, and the rows of all lists that are asked for, by a pass over the table for each key.
fn lay_each<'a>(
    alloc: Global,
    set: &'a TableSet,
    stmt: &Stmt,
    keys: &[Key],
    room: &mut u64,
    all: &mut Vec<&'a Row>,
) -> Result<Sequence<Shape>, RunFault>
    ensures shapes { IfOk result (λ shapes. shapes ≡
        map (shape_of stmt.now) (lists_for set.now.tables stmt.now keys.now)) }
    ensures rows { OnOk result (map (λ r. r.now) all.new.items ≡ map (λ r. r.now) all.old.items
        ++ all_parts stmt.now (lists_for set.now.tables stmt.now keys.now)) }
    ensures room { IsTaken
        (length (all_parts stmt.now (lists_for set.now.tables stmt.now keys.now)))
        room.old room.new result }
{
    let mut shapes = Sequence::new(alloc);
    for key in keys {
        let shape = lay_key(alloc, set, stmt, key.cells.as_slice(), all)?;
        take_room(room, shape.count)?;
        shapes.push(shape)?;
    }
    Ok(shapes)
}

/// The same, by one pass over the table and one sort for all keys. Equal keys are laid out once.
fn lay_groups<'a>(
    alloc: Global,
    set: &'a TableSet,
    stmt: &Stmt,
    keys: &[Key],
    room: &mut u64,
    all: &mut Vec<&'a Row>,
) -> Result<Sequence<Shape>, RunFault>
    requires { Each (λ k. length k.cells ≡ length (out-Stmt stmt.now).by) keys.now }
    ensures shapes { IfOk result (λ shapes. shapes ≡
        map (shape_of stmt.now) (lists_for set.now.tables stmt.now keys.now)) }
    ensures rows { OnOk result (map (λ r. r.now) all.new.items ≡ map (λ r. r.now) all.old.items
        ++ all_parts stmt.now (lists_for set.now.tables stmt.now keys.now)) }
    ensures room { IsTaken
        (length (all_parts stmt.now (lists_for set.now.tables stmt.now keys.now)))
        room.old room.new result }
{
    let by = stmt.by.as_slice();
    let order = ascending(alloc, by)?;
    let picked = pick_rows(alloc, set, stmt.table, &[], &[], stmt.condition.as_slice())?;
    let grouped = group_rows(alloc, picked.as_slice(), by, order.as_slice())?;
    let rows = grouped.rows.as_slice();
    let marks = grouped.marks.as_slice();
    let mut groups = LaidGroups::new(alloc, rows.len())?;
    let mut shapes = Sequence::new(alloc);
    for key in keys {
        let cells = key.cells.as_slice();
        let (from, to) = places_of_key(set, stmt, order.as_slice(), rows, marks, cells);
        let shape = lay_between(alloc, stmt, rows, from, to, &mut groups, all)?;
        take_room(room, shape.count)?;
        shapes.push(shape)?;
    }
    Ok(shapes)
}

fn are_as_long(keys: &[Key], count: usize) -> bool
    ensures { IsTrue result → Each (λ k. length k.cells ≡ count) keys.now }
{
    for key in keys {
        if key.cells.len() != count {
            return false;
        }
    }
    true
}

/// The numbers of each key's list, and the rows of all lists that are asked for, as far as there is room for them.
pub(crate) fn lay_out<'a>(
    alloc: Global,
    set: &'a TableSet,
    stmt: &Stmt,
    keys: &[Key],
    room: &mut u64,
    all: &mut Vec<&'a Row>,
) -> Result<Sequence<Shape>, RunFault>
    ensures shapes { IfOk result (λ shapes. shapes ≡
        map (shape_of stmt.now) (lists_for set.now.tables stmt.now keys.now)) }
    ensures rows { OnOk result (map (λ r. r.now) all.new.items ≡ map (λ r. r.now) all.old.items
        ++ all_parts stmt.now (lists_for set.now.tables stmt.now keys.now)) }
    ensures room { IsTaken
        (length (all_parts stmt.now (lists_for set.now.tables stmt.now keys.now)))
        room.old room.new result }
{
    if keys.len() >= FEW {
        if are_as_long(keys, stmt.by.len()) {
            let shapes = lay_groups(alloc, set, stmt, keys, room, all)?;
            return Ok(shapes);
        }
    }
    let shapes = lay_each(alloc, set, stmt, keys, room, all)?;
    Ok(shapes)
}
