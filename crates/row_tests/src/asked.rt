//! Statements read from short lines, and a store's answers to them.

ghost use Rattle.std.specs.Prelude.{◌≡◌, IsTrue, length, drop};
ghost use Rattle.pg_base.specs.Lists.{Each};

use crate::blog::{Held, cell_of, cells_of, letter_at, number_at};
use pg_base::{Mark, Memory};
use rel_model::{By, Equal, Window};
use sqlite_items::Items;
use std::alloc::Global;
use std::test::Fail;
use stmt_run::Snapshot;
use stmt_tree::{Batch, Child, Key, Rows, RunFault, Stmt, fits};

/// A statement as a line tells it, with the columns of the row above, the keys and the room.
#[derive(Drop)]
pub(crate) struct Asked {
    pub stmt: Stmt,
    pub above: Items<u32>,
    pub beside: Items<Child>,
    pub keys: Items<Key>,
    pub room: u64,
}

fn asked_with(alloc: Global, children: Items<Child>, beside: Items<Child>) -> Asked {
    Asked {
        stmt: Stmt {
            table: 0,
            by: Items::new(alloc),
            condition: Items::new(alloc),
            order: Items::new(alloc),
            window: Window {
                first: None,
                last: None,
                offset: 0,
                before: None,
                after: None,
            },
            rows: true,
            children,
        },
        above: Items::new(alloc),
        beside,
        keys: Items::new(alloc),
        room: 100,
    }
}

/// What comes after a statement: the one above it, and above those beside it, or another one beside it.
fn next(alloc: Global, asked: Asked, is_above: bool) -> Result<Asked, Memory> {
    let Asked {
        stmt,
        above,
        mut beside,
        keys: _,
        room: _,
    } = asked;
    beside.push(Child {
        parent_columns: above,
        stmt,
    })?;
    if is_above {
        return Ok(asked_with(alloc, beside, Items::new(alloc)));
    }
    Ok(asked_with(alloc, Items::new(alloc), beside))
}

fn read_window(
    alloc: Global,
    stmt: &mut Stmt,
    what: u8,
    number: u64,
    letter: u8,
) -> Result<(), Fail> {
    let mut values = Items::new(alloc);
    values.push(cell_of(alloc, letter)?)?;
    let mark = Mark { values, number };
    match what {
        b'f' => stmt.window.first = Some(number),
        b'l' => stmt.window.last = Some(number),
        b's' => stmt.window.offset = number,
        b'a' => stmt.window.after = Some(mark),
        b'z' => stmt.window.before = Some(mark),
        _ => stmt.rows = false,
    }
    Ok(())
}

fn read_word(
    alloc: Global,
    asked: &mut Asked,
    what: u8,
    column: u32,
    letter: u8,
) -> Result<(), Fail> {
    match what {
        b't' => asked.stmt.table = column,
        b'b' => asked.stmt.by.push(column)?,
        b'c' => asked.stmt.condition.push(Equal {
            column,
            cell: cell_of(alloc, letter)?,
        })?,
        b'o' => asked.stmt.order.push(By {
            column,
            descending: letter == b'-',
        })?,
        b'p' => asked.above.push(column)?,
        b'r' => asked.room = u64::from(column),
        _ => read_window(alloc, &mut asked.stmt, what, u64::from(column), letter)?,
    }
    Ok(())
}

/// The statement of a line, the lowest first, of words of two or three letters: `t` table, `b` column of the key, `c`
/// column and cell of a condition, `o` column of the order, with `-` descending, `f`, `l`, `s` numbers of the window, `a`
/// and `z` number and cell of its marks, `n` where no rows are asked for, `p` column of the row above, `k` cells of a key,
/// `r` the room; `^` before the statement above, `&` before another one beside.
pub(crate) fn asked_of(alloc: Global, line: &str) -> Result<Asked, Fail> {
    let mut asked = asked_with(alloc, Items::new(alloc), Items::new(alloc));
    for word in line.split(' ') {
        if let Some(letters) = word.strip_prefix('k') {
            let cells = cells_of(alloc, letters)?;
            asked.keys.push(Key { cells })?;
            continue;
        }
        let what = letter_at(word, 0);
        if word.len() == 1 {
            asked = next(alloc, asked, what == b'^')?;
            continue;
        }
        let column = u32::from(number_at(word, 1));
        read_word(alloc, &mut asked, what, column, letter_at(word, 2))?;
    }
    Ok(asked)
}

fn are_as_long(keys: &[Key], count: usize) -> bool
    ensures { IsTrue result → Each (λ k. length k.cells ≡ count) keys.now }
{
    for key in keys {
        if key.cells.len() != count {
            return false;
        }
    }
    true
}

/// What a store answers; none where the statement isn't one of the catalog, or a key is of another length.
pub(crate) fn ask<R: Rows<At = Snapshot>>(
    rows: &mut R,
    held: &Held,
    asked: &Asked,
) -> Option<Result<Batch, RunFault>>
    requires { R.serves rows.old held.now.at held.now.catalog }
{
    if !fits(&held.catalog, &asked.stmt) {
        return None;
    }
    if !are_as_long(asked.keys.as_slice(), asked.stmt.by.len()) {
        return None;
    }
    Some(rows.run(&held.at, &asked.stmt, asked.keys.as_slice(), asked.room))
}
