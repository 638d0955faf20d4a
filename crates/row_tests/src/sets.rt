//! Sets of tables, and the same with one row put or left out.

ghost use Rattle.std.specs.Prelude.{◌≡◌, ◌<◌, ◌≤◌, IsTrue, None, length};
ghost use Rattle.rel_model.specs.Picked.{row_numbered};
ghost use Rattle.row_tables.specs.Set.{IsSetOf, list_at};

use crate::blog::{cells_of, letter_at, loaded, number_at};
use pg_base::{Catalog, Cell, Memory};
use rel_model::Row;
use row_tables::TableSet;
use row_tables::laws::valid_tables_have_form;
use sqlite_items::at;
use std::alloc::Global;
use std::test::Fail;

/// The place of the notes, which have no key.
const NOTES: u32 = 3;

/// Whether a row has the number, or a new one may have it.
fn has_place(set: &TableSet, number: u64) -> bool
    requires { NOTES < length set.now.tables.lists }
    ensures { IsTrue result → row_numbered (list_at set.now NOTES).rows number ≡ None →
        (list_at set.now NOTES).next_number ≤ number }
{
    if set.get(NOTES, number).is_some() {
        return true;
    }
    set.next_number(NOTES) <= number
}

/// The set with a note put; none where its number has no place, or its cells aren't as many as the columns.
fn put(
    alloc: Global,
    catalog: &Catalog,
    set: &TableSet,
    row: Row,
) -> Result<Option<TableSet>, Memory>
    requires { IsSetOf catalog.now set.now }
{
    let Some(def) = at(catalog.tables(), NOTES as usize) else {
        return Ok(None);
    };
    if !def.keys.is_empty() {
        return Ok(None);
    }
    if set.tables() <= NOTES as usize {
        return Ok(None);
    }
    if row.number == u64::MAX {
        return Ok(None);
    }
    if !has_place(set, row.number) {
        return Ok(None);
    }
    if row.cells.len() != def.columns.len() {
        return Ok(None);
    }
    let made = set.with(alloc, NOTES, row)?;
    Ok(Some(made))
}

fn number_of(row: Option<&Row>) -> u64 {
    match row {
        Some(row) => row.number,
        None => 0,
    }
}

/// A cell as one letter: a digit, `~` for null, `*` for a long text, or a text's first letter.
fn show_cell(out: &mut String, cell: &Cell) -> Result<(), Fail> {
    match cell {
        Cell::Null => out.push_str("~")?,
        Cell::Int(value) => write!(out, "{value}")?,
        Cell::Text(text) if text.bytes().len() > 1 => out.push_str("*")?,
        Cell::Text(text) => out.push_str(str::from_utf8(text.bytes()).unwrap_or("?"))?,
        Cell::Bool(_) | Cell::EnumCase(_) => out.push_str("?")?,
    }
    Ok(())
}

/// The notes, each with its number and cells, and the number of the next one.
fn notes_in(alloc: Global, set: &TableSet) -> Result<String, Fail> {
    let mut out = String::new(alloc);
    if set.tables() <= NOTES as usize {
        return Ok(out);
    }
    for place in 0..set.len(NOTES) {
        let row = set.at(NOTES, place);
        write!(out, "{}=", row.number)?;
        for cell in row.cells.as_slice() {
            show_cell(&mut out, cell)?;
        }
        out.push_str(" ")?;
    }
    write!(out, "next {}", set.next_number(NOTES))?;
    Ok(out)
}

/// The notes but one.
fn left(alloc: Global, set: &TableSet, number: u64) -> Result<String, Fail> {
    if set.tables() <= NOTES as usize {
        return Err("no notes".into());
    }
    notes_in(alloc, &set.without(alloc, NOTES, number)?)
}

/// What is done with a set of the blog, and what comes of it: the notes with one of a number put (`w`), the notes without a
/// number (`o`), and the number of the user by a key (`k`), 0 where there is none. Notes stand as NUMBER=CELLS.
const DONE: &str = "\
w4 4* => 1=1~ 2=2s 3=3* 4=4* next 5
w9 9s => 1=1~ 2=2s 3=3* 9=9s next 10
w2 2~ => 1=1~ 2=2~ 3=3* next 4
w4 7s => 1=1~ 2=2s 3=3* 4=7s next 5
w0 0s => no place
w4 4 => no place
o1 => 2=2s 3=3* next 4
o3 => 1=1~ 2=2s next 4
o7 => 1=1~ 2=2s 3=3* next 4
k0 2 => 2
k0 3 => 0
k0 ~ => 0
k0 22 => 0
k1 @ => 1
k1 1 => 0
k1 ~ => 0
k1 * => 0
k2 2 => 0
";

fn done(
    alloc: Global,
    catalog: &Catalog,
    set: &TableSet,
    word: &str,
    letters: &str,
) -> Result<String, Fail>
    requires { IsSetOf catalog.now set.now }
{
    let digit = number_at(word, 1);
    let number = u64::from(digit);
    let cells = cells_of(alloc, letters)?;
    if letter_at(word, 0) == b'o' {
        return left(alloc, set, number);
    }
    if letter_at(word, 0) == b'k' {
        let number = number_of(set.by_key(0, u32::from(digit), cells.as_slice()));
        return Ok(format!(in alloc; "{number}")?);
    }
    match put(alloc, catalog, set, Row { number, cells })? {
        Some(made) => notes_in(alloc, &made),
        None => Ok(format!(in alloc; "no place")?),
    }
}

/// The lines with what comes of them in place of their results.
fn all_done(alloc: Global, catalog: &Catalog, set: &TableSet, lines: &str) -> Result<String, Fail>
    requires { IsSetOf catalog.now set.now }
{
    let mut out = String::new(alloc);
    for line in lines.lines() {
        let words = line.split(" => ").next().unwrap_or(line);
        let (word, letters) = words.split_once(' ').unwrap_or((words, ""));
        write!(
            out,
            "{words} => {}\n",
            done(alloc, catalog, set, word, letters)?
        )?;
    }
    Ok(out)
}

#[test]
fn sets_have_their_rows(rt: HostRuntime) -> Result<(), Fail> {
    let loaded = loaded(rt.alloc())?;
    valid_tables_have_form(&loaded.tables);
    let set = TableSet::of(rt.alloc(), &loaded.catalog, &loaded.tables)?;
    let text = all_done(rt.alloc(), &loaded.catalog, &set, DONE)?;
    assert!(rt; text.as_str() == DONE, "{text}");
    Ok(())
}
