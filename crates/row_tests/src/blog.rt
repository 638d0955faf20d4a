//! The blog's catalog and rows, with a table of notes, which has no key.

ghost use Rattle.std.specs.Prelude.{IfOk};
ghost use Rattle.pg_base.specs.Lists.{Each};
ghost use Rattle.ddl_reader.specs.Rows.{IsRowOf};
ghost use Rattle.rel_model.specs.Tables.{AreValidTables};
ghost use Rattle.stmt_run.specs.Store.{HoldsFor};

use ddl_reader::{Script, read_script};
use gql_vectors::BLOG;
use pg_base::{Catalog, Cell, Text};
use rel_model::Tables;
use row_tables::TableSet;
use row_tables::laws::valid_tables_have_form;
use rows_reader::load;
use sqlite_items::Items;
use std::alloc::Global;
use std::sync::Arc;
use std::test::Fail;
use stmt_run::Snapshot;

/// A text of one letter, a number of times.
fn text_of(alloc: Global, letter: u8, count: usize) -> Result<Text, Fail> {
    let letters = String::from_utf8(vec![in alloc; letter; count]?)?;
    Ok(Text::of(alloc, letters.as_str())?)
}

/// A cell as one letter tells it: a digit, `~` for null, `*` for a text of 100,000 letters `x`, `@` for Ann's address, or a
/// text of this letter.
pub(crate) fn cell_of(alloc: Global, letter: u8) -> Result<Cell, Fail> {
    match letter {
        b'~' => Ok(Cell::Null),
        b'*' => Ok(Cell::Text(text_of(alloc, b'x', 100_000)?)),
        b'@' => Ok(Cell::Text(Text::of(alloc, "ann@x")?)),
        b'0'..=b'9' => Ok(Cell::Int(i64::from(letter - b'0'))),
        _ => Ok(Cell::Text(text_of(alloc, letter, 1)?)),
    }
}

/// The letter at a place of a word, a blank where there is none.
pub(crate) fn letter_at(word: &str, place: usize) -> u8 {
    word.as_bytes().get(place).copied().unwrap_or(b' ')
}

/// The number that a digit at a place of a word tells.
pub(crate) fn number_at(word: &str, place: usize) -> u8 {
    letter_at(word, place).wrapping_sub(b'0')
}

pub(crate) fn cells_of(alloc: Global, letters: &str) -> Result<Items<Cell>, Fail> {
    let mut cells = Items::new(alloc);
    for letter in letters.as_bytes() {
        cells.push(cell_of(alloc, *letter)?)?;
    }
    Ok(cells)
}

/// The script of the blog, and three notes: one null, one short, and one of 100,000 letters.
fn text(alloc: Global) -> Result<String, Fail> {
    let long = String::from_utf8(vec![in alloc; b'x'; 100_000]?)?;
    let notes =
        "CREATE TABLE notes (id serial, body text); INSERT INTO notes (body) VALUES (NULL), ('s'), ('";
    Ok(format!(in alloc; "{BLOG}{notes}{long}');")?)
}

/// The tables that a script's rows make.
fn tables_of(alloc: Global, script: &Script) -> Result<Tables, Fail>
    requires { Each (IsRowOf script.now.catalog) script.now.rows }
    ensures { IfOk result (AreValidTables script.now.catalog) }
{
    match load(alloc, &script.catalog, script) {
        Ok(tables) => Ok(tables),
        Err(_) => Err("a row has a fault".into()),
    }
}

/// The blog's catalog and rows.
#[derive(Drop)]
pub(crate) struct Blog {
    pub catalog: Catalog,
    pub tables: Tables,
}

/// What the blog's script gives.
pub(crate) fn loaded(alloc: Global) -> Result<Blog, Fail>
    ensures { IfOk result (λ b. AreValidTables b.catalog b.tables) }
{
    let text = text(alloc)?;
    let Ok(script) = read_script(alloc, text.as_bytes()) else {
        return Err("the script has a fault".into());
    };
    let tables = tables_of(alloc, &script)?;
    let Script { catalog, .. } = script;
    Ok(Blog { catalog, tables })
}

/// A catalog, and a snapshot of tables that are valid for it.
#[derive(Drop)]
pub(crate) struct Held {
    pub catalog: Catalog,
    pub at: Snapshot,
}

/// The blog, held by a store.
pub(crate) fn opened(alloc: Global) -> Result<Held, Fail>
    ensures { IfOk result (λ h. HoldsFor h.catalog h.at) }
{
    let loaded = loaded(alloc)?;
    valid_tables_have_form(&loaded.tables);
    let set = TableSet::of(alloc, &loaded.catalog, &loaded.tables)?;
    let at = Snapshot::of(1, Arc::new(alloc, set)?);
    Ok(Held {
        catalog: loaded.catalog,
        at,
    })
}
