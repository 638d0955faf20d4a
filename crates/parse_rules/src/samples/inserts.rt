//! Inserts, as `t (a, b) = (1, 2), (3, 4)`: a table, its columns if they are named, and rows.

ghost use Rattle.std.specs.Prelude.{◌≡◌, IfOk, IfErr};
ghost use Rattle.parse_rules.specs.Inserts as spec;
ghost use Rattle.parse_rules.specs.Lazy.{signs};
ghost use Rattle.parse_rules.specs.Parser.{Reads, ReadsInto};

use crate::error::ReadError;
use crate::samples::lazy::LazySigns;
use crate::samples::sign::{Sign, Wanted, letter_of};
use crate::stream::TokenStream;
use sqlite_items::Items;
use std::alloc::Global;

/// A table's name, the named columns, and the cells of each row.
#[derive(Drop)]
pub struct Insert {
    pub table: u8,
    pub columns: Items<u8>,
    pub rows: Items<Items<u8>>,
}

/// Why a text is no insert.
#[derive(Clone, Copy, Debug, Drop)]
pub enum InsertFault {
    /// Memory ran out.
    Memory,
    /// The sign, or the end, that no insert has after the signs before it.
    At(Option<Sign>),
}

fn read_word(tokens: &mut LazySigns<'_>) -> Result<u8, ReadError>
    ensures { Reads (spec.word tokens.old) result tokens.new }
{
    Ok(letter_of(tokens.expect(Wanted::Word)?))
}

/// Words with commas between.
fn read_words(alloc: Global, tokens: &mut LazySigns<'_>) -> Result<Items<u8>, ReadError>
    ensures { Reads (spec.words tokens.old) result tokens.new }
{
    let mut found = Items::new(alloc);
    found.push(read_word(tokens)?)?;
    for _turn in 0..tokens.left_at_most() {
        if !tokens.eat(Wanted::Comma) {
            return Ok(found);
        }
        found.push(read_word(tokens)?)?;
    }
    Ok(found)
}

/// Words between parentheses.
#[tactic(auto, unfolding(crate::specs::Inserts::row))]
fn read_row(alloc: Global, tokens: &mut LazySigns<'_>) -> Result<Items<u8>, ReadError>
    ensures { Reads (spec.row tokens.old) result tokens.new }
{
    tokens.expect(Wanted::Open)?;
    let words = read_words(alloc, tokens)?;
    tokens.expect(Wanted::Close)?;
    Ok(words)
}

/// The named columns, or none.
fn read_columns(alloc: Global, tokens: &mut LazySigns<'_>) -> Result<Items<u8>, ReadError>
    ensures { Reads (spec.columns tokens.old) result tokens.new }
{
    if !tokens.sees(Wanted::Open) {
        return Ok(Items::new(alloc));
    }
    read_row(alloc, tokens)
}

/// A comma and a row.
fn read_other_row(alloc: Global, tokens: &mut LazySigns<'_>) -> Result<Items<u8>, ReadError>
    ensures { Reads (spec.other_row tokens.old) result tokens.new }
{
    tokens.expect(Wanted::Comma)?;
    read_row(alloc, tokens)
}

/// Puts rows after those found, as long as a comma comes.
fn read_other_rows(
    alloc: Global,
    tokens: &mut LazySigns<'_>,
    found: &mut Items<Items<u8>>,
) -> Result<(), ReadError>
    ensures { ReadsInto (spec.other_rows found.old tokens.old) result found.new tokens.new }
{
    for _turn in 0..tokens.left_at_most() {
        if !tokens.sees(Wanted::Comma) {
            return Ok(());
        }
        found.push(read_other_row(alloc, tokens)?)?;
    }
    Ok(())
}

/// One row or more, with commas between.
#[tactic(auto, unfolding(crate::specs::Inserts::rows))]
fn read_rows(alloc: Global, tokens: &mut LazySigns<'_>) -> Result<Items<Items<u8>>, ReadError>
    ensures { Reads (spec.rows tokens.old) result tokens.new }
{
    let mut found = Items::new(alloc);
    found.push(read_row(alloc, tokens)?)?;
    read_other_rows(alloc, tokens, &mut found)?;
    Ok(found)
}

#[tactic(auto, unfolding(crate::specs::Inserts::insert))]
fn read_insert(alloc: Global, tokens: &mut LazySigns<'_>) -> Result<Insert, ReadError>
    ensures { Reads (spec.insert tokens.old) result tokens.new }
{
    let table = read_word(tokens)?;
    let columns = read_columns(alloc, tokens)?;
    tokens.expect(Wanted::Equals)?;
    let rows = read_rows(alloc, tokens)?;
    Ok(Insert {
        table,
        columns,
        rows,
    })
}

fn read_whole(alloc: Global, tokens: &mut LazySigns<'_>) -> Result<Insert, ReadError>
    ensures { Reads (spec.text tokens.old) result tokens.new }
{
    let insert = read_insert(alloc, tokens)?;
    tokens.ended(insert)
}

/// The insert that all of the text is.
pub fn read_insert_text(alloc: Global, text: &[u8]) -> Result<Insert, InsertFault>
    ensures found { IfOk result (spec.IsText (signs text.now)) }
    ensures fault { IfErr result (spec.IsTextFault (signs text.now)) }
{
    let mut tokens = LazySigns::new(text);
    match read_whole(alloc, &mut tokens) {
        Ok(insert) => Ok(insert),
        Err(ReadError::Memory) => Err(InsertFault::Memory),
        Err(ReadError::Unexpected) => Err(InsertFault::At(tokens.peek())),
    }
}
