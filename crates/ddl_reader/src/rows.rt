//! The rows of an INSERT.

ghost use Rattle.std.specs.Prelude.{◌≡◌};
ghost use Rattle.parse_rules.specs.Parser.{Reads, ReadsInto};
ghost use Rattle.ddl_reader.specs.Reading as spec;

use crate::lexeme::Expected;
use crate::literals::read_value;
use crate::script::Literal;
use crate::statement::Row;
use crate::tokens::ScriptTokens;
use parse_rules::{ReadError, TokenStream};
use pg_base::Sequence;
use sqlite_items::Items;
use std::alloc::Global;

/// Values with commas between.
fn read_values(
    alloc: Global,
    tokens: &mut ScriptTokens<'_, '_>,
) -> Result<Sequence<Literal>, ReadError>
    ensures { Reads (spec.values tokens.old) result tokens.new }
{
    let mut found = Sequence::new(alloc);
    found.push(read_value(alloc, tokens)?)?;
    for _turn in 0..tokens.left_at_most() {
        if !tokens.eat(Expected::Sign(b',')) {
            return Ok(found);
        }
        found.push(read_value(alloc, tokens)?)?;
    }
    Ok(found)
}

/// The same values, in no more room than they take.
fn fitted(values: Sequence<Literal>) -> Items<Literal>
    ensures { result ≡ values }
{
    let mut values = values.into_vec();
    values.shrink_to_fit();
    Items::from_vec(values)
}

/// A row of the INSERT of this number.
#[tactic(auto, unfolding(crate::specs::Reading::row))]
fn read_row(
    alloc: Global,
    tokens: &mut ScriptTokens<'_, '_>,
    insert: usize,
) -> Result<Row, ReadError>
    ensures { Reads (spec.row insert tokens.old) result tokens.new }
{
    let first = tokens.expect(Expected::Sign(b'('))?;
    let values = read_values(alloc, tokens)?;
    tokens.expect(Expected::Sign(b')'))?;
    Ok(Row {
        pos: first.pos(),
        insert,
        cells: fitted(values),
    })
}

#[tactic(auto, unfolding(crate::specs::Reading::other_row))]
fn read_other_row(
    alloc: Global,
    tokens: &mut ScriptTokens<'_, '_>,
    insert: usize,
) -> Result<Row, ReadError>
    ensures { Reads (spec.other_row insert tokens.old) result tokens.new }
{
    tokens.expect(Expected::Sign(b','))?;
    read_row(alloc, tokens, insert)
}

/// Puts rows after those found, as long as a comma comes.
fn read_other_rows(
    alloc: Global,
    tokens: &mut ScriptTokens<'_, '_>,
    insert: usize,
    found: &mut Items<Row>,
) -> Result<(), ReadError>
    ensures { ReadsInto (spec.other_rows insert found.old tokens.old) result found.new tokens.new }
{
    for _turn in 0..tokens.left_at_most() {
        if !tokens.sees(Expected::Sign(b',')) {
            return Ok(());
        }
        found.push(read_other_row(alloc, tokens, insert)?)?;
    }
    Ok(())
}

/// Puts the rows of the INSERT of this number after those found.
#[tactic(auto, unfolding(crate::specs::Reading::rows))]
pub(crate) fn read_rows(
    alloc: Global,
    tokens: &mut ScriptTokens<'_, '_>,
    insert: usize,
    found: &mut Items<Row>,
) -> Result<(), ReadError>
    ensures { ReadsInto (spec.rows insert found.old tokens.old) result found.new tokens.new }
{
    found.push(read_row(alloc, tokens, insert)?)?;
    read_other_rows(alloc, tokens, insert, found)?;
    Ok(())
}
