//! Names: identifiers, names with the schema before them, lists of columns.

ghost use Rattle.std.specs.Prelude.{◌≡◌};
ghost use Rattle.parse_rules.specs.Parser.{Reads};
ghost use Rattle.ddl_reader.specs.Reading as spec;
ghost use Rattle.ddl_reader.specs.Trees as trees;

use crate::lexeme::Expected;
use crate::statement::Name;
use crate::tokens::ScriptTokens;
use parse_rules::{ReadError, TokenStream};
use pg_base::{Pos, Text};
use sqlite_items::Items;
use std::alloc::Global;

/// Whether the name is that of the one schema that there is.
pub(crate) fn is_public(name: &Text) -> bool
    ensures { result ≡ trees.is_public name.now }
{
    name.bytes() == "public".as_bytes()
}

/// `.` and an identifier, after the schema.
#[tactic(auto, unfolding(crate::specs::Reading::qualified))]
fn read_qualified(
    alloc: Global,
    tokens: &mut ScriptTokens<'_, '_>,
    pos: Pos,
) -> Result<Name, ReadError>
    ensures { Reads (spec.qualified pos tokens.old) result tokens.new }
{
    tokens.expect(Expected::Sign(b'.'))?;
    let inner = tokens.lexeme(alloc, Expected::Identifier)?;
    Ok(Name {
        text: inner.text,
        pos,
    })
}

/// A name, with the schema or without it.
#[tactic(auto, unfolding(crate::specs::Reading::name))]
pub(crate) fn read_name(alloc: Global, tokens: &mut ScriptTokens<'_, '_>) -> Result<Name, ReadError>
    ensures { Reads (spec.name tokens.old) result tokens.new }
{
    let first = tokens.lexeme(alloc, Expected::Identifier)?;
    let (text, pos) = (first.text, first.pos);
    if !is_public(&text) {
        return Ok(Name { text, pos });
    }
    if !tokens.sees(Expected::Sign(b'.')) {
        return Ok(Name { text, pos });
    }
    read_qualified(alloc, tokens, pos)
}

#[tactic(auto, unfolding(crate::specs::Reading::identifier))]
pub(crate) fn read_identifier(
    alloc: Global,
    tokens: &mut ScriptTokens<'_, '_>,
) -> Result<Text, ReadError>
    ensures { Reads (spec.identifier tokens.old) result tokens.new }
{
    Ok(tokens.lexeme(alloc, Expected::Identifier)?.text)
}

/// Identifiers with commas between.
fn read_identifiers(
    alloc: Global,
    tokens: &mut ScriptTokens<'_, '_>,
) -> Result<Items<Text>, ReadError>
    ensures { Reads (spec.identifiers tokens.old) result tokens.new }
{
    let mut found = Items::new(alloc);
    found.push(read_identifier(alloc, tokens)?)?;
    for _turn in 0..tokens.left_at_most() {
        if !tokens.eat(Expected::Sign(b',')) {
            return Ok(found);
        }
        found.push(read_identifier(alloc, tokens)?)?;
    }
    Ok(found)
}

/// Columns between parentheses.
#[tactic(auto, unfolding(crate::specs::Reading::columns))]
pub(crate) fn read_columns(
    alloc: Global,
    tokens: &mut ScriptTokens<'_, '_>,
) -> Result<Items<Text>, ReadError>
    ensures { Reads (spec.columns tokens.old) result tokens.new }
{
    tokens.expect(Expected::Sign(b'('))?;
    let found = read_identifiers(alloc, tokens)?;
    tokens.expect(Expected::Sign(b')'))?;
    Ok(found)
}

/// Columns between parentheses, if they stand there.
#[tactic(auto, unfolding(crate::specs::Reading::some_columns))]
pub(crate) fn read_optional_columns(
    alloc: Global,
    tokens: &mut ScriptTokens<'_, '_>,
) -> Result<Option<Items<Text>>, ReadError>
    ensures { Reads (spec.optional_columns tokens.old) result tokens.new }
{
    if !tokens.sees(Expected::Sign(b'(')) {
        return Ok(None);
    }
    let found = read_columns(alloc, tokens)?;
    Ok(Some(found))
}
