//! COMMENT ON.

ghost use Rattle.std.specs.Prelude.{◌≡◌};
ghost use Rattle.parse_rules.specs.Parser.{Reads};
ghost use Rattle.ddl_reader.specs.Reading as spec;

use crate::lexeme::Expected;
use crate::names::{is_public, read_name};
use crate::statement::{CommentStatement, Name, Statement, Target};
use crate::statements::read_string;
use crate::tokens::ScriptTokens;
use crate::word::Word;
use parse_rules::{ReadError, TokenStream};
use pg_base::{Pos, Text};
use std::alloc::Global;

#[tactic(auto, unfolding(crate::specs::Reading::table_target))]
fn read_table_target(alloc: Global, tokens: &mut ScriptTokens<'_, '_>) -> Result<Target, ReadError>
    ensures { Reads (spec.table_target tokens.old) result tokens.new }
{
    tokens.expect(Expected::Word(Word::Table))?;
    let name = read_name(alloc, tokens)?;
    Ok(Target::Table(name))
}

/// `.` and a column, after the schema and a table.
#[tactic(auto, unfolding(crate::specs::Reading::qualified_column))]
fn read_qualified_column(
    alloc: Global,
    tokens: &mut ScriptTokens<'_, '_>,
    pos: Pos,
    table: Text,
) -> Result<Target, ReadError>
    ensures { Reads (spec.qualified_column pos table tokens.old) result tokens.new }
{
    tokens.expect(Expected::Sign(b'.'))?;
    let column = tokens.lexeme(alloc, Expected::Identifier)?;
    Ok(Target::Column(Name { text: table, pos }, column.text))
}

/// A table and its column.
#[tactic(auto, unfolding(crate::specs::Reading::column_target))]
fn read_column_target(alloc: Global, tokens: &mut ScriptTokens<'_, '_>) -> Result<Target, ReadError>
    ensures { Reads (spec.column_target tokens.old) result tokens.new }
{
    tokens.expect(Expected::Word(Word::Column))?;
    let first = tokens.lexeme(alloc, Expected::Identifier)?;
    tokens.expect(Expected::Sign(b'.'))?;
    let second = tokens.lexeme(alloc, Expected::Identifier)?;
    let (table, pos) = (first.text, first.pos);
    if !is_public(&table) {
        return Ok(Target::Column(Name { text: table, pos }, second.text));
    }
    if !tokens.sees(Expected::Sign(b'.')) {
        return Ok(Target::Column(Name { text: table, pos }, second.text));
    }
    read_qualified_column(alloc, tokens, pos, second.text)
}

#[tactic(auto, unfolding(crate::specs::Reading::constraint_target))]
fn read_constraint_target(
    alloc: Global,
    tokens: &mut ScriptTokens<'_, '_>,
) -> Result<Target, ReadError>
    ensures { Reads (spec.constraint_target tokens.old) result tokens.new }
{
    tokens.expect(Expected::Word(Word::Constraint))?;
    let first = tokens.lexeme(alloc, Expected::Identifier)?;
    tokens.expect(Expected::Word(Word::On))?;
    let table = read_name(alloc, tokens)?;
    let name = Name {
        text: first.text,
        pos: first.pos,
    };
    Ok(Target::Constraint(name, table.text))
}

#[tactic(auto, unfolding(crate::specs::Reading::type_target))]
fn read_type_target(alloc: Global, tokens: &mut ScriptTokens<'_, '_>) -> Result<Target, ReadError>
    ensures { Reads (spec.type_target tokens.old) result tokens.new }
{
    tokens.expect(Expected::Word(Word::Type))?;
    let name = read_name(alloc, tokens)?;
    Ok(Target::Enum(name))
}

#[tactic(auto, unfolding(crate::specs::Reading::target))]
fn read_target(alloc: Global, tokens: &mut ScriptTokens<'_, '_>) -> Result<Target, ReadError>
    ensures { Reads (spec.target tokens.old) result tokens.new }
{
    if tokens.sees(Expected::Word(Word::Table)) {
        return read_table_target(alloc, tokens);
    }
    if tokens.sees(Expected::Word(Word::Column)) {
        return read_column_target(alloc, tokens);
    }
    if tokens.sees(Expected::Word(Word::Constraint)) {
        return read_constraint_target(alloc, tokens);
    }
    read_type_target(alloc, tokens)
}

#[tactic(auto, unfolding(crate::specs::Reading::no_text))]
fn read_no_text(tokens: &mut ScriptTokens<'_, '_>) -> Result<Option<Text>, ReadError>
    ensures { Reads (spec.no_text tokens.old) result tokens.new }
{
    tokens.expect(Expected::Word(Word::Null))?;
    Ok(None)
}

#[tactic(auto, unfolding(crate::specs::Reading::some_text))]
fn read_some_text(
    alloc: Global,
    tokens: &mut ScriptTokens<'_, '_>,
) -> Result<Option<Text>, ReadError>
    ensures { Reads (spec.some_text tokens.old) result tokens.new }
{
    let text = read_string(alloc, tokens)?;
    Ok(Some(text))
}

fn read_comment_text(
    alloc: Global,
    tokens: &mut ScriptTokens<'_, '_>,
) -> Result<Option<Text>, ReadError>
    ensures { Reads (spec.comment_text tokens.old) result tokens.new }
{
    if tokens.sees(Expected::Word(Word::Null)) {
        return read_no_text(tokens);
    }
    read_some_text(alloc, tokens)
}

/// COMMENT ON with its text, or NULL.
#[tactic(auto, unfolding(crate::specs::Reading::comment))]
pub(crate) fn read_comment(
    alloc: Global,
    tokens: &mut ScriptTokens<'_, '_>,
) -> Result<Statement, ReadError>
    ensures { Reads (spec.comment tokens.old) result tokens.new }
{
    tokens.expect(Expected::Word(Word::Comment))?;
    tokens.expect(Expected::Word(Word::On))?;
    let target = read_target(alloc, tokens)?;
    tokens.expect(Expected::Word(Word::Is))?;
    let text = read_comment_text(alloc, tokens)?;
    Ok(Statement::Comment(CommentStatement { target, text }))
}
