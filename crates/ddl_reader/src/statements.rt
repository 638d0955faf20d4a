//! Statements up to their rows.

ghost use Rattle.std.specs.Prelude.{◌≡◌, ◌≤◌, length};
ghost use Rattle.pg_base.specs.Limits.{most_enums};
ghost use Rattle.parse_rules.specs.Parser.{Reads};
ghost use Rattle.ddl_reader.specs.Reading as spec;

use crate::comments::read_comment;
use crate::lexeme::Expected;
use crate::names::{read_name, read_optional_columns};
use crate::rules::read_rule;
use crate::statement::{EnumStatement, InsertStatement, RuleStatement, Statement};
use crate::tables::read_create_table;
use crate::tokens::ScriptTokens;
use crate::word::Word;
use parse_rules::{ReadError, TokenStream};
use pg_base::{EnumDef, Text};
use sqlite_items::Items;
use std::alloc::Global;

#[tactic(auto, unfolding(crate::specs::Reading::string))]
pub(crate) fn read_string(
    alloc: Global,
    tokens: &mut ScriptTokens<'_, '_>,
) -> Result<Text, ReadError>
    ensures { Reads (spec.string tokens.old) result tokens.new }
{
    Ok(tokens.lexeme(alloc, Expected::Str)?.text)
}

/// Strings with commas between.
fn read_strings(alloc: Global, tokens: &mut ScriptTokens<'_, '_>) -> Result<Items<Text>, ReadError>
    ensures { Reads (spec.strings tokens.old) result tokens.new }
{
    let mut found = Items::new(alloc);
    found.push(read_string(alloc, tokens)?)?;
    for _turn in 0..tokens.left_at_most() {
        if !tokens.eat(Expected::Sign(b',')) {
            return Ok(found);
        }
        found.push(read_string(alloc, tokens)?)?;
    }
    Ok(found)
}

/// A CREATE TYPE after CREATE.
#[tactic(auto, unfolding(crate::specs::Reading::create_type))]
fn read_create_type(
    alloc: Global,
    tokens: &mut ScriptTokens<'_, '_>,
) -> Result<Statement, ReadError>
    ensures { Reads (spec.create_type tokens.old) result tokens.new }
{
    tokens.expect(Expected::Word(Word::Type))?;
    let name = read_name(alloc, tokens)?;
    tokens.expect(Expected::Word(Word::As))?;
    tokens.expect(Expected::Word(Word::Enum))?;
    tokens.expect(Expected::Sign(b'('))?;
    let labels = read_strings(alloc, tokens)?;
    tokens.expect(Expected::Sign(b')'))?;
    Ok(Statement::Enum(EnumStatement { name, labels }))
}

/// CREATE INDEX and CREATE EXTENSION, of which nothing is kept.
#[tactic(auto, unfolding(crate::specs::Reading::create_skipped))]
fn read_create_skipped(tokens: &mut ScriptTokens<'_, '_>) -> Result<Statement, ReadError>
    ensures { Reads (spec.create_skipped tokens.old) result tokens.new }
{
    tokens.expect(Expected::SkippedObject)?;
    tokens.skip_while(Expected::Inner);
    Ok(Statement::Nothing)
}

#[tactic(auto, unfolding(crate::specs::Reading::create))]
fn read_create(
    alloc: Global,
    tokens: &mut ScriptTokens<'_, '_>,
    enums: &[EnumDef],
) -> Result<Statement, ReadError>
    requires { length enums.now ≤ most_enums }
    ensures { Reads (spec.create enums.now tokens.old) result tokens.new }
{
    tokens.expect(Expected::Word(Word::Create))?;
    if tokens.sees(Expected::SkippedObject) {
        return read_create_skipped(tokens);
    }
    if tokens.sees(Expected::Word(Word::Type)) {
        return read_create_type(alloc, tokens);
    }
    read_create_table(alloc, tokens, enums)
}

/// BEGIN, COMMIT, START and SET, of which nothing is kept.
#[tactic(auto, unfolding(crate::specs::Reading::skipped))]
fn read_skipped(tokens: &mut ScriptTokens<'_, '_>) -> Result<Statement, ReadError>
    ensures { Reads (spec.skipped tokens.old) result tokens.new }
{
    tokens.expect(Expected::SkippedStart)?;
    tokens.skip_while(Expected::Inner);
    Ok(Statement::Nothing)
}

#[tactic(auto, unfolding(crate::specs::Reading::only))]
fn read_only(tokens: &mut ScriptTokens<'_, '_>) -> Result<(), ReadError>
    ensures { Reads (spec.only tokens.old) result tokens.new }
{
    tokens.expect(Expected::Word(Word::Only))?;
    Ok(())
}

fn read_optional_only(tokens: &mut ScriptTokens<'_, '_>) -> Result<(), ReadError>
    ensures { Reads (spec.optional_only tokens.old) result tokens.new }
{
    if !tokens.sees(Expected::Word(Word::Only)) {
        return Ok(());
    }
    read_only(tokens)
}

/// ALTER TABLE with the rule that it adds.
#[tactic(auto, unfolding(crate::specs::Reading::alter))]
fn read_alter(alloc: Global, tokens: &mut ScriptTokens<'_, '_>) -> Result<Statement, ReadError>
    ensures { Reads (spec.alter tokens.old) result tokens.new }
{
    tokens.expect(Expected::Word(Word::Alter))?;
    tokens.expect(Expected::Word(Word::Table))?;
    read_optional_only(tokens)?;
    let table = read_name(alloc, tokens)?;
    tokens.expect(Expected::Word(Word::Add))?;
    let rule = read_rule(alloc, tokens)?;
    Ok(Statement::Rule(RuleStatement { table, rule }))
}

/// INSERT up to its rows.
#[tactic(auto, unfolding(crate::specs::Reading::insert))]
fn read_insert(alloc: Global, tokens: &mut ScriptTokens<'_, '_>) -> Result<Statement, ReadError>
    ensures { Reads (spec.insert tokens.old) result tokens.new }
{
    tokens.expect(Expected::Word(Word::Insert))?;
    tokens.expect(Expected::Word(Word::Into))?;
    let table = read_name(alloc, tokens)?;
    let columns = read_optional_columns(alloc, tokens)?;
    tokens.expect(Expected::Word(Word::Values))?;
    Ok(Statement::Insert(InsertStatement { table, columns }))
}

/// A statement up to its rows, or nothing before `;` or the end.
#[tactic(auto, unfolding(crate::specs::Reading::head))]
pub(crate) fn read_head(
    alloc: Global,
    tokens: &mut ScriptTokens<'_, '_>,
    enums: &[EnumDef],
) -> Result<Statement, ReadError>
    requires { length enums.now ≤ most_enums }
    ensures { Reads (spec.head enums.now tokens.old) result tokens.new }
{
    if tokens.sees(Expected::SkippedStart) {
        return read_skipped(tokens);
    }
    if tokens.sees(Expected::Word(Word::Create)) {
        return read_create(alloc, tokens, enums);
    }
    if tokens.sees(Expected::Word(Word::Alter)) {
        return read_alter(alloc, tokens);
    }
    if tokens.sees(Expected::Word(Word::Comment)) {
        return read_comment(alloc, tokens);
    }
    if tokens.sees(Expected::Word(Word::Insert)) {
        return read_insert(alloc, tokens);
    }
    tokens.before(Expected::Last, Statement::Nothing)
}
