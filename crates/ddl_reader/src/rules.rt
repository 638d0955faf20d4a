//! Rules of columns and of tables.

ghost use Rattle.parse_rules.specs.Parser.{Reads};
ghost use Rattle.ddl_reader.specs.Reading as spec;

use crate::lexeme::{Expected, LexemeKind, is_word};
use crate::literals::read_literal;
use crate::names::{read_columns, read_identifier, read_name, read_optional_columns};
use crate::statement::{ColumnRule, ColumnRuleKind, Reference, Rule, RuleKind};
use crate::tokens::ScriptTokens;
use crate::word::Word;
use parse_rules::{ReadError, TokenStream};
use pg_base::{Pos, Text};
use sqlite_items::Items;
use std::alloc::Global;

#[tactic(auto, unfolding(crate::specs::Reading::no_action))]
fn read_no_action(tokens: &mut ScriptTokens<'_, '_>) -> Result<(), ReadError>
    ensures { Reads (spec.no_action tokens.old) result tokens.new }
{
    tokens.expect(Expected::Word(Word::No))?;
    tokens.expect(Expected::Word(Word::Action))?;
    Ok(())
}

#[tactic(auto, unfolding(crate::specs::Reading::restrict))]
fn read_restrict(tokens: &mut ScriptTokens<'_, '_>) -> Result<(), ReadError>
    ensures { Reads (spec.restrict tokens.old) result tokens.new }
{
    tokens.expect(Expected::Word(Word::Restrict))?;
    Ok(())
}

/// ON DELETE or ON UPDATE with the one action that there is.
#[tactic(auto, unfolding(crate::specs::Reading::action))]
fn read_action(tokens: &mut ScriptTokens<'_, '_>) -> Result<(), ReadError>
    ensures { Reads (spec.action tokens.old) result tokens.new }
{
    tokens.expect(Expected::Word(Word::On))?;
    tokens.expect(Expected::Change)?;
    if tokens.sees(Expected::Word(Word::No)) {
        return read_no_action(tokens);
    }
    read_restrict(tokens)
}

fn read_actions(tokens: &mut ScriptTokens<'_, '_>) -> Result<(), ReadError>
    ensures { Reads (spec.actions tokens.old) result tokens.new }
{
    for _turn in 0..tokens.left_at_most() {
        if !tokens.sees(Expected::Word(Word::On)) {
            return Ok(());
        }
        read_action(tokens)?;
    }
    Ok(())
}

/// What stands after REFERENCES.
#[tactic(auto, unfolding(crate::specs::Reading::reference))]
fn read_reference(alloc: Global, tokens: &mut ScriptTokens<'_, '_>) -> Result<Reference, ReadError>
    ensures { Reads (spec.reference tokens.old) result tokens.new }
{
    let table = read_name(alloc, tokens)?;
    let columns = read_optional_columns(alloc, tokens)?;
    read_actions(tokens)?;
    Ok(Reference {
        table: table.text,
        columns,
    })
}

#[tactic(auto, unfolding(crate::specs::Reading::always))]
fn read_always(tokens: &mut ScriptTokens<'_, '_>) -> Result<(), ReadError>
    ensures { Reads (spec.always tokens.old) result tokens.new }
{
    tokens.expect(Expected::Word(Word::Always))?;
    Ok(())
}

#[tactic(auto, unfolding(crate::specs::Reading::by_default))]
fn read_by_default(tokens: &mut ScriptTokens<'_, '_>) -> Result<(), ReadError>
    ensures { Reads (spec.by_default tokens.old) result tokens.new }
{
    tokens.expect(Expected::Word(Word::By))?;
    tokens.expect(Expected::Word(Word::Default))?;
    Ok(())
}

fn read_generation(tokens: &mut ScriptTokens<'_, '_>) -> Result<(), ReadError>
    ensures { Reads (spec.generation tokens.old) result tokens.new }
{
    if tokens.sees(Expected::Word(Word::Always)) {
        return read_always(tokens);
    }
    read_by_default(tokens)
}

/// What stands after GENERATED.
#[tactic(auto, unfolding(crate::specs::Reading::identity))]
fn read_identity(tokens: &mut ScriptTokens<'_, '_>) -> Result<ColumnRuleKind, ReadError>
    ensures { Reads (spec.identity tokens.old) result tokens.new }
{
    read_generation(tokens)?;
    tokens.expect(Expected::Word(Word::As))?;
    tokens.expect(Expected::Word(Word::Identity))?;
    Ok(ColumnRuleKind::Identity)
}

#[tactic(auto, unfolding(crate::specs::Reading::not_null))]
fn read_not_null(tokens: &mut ScriptTokens<'_, '_>) -> Result<ColumnRuleKind, ReadError>
    ensures { Reads (spec.not_null tokens.old) result tokens.new }
{
    tokens.expect(Expected::Word(Word::Null))?;
    Ok(ColumnRuleKind::NotNull)
}

#[tactic(auto, unfolding(crate::specs::Reading::primary))]
fn read_primary(tokens: &mut ScriptTokens<'_, '_>) -> Result<ColumnRuleKind, ReadError>
    ensures { Reads (spec.primary tokens.old) result tokens.new }
{
    tokens.expect(Expected::Word(Word::Key))?;
    Ok(ColumnRuleKind::Primary)
}

#[tactic(auto, unfolding(crate::specs::Reading::default))]
fn read_default(
    alloc: Global,
    tokens: &mut ScriptTokens<'_, '_>,
) -> Result<ColumnRuleKind, ReadError>
    ensures { Reads (spec.default tokens.old) result tokens.new }
{
    let value = read_literal(alloc, tokens)?;
    Ok(ColumnRuleKind::Default(value))
}

#[tactic(auto, unfolding(crate::specs::Reading::refers))]
fn read_refers(
    alloc: Global,
    tokens: &mut ScriptTokens<'_, '_>,
) -> Result<ColumnRuleKind, ReadError>
    ensures { Reads (spec.refers tokens.old) result tokens.new }
{
    let target = read_reference(alloc, tokens)?;
    Ok(ColumnRuleKind::Refers(target))
}

/// What stands after a column rule's first word.
fn read_column_rule_after(
    alloc: Global,
    tokens: &mut ScriptTokens<'_, '_>,
    first: LexemeKind,
) -> Result<ColumnRuleKind, ReadError>
    ensures { Reads (spec.column_rule_after first tokens.old) result tokens.new }
{
    if is_word(first, Word::Not) {
        return read_not_null(tokens);
    }
    if is_word(first, Word::Null) {
        return Ok(ColumnRuleKind::Null);
    }
    if is_word(first, Word::Primary) {
        return read_primary(tokens);
    }
    if is_word(first, Word::Unique) {
        return Ok(ColumnRuleKind::Unique);
    }
    if is_word(first, Word::Default) {
        return read_default(alloc, tokens);
    }
    if is_word(first, Word::References) {
        return read_refers(alloc, tokens);
    }
    read_identity(tokens)
}

/// A column rule after its name, which begins at its first word where it has none.
#[tactic(auto, unfolding(crate::specs::Reading::unnamed_column_rule))]
fn read_unnamed_column_rule(
    alloc: Global,
    tokens: &mut ScriptTokens<'_, '_>,
    begins: Option<Pos>,
    name: Option<Text>,
) -> Result<ColumnRule, ReadError>
    ensures { Reads (spec.unnamed_column_rule begins name tokens.old) result tokens.new }
{
    let first = tokens.expect(Expected::ColumnRuleWord)?;
    let what = read_column_rule_after(alloc, tokens, first.kind())?;
    Ok(ColumnRule {
        pos: begins.unwrap_or(first.pos()),
        name,
        what,
    })
}

#[tactic(auto, unfolding(crate::specs::Reading::named_column_rule))]
fn read_named_column_rule(
    alloc: Global,
    tokens: &mut ScriptTokens<'_, '_>,
) -> Result<ColumnRule, ReadError>
    ensures { Reads (spec.named_column_rule tokens.old) result tokens.new }
{
    let first = tokens.expect(Expected::Word(Word::Constraint))?;
    let name = read_identifier(alloc, tokens)?;
    read_unnamed_column_rule(alloc, tokens, Some(first.pos()), Some(name))
}

#[tactic(auto, unfolding(crate::specs::Reading::column_rule))]
fn read_column_rule(
    alloc: Global,
    tokens: &mut ScriptTokens<'_, '_>,
) -> Result<ColumnRule, ReadError>
    ensures { Reads (spec.column_rule tokens.old) result tokens.new }
{
    if tokens.sees(Expected::Word(Word::Constraint)) {
        return read_named_column_rule(alloc, tokens);
    }
    read_unnamed_column_rule(alloc, tokens, None, None)
}

/// The rules of a column.
pub(crate) fn read_column_rules(
    alloc: Global,
    tokens: &mut ScriptTokens<'_, '_>,
) -> Result<Items<ColumnRule>, ReadError>
    ensures { Reads (spec.column_rules tokens.old) result tokens.new }
{
    let mut found = Items::new(alloc);
    for _turn in 0..tokens.left_at_most() {
        if !tokens.sees(Expected::ColumnRule) {
            return Ok(found);
        }
        found.push(read_column_rule(alloc, tokens)?)?;
    }
    Ok(found)
}

#[tactic(auto, unfolding(crate::specs::Reading::primary_key))]
fn read_primary_key(alloc: Global, tokens: &mut ScriptTokens<'_, '_>) -> Result<RuleKind, ReadError>
    ensures { Reads (spec.primary_key tokens.old) result tokens.new }
{
    tokens.expect(Expected::Word(Word::Key))?;
    let columns = read_columns(alloc, tokens)?;
    Ok(RuleKind::Primary(columns))
}

#[tactic(auto, unfolding(crate::specs::Reading::unique))]
fn read_unique(alloc: Global, tokens: &mut ScriptTokens<'_, '_>) -> Result<RuleKind, ReadError>
    ensures { Reads (spec.unique tokens.old) result tokens.new }
{
    let columns = read_columns(alloc, tokens)?;
    Ok(RuleKind::Unique(columns))
}

#[tactic(auto, unfolding(crate::specs::Reading::foreign))]
fn read_foreign(alloc: Global, tokens: &mut ScriptTokens<'_, '_>) -> Result<RuleKind, ReadError>
    ensures { Reads (spec.foreign tokens.old) result tokens.new }
{
    tokens.expect(Expected::Word(Word::Key))?;
    let columns = read_columns(alloc, tokens)?;
    tokens.expect(Expected::Word(Word::References))?;
    let target = read_reference(alloc, tokens)?;
    Ok(RuleKind::Foreign(columns, target))
}

/// What stands after a table rule's first word.
fn read_rule_after(
    alloc: Global,
    tokens: &mut ScriptTokens<'_, '_>,
    first: LexemeKind,
) -> Result<RuleKind, ReadError>
    ensures { Reads (spec.rule_after first tokens.old) result tokens.new }
{
    if is_word(first, Word::Primary) {
        return read_primary_key(alloc, tokens);
    }
    if is_word(first, Word::Unique) {
        return read_unique(alloc, tokens);
    }
    read_foreign(alloc, tokens)
}

/// A table rule after its name, which begins at its first word where it has none.
#[tactic(auto, unfolding(crate::specs::Reading::unnamed_rule))]
fn read_unnamed_rule(
    alloc: Global,
    tokens: &mut ScriptTokens<'_, '_>,
    begins: Option<Pos>,
    name: Option<Text>,
) -> Result<Rule, ReadError>
    ensures { Reads (spec.unnamed_rule begins name tokens.old) result tokens.new }
{
    let first = tokens.expect(Expected::RuleWord)?;
    let what = read_rule_after(alloc, tokens, first.kind())?;
    Ok(Rule {
        pos: begins.unwrap_or(first.pos()),
        name,
        what,
    })
}

#[tactic(auto, unfolding(crate::specs::Reading::named_rule))]
fn read_named_rule(alloc: Global, tokens: &mut ScriptTokens<'_, '_>) -> Result<Rule, ReadError>
    ensures { Reads (spec.named_rule tokens.old) result tokens.new }
{
    let first = tokens.expect(Expected::Word(Word::Constraint))?;
    let name = read_identifier(alloc, tokens)?;
    read_unnamed_rule(alloc, tokens, Some(first.pos()), Some(name))
}

/// A rule of a table.
#[tactic(auto, unfolding(crate::specs::Reading::rule))]
pub(crate) fn read_rule(alloc: Global, tokens: &mut ScriptTokens<'_, '_>) -> Result<Rule, ReadError>
    ensures { Reads (spec.rule tokens.old) result tokens.new }
{
    if tokens.sees(Expected::Word(Word::Constraint)) {
        return read_named_rule(alloc, tokens);
    }
    read_unnamed_rule(alloc, tokens, None, None)
}
