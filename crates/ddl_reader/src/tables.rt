//! CREATE TABLE: columns and rules.

ghost use Rattle.std.specs.Prelude.{◌≡◌, ◌≤◌, length};
ghost use Rattle.pg_base.specs.Limits.{most_enums};
ghost use Rattle.parse_rules.specs.Parser.{Reads};
ghost use Rattle.ddl_reader.specs.Reading as spec;

use crate::lexeme::Expected;
use crate::names::read_name;
use crate::rules::{read_column_rules, read_rule};
use crate::statement::{Column, Element, Name, Statement, TableStatement};
use crate::tokens::ScriptTokens;
use crate::types::read_column_type;
use crate::word::Word;
use parse_rules::{ReadError, TokenStream};
use pg_base::EnumDef;
use sqlite_items::Items;
use std::alloc::Global;

#[tactic(auto, unfolding(crate::specs::Reading::rule_element))]
fn read_rule_element(alloc: Global, tokens: &mut ScriptTokens<'_, '_>) -> Result<Element, ReadError>
    ensures { Reads (spec.rule_element tokens.old) result tokens.new }
{
    let rule = read_rule(alloc, tokens)?;
    Ok(Element::Rule(rule))
}

#[tactic(auto, unfolding(crate::specs::Reading::column_element))]
fn read_column_element(
    alloc: Global,
    tokens: &mut ScriptTokens<'_, '_>,
    enums: &[EnumDef],
) -> Result<Element, ReadError>
    requires { length enums.now ≤ most_enums }
    ensures { Reads (spec.column_element enums.now tokens.old) result tokens.new }
{
    let first = tokens.lexeme(alloc, Expected::Identifier)?;
    let kind = read_column_type(alloc, tokens, enums)?;
    let rules = read_column_rules(alloc, tokens)?;
    Ok(Element::Column(Column {
        name: Name {
            text: first.text,
            pos: first.pos,
        },
        kind,
        rules,
    }))
}

#[tactic(auto, unfolding(crate::specs::Reading::element))]
fn read_element(
    alloc: Global,
    tokens: &mut ScriptTokens<'_, '_>,
    enums: &[EnumDef],
) -> Result<Element, ReadError>
    requires { length enums.now ≤ most_enums }
    ensures { Reads (spec.element enums.now tokens.old) result tokens.new }
{
    if tokens.sees(Expected::TableRule) {
        return read_rule_element(alloc, tokens);
    }
    read_column_element(alloc, tokens, enums)
}

/// Elements with commas between.
fn read_elements(
    alloc: Global,
    tokens: &mut ScriptTokens<'_, '_>,
    enums: &[EnumDef],
) -> Result<Items<Element>, ReadError>
    requires { length enums.now ≤ most_enums }
    ensures { Reads (spec.elements enums.now tokens.old) result tokens.new }
{
    let mut found = Items::new(alloc);
    found.push(read_element(alloc, tokens, enums)?)?;
    for _turn in 0..tokens.left_at_most() {
        if !tokens.eat(Expected::Sign(b',')) {
            return Ok(found);
        }
        found.push(read_element(alloc, tokens, enums)?)?;
    }
    Ok(found)
}

#[tactic(auto, unfolding(crate::specs::Reading::not_exists))]
fn read_not_exists(
    alloc: Global,
    tokens: &mut ScriptTokens<'_, '_>,
) -> Result<(bool, Name), ReadError>
    ensures { Reads (spec.not_exists tokens.old) result tokens.new }
{
    tokens.expect(Expected::Word(Word::Not))?;
    tokens.expect(Expected::Word(Word::Exists))?;
    let table = read_name(alloc, tokens)?;
    Ok((true, table))
}

/// IF NOT EXISTS and a name, or a table of the name `if`.
#[tactic(auto, unfolding(crate::specs::Reading::if_not_exists))]
fn read_if_not_exists(
    alloc: Global,
    tokens: &mut ScriptTokens<'_, '_>,
) -> Result<(bool, Name), ReadError>
    ensures { Reads (spec.if_not_exists tokens.old) result tokens.new }
{
    let first = tokens.lexeme(alloc, Expected::Word(Word::If))?;
    if !tokens.sees(Expected::Word(Word::Not)) {
        let table = Name {
            text: first.text,
            pos: first.pos,
        };
        return Ok((false, table));
    }
    read_not_exists(alloc, tokens)
}

#[tactic(auto, unfolding(crate::specs::Reading::plain_name))]
fn read_plain_name(
    alloc: Global,
    tokens: &mut ScriptTokens<'_, '_>,
) -> Result<(bool, Name), ReadError>
    ensures { Reads (spec.plain_name tokens.old) result tokens.new }
{
    let table = read_name(alloc, tokens)?;
    Ok((false, table))
}

/// A new table's name, and whether a taken one is to have no effect.
fn read_new_name(
    alloc: Global,
    tokens: &mut ScriptTokens<'_, '_>,
) -> Result<(bool, Name), ReadError>
    ensures { Reads (spec.new_name tokens.old) result tokens.new }
{
    if tokens.sees(Expected::Word(Word::If)) {
        return read_if_not_exists(alloc, tokens);
    }
    read_plain_name(alloc, tokens)
}

/// A CREATE TABLE after CREATE.
#[tactic(auto, unfolding(crate::specs::Reading::create_table))]
pub(crate) fn read_create_table(
    alloc: Global,
    tokens: &mut ScriptTokens<'_, '_>,
    enums: &[EnumDef],
) -> Result<Statement, ReadError>
    requires { length enums.now ≤ most_enums }
    ensures { Reads (spec.create_table enums.now tokens.old) result tokens.new }
{
    tokens.expect(Expected::Word(Word::Table))?;
    let (unless_there, name) = read_new_name(alloc, tokens)?;
    tokens.expect(Expected::Sign(b'('))?;
    let elements = read_elements(alloc, tokens, enums)?;
    tokens.expect(Expected::Sign(b')'))?;
    Ok(Statement::Table(TableStatement {
        name,
        unless_there,
        elements,
    }))
}
