//! What a statement adds to the catalog so far, part after part.

ghost use Rattle.std.specs.Prelude.{◌≡◌, ◌++◌, ◌∷◌, [], ◌||◌, option_map, IfOk, OnOk};
ghost use Rattle.std.specs.Option.{option_copied};
ghost use Rattle.pg_catalog.specs.declared.part.Part.TheVariants as variant;
ghost use Rattle.ddl_reader.specs.Parts as spec;

use crate::constants::constant_of;
use crate::copies::{copy_name, copy_optional_texts, copy_texts, single};
use crate::script::Literal;
use crate::statement::{
    Column, ColumnRule, ColumnRuleKind, Element, EnumStatement, Reference, Rule, RuleKind,
    TableStatement,
};
use pg_base::{Memory, Pos, Text};
use pg_catalog::{ColumnPart, EnumPart, KeyPart, LinkPart, Literal as Constant, Part, TablePart};
use sqlite_items::Items;
use std::alloc::Global;

fn says_not_null(what: &ColumnRuleKind) -> bool
    ensures { result ≡ spec.says_not_null what.now }
{
    match what {
        ColumnRuleKind::NotNull => true,
        ColumnRuleKind::Null => false,
        ColumnRuleKind::Primary => false,
        ColumnRuleKind::Unique => false,
        ColumnRuleKind::Default(_) => false,
        ColumnRuleKind::Refers(_) => false,
        ColumnRuleKind::Identity => true,
    }
}

fn says_identity(what: &ColumnRuleKind) -> bool
    ensures { result ≡ spec.says_identity what.now }
{
    match what {
        ColumnRuleKind::NotNull => false,
        ColumnRuleKind::Null => false,
        ColumnRuleKind::Primary => false,
        ColumnRuleKind::Unique => false,
        ColumnRuleKind::Default(_) => false,
        ColumnRuleKind::Refers(_) => false,
        ColumnRuleKind::Identity => true,
    }
}

fn some_not_null(rules: &[ColumnRule]) -> bool
    ensures { result ≡ spec.some_not_null rules.now }
{
    rules.iter().any(|rule| says_not_null(&rule.what))
}

fn some_identity(rules: &[ColumnRule]) -> bool
    ensures { result ≡ spec.some_identity rules.now }
{
    rules.iter().any(|rule| says_identity(&rule.what))
}

/// The rule's literal, where it is a DEFAULT, and else the one before.
fn default_by<'a>(before: Option<&'a Literal>, what: &'a ColumnRuleKind) -> Option<&'a Literal>
    ensures { option_copied result ≡ spec.default_by (option_copied before.entry) what.entry.now }
{
    match what {
        ColumnRuleKind::NotNull => before,
        ColumnRuleKind::Null => before,
        ColumnRuleKind::Primary => before,
        ColumnRuleKind::Unique => before,
        ColumnRuleKind::Default(literal) => Some(literal),
        ColumnRuleKind::Refers(_) => before,
        ColumnRuleKind::Identity => before,
    }
}

/// The literal after the last DEFAULT.
fn last_default(rules: &[ColumnRule]) -> Option<&Literal>
    ensures { option_copied result ≡ spec.last_default rules.now }
{
    let mut last = None;
    for rule in rules {
        last = default_by(last, &rule.what);
    }
    last
}

fn constant_by(alloc: Global, rules: &[ColumnRule]) -> Result<Option<Constant>, Memory>
    ensures { IfOk result (λ constant. constant
        ≡ option_map spec.constant_of (spec.last_default rules.now)) }
{
    match last_default(rules) {
        None => Ok(None),
        Some(literal) => {
            let constant = constant_of(alloc, literal)?;
            Ok(Some(constant))
        }
    }
}

/// A column, to which a serial type and GENERATED give NOT NULL and identity.
fn column_part(alloc: Global, column: &Column) -> Result<ColumnPart, Memory>
    ensures { IfOk result (λ part. part ≡ spec.column_part column.now) }
{
    let rules = column.rules.as_slice();
    let name = column.name.text.copy(alloc)?;
    let default = constant_by(alloc, rules)?;
    Ok(ColumnPart {
        name,
        kind: column.kind.kind,
        not_null: column.kind.serial || some_not_null(rules),
        default,
        identity: column.kind.serial || some_identity(rules),
    })
}

fn push_column(
    alloc: Global,
    columns: &mut Items<ColumnPart>,
    element: &Element,
) -> Result<(), Memory>
    ensures { OnOk result (columns.new ≡ columns.old ++ spec.column_in element.now) }
{
    match element {
        Element::Column(column) => {
            let part = column_part(alloc, column)?;
            columns.push(part)?;
            Ok(())
        }
        Element::Rule(_) => Ok(()),
    }
}

fn columns_in(alloc: Global, elements: &[Element]) -> Result<Items<ColumnPart>, Memory>
    ensures { IfOk result (λ columns. columns ≡ spec.columns_in elements.now) }
{
    let mut columns = Items::new(alloc);
    for element in elements {
        push_column(alloc, &mut columns, element)?;
    }
    Ok(columns)
}

fn key_part(
    alloc: Global,
    table: &Text,
    pos: Pos,
    name: &Option<Text>,
    columns: Items<Text>,
    primary: bool,
) -> Result<Part, Memory>
    ensures { IfOk result (λ part. part
        ≡ spec.key_part table.now pos name.now columns primary) }
{
    let table = table.copy(alloc)?;
    let name = copy_name(alloc, name)?;
    Ok(Part::Key(KeyPart {
        pos,
        table,
        name,
        columns,
        primary,
    }))
}

fn link_part(
    alloc: Global,
    table: &Text,
    pos: Pos,
    name: &Option<Text>,
    columns: Items<Text>,
    target: &Reference,
) -> Result<Part, Memory>
    ensures { IfOk result (λ part. part
        ≡ spec.link_part table.now pos name.now columns target.now) }
{
    let table = table.copy(alloc)?;
    let name = copy_name(alloc, name)?;
    let target_table = target.table.copy(alloc)?;
    let target_columns = copy_optional_texts(alloc, &target.columns)?;
    Ok(Part::Link(LinkPart {
        pos,
        table,
        name,
        columns,
        target: target_table,
        target_columns,
    }))
}

/// Puts the key or link that a rule of a column adds after the parts.
fn push_column_rule(
    alloc: Global,
    parts: &mut Items<Part>,
    table: &Text,
    column: &Text,
    rule: &ColumnRule,
) -> Result<(), Memory>
    ensures { OnOk result
        (parts.new ≡ parts.old ++ spec.rule_parts table.now column.now rule.now) }
{
    match &rule.what {
        ColumnRuleKind::NotNull => Ok(()),
        ColumnRuleKind::Null => Ok(()),
        ColumnRuleKind::Primary => {
            let columns = single(alloc, column)?;
            let part = key_part(alloc, table, rule.pos, &rule.name, columns, true)?;
            parts.push(part)?;
            Ok(())
        }
        ColumnRuleKind::Unique => {
            let columns = single(alloc, column)?;
            let part = key_part(alloc, table, rule.pos, &rule.name, columns, false)?;
            parts.push(part)?;
            Ok(())
        }
        ColumnRuleKind::Default(_) => Ok(()),
        ColumnRuleKind::Refers(target) => {
            let columns = single(alloc, column)?;
            let part = link_part(alloc, table, rule.pos, &rule.name, columns, target)?;
            parts.push(part)?;
            Ok(())
        }
        ColumnRuleKind::Identity => Ok(()),
    }
}

/// Puts the keys and links of a column after the parts.
fn push_column_rules(
    alloc: Global,
    parts: &mut Items<Part>,
    table: &Text,
    column: &Text,
    rules: &[ColumnRule],
) -> Result<(), Memory>
    ensures { OnOk result
        (parts.new ≡ parts.old ++ spec.column_parts table.now column.now rules.now) }
{
    for rule in rules {
        push_column_rule(alloc, parts, table, column, rule)?;
    }
    Ok(())
}

/// The key or link of a rule of a table.
pub(crate) fn rule_part(alloc: Global, table: &Text, rule: &Rule) -> Result<Part, Memory>
    ensures { IfOk result (λ part. part ≡ spec.rule_part table.now rule.now) }
{
    match &rule.what {
        RuleKind::Primary(columns) => {
            let columns = copy_texts(alloc, columns.as_slice())?;
            let part = key_part(alloc, table, rule.pos, &rule.name, columns, true)?;
            Ok(part)
        }
        RuleKind::Unique(columns) => {
            let columns = copy_texts(alloc, columns.as_slice())?;
            let part = key_part(alloc, table, rule.pos, &rule.name, columns, false)?;
            Ok(part)
        }
        RuleKind::Foreign(columns, target) => {
            let columns = copy_texts(alloc, columns.as_slice())?;
            let part = link_part(alloc, table, rule.pos, &rule.name, columns, target)?;
            Ok(part)
        }
    }
}

/// Puts the keys and links of an element after the parts.
fn push_element(
    alloc: Global,
    parts: &mut Items<Part>,
    table: &Text,
    element: &Element,
) -> Result<(), Memory>
    ensures { OnOk result
        (parts.new ≡ parts.old ++ spec.constraints_of table.now element.now) }
{
    match element {
        Element::Column(column) => {
            let rules = column.rules.as_slice();
            push_column_rules(alloc, parts, table, &column.name.text, rules)?;
            Ok(())
        }
        Element::Rule(rule) => {
            let part = rule_part(alloc, table, rule)?;
            parts.push(part)?;
            Ok(())
        }
    }
}

/// Puts the keys and links of the elements after the parts.
fn push_elements(
    alloc: Global,
    parts: &mut Items<Part>,
    table: &Text,
    elements: &[Element],
) -> Result<(), Memory>
    ensures { OnOk result
        (parts.new ≡ parts.old ++ spec.constraints_in table.now elements.now) }
{
    for element in elements {
        push_element(alloc, parts, table, element)?;
    }
    Ok(())
}

fn table_part(alloc: Global, table: &TableStatement) -> Result<Part, Memory>
    ensures { IfOk result (λ part. part ≡ spec.table_part table.now) }
{
    let name = table.name.text.copy(alloc)?;
    let columns = columns_in(alloc, table.elements.as_slice())?;
    Ok(Part::Table(TablePart {
        pos: table.name.pos,
        name,
        columns,
    }))
}

/// The table with its columns, and then its keys and links in the order of its elements.
pub(crate) fn table_parts(alloc: Global, table: &TableStatement) -> Result<Items<Part>, Memory>
    ensures { IfOk result (λ parts. parts ≡ spec.table_parts table.now) }
{
    let mut parts = Items::new(alloc);
    let part = table_part(alloc, table)?;
    parts.push(part)?;
    push_elements(
        alloc,
        &mut parts,
        &table.name.text,
        table.elements.as_slice(),
    )?;
    Ok(parts)
}

/// The enum type of a CREATE TYPE.
pub(crate) fn enum_part(alloc: Global, statement: &EnumStatement) -> Result<Part, Memory>
    ensures { IfOk result (λ part. part ≡ spec.enum_part statement.now) }
{
    let name = statement.name.text.copy(alloc)?;
    let cases = copy_texts(alloc, statement.labels.as_slice())?;
    Ok(Part::Enum(EnumPart {
        pos: statement.name.pos,
        name,
        cases,
    }))
}
