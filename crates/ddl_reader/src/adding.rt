//! The catalog after a statement.

ghost use Rattle.std.specs.Prelude.{◌≡◌, [], ◌∷◌, IfOk};
ghost use Rattle.ddl_reader.specs.Parts as parts;
ghost use Rattle.ddl_reader.specs.Script as spec;

use crate::fault::ScriptFault;
use crate::parts::{enum_part, rule_part, table_parts};
use crate::statement::{CommentStatement, Statement, TableStatement, Target};
use pg_base::{Memory, Pos, Tags, Text};
use pg_catalog::{BuildError, CommentPart, Commented, Growing, Part};
use smart_tags::read_tags;
use std::alloc::Global;

/// The catalog with one part more.
fn add_part(catalog: Growing, alloc: Global, part: &Part) -> Result<Growing, ScriptFault>
    ensures { spec.Answers (spec.with_parts catalog (part.now ∷ [])) result }
{
    match catalog.add(alloc, part) {
        Ok(grown) => Ok(grown),
        Err(BuildError::Fault(fault)) => Err(ScriptFault::Catalog(fault)),
        Err(BuildError::Memory) => Err(ScriptFault::Memory),
    }
}

/// The catalog with these parts more.
fn add_parts(catalog: Growing, alloc: Global, parts: &[Part]) -> Result<Growing, ScriptFault>
    ensures { spec.Answers (spec.with_parts catalog parts.now) result }
{
    let mut grown = catalog;
    for part in parts {
        grown = add_part(grown, alloc, part)?;
    }
    Ok(grown)
}

/// Whether IF NOT EXISTS stands before a name that is taken.
fn has_no_effect(catalog: &Growing, table: &TableStatement) -> bool
    ensures { result ≡ spec.has_no_effect catalog.now table.now }
{
    table.unless_there && catalog.has_name(&table.name.text)
}

fn add_table(
    catalog: Growing,
    alloc: Global,
    table: &TableStatement,
) -> Result<Growing, ScriptFault>
    ensures { spec.Answers (spec.with_table catalog table.now) result }
{
    if has_no_effect(&catalog, table) {
        return Ok(catalog);
    }
    let parts = table_parts(alloc, table)?;
    add_parts(catalog, alloc, parts.as_slice())
}

fn commented_by(alloc: Global, target: &Target) -> Result<Commented, Memory>
    ensures { IfOk result (λ on. on ≡ parts.commented_by target.now) }
{
    match target {
        Target::Table(name) => {
            let table = name.text.copy(alloc)?;
            Ok(Commented::Table(table))
        }
        Target::Column(table, column) => {
            let table = table.text.copy(alloc)?;
            let column = column.copy(alloc)?;
            Ok(Commented::Column(table, column))
        }
        Target::Constraint(name, table) => {
            let table = table.copy(alloc)?;
            let name = name.text.copy(alloc)?;
            Ok(Commented::Constraint(table, name))
        }
        Target::Enum(name) => {
            let name = name.text.copy(alloc)?;
            Ok(Commented::Enum(name))
        }
    }
}

/// Where a comment's target stands.
fn target_pos(target: &Target) -> Pos
    ensures { result ≡ parts.target_pos target.now }
{
    match target {
        Target::Table(name) => name.pos,
        Target::Column(table, _) => table.pos,
        Target::Constraint(name, _) => name.pos,
        Target::Enum(name) => name.pos,
    }
}

/// What it is named.
fn target_name(target: &Target) -> &Text
    ensures { result.now ≡ parts.target_name target.now }
{
    match target {
        Target::Table(name) => &name.text,
        Target::Column(_, column) => column,
        Target::Constraint(name, _) => &name.text,
        Target::Enum(name) => &name.text,
    }
}

/// The tags of a comment; NULL has those of no comment.
fn tags_by(alloc: Global, text: &Option<Text>) -> Result<Tags, Memory>
    ensures { IfOk result (λ tags. tags ≡ parts.tags_by text.now) }
{
    match text {
        None => Ok(Tags::none()),
        Some(text) => read_tags(alloc, text),
    }
}

fn add_comment(
    catalog: Growing,
    alloc: Global,
    comment: &CommentStatement,
) -> Result<Growing, ScriptFault>
    ensures { spec.Answers (spec.with_comment catalog comment.now) result }
{
    let on = commented_by(alloc, &comment.target)?;
    let pos = target_pos(&comment.target);
    if !catalog.has_target(&on) {
        let name = target_name(&comment.target).copy(alloc)?;
        return Err(ScriptFault::NothingToComment(pos, name));
    }
    let tags = tags_by(alloc, &comment.text)?;
    add_part(
        catalog,
        alloc,
        &Part::Comment(CommentPart { pos, on, tags }),
    )
}

/// The catalog after a statement, or the first fault of its parts.
pub(crate) fn add_statement(
    catalog: Growing,
    alloc: Global,
    statement: &Statement,
) -> Result<Growing, ScriptFault>
    ensures { spec.Answers (spec.after_statement catalog statement.now) result }
{
    match statement {
        Statement::Nothing => Ok(catalog),
        Statement::Enum(made) => {
            let part = enum_part(alloc, made)?;
            add_part(catalog, alloc, &part)
        }
        Statement::Table(table) => add_table(catalog, alloc, table),
        Statement::Rule(added) => {
            let part = rule_part(alloc, &added.table.text, &added.rule)?;
            add_part(catalog, alloc, &part)
        }
        Statement::Comment(comment) => add_comment(catalog, alloc, comment),
        Statement::Insert(_) => Ok(catalog),
    }
}
