//! Columns from their parts.

ghost use Rattle.std.specs.Prelude.{◌≡◌, ◌<◌, ◌≤◌, length, map, find, not, option_map, slice_get, IfOk};
ghost use Rattle.std.specs.Option.{option_copied};
ghost use Rattle.std.specs.Str.{chars};
ghost use Rattle.pg_base.specs.Catalog.{IsValidEnum};
ghost use Rattle.pg_base.specs.Lists.{Each};
ghost use Rattle.pg_base.specs.Limits.{most_cases};
ghost use Rattle.pg_catalog.specs.Names.{place_of};
ghost use Rattle.pg_catalog.specs.Columns as spec;

use crate::{ColumnPart, Literal};
use pg_base::limits::MOST_TEXT_BYTES;
use pg_base::{Cell, ColumnDef, EnumDef, Kind, Memory, Tags, Text};
use sqlite_items::{Items, at};
use std::alloc::Global;

fn chars_in(text: &str) -> usize
    ensures { result ≡ length (chars text.now) }
{
    text.chars().count()
}

fn char_count(text: &Text) -> usize
    ensures { result ≡ length (chars text.now) }
{
    match str::from_utf8(text.bytes()) {
        Ok(characters) => chars_in(characters),
        Err(_) => unreachable!(),
    }
}

fn is_text(text: &Text, most: usize) -> bool
    ensures { result ≡ spec.is_text most text.now }
{
    text.bytes().len() <= MOST_TEXT_BYTES && char_count(text) <= most
}

/// The place of a label among those of an enum.
fn case_place(cases: &[Text], label: &Text) -> Option<usize>
    ensures { result ≡ place_of cases.now label.now }
{
    cases.iter().position(|case| *label == *case)
}

fn text_cell(alloc: Global, most: usize, literal: &Literal) -> Result<Option<Cell>, Memory>
    ensures { IfOk result (λ cell. cell ≡ spec.text_cell most literal.now) }
{
    let Literal::Text(text) = literal else {
        return Ok(None);
    };
    if is_text(text, most) {
        let text = text.copy(alloc)?;
        return Ok(Some(Cell::Text(text)));
    }
    Ok(None)
}

fn is_between(low: i64, high: i64, number: i64) -> bool
    ensures { result ≡ spec.is_between low high number }
{
    low <= number && number <= high
}

fn int_cell(low: i64, high: i64, literal: &Literal) -> Option<Cell>
    ensures { result ≡ spec.int_cell low high literal.now }
{
    let Literal::Int(number) = literal else {
        return None;
    };
    if is_between(low, high, *number) {
        return Some(Cell::Int(*number));
    }
    None
}

fn bool_cell(literal: &Literal) -> Option<Cell>
    ensures { result ≡ spec.bool_cell literal.now }
{
    let Literal::Bool(value) = literal else {
        return None;
    };
    Some(Cell::Bool(*value))
}

fn case_cell(cases: &EnumDef, literal: &Literal) -> Option<Cell>
    requires { length cases.now.cases ≤ most_cases }
    ensures { result ≡ spec.case_cell cases.now literal.now }
{
    let Literal::Text(label) = literal else {
        return None;
    };
    match case_place(cases.cases.as_slice(), label) {
        Some(place) => Some(Cell::EnumCase(place as u32)),
        None => None,
    }
}

fn enum_cell(enums: &[EnumDef], place: u32, literal: &Literal) -> Option<Cell>
    requires { Each IsValidEnum enums.now }
    ensures { result ≡ spec.enum_cell enums.now place literal.now }
{
    match at(enums, place as usize) {
        Some(cases) => case_cell(cases, literal),
        None => None,
    }
}

/// The cell that a literal is in a column of the kind, and none where it is no such cell.
fn cell_of(
    alloc: Global,
    enums: &[EnumDef],
    kind: Kind,
    literal: &Literal,
) -> Result<Option<Cell>, Memory>
    requires { Each IsValidEnum enums.now }
    ensures { IfOk result (λ cell. cell ≡ spec.cell_of enums.now kind literal.now) }
{
    match kind {
        Kind::Text => text_cell(alloc, MOST_TEXT_BYTES, literal),
        Kind::Varchar(most) => text_cell(alloc, most as usize, literal),
        Kind::Int => Ok(int_cell(i32::MIN as i64, i32::MAX as i64, literal)),
        Kind::BigInt => Ok(int_cell(i64::MIN, i64::MAX, literal)),
        Kind::Bool => Ok(bool_cell(literal)),
        Kind::Enum(place) => Ok(enum_cell(enums, place, literal)),
    }
}

fn is_kind(enums: &[EnumDef], kind: Kind) -> bool
    ensures { result ≡ spec.is_kind enums.now kind }
{
    match kind {
        Kind::Text => true,
        Kind::Varchar(most) => 1 <= most && most as usize <= MOST_TEXT_BYTES,
        Kind::Int => true,
        Kind::BigInt => true,
        Kind::Bool => true,
        Kind::Enum(place) => (place as usize) < enums.len(),
    }
}

fn fits_identity(kind: Kind, identity: bool) -> bool
    ensures { result ≡ spec.fits_identity kind identity }
{
    if !identity {
        return true;
    }
    match kind {
        Kind::Text => false,
        Kind::Varchar(_) => false,
        Kind::Int => true,
        Kind::BigInt => true,
        Kind::Bool => false,
        Kind::Enum(_) => false,
    }
}

fn has_default_of_kind(
    alloc: Global,
    enums: &[EnumDef],
    column: &ColumnPart,
) -> Result<bool, Memory>
    requires { Each IsValidEnum enums.now }
    ensures { IfOk result
        (λ holds. holds ≡ spec.has_default_of_kind enums.now column.now.kind column.now.default) }
{
    match &column.default {
        None => Ok(true),
        Some(Literal::Null) => Ok(true),
        Some(literal) => {
            let cell = cell_of(alloc, enums, column.kind, literal)?;
            Ok(cell.is_some())
        }
    }
}

/// Whether the column's kind stands, and its DEFAULT and its identity are of it.
fn is_sound(alloc: Global, enums: &[EnumDef], column: &ColumnPart) -> Result<bool, Memory>
    requires { Each IsValidEnum enums.now }
    ensures { IfOk result (λ sound. sound ≡ spec.is_sound enums.now column.now) }
{
    if !is_kind(enums, column.kind) {
        return Ok(false);
    }
    if !fits_identity(column.kind, column.identity) {
        return Ok(false);
    }
    has_default_of_kind(alloc, enums, column)
}

/// The name of the first column that isn't.
pub(crate) fn first_unsound<'a>(
    alloc: Global,
    enums: &[EnumDef],
    columns: &'a [ColumnPart],
) -> Result<Option<&'a Text>, Memory>
    requires { Each IsValidEnum enums.now }
    ensures { IfOk result (λ found. option_copied found
        ≡ option_map (λ column. column.name)
        (find (λ column. not (spec.is_sound enums.now column)) columns.now)) }
{
    for column in columns {
        let sound = is_sound(alloc, enums, column)?;
        if !sound {
            return Ok(Some(&column.name));
        }
    }
    Ok(None)
}

fn default_of(alloc: Global, enums: &[EnumDef], column: &ColumnPart) -> Result<Option<Cell>, Memory>
    requires { Each IsValidEnum enums.now }
    ensures { IfOk result
        (λ cell. cell ≡ spec.default_of enums.now column.now.kind column.now.default) }
{
    match &column.default {
        None => Ok(None),
        Some(literal) => cell_of(alloc, enums, column.kind, literal),
    }
}

fn column_of(alloc: Global, enums: &[EnumDef], column: &ColumnPart) -> Result<ColumnDef, Memory>
    requires { Each IsValidEnum enums.now }
    ensures { IfOk result (λ made. made ≡ spec.column_of enums.now column.now) }
{
    let name = column.name.copy(alloc)?;
    let default = default_of(alloc, enums, column)?;
    Ok(ColumnDef {
        name,
        kind: column.kind,
        not_null: column.not_null,
        default,
        identity: column.identity,
        tags: Tags::none(),
    })
}

/// The columns of a new table.
pub(crate) fn columns_of(
    alloc: Global,
    enums: &[EnumDef],
    columns: &[ColumnPart],
) -> Result<Items<ColumnDef>, Memory>
    requires { Each IsValidEnum enums.now }
    ensures { IfOk result (λ made. made ≡ map (spec.column_of enums.now) columns.now) }
{
    let mut made = Items::new(alloc);
    for column in columns {
        let next = column_of(alloc, enums, column)?;
        made.push(next)?;
    }
    Ok(made)
}

/// The names of the columns.
pub(crate) fn names_of(alloc: Global, columns: &[ColumnPart]) -> Result<Items<Text>, Memory>
    ensures { IfOk result (λ names. names ≡ map (λ column. column.name) columns.now) }
{
    let mut names = Items::new(alloc);
    for column in columns {
        names.push(column.name.copy(alloc)?)?;
    }
    Ok(names)
}
