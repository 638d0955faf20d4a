//! Values as they are written, against the columns that they go into.

ghost use Rattle.std.specs.Prelude.{◌≡◌, ◌<◌, length, position, slice_get, IfSome, pos};
ghost use Rattle.std.specs.Option.{option_copied};
ghost use Rattle.std.specs.Str.{chars, bytes_eq};
ghost use Rattle.ddl_reader.specs.declared.script.Literal.TheVariants as literal;
ghost use Rattle.rel_model.specs.Tables.{greatest};
ghost use Rattle.rows_reader.specs.Cells as spec;
ghost use Rattle.rows_reader.specs.Rows.{value_at};
ghost use Rattle.rows_reader.specs.Faults.{fails};

use crate::numbers::{bigint_number, int_number};
use ddl_reader::{CompactText, Literal, RowText};
use pg_base::limits::MOST_TEXT_BYTES;
use pg_base::{ColumnDef, EnumDef, Kind, Text};
use sqlite_items::at;

/// What a value is looked at for.
#[derive(Clone, Copy)]
pub(crate) enum Check {
    /// Whether its kind is the column's.
    Kind,
    /// Whether it is a case of the column's enum.
    Case,
    /// Whether it is short enough.
    Length,
}

/// The value that a row gives the column at a place, DEFAULT where it doesn't name that column.
pub(crate) fn value_at<'a>(row: &'a RowText, place: usize, default: &'a Literal) -> &'a Literal
    requires { default.now ≡ literal.Default }
    ensures { result.now ≡ value_at row.now place }
{
    match row.columns.find(place) {
        Some(i) => row.cells.as_slice().get(i).unwrap_or(default),
        None => default,
    }
}

fn is_int(literal: &Literal) -> bool
    ensures { result ≡ spec.is_int literal.now }
{
    match literal {
        Literal::Number(text) => int_number(text).is_some(),
        Literal::Str(_) => false,
        Literal::True => false,
        Literal::False => false,
        Literal::Null => false,
        Literal::Default => false,
    }
}

fn is_bigint(literal: &Literal) -> bool
    ensures { result ≡ spec.is_bigint literal.now }
{
    match literal {
        Literal::Number(text) => bigint_number(text).is_some(),
        Literal::Str(_) => false,
        Literal::True => false,
        Literal::False => false,
        Literal::Null => false,
        Literal::Default => false,
    }
}

fn is_string(literal: &Literal) -> bool
    ensures { result ≡ spec.is_string literal.now }
{
    match literal {
        Literal::Number(_) => false,
        Literal::Str(_) => true,
        Literal::True => false,
        Literal::False => false,
        Literal::Null => false,
        Literal::Default => false,
    }
}

fn is_truth(literal: &Literal) -> bool
    ensures { result ≡ spec.is_truth literal.now }
{
    match literal {
        Literal::Number(_) => false,
        Literal::Str(_) => false,
        Literal::True => true,
        Literal::False => true,
        Literal::Null => false,
        Literal::Default => false,
    }
}

fn is_of_kind(kind: Kind, literal: &Literal) -> bool
    ensures { result ≡ spec.is_of_kind kind literal.now }
{
    match kind {
        Kind::Text => is_string(literal),
        Kind::Varchar(_) => is_string(literal),
        Kind::Int => is_int(literal),
        Kind::BigInt => is_bigint(literal),
        Kind::Bool => is_truth(literal),
        Kind::Enum(_) => is_string(literal),
    }
}

/// The greatest value that an identity of the kind gives.
fn greatest(kind: Kind) -> i64
    ensures { result ≡ pos (greatest kind) }
{
    match kind {
        Kind::Int => i32::MAX as i64,
        Kind::BigInt => i64::MAX,
        Kind::Text => 0,
        Kind::Varchar(_) => 0,
        Kind::Bool => 0,
        Kind::Enum(_) => 0,
    }
}

fn is_spent(column: &ColumnDef, counter: i64) -> bool
    ensures { result ≡ spec.is_spent column.now counter }
{
    column.identity && greatest(column.kind) <= counter
}

#[tactic(auto, unfolding(crate::specs::Cells::is_bad))]
fn is_bad(column: &ColumnDef, counter: i64, literal: &Literal) -> bool
    ensures { result ≡ spec.is_bad column.now counter literal.now }
{
    match literal {
        Literal::Number(_) => !is_of_kind(column.kind, literal),
        Literal::Str(_) => !is_of_kind(column.kind, literal),
        Literal::True => !is_of_kind(column.kind, literal),
        Literal::False => !is_of_kind(column.kind, literal),
        Literal::Null => false,
        Literal::Default => is_spent(column, counter),
    }
}

/// The place of a label among those of an enum.
fn place_of(cases: &[Text], label: &CompactText) -> Option<usize>
    ensures value { result ≡ position (bytes_eq label.now) cases.now }
    ensures within { IfSome result (λ place. place < length cases.now) }
{
    cases.iter().position(|case| label.bytes() == case.bytes())
}

/// The place of a label among those of the enum at a place.
pub(crate) fn case_of(enums: &[EnumDef], place: u32, label: &CompactText) -> Option<usize>
    ensures { result ≡ spec.case_of enums.now place label.now }
{
    match at(enums, place as usize) {
        Some(cases) => place_of(cases.cases.as_slice(), label),
        None => None,
    }
}

fn lacks_case(enums: &[EnumDef], kind: Kind, text: &CompactText) -> bool
    ensures { result ≡ spec.lacks_case enums.now kind text.now }
{
    match kind {
        Kind::Text => false,
        Kind::Varchar(_) => false,
        Kind::Int => false,
        Kind::BigInt => false,
        Kind::Bool => false,
        Kind::Enum(place) => !case_of(enums, place, text).is_some(),
    }
}

#[tactic(auto, unfolding(crate::specs::Cells::has_no_case))]
fn has_no_case(enums: &[EnumDef], column: &ColumnDef, literal: &Literal) -> bool
    ensures { result ≡ spec.has_no_case enums.now column.now literal.now }
{
    match literal {
        Literal::Number(_) => false,
        Literal::Str(text) => lacks_case(enums, column.kind, text),
        Literal::True => false,
        Literal::False => false,
        Literal::Null => false,
        Literal::Default => false,
    }
}

fn chars_in(text: &str) -> usize
    ensures { result ≡ length (chars text.now) }
{
    text.chars().count()
}

fn char_count(text: &CompactText) -> usize
    ensures { result ≡ length (chars text.now) }
{
    match str::from_utf8(text.bytes()) {
        Ok(characters) => chars_in(characters),
        Err(_) => unreachable!(),
    }
}

fn passes_length(kind: Kind, text: &CompactText) -> bool
    ensures { result ≡ spec.passes_length kind text.now }
{
    match kind {
        Kind::Text => text.bytes().len() > MOST_TEXT_BYTES,
        Kind::Varchar(most) => {
            text.bytes().len() > MOST_TEXT_BYTES || char_count(text) > most as usize
        }
        Kind::Int => false,
        Kind::BigInt => false,
        Kind::Bool => false,
        Kind::Enum(_) => false,
    }
}

#[tactic(auto, unfolding(crate::specs::Cells::is_too_long))]
fn is_too_long(column: &ColumnDef, literal: &Literal) -> bool
    ensures { result ≡ spec.is_too_long column.now literal.now }
{
    match literal {
        Literal::Number(_) => false,
        Literal::Str(text) => passes_length(column.kind, text),
        Literal::True => false,
        Literal::False => false,
        Literal::Null => false,
        Literal::Default => false,
    }
}

/// Whether the value fails the check.
fn fails(check: Check, enums: &[EnumDef], column: &ColumnDef, counter: i64, value: &Literal) -> bool
    ensures { result ≡ fails check enums.now
        (record { column = column.now; counter = counter; value = value.now }) }
{
    match check {
        Check::Kind => is_bad(column, counter, value),
        Check::Case => has_no_case(enums, column, value),
        Check::Length => is_too_long(column, value),
    }
}

/// Whether the value that a row gives the column at a place fails the check.
pub(crate) fn fails_at(
    check: Check,
    enums: &[EnumDef],
    column: &ColumnDef,
    counter: i64,
    row: &RowText,
    place: usize,
) -> bool
    ensures { result ≡ fails check enums.now
        (record { column = column.now; counter = counter; value = value_at row.now place }) }
{
    let default = Literal::Default;
    fails(
        check,
        enums,
        column,
        counter,
        value_at(row, place, &default),
    )
}
