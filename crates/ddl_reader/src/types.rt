//! Types of columns.

ghost use Rattle.std.specs.Prelude.{◌≡◌, ◌<◌, ◌≤◌, length, position, true, IfSome};
ghost use Rattle.std.specs.Str.{bytes_eq};
ghost use Rattle.pg_base.specs.Limits.{most_enums};
ghost use Rattle.parse_rules.specs.Parser.{Reads};
ghost use Rattle.ddl_reader.specs.Reading as spec;
ghost use Rattle.ddl_reader.specs.Trees as trees;

use crate::lexeme::{Expected, LexemeKind, is_built_in, is_identifier, is_number, is_word};
use crate::names::is_public;
use crate::statement::ColumnType;
use crate::tokens::ScriptTokens;
use crate::word::Word;
use parse_rules::{ReadError, TokenStream};
use pg_base::limits::MOST_TEXT_BYTES;
use pg_base::{EnumDef, Kind, Text};
use std::alloc::Global;

/// A number, or one of those that are too great for a length, with one more digit.
fn longer(number: u32, digit: u8) -> u32
    requires { number ≤ trees.too_great }
    ensures value { result ≡ trees.longer number digit }
    ensures small { result ≤ trees.too_great }
{
    let next = 10 * number + digit.saturating_sub(b'0') as u32;
    next.min(TOO_GREAT)
}

/// The number that the digits spell, up to the first that is too great for a length.
fn length_of(digits: &[u8]) -> u32
    ensures { result ≡ trees.decimal digits.now }
{
    let mut number = 0u32;
    for digit in digits {
        number = longer(number, *digit);
    }
    number
}

/// Whether the digits spell what a length may be.
fn is_length(number: u32) -> bool
    ensures { result ≡ trees.is_length_number number }
{
    number >= 1 && number < TOO_GREAT
}

/// Whether a lexeme of this kind and text is a length.
fn is_length_of(kind: LexemeKind, text: &Text) -> bool
    ensures { result ≡ trees.is_length_of kind text.now }
{
    is_number(kind) && is_length(length_of(text.bytes()))
}

/// A text of at most as many characters as the digits say.
fn length_type(digits: &Text) -> ColumnType
    requires { trees.is_length_text digits.now ≡ true }
    ensures { result ≡ trees.length_type digits.now }
{
    plain_type(Kind::Varchar(length_of(digits.bytes())))
}

fn plain_type(kind: Kind) -> ColumnType
    ensures { result ≡ trees.plain_type kind }
{
    ColumnType {
        kind,
        serial: false,
    }
}

fn serial_type(kind: Kind) -> ColumnType
    ensures { result ≡ trees.serial_type kind }
{
    ColumnType { kind, serial: true }
}

/// The least number that is too great for a length.
const TOO_GREAT: u32 = MOST_TEXT_BYTES as u32 + 1;

/// The number between the parentheses.
#[tactic(auto, unfolding(crate::specs::Reading::length_number, parse_rules::specs::Parser::expect))]
fn read_length_number(
    alloc: Global,
    tokens: &mut ScriptTokens<'_, '_>,
) -> Result<ColumnType, ReadError>
    ensures { Reads (spec.length_number tokens.old) result tokens.new }
{
    if let Some(token) = tokens.peek() {
        let text = token.text(alloc)?;
        if is_length_of(token.kind(), &text) {
            tokens.skip();
            return Ok(length_type(&text));
        }
    }
    Err(ReadError::Unexpected)
}

#[tactic(auto, unfolding(crate::specs::Reading::type_length))]
fn read_type_length(
    alloc: Global,
    tokens: &mut ScriptTokens<'_, '_>,
) -> Result<ColumnType, ReadError>
    ensures { Reads (spec.type_length tokens.old) result tokens.new }
{
    tokens.expect(Expected::Sign(b'('))?;
    let found = read_length_number(alloc, tokens)?;
    tokens.expect(Expected::Sign(b')'))?;
    Ok(found)
}

/// A length, if one stands there.
fn read_optional_length(
    alloc: Global,
    tokens: &mut ScriptTokens<'_, '_>,
) -> Result<ColumnType, ReadError>
    ensures { Reads (spec.optional_length tokens.old) result tokens.new }
{
    if !tokens.sees(Expected::Sign(b'(')) {
        return Ok(plain_type(Kind::Text));
    }
    read_type_length(alloc, tokens)
}

#[tactic(auto, unfolding(crate::specs::Reading::varchar))]
fn read_varchar(alloc: Global, tokens: &mut ScriptTokens<'_, '_>) -> Result<ColumnType, ReadError>
    ensures { Reads (spec.varchar tokens.old) result tokens.new }
{
    tokens.expect(Expected::Word(Word::Varchar))?;
    read_optional_length(alloc, tokens)
}

#[tactic(auto, unfolding(crate::specs::Reading::varying))]
fn read_varying(alloc: Global, tokens: &mut ScriptTokens<'_, '_>) -> Result<ColumnType, ReadError>
    ensures { Reads (spec.varying tokens.old) result tokens.new }
{
    tokens.expect(Expected::Word(Word::Varying))?;
    read_optional_length(alloc, tokens)
}

/// Whether an enum of these has the name.
fn stands_in(enums: &[EnumDef], name: &Text) -> bool
    ensures { result ≡ trees.stands_in enums.now name.now }
{
    enums.iter().any(|e| *name == e.name)
}

/// The place of the enum of this name.
fn enum_at(enums: &[EnumDef], name: &Text) -> Option<usize>
    ensures value { result ≡ position (λ e. bytes_eq name.now e.name) enums.now }
    ensures within { IfSome result (λ at. at < length enums.now) }
{
    enums.iter().position(|e| *name == e.name)
}

/// The place of the enum of this name, where one stands.
fn enum_place(enums: &[EnumDef], name: &Text) -> usize
    ensures value { result ≡ trees.place_in enums.now name.now }
    ensures small { result ≤ length enums.now }
{
    match enum_at(enums, name) {
        Some(place) => place,
        None => 0,
    }
}

/// The type of the enum of this name.
fn enum_type(enums: &[EnumDef], name: &Text) -> ColumnType
    requires { length enums.now ≤ most_enums }
    ensures { result ≡ trees.enum_type enums.now name.now }
{
    plain_type(Kind::Enum(enum_place(enums, name) as u32))
}

/// CHARACTER VARYING, or an enum of this name.
#[tactic(auto, unfolding(crate::specs::Reading::character))]
fn read_character(
    alloc: Global,
    tokens: &mut ScriptTokens<'_, '_>,
    enums: &[EnumDef],
) -> Result<ColumnType, ReadError>
    requires { length enums.now ≤ most_enums }
    ensures { Reads (spec.character enums.now tokens.old) result tokens.new }
{
    let first = tokens.lexeme(alloc, Expected::Word(Word::Character))?;
    if !stands_in(enums, &first.text) {
        return read_varying(alloc, tokens);
    }
    if !tokens.sees(Expected::Word(Word::Varying)) {
        return Ok(enum_type(enums, &first.text));
    }
    read_varying(alloc, tokens)
}

/// What a built-in type of one word is.
fn built_in_type(kind: LexemeKind) -> ColumnType
    ensures { result ≡ trees.built_in_type kind }
{
    if is_word(kind, Word::TextType) {
        return plain_type(Kind::Text);
    }
    if is_word(kind, Word::IntegerType) {
        return plain_type(Kind::Int);
    }
    if is_word(kind, Word::BigIntType) {
        return plain_type(Kind::BigInt);
    }
    if is_word(kind, Word::SerialType) {
        return serial_type(Kind::Int);
    }
    if is_word(kind, Word::BigSerialType) {
        return serial_type(Kind::BigInt);
    }
    plain_type(Kind::Bool)
}

/// An enum's name.
#[tactic(auto, unfolding(crate::specs::Reading::plain_enum, parse_rules::specs::Parser::expect))]
fn read_plain_enum(
    alloc: Global,
    tokens: &mut ScriptTokens<'_, '_>,
    enums: &[EnumDef],
) -> Result<ColumnType, ReadError>
    requires { length enums.now ≤ most_enums }
    ensures { Reads (spec.plain_enum enums.now tokens.old) result tokens.new }
{
    if let Some(token) = tokens.peek() {
        let text = token.text(alloc)?;
        if is_enum(enums, token.kind(), &text) {
            tokens.skip();
            return Ok(enum_type(enums, &text));
        }
    }
    Err(ReadError::Unexpected)
}

/// Whether a lexeme of this kind and text is an enum's name.
fn is_enum(enums: &[EnumDef], kind: LexemeKind, text: &Text) -> bool
    ensures { result ≡ trees.is_enum_of enums.now kind text.now }
{
    is_identifier(kind) && stands_in(enums, text)
}

/// Whether the text is the schema, after which an enum may follow.
fn is_schema_of(enums: &[EnumDef], text: &Text) -> bool
    ensures { result ≡ trees.is_schema_of enums.now text.now }
{
    is_public(text) && has_some(enums)
}

fn has_some(enums: &[EnumDef]) -> bool
    ensures { result ≡ trees.has_some enums.now }
{
    match enums {
        [] => false,
        [_, ..] => true,
    }
}

/// Whether a lexeme of this kind and text is an enum's name, or the schema before it.
fn begins_enum(enums: &[EnumDef], kind: LexemeKind, text: &Text) -> bool
    ensures { result ≡ trees.begins_enum_of enums.now kind text.now }
{
    is_identifier(kind) && (is_schema_of(enums, text) || stands_in(enums, text))
}

/// Whether it is a type's first word: a built-in type of one word, an enum, or the schema before it.
fn is_known_type(enums: &[EnumDef], kind: LexemeKind, text: &Text) -> bool
    ensures { result ≡ trees.is_known_type_of enums.now kind text.now }
{
    is_built_in(kind) || begins_enum(enums, kind, text)
}

#[tactic(auto, unfolding(crate::specs::Reading::qualified_enum))]
fn read_qualified_enum(
    alloc: Global,
    tokens: &mut ScriptTokens<'_, '_>,
    enums: &[EnumDef],
) -> Result<ColumnType, ReadError>
    requires { length enums.now ≤ most_enums }
    ensures { Reads (spec.qualified_enum enums.now tokens.old) result tokens.new }
{
    tokens.expect(Expected::Sign(b'.'))?;
    read_plain_enum(alloc, tokens, enums)
}

/// What may stand after a type's first word.
fn read_type_after(
    alloc: Global,
    tokens: &mut ScriptTokens<'_, '_>,
    enums: &[EnumDef],
    kind: LexemeKind,
    text: &Text,
) -> Result<ColumnType, ReadError>
    requires { length enums.now ≤ most_enums }
    ensures { Reads (spec.type_after enums.now kind text.now tokens.old) result tokens.new }
{
    if is_built_in(kind) {
        return Ok(built_in_type(kind));
    }
    if !is_schema_of(enums, text) {
        return Ok(enum_type(enums, text));
    }
    if !stands_in(enums, text) {
        return read_qualified_enum(alloc, tokens, enums);
    }
    if !tokens.sees(Expected::Sign(b'.')) {
        return Ok(enum_type(enums, text));
    }
    read_qualified_enum(alloc, tokens, enums)
}

/// A built-in type of one word, or an enum, with the schema or without it.
#[tactic(auto, unfolding(crate::specs::Reading::known_type, parse_rules::specs::Parser::expect))]
fn read_known_type(
    alloc: Global,
    tokens: &mut ScriptTokens<'_, '_>,
    enums: &[EnumDef],
) -> Result<ColumnType, ReadError>
    requires { length enums.now ≤ most_enums }
    ensures { Reads (spec.known_type enums.now tokens.old) result tokens.new }
{
    if let Some(token) = tokens.peek() {
        let text = token.text(alloc)?;
        let kind = token.kind();
        if is_known_type(enums, kind, &text) {
            tokens.skip();
            return read_type_after(alloc, tokens, enums, kind, &text);
        }
    }
    Err(ReadError::Unexpected)
}

/// A column's type.
#[tactic(auto, unfolding(crate::specs::Reading::column_type))]
pub(crate) fn read_column_type(
    alloc: Global,
    tokens: &mut ScriptTokens<'_, '_>,
    enums: &[EnumDef],
) -> Result<ColumnType, ReadError>
    requires { length enums.now ≤ most_enums }
    ensures { Reads (spec.column_type enums.now tokens.old) result tokens.new }
{
    if tokens.sees(Expected::Word(Word::Character)) {
        return read_character(alloc, tokens, enums);
    }
    if tokens.sees(Expected::Word(Word::Varchar)) {
        return read_varchar(alloc, tokens);
    }
    read_known_type(alloc, tokens, enums)
}
