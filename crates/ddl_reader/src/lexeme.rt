//! Tokens with what they stand for.

ghost use Rattle.std.specs.Prelude.{◌≡◌, ◌≤◌, length};
ghost use Rattle.ddl_reader.specs.Words.{is_reserved};
ghost use Rattle.ddl_reader.specs.Lexemes as spec;

use crate::word::{Word, is_same, word_of};
use pg_base::{Pos, Text};
use sql_lex::{Token, TokenKind};

/// What a lexeme is.
#[derive(Clone, Copy, Debug)]
pub enum LexemeKind {
    /// A word, by what it means.
    Word(Word),
    /// A quoted name.
    Name,
    Str,
    Number,
    Sign(u8),
    /// The end of the script.
    End,
    /// No token can be read there: the number of the fault.
    Invalid(u8),
}

/// A token with what it stands for, or the fault in its place.
#[derive(Drop)]
pub struct Lexeme {
    pub kind: LexemeKind,
    pub text: Text,
    pub pos: Pos,
}

/// What a token of this text is.
pub(crate) fn kind_of(text: &[u8], token: Token) -> LexemeKind
    requires order { token.from ≤ token.«to» }
    requires within { token.«to» ≤ length text.now }
    ensures { result ≡ spec.kind_of text.now token }
{
    match token.kind {
        TokenKind::Word => LexemeKind::Word(word_of(&text[token.from..token.to])),
        TokenKind::Quoted => LexemeKind::Name,
        TokenKind::Str => LexemeKind::Str,
        TokenKind::EscStr => LexemeKind::Str,
        TokenKind::Number => LexemeKind::Number,
        TokenKind::Sign(byte) => LexemeKind::Sign(byte),
        TokenKind::End => LexemeKind::End,
    }
}

/// What the grammar asks of a lexeme.
#[derive(Clone, Copy, Debug)]
pub enum Expected {
    /// This word.
    Word(Word),
    /// This sign.
    Sign(u8),
    /// A quoted name, or a word that isn't reserved.
    Identifier,
    Str,
    Number,
    /// What may begin a literal: a number or its sign, a string, TRUE, FALSE, NULL.
    LiteralStart,
    /// A first word of a statement that is passed over: BEGIN, COMMIT, START, SET.
    SkippedStart,
    /// INDEX or EXTENSION.
    SkippedObject,
    /// Neither `;` nor the end.
    Inner,
    /// `;` or the end.
    Last,
    /// What begins a rule of a column.
    ColumnRule,
    /// The same without CONSTRAINT.
    ColumnRuleWord,
    /// What begins a rule of a table, or a clause in its place that isn't supported.
    TableRule,
    /// PRIMARY, UNIQUE or FOREIGN.
    RuleWord,
    /// DELETE or UPDATE.
    Change,
}

pub(crate) fn is_word(kind: LexemeKind, wanted: Word) -> bool
    ensures { result ≡ spec.is_word kind wanted }
{
    match kind {
        LexemeKind::Word(word) => is_same(word, wanted),
        LexemeKind::Name => false,
        LexemeKind::Str => false,
        LexemeKind::Number => false,
        LexemeKind::Sign(_) => false,
        LexemeKind::End => false,
        LexemeKind::Invalid(_) => false,
    }
}

pub(crate) fn is_sign(kind: LexemeKind, wanted: u8) -> bool
    ensures { result ≡ spec.is_sign kind wanted }
{
    match kind {
        LexemeKind::Sign(byte) => byte == wanted,
        LexemeKind::Word(_) => false,
        LexemeKind::Name => false,
        LexemeKind::Str => false,
        LexemeKind::Number => false,
        LexemeKind::End => false,
        LexemeKind::Invalid(_) => false,
    }
}

/// Whether the word names nothing unless it is quoted.
fn is_reserved(word: Word) -> bool
    ensures { result ≡ is_reserved word }
{
    is_same(word, Word::Check)
        || is_same(word, Word::Constraint)
        || is_same(word, Word::Create)
        || is_same(word, Word::Default)
        || is_same(word, Word::False)
        || is_same(word, Word::Foreign)
        || is_same(word, Word::Not)
        || is_same(word, Word::Null)
        || is_same(word, Word::On)
        || is_same(word, Word::Only)
        || is_same(word, Word::Primary)
        || is_same(word, Word::References)
        || is_same(word, Word::Table)
        || is_same(word, Word::True)
        || is_same(word, Word::Unique)
}

pub(crate) fn is_identifier(kind: LexemeKind) -> bool
    ensures { result ≡ spec.is_identifier kind }
{
    match kind {
        LexemeKind::Word(word) => !is_reserved(word),
        LexemeKind::Name => true,
        LexemeKind::Str => false,
        LexemeKind::Number => false,
        LexemeKind::Sign(_) => false,
        LexemeKind::End => false,
        LexemeKind::Invalid(_) => false,
    }
}

pub(crate) fn is_str(kind: LexemeKind) -> bool
    ensures { result ≡ spec.is_str kind }
{
    match kind {
        LexemeKind::Str => true,
        LexemeKind::Word(_) => false,
        LexemeKind::Name => false,
        LexemeKind::Number => false,
        LexemeKind::Sign(_) => false,
        LexemeKind::End => false,
        LexemeKind::Invalid(_) => false,
    }
}

pub(crate) fn is_number(kind: LexemeKind) -> bool
    ensures { result ≡ spec.is_number kind }
{
    match kind {
        LexemeKind::Number => true,
        LexemeKind::Word(_) => false,
        LexemeKind::Name => false,
        LexemeKind::Str => false,
        LexemeKind::Sign(_) => false,
        LexemeKind::End => false,
        LexemeKind::Invalid(_) => false,
    }
}

pub(crate) fn is_end(kind: LexemeKind) -> bool
    ensures { result ≡ spec.is_end kind }
{
    match kind {
        LexemeKind::End => true,
        LexemeKind::Word(_) => false,
        LexemeKind::Name => false,
        LexemeKind::Str => false,
        LexemeKind::Number => false,
        LexemeKind::Sign(_) => false,
        LexemeKind::Invalid(_) => false,
    }
}

fn is_invalid(kind: LexemeKind) -> bool
    ensures { result ≡ spec.is_invalid kind }
{
    match kind {
        LexemeKind::Invalid(_) => true,
        LexemeKind::Word(_) => false,
        LexemeKind::Name => false,
        LexemeKind::Str => false,
        LexemeKind::Number => false,
        LexemeKind::Sign(_) => false,
        LexemeKind::End => false,
    }
}

fn is_last(kind: LexemeKind) -> bool
    ensures { result ≡ spec.is_last kind }
{
    is_sign(kind, b';') || is_end(kind)
}

fn begins_literal(kind: LexemeKind) -> bool
    ensures { result ≡ spec.begins_literal kind }
{
    is_number(kind)
        || is_str(kind)
        || is_sign(kind, b'-')
        || is_word(kind, Word::True)
        || is_word(kind, Word::False)
        || is_word(kind, Word::Null)
}

fn is_column_rule_word(kind: LexemeKind) -> bool
    ensures { result ≡ spec.is_column_rule_word kind }
{
    is_word(kind, Word::Not)
        || is_word(kind, Word::Null)
        || is_word(kind, Word::Primary)
        || is_word(kind, Word::Unique)
        || is_word(kind, Word::Default)
        || is_word(kind, Word::References)
        || is_word(kind, Word::Generated)
}

fn is_rule_word(kind: LexemeKind) -> bool
    ensures { result ≡ spec.is_rule_word kind }
{
    is_word(kind, Word::Primary) || is_word(kind, Word::Unique) || is_word(kind, Word::Foreign)
}

fn begins_table_rule(kind: LexemeKind) -> bool
    ensures { result ≡ spec.begins_table_rule kind }
{
    is_word(kind, Word::Constraint)
        || is_rule_word(kind)
        || is_word(kind, Word::Check)
        || is_word(kind, Word::Exclude)
        || is_word(kind, Word::Like)
        || is_word(kind, Word::Collate)
}

pub(crate) fn is_built_in(kind: LexemeKind) -> bool
    ensures { result ≡ spec.is_built_in kind }
{
    is_word(kind, Word::TextType)
        || is_word(kind, Word::IntegerType)
        || is_word(kind, Word::BigIntType)
        || is_word(kind, Word::SerialType)
        || is_word(kind, Word::BigSerialType)
        || is_word(kind, Word::BooleanType)
}

impl Expected {
    /// Whether a lexeme of this kind is what is expected.
    pub(crate) fn is_kind(self, kind: LexemeKind) -> bool
        ensures { result ≡ spec.kind_is self kind }
    {
        match self {
            Expected::Word(wanted) => is_word(kind, wanted),
            Expected::Sign(wanted) => is_sign(kind, wanted),
            Expected::Identifier => is_identifier(kind),
            Expected::Str => is_str(kind),
            Expected::Number => is_number(kind),
            Expected::LiteralStart => begins_literal(kind),
            Expected::SkippedStart => {
                is_word(kind, Word::Begin)
                    || is_word(kind, Word::Commit)
                    || is_word(kind, Word::Start)
                    || is_word(kind, Word::Set)
            }
            Expected::SkippedObject => {
                is_word(kind, Word::Index) || is_word(kind, Word::Extension)
            }
            Expected::Inner => !is_last(kind) && !is_invalid(kind),
            Expected::Last => is_last(kind),
            Expected::ColumnRule => is_word(kind, Word::Constraint) || is_column_rule_word(kind),
            Expected::ColumnRuleWord => is_column_rule_word(kind),
            Expected::RuleWord => is_rule_word(kind),
            Expected::TableRule => begins_table_rule(kind),
            Expected::Change => is_word(kind, Word::Delete) || is_word(kind, Word::Update),
        }
    }
}
