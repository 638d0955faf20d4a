//! The tokens of a text. They are cut when they are asked for.

ghost use Rattle.std.specs.Prelude.{◌≡◌, ◌≤◌, ◌+◌, length, take, IfOk, Option, Some, None};
ghost use Rattle.pg_base.specs.Pos.{counter_after, start};
ghost use Rattle.sql_lex.specs.Lex.{first_token, IsTokenOf};
ghost use Rattle.sql_lex.specs.Value.{spelling};
ghost use Rattle.ddl_reader.specs.Lexemes as spec;

use crate::lexeme::{Expected, LexemeKind, kind_of};
use parse_rules::Test;
use pg_base::{Memory, Pos, PosCounter, Text};
use sql_lex::{LexFault, Token, TokenKind, name_text, next_from, string_text, word_text};
use std::alloc::Global;
use std::marker::Model;

/// A token of a script, or the fault in its place. It borrows the script's bytes. Contracts see it with what it stands
/// for.
#[derive(Drop)]
pub struct ScriptToken<'a> {
    bytes: &'a [u8],
    read: Result<Token, LexFault>,
    kind: LexemeKind,
}

impl<'a> Model for ScriptToken<'a> {
    ghost use Rattle.ddl_reader.specs.declared.lexeme.Lexeme.{Lexeme};

    ghost Value = { Lexeme };

    ghost use Rattle.ddl_reader.specs.Lexemes.{lexeme_at, IsRead};

    ghost view = { λ s. lexeme_at s.bytes.now s.read };

    ghost invariant = { λ s. IsRead s.bytes.now s.read s.kind };
}

/// The tokens of a text that are still to be read.
#[derive(Drop)]
pub(crate) struct TextTokens<'a> {
    bytes: &'a [u8],
    /// The next one; none after the end, or after a fault.
    next: Option<Result<Token, LexFault>>,
    /// What it is.
    kind: LexemeKind,
    /// After it.
    after: PosCounter,
}

impl<'a> Model for TextTokens<'a> {
    ghost use Rattle.std.specs.Prelude.{List};
    ghost use Rattle.ddl_reader.specs.declared.lexeme.Lexeme.{Lexeme};

    ghost Value = { List Lexeme };

    ghost use Rattle.ddl_reader.specs.Lexemes.{lexemes_on, StandsBefore};

    ghost view = { λ s. lexemes_on s.bytes.now s.next };

    ghost invariant = { λ s. StandsBefore s.bytes.now s.next s.kind s.after };
}

/// Reads the token from a place on.
fn tokens_from<'a>(bytes: &'a [u8], at: usize, place: PosCounter) -> TextTokens<'a>
    requires within { at ≤ length bytes.now }
    requires place { place ≡ counter_after start (take at bytes.now) }
    ensures { result ≡ spec.lexemes_from bytes.entry.now at }
{
    match next_from(bytes, at, place) {
        Ok((token, after)) => TextTokens {
            bytes,
            next: Some(Ok(token)),
            kind: kind_of(bytes, token),
            after,
        },
        Err(fault) => TextTokens {
            bytes,
            next: Some(Err(fault)),
            kind: LexemeKind::Invalid(fault.which),
            after: place,
        },
    }
}

fn is_end(kind: TokenKind) -> bool
    ensures { result ≡ spec.is_end_token kind }
{
    match kind {
        TokenKind::End => true,
        TokenKind::Word => false,
        TokenKind::Quoted => false,
        TokenKind::Str => false,
        TokenKind::EscStr => false,
        TokenKind::Number => false,
        TokenKind::Sign(_) => false,
    }
}

/// After a token, or a fault.
fn following<'a>(
    bytes: &'a [u8],
    next: Option<Result<Token, LexFault>>,
    after: PosCounter,
) -> TextTokens<'a>
    requires { spec.CountsAfterNext bytes.now next after }
    ensures { result ≡ spec.after_next (spec.lexemes_from bytes.entry.now) next }
{
    match next {
        Some(Ok(token)) => {
            if is_end(token.kind) {
                return TextTokens::done(bytes);
            }
            tokens_from(bytes, token.to, after)
        }
        Some(Err(_)) => TextTokens::done(bytes),
        None => TextTokens::done(bytes),
    }
}

/// How many bytes are left after a token, the end counted as one where it still comes.
fn left_after(bytes: &[u8], read: Result<Token, LexFault>) -> usize
    requires { spec.IsReadOf bytes.now read }
    ensures bound { length (spec.after_by (spec.lexemes_from bytes.now) read) ≤ result }
    ensures small { result ≤ length bytes.now }
{
    match read {
        Ok(token) => {
            if is_end(token.kind) {
                return 0;
            }
            bytes.len() - token.to + 1
        }
        Err(_) => 0,
    }
}

impl<'a> TextTokens<'a> {
    ghost use Rattle.std.specs.Prelude.{◌≡◌, ◌≤◌, ◌^◌, length, []};
    ghost use Rattle.ddl_reader.specs.Lexemes.{lexemes};
    ghost use Rattle.parse_rules.specs.Tokens as tokens;

    /// Before the first token of a text.
    pub(crate) fn new(bytes: &'a [u8]) -> TextTokens<'a>
        ensures { result ≡ lexemes bytes.entry.now }
    {
        tokens_from(bytes, 0, PosCounter::start())
    }

    /// None is left.
    fn done(bytes: &'a [u8]) -> TextTokens<'a>
        ensures { result ≡ [] }
    {
        TextTokens {
            bytes,
            next: None,
            kind: LexemeKind::End,
            after: PosCounter::start(),
        }
    }

    /// The same place again.
    pub(crate) fn copied(&self) -> TextTokens<'a>
        ensures { result ≡ self.now }
    {
        TextTokens {
            bytes: self.bytes,
            next: self.next,
            kind: self.kind,
            after: self.after,
        }
    }

    /// The next token.
    pub(crate) fn peek(&self) -> Option<ScriptToken<'a>>
        ensures { result ≡ tokens.head self.now }
    {
        match self.next {
            None => None,
            Some(read) => Some(ScriptToken {
                bytes: self.bytes,
                read,
                kind: self.kind,
            }),
        }
    }

    /// Passes the next token.
    pub(crate) fn skip(&mut self)
        ensures { self.new ≡ tokens.tail self.old }
    {
        *self = following(self.bytes, self.next, self.after);
    }

    /// How many bytes are left, the end counted as one.
    pub(crate) fn left_at_most(&self) -> usize
        ensures bound { length self.now ≤ result }
        ensures small { result ≤ 2 ^ 63 }
    {
        match self.next {
            Some(read) => left_after(self.bytes, read) + 1,
            None => 0,
        }
    }
}

impl<'a> Test<ScriptToken<'a>> for Expected {
    ghost use Rattle.ddl_reader.specs.Lexemes.{is};

    ghost passes = { is };

    fn passes(&self, token: &ScriptToken<'a>) -> bool {
        self.is_kind(token.kind)
    }
}

impl<'a> ScriptToken<'a> {
    ghost use Rattle.std.specs.Prelude.{◌≡◌, IfOk};

    /// The same token again.
    pub(crate) fn copied<'b>(&'b self) -> ScriptToken<'b>
        ensures { result ≡ self.now }
    {
        ScriptToken {
            bytes: self.bytes,
            read: self.read,
            kind: self.kind,
        }
    }

    /// What the token is.
    pub fn kind(&self) -> LexemeKind
        ensures { result ≡ self.now.kind }
    {
        self.kind
    }

    /// Where it begins.
    pub fn pos(&self) -> Pos
        ensures { result ≡ self.now.pos }
    {
        match self.read {
            Ok(token) => token.pos,
            Err(fault) => fault.pos,
        }
    }

    /// What it stands for.
    pub fn text(&self, alloc: Global) -> Result<Text, Memory>
        ensures { IfOk result (λ text. text ≡ self.now.text) }
    {
        match self.read {
            Ok(token) => token_text(alloc, self.bytes, token),
            Err(_) => Text::of(alloc, ""),
        }
    }
}

/// What a token of the text stands for.
fn token_text(alloc: Global, bytes: &[u8], token: Token) -> Result<Text, Memory>
    requires { IsTokenOf bytes.now token }
    ensures { IfOk result (λ text. text ≡ spec.text_by token.kind bytes.now token) }
{
    match token.kind {
        TokenKind::Word => word_text(alloc, bytes, token),
        TokenKind::Quoted => name_text(alloc, bytes, token),
        TokenKind::Str => string_text(alloc, bytes, token),
        TokenKind::EscStr => string_text(alloc, bytes, token),
        TokenKind::Number => spelled(alloc, bytes, token),
        TokenKind::Sign(_) => spelled(alloc, bytes, token),
        TokenKind::End => spelled(alloc, bytes, token),
    }
}

fn spelled_bytes(alloc: Global, bytes: &[u8], token: Token) -> Result<Vec<u8>, Memory>
    requires { IsTokenOf bytes.now token }
    ensures { IfOk result (λ copy. copy.items ≡ spelling bytes.now token) }
{
    Vec::from_slice(alloc, &bytes[token.from..token.to])
}

/// The token as it is written.
fn spelled(alloc: Global, bytes: &[u8], token: Token) -> Result<Text, Memory>
    requires { IsTokenOf bytes.now token }
    ensures { IfOk result (λ text. text ≡ spelling bytes.now token) }
{
    let copy = spelled_bytes(alloc, bytes, token)?;
    Ok(Text::of_bytes(copy))
}
