//! A reader's place in a document.

ghost use Rattle.std.specs.Prelude.{◌≡◌, length};
ghost use Rattle.parse_rules.specs.Parser as parser;
ghost use Rattle.parse_rules.specs.Parser.{Reads};
ghost use Rattle.gql_reader.specs.Lexemes.{is};

use crate::expected::Expected;
use crate::lexeme::Lexeme;
use gql_lex::{Token, TokenKind, value_of};
use parse_rules::{ReadError, Test, TokenStream};
use pg_base::{Memory, Pos, Text};
use std::alloc::Global;
use std::marker::Model;

/// A token of a document, which borrows the document's bytes. Contracts see it with what it stands for.
#[derive(Drop)]
pub struct DocumentToken<'a> {
    bytes: &'a [u8],
    token: Token,
}

impl<'a> Model for DocumentToken<'a> {
    ghost use Rattle.gql_reader.specs.declared.lexeme.Lexeme.{Lexeme};

    ghost Value = { Lexeme };

    ghost use Rattle.gql_lex.specs.Lex.{IsTokenOf};
    ghost use Rattle.gql_reader.specs.Lexemes.{lexeme_of};

    ghost view = { λ s. lexeme_of s.bytes.now s.token };

    ghost invariant = { λ s. IsTokenOf s.bytes.now s.token };
}

impl<'a> DocumentToken<'a> {
    ghost use Rattle.std.specs.Prelude.{◌≡◌, IfOk};

    /// What the token is.
    pub fn kind(&self) -> TokenKind
        ensures { result ≡ self.now.kind }
    {
        self.token.kind
    }

    /// Where it begins.
    pub fn pos(&self) -> Pos
        ensures { result ≡ self.now.pos }
    {
        self.token.pos
    }

    /// What it stands for: the text of a string, or the spelling of another token.
    pub fn text(&self, alloc: Global) -> Result<Text, Memory>
        ensures { IfOk result (λ text. text ≡ self.now.text) }
    {
        value_of(alloc, self.bytes, self.token)
    }
}

impl<'a> Test<DocumentToken<'a>> for Expected {
    ghost use Rattle.gql_reader.specs.Lexemes.{is};

    ghost passes = { is };

    fn passes(&self, token: &DocumentToken<'a>) -> bool {
        self.is_kind(token.token.kind)
    }
}

/// The tokens of a document that are still to be read.
#[derive(Drop)]
pub struct DocumentTokens<'a> {
    bytes: &'a [u8],
    rest: &'a [Token],
}

impl<'a> Model for DocumentTokens<'a> {
    ghost use Rattle.std.specs.Prelude.{List, All};
    ghost use Rattle.gql_lex.specs.Lex.{IsTokenOf};
    ghost use Rattle.gql_reader.specs.declared.lexeme.Lexeme.{Lexeme};

    ghost Value = { List Lexeme };

    ghost use Rattle.gql_reader.specs.Lexemes.{lexemes_of};

    ghost view = { λ s. lexemes_of s.bytes.now s.rest.now };

    ghost invariant = { λ s. All (IsTokenOf s.bytes.now) s.rest.now };
}

impl<'a> TokenStream for DocumentTokens<'a> {
    ghost use Rattle.std.specs.Prelude.{◌≡◌, ◌≤◌, length};

    type Token = DocumentToken<'a>;

    /// How they end is known beside the tokens.
    type End = ();

    ghost rest = { λ s. s };

    ghost end = { λ s. tt };

    fn peek(&self) -> Option<DocumentToken<'a>> {
        match self.rest {
            [] => None,
            [token, ..] => Some(DocumentToken {
                bytes: self.bytes,
                token: *token,
            }),
        }
    }

    fn skip(&mut self) {
        if let [_, rest @ ..] = self.rest {
            self.rest = rest;
        }
    }

    fn ending(&self) {}

    /// How many tokens are left.
    fn left_at_most(&self) -> usize
        ensures bound { length self.now ≤ result }
        ensures exact { result ≡ length self.now }
    {
        self.rest.len()
    }
}

impl<'a> DocumentTokens<'a> {
    ghost use Rattle.std.specs.Prelude.{◌≡◌, All};
    ghost use Rattle.gql_lex.specs.Lex.{IsTokenOf};
    ghost use Rattle.gql_reader.specs.Lexemes.{is, lexemes_of};
    ghost use Rattle.parse_rules.specs.Parser as parser;
    ghost use Rattle.parse_rules.specs.Parser.{Reads};

    /// Before the first of these tokens of the document.
    pub fn new(bytes: &'a [u8], tokens: &'a [Token]) -> DocumentTokens<'a>
        requires { All (IsTokenOf bytes.now) tokens.now }
        ensures { result ≡ lexemes_of bytes.entry.now tokens.entry.now }
    {
        DocumentTokens {
            bytes,
            rest: tokens,
        }
    }

    /// Reads a token with what it stands for.
    pub fn lexeme(&mut self, alloc: Global, expected: Expected) -> Result<Lexeme, ReadError>
        ensures { Reads (parser.expect (is expected) self.old) result self.new }
    {
        let token = self.expect(expected)?;
        let text = token.text(alloc)?;
        Ok(Lexeme {
            kind: token.kind(),
            text,
            pos: token.pos(),
        })
    }
}
