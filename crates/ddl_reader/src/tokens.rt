//! A reader's place in a script.

ghost use Rattle.std.specs.Prelude.{◌≡◌, ◌++◌, length};
ghost use Rattle.ddl_reader.specs.Lexemes as spec;

use crate::lexeme::{Expected, Lexeme, LexemeKind, is_end};
use crate::text_tokens::{ScriptToken, TextTokens};
use parse_rules::{ReadError, TokenStream};
use std::alloc::Global;
use std::marker::Model;

/// The tokens that are still to be read: some that are kept, and then those of a text.
#[derive(Drop)]
pub struct ScriptTokens<'k, 'a> {
    kept: &'k [ScriptToken<'a>],
    then: TextTokens<'k>,
}

impl<'k, 'a> Model for ScriptTokens<'k, 'a> {
    ghost use Rattle.std.specs.Prelude.{◌++◌, List};
    ghost use Rattle.ddl_reader.specs.declared.lexeme.Lexeme.{Lexeme};

    ghost Value = { List Lexeme };

    ghost view = { λ s. s.kept.now ++ s.then };
}

impl<'k, 'a> ScriptTokens<'k, 'a> {
    ghost use Rattle.std.specs.Prelude.{◌≡◌, ◌++◌};
    ghost use Rattle.ddl_reader.specs.Lexemes.{is, lexemes, is_at_end};
    ghost use Rattle.parse_rules.specs.Parser as parser;
    ghost use Rattle.parse_rules.specs.Parser.{Reads};

    /// Before the first token of a script.
    pub fn new(bytes: &'k [u8]) -> ScriptTokens<'k, 'a>
        ensures { result ≡ lexemes bytes.entry.now }
    {
        ScriptTokens {
            kept: &[],
            then: TextTokens::new(bytes),
        }
    }

    /// Before the first of these tokens, after which those of the text come.
    pub(crate) fn after(kept: &'k [ScriptToken<'a>], bytes: &'k [u8]) -> ScriptTokens<'k, 'a>
        ensures { result ≡ kept.entry.now ++ lexemes bytes.entry.now }
    {
        ScriptTokens {
            kept,
            then: TextTokens::new(bytes),
        }
    }

    /// The same place again.
    pub(crate) fn fork(&self) -> ScriptTokens<'k, 'a>
        ensures { result ≡ self.now }
    {
        ScriptTokens {
            kept: self.kept,
            then: self.then.copied(),
        }
    }

    /// Whether no token but the end is left.
    pub(crate) fn is_at_end(&self) -> bool
        ensures { result ≡ is_at_end self.now }
    {
        match self.peek() {
            Some(token) => is_end(token.kind()),
            None => true,
        }
    }

    /// Reads a token with what it stands for.
    pub fn lexeme(&mut self, alloc: Global, expected: Expected) -> Result<Lexeme, ReadError>
        ensures { Reads (parser.expect (is expected) self.old) result self.new }
    {
        let token = self.expect(expected)?;
        let text = token.text(alloc)?;
        Ok(Lexeme {
            kind: token.kind(),
            text,
            pos: token.pos(),
        })
    }
}

impl<'k, 'a> TokenStream for ScriptTokens<'k, 'a> {
    ghost use Rattle.std.specs.Prelude.{◌≡◌, ◌≤◌, length};

    type Token = ScriptToken<'k>;

    /// A fault stands in the place of a token.
    type End = ();

    ghost rest = { λ s. s };

    ghost end = { λ s. tt };

    fn peek(&self) -> Option<ScriptToken<'k>> {
        match self.kept {
            [first, ..] => Some(first.copied()),
            [] => self.then.peek(),
        }
    }

    fn skip(&mut self) {
        match self.kept {
            [_, others @ ..] => self.kept = others,
            [] => self.then.skip(),
        }
    }

    fn ending(&self) {}

    /// How many tokens are kept, and how many bytes are left after them, the end counted as one.
    fn left_at_most(&self) -> usize {
        self.kept.len() + self.then.left_at_most()
    }
}
