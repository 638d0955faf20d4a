//! Streams of tokens, which give the next one when they are asked for it.

ghost use Rattle.std.specs.Prelude.{◌≡◌, ◌≤◌, ℕ, List, length, Bool, None};
ghost use Rattle.parse_rules.specs.Parser as parser;
ghost use Rattle.parse_rules.specs.Parser.{Reads};
ghost use Rattle.parse_rules.specs.Tokens as tokens;

use crate::error::ReadError;

/// A test of one token, as whether it is of a kind.
pub trait Test<T> {
    ghost passes: { Self → T → Bool };

    /// Whether the token passes.
    fn passes(&self, token: &T) -> bool
        ensures { result ≡ passes self.now token.now };
}

/// The place of a reader in a text. A lexer that cuts the next token when it is asked for is one,
/// a slice of tokens another. A token may borrow the text, so that no call here needs memory.
pub trait TokenStream {
    /// A token.
    type Token: Drop;

    /// How tokens end: with the text, or where no token begins.
    type End: Drop;

    /// The tokens from the next one on.
    ghost rest: { Self → List Self.Token };

    /// How they end.
    ghost end: { Self → Self.End };

    /// The next token, which stays the next one.
    fn peek(&self) -> Option<Self::Token>
        ensures { result ≡ tokens.head (rest self.now) };

    /// Passes over the next token, if there is one.
    fn skip(&mut self)
        ensures after { rest self.new ≡ tokens.tail (rest self.old) }
        ensures ends { end self.new ≡ end self.old };

    /// How the tokens end, where none is left.
    fn ending(&self) -> Self::End
        requires { length (rest self.now) ≡ 0 }
        ensures { result ≡ end self.now };

    /// A number that no more tokens are left than, which bounds a loop over them. The bytes that are
    /// left will do.
    fn left_at_most(&self) -> usize
        ensures bound { length (rest self.now) ≤ result };

    /// The next token, which is passed over.
    final fn next(&mut self) -> Option<Self::Token>
        ensures found { result ≡ tokens.head (rest self.old) }
        ensures after { rest self.new ≡ tokens.tail (rest self.old) }
        ensures ends { end self.new ≡ end self.old }
    {
        let token = self.peek();
        self.skip();
        token
    }

    /// Whether the next token passes the test.
    final fn sees<P: Test<Self::Token> + Drop>(&self, test: P) -> bool
        ensures { result ≡ tokens.sees (P.passes test) (rest self.now) }
    {
        match self.peek() {
            None => false,
            Some(token) => test.passes(&token),
        }
    }

    /// Passes over the next token if it passes the test, and says whether it does.
    final fn eat<P: Test<Self::Token> + Drop>(&mut self, test: P) -> bool
        ensures found { result ≡ tokens.sees (P.passes test) (rest self.old) }
        ensures after { rest self.new ≡ tokens.after (P.passes test) (rest self.old) }
        ensures ends { end self.new ≡ end self.old }
    {
        if let Some(token) = self.peek() {
            if test.passes(&token) {
                self.skip();
                return true;
            }
        }
        false
    }

    /// Reads one token that passes the test.
    #[tactic(auto, unfolding(crate::specs::Parser::expect))]
    final fn expect<P: Test<Self::Token> + Drop>(
        &mut self,
        test: P,
    ) -> Result<Self::Token, ReadError>
        ensures reads { Reads (parser.expect (P.passes test) (rest self.old)) result
            (rest self.new) }
        ensures ends { end self.new ≡ end self.old }
    {
        if let Some(token) = self.peek() {
            if test.passes(&token) {
                self.skip();
                return Ok(token);
            }
        }
        Err(ReadError::Unexpected)
    }

    /// The value, where the next token passes the test. It isn't passed over.
    final fn before<P: Test<Self::Token> + Drop, A: Drop>(
        &self,
        test: P,
        value: A,
    ) -> Result<A, ReadError>
        ensures { Reads (parser.before (P.passes test) value (rest self.now)) result
            (rest self.now) }
    {
        if self.sees(test) {
            return Ok(value);
        }
        Err(ReadError::Unexpected)
    }

    /// The value, where no token is left.
    final fn ended<A: Drop>(&self, value: A) -> Result<A, ReadError>
        ensures { Reads (parser.ended value (rest self.now)) result (rest self.now) }
    {
        match self.peek() {
            None => Ok(value),
            Some(_) => Err(ReadError::Unexpected),
        }
    }

    /// Passes over tokens as long as they pass the test.
    final fn skip_while<P: Test<Self::Token> + Copy + Drop>(&mut self, test: P)
        ensures after { rest self.new ≡ tokens.after_all (P.passes test) (rest self.old) }
        ensures ends { end self.new ≡ end self.old }
    {
        for _turn in 0..self.left_at_most() {
            if !self.eat(test) {
                return;
            }
        }
    }
}

/// Tokens that lie in a slice, and how they end.
#[derive(Drop)]
pub struct SliceStream<'a, T, E> {
    /// The tokens from the next one on.
    pub rest: &'a [T],
    /// How they end.
    pub end: E,
}

impl<'a, T: Copy + Drop, E: Copy + Drop> TokenStream for SliceStream<'a, T, E> {
    type Token = T;

    type End = E;

    ghost rest = { λ s. s.rest.now };

    ghost end = { λ s. s.end };

    fn peek(&self) -> Option<T> {
        match self.rest {
            [] => None,
            [token, ..] => Some(*token),
        }
    }

    fn skip(&mut self) {
        if let [_, rest @ ..] = self.rest {
            self.rest = rest;
        }
    }

    fn ending(&self) -> E {
        self.end
    }

    /// How many tokens are left.
    fn left_at_most(&self) -> usize
        ensures bound { length self.now.rest.now ≤ result }
        ensures exact { result ≡ length self.now.rest.now }
    {
        self.rest.len()
    }
}
