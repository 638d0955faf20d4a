//! Signs of a text of bytes, each cut when it is asked for.

ghost use Rattle.std.specs.Prelude.{◌≡◌};
ghost use Rattle.parse_rules.specs.Lazy as spec;

use crate::samples::sign::Sign;
use crate::stream::TokenStream;
use std::marker::Model;

fn is_blank(byte: u8) -> bool
    ensures { result ≡ spec.is_blank byte }
{
    byte == b' ' || byte == b'\n'
}

fn sign_of(byte: u8) -> Sign
    ensures { result ≡ spec.sign_of byte }
{
    match byte {
        b'(' => Sign::Open,
        b')' => Sign::Close,
        b',' => Sign::Comma,
        b'=' => Sign::Equals,
        _ => Sign::Word(byte),
    }
}

/// The text from its first byte on that is no blank.
fn pass_blanks(text: &[u8]) -> &[u8]
    ensures { result.now ≡ spec.passed text.now }
{
    let mut rest = text;
    for _turn in 0..text.len() {
        let [byte, others @ ..] = rest else {
            return rest;
        };
        if !is_blank(*byte) {
            return rest;
        }
        rest = others;
    }
    rest
}

/// The signs of a text that are still to be read: a byte each, with blanks between.
#[derive(Drop)]
pub struct LazySigns<'a> {
    text: &'a [u8],
}

impl<'a> Model for LazySigns<'a> {
    ghost use Rattle.std.specs.Prelude.{List};
    ghost use Rattle.parse_rules.specs.declared.samples.sign.Sign.{Sign};

    ghost Value = { List Sign };

    ghost use Rattle.parse_rules.specs.Lazy as spec;

    ghost view = { λ s. spec.signs s.text.now };
}

impl<'a> LazySigns<'a> {
    ghost use Rattle.std.specs.Prelude.{◌≡◌};
    ghost use Rattle.parse_rules.specs.Lazy as spec;

    /// Before the first sign of the text.
    pub fn new(text: &'a [u8]) -> LazySigns<'a>
        ensures { result ≡ spec.signs text.entry.now }
    {
        LazySigns { text }
    }
}

impl<'a> TokenStream for LazySigns<'a> {
    type Token = Sign;

    type End = ();

    ghost rest = { λ s. s };

    ghost end = { λ s. tt };

    fn peek(&self) -> Option<Sign> {
        match pass_blanks(self.text) {
            [] => None,
            [byte, ..] => Some(sign_of(*byte)),
        }
    }

    fn skip(&mut self) {
        if let [_, rest @ ..] = pass_blanks(self.text) {
            self.text = rest;
        }
    }

    fn ending(&self) {}

    /// How many bytes are left.
    fn left_at_most(&self) -> usize {
        self.text.len()
    }
}
