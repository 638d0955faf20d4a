//! What tokens spell.

ghost use Rattle.std.specs.Prelude.{◌≡◌, ◌⊎◌, ◌<◌, IfOk, map};
ghost use Rattle.std.specs.Char.{to_ascii_lowercase};
ghost use Rattle.std.specs.Str.{IsUtf8};
ghost use Rattle.sql_lex.specs.Lex.{IsTokenOf};
ghost use Rattle.sql_lex.specs.Value as spec;

use crate::bytes::stands_at;
use crate::token::{Token, TokenKind};
use pg_base::{Memory, Text};
use std::alloc::Global;

/// A word in lower case: names and keywords without quotes are folded.
pub fn word_text(alloc: Global, text: &[u8], token: Token) -> Result<Text, Memory>
    requires token { IsTokenOf text.now token }
    requires kind { token.kind ≡ TokenKind.Word }
    ensures { IfOk result (λ word. word ≡ spec.folded text.now token) }
{
    let spelling = spelling_of(text, token);
    Ok(Text::of_bytes(folded(alloc, spelling)?))
}

/// A quoted name without its quotes.
pub fn name_text(alloc: Global, text: &[u8], token: Token) -> Result<Text, Memory>
    requires token { IsTokenOf text.now token }
    requires kind { token.kind ≡ TokenKind.Quoted }
    ensures { IfOk result (λ name. name ≡ spec.unquoted_name text.now token) }
{
    let spelling = spelling_of(text, token);
    unquoted_text(alloc, &spelling[1..], b'"', false)
}

/// A string without its quotes and escapes.
pub fn string_text(alloc: Global, text: &[u8], token: Token) -> Result<Text, Memory>
    requires token { IsTokenOf text.now token }
    requires kind { (token.kind ≡ TokenKind.Str) ⊎ (token.kind ≡ TokenKind.EscStr) }
    ensures { IfOk result (λ value. value ≡ spec.string_value text.now token) }
{
    let spelling = spelling_of(text, token);
    match token.kind {
        TokenKind::EscStr => unquoted_text(alloc, &spelling[2..], b'\'', true),
        _ => unquoted_text(alloc, &spelling[1..], b'\'', false),
    }
}

/// The bytes in lower case.
fn folded(alloc: Global, bytes: &[u8]) -> Result<Vec<u8>, Memory>
    ensures { IfOk result (λ folded. folded.items ≡ map to_ascii_lowercase bytes.now) }
{
    bytes.to_ascii_lowercase(alloc)
}

/// The bytes of a token.
fn spelling_of(text: &[u8], token: Token) -> &[u8]
    requires { IsTokenOf text.now token }
    ensures { result.now ≡ spec.spelling text.now token }
{
    &text[token.from..token.to]
}

/// What stands between quotes, from after the opening one on.
fn unquoted_text(alloc: Global, bytes: &[u8], quote: u8, escapes: bool) -> Result<Text, Memory>
    requires text { IsUtf8 bytes.now }
    requires ascii { quote < 128 }
    ensures { IfOk result (λ value. value ≡ spec.unquoted escapes quote bytes.now) }
{
    Ok(Text::of_bytes(unquoted(alloc, bytes, quote, escapes)?))
}

/// What stands between quotes, from after the opening one on.
fn unquoted(alloc: Global, bytes: &[u8], quote: u8, escapes: bool) -> Result<Vec<u8>, Memory>
    ensures { IfOk result (λ value. value.items ≡ spec.unquoted escapes quote bytes.now) }
{
    let mut value = Vec::new(alloc);
    let mut at = 0;
    'value: while at < bytes.len() {
        let byte = bytes[at];
        if byte == quote {
            if !stands_at(bytes, at + 1, quote) {
                return Ok(value);
            }
            value.push(quote)?;
            at += 2;
            continue;
        }
        if escapes && byte == b'\\' {
            if at + 1 == bytes.len() {
                return Ok(value);
            }
            value.push(escaped(bytes[at + 1]))?;
            at += 2;
            continue;
        }
        value.push(byte)?;
        at += 1;
    }
    Ok(value)
}

/// What the byte after a backslash stands for.
fn escaped(marker: u8) -> u8
    ensures { result ≡ spec.escaped marker }
{
    match marker {
        b'n' => b'\n',
        b't' => b'\t',
        _ => marker,
    }
}
