//! The tokens of a statement before a stop, and what fits after them.

ghost use Rattle.std.specs.Prelude.{◌≡◌, ◌≤◌, ◌&&◌, not, length, take, slice_get, IfOk};
ghost use Rattle.pg_base.specs.Limits.{most_enums};
ghost use Rattle.ddl_reader.specs.Lexemes.{is_identifier};
ghost use Rattle.ddl_reader.specs.Trees as trees;
ghost use Rattle.ddl_reader.specs.Statements.{whole_statement};
ghost use Rattle.ddl_reader.specs.Stops as spec;

use crate::lexeme::{is_identifier, is_sign, is_word};
use crate::names::is_public;
use crate::text_tokens::ScriptToken;
use crate::tokens::ScriptTokens;
use crate::whole::read_statement;
use crate::word::Word;
use parse_rules::{ReadError, TokenStream};
use pg_base::{EnumDef, Memory, Pos};
use sqlite_items::Items;
use std::alloc::{AllocError, Global};

/// A name that no enum has: it is longer than 63 bytes.
const NO_NAME: &str = "xxxxxxxxxxxxxxxxxxxxxxxxxxxxxxxxxxxxxxxxxxxxxxxxxxxxxxxxxxxxxxxx";

// ---- what fits

/// Whether a statement of these tokens doesn't stop before their end.
fn takes_all(
    alloc: Global,
    tokens: &mut ScriptTokens<'_, '_>,
    enums: &[EnumDef],
) -> Result<bool, Memory>
    requires { length enums.now ≤ most_enums }
    ensures { IfOk result (λ all. all ≡ spec.takes_all (whole_statement enums.now tokens.old)) }
{
    let mut rows = Items::new(alloc);
    match read_statement(alloc, tokens, enums, 0, &mut rows) {
        Ok(_) => Ok(true),
        Err(ReadError::Memory) => Err(AllocError),
        Err(ReadError::Unexpected) => Ok(tokens.is_at_end()),
    }
}

/// Whether the text fits after the front.
pub(crate) fn fits<'k>(
    alloc: Global,
    enums: &[EnumDef],
    front: &'k [ScriptToken<'_>],
    text: &'k str,
) -> Result<bool, Memory>
    requires { length enums.now ≤ most_enums }
    ensures { IfOk result (λ fit. fit ≡ spec.fits enums.now front.now text.now) }
{
    let mut tokens = ScriptTokens::after(front, text.as_bytes());
    takes_all(alloc, &mut tokens, enums)
}

/// Whether the text fits after the front, and not every name.
pub(crate) fn fits_alone<'k>(
    alloc: Global,
    enums: &[EnumDef],
    front: &'k [ScriptToken<'_>],
    text: &'k str,
) -> Result<bool, Memory>
    requires { length enums.now ≤ most_enums }
    ensures { IfOk result (λ fit. fit ≡ (spec.fits enums.now front.now text.now && not
        (spec.fits enums.now front.now spec.no_name))) }
{
    if !fits(alloc, enums, front, text)? {
        return Ok(false);
    }
    let any = fits(alloc, enums, front, NO_NAME)?;
    Ok(!any)
}

// ---- the tokens before a stop

/// The token this many before the end of the front.
pub(crate) fn last<'k>(back: usize, front: &'k [ScriptToken<'_>]) -> Option<ScriptToken<'k>>
    ensures { result ≡ spec.last back front.now }
{
    if front.len() < back {
        return None;
    }
    token_at(front.len() - back, front)
}

/// The token of this number.
fn token_at<'k>(at: usize, front: &'k [ScriptToken<'_>]) -> Option<ScriptToken<'k>>
    ensures { result ≡ slice_get front.now at }
{
    match front.get(at) {
        Some(token) => Some(token.copied()),
        None => None,
    }
}

fn a_word_is(word: Word, token: &Option<ScriptToken<'_>>) -> bool
    ensures { result ≡ spec.a_word_is word token.now }
{
    match token {
        Some(token) => is_word(token.kind(), word),
        None => false,
    }
}

fn a_sign_is(byte: u8, token: &Option<ScriptToken<'_>>) -> bool
    ensures { result ≡ spec.a_sign_is byte token.now }
{
    match token {
        Some(token) => is_sign(token.kind(), byte),
        None => false,
    }
}

fn is_a_name(token: &Option<ScriptToken<'_>>) -> bool
    ensures { result ≡ spec.is_a_name token.now }
{
    match token {
        Some(token) => is_identifier(token.kind()),
        None => false,
    }
}

/// Whether the token this many before the end of the front is this word.
pub(crate) fn ends_with_word(back: usize, word: Word, front: &[ScriptToken<'_>]) -> bool
    ensures { result ≡ spec.a_word_is word (spec.last back front.now) }
{
    a_word_is(word, &last(back, front))
}

/// Whether the token this many before the end of the front is this sign.
pub(crate) fn ends_with_sign(back: usize, byte: u8, front: &[ScriptToken<'_>]) -> bool
    ensures { result ≡ spec.a_sign_is byte (spec.last back front.now) }
{
    a_sign_is(byte, &last(back, front))
}

/// Whether the token this many before the end of the front is an identifier.
pub(crate) fn ends_with_name(back: usize, front: &[ScriptToken<'_>]) -> bool
    ensures { result ≡ spec.is_a_name (spec.last back front.now) }
{
    is_a_name(&last(back, front))
}

/// Whether the token of this number is this word.
pub(crate) fn has_word(at: usize, word: Word, front: &[ScriptToken<'_>]) -> bool
    ensures { result ≡ spec.has_word at word front.now }
{
    a_word_is(word, &token_at(at, front))
}

/// Whether it is the schema that there is.
fn is_schema(alloc: Global, token: &Option<ScriptToken<'_>>) -> Result<bool, Memory>
    ensures { IfOk result (λ is. is ≡ spec.is_schema token.now) }
{
    match token {
        Some(token) => is_schema_name(alloc, token),
        None => Ok(false),
    }
}

fn is_schema_name(alloc: Global, token: &ScriptToken<'_>) -> Result<bool, Memory>
    ensures { IfOk result (λ is. is ≡ (is_identifier token.now.kind && trees.is_public
        token.now.text)) }
{
    let text = token.text(alloc)?;
    Ok(is_identifier(token.kind()) && is_public(&text))
}

/// Whether the token this many before the end of the front is the schema that there is.
pub(crate) fn ends_with_public(
    alloc: Global,
    back: usize,
    front: &[ScriptToken<'_>],
) -> Result<bool, Memory>
    ensures { IfOk result (λ is. is ≡ spec.is_schema (spec.last back front.now)) }
{
    is_schema(alloc, &last(back, front))
}

/// The front without its last tokens, this many.
pub(crate) fn without_last<'f, 'a>(
    back: usize,
    front: &'f [ScriptToken<'a>],
) -> &'f [ScriptToken<'a>]
    ensures { result.now ≡ spec.without_last back front.entry.now }
{
    &front[..front.len().saturating_sub(back)]
}

/// The last tokens of the front, this many.
pub(crate) fn last_from<'f, 'a>(back: usize, front: &'f [ScriptToken<'a>]) -> &'f [ScriptToken<'a>]
    ensures { result.now ≡ spec.last_from back front.entry.now }
{
    &front[front.len().saturating_sub(back)..]
}

/// Whether the positions are one.
fn stands_at(pos: Pos, other: Pos) -> bool
    ensures { result ≡ spec.stands_at pos other }
{
    pos.line == other.line && pos.column == other.column
}

/// The tokens before the one at the position, at most this many.
pub(crate) fn first_before<'a>(
    alloc: Global,
    start: &ScriptTokens<'a, '_>,
    pos: Pos,
    most: usize,
) -> Result<Vec<ScriptToken<'a>>, Memory>
    ensures { IfOk result (λ front. front.items ≡ take most (spec.lexemes_before pos
        start.now)) }
{
    let mut tokens = start.fork();
    let mut front = Vec::new(alloc);
    for _turn in 0..most {
        let Some(token) = tokens.peek() else {
            return Ok(front);
        };
        if stands_at(token.pos(), pos) {
            return Ok(front);
        }
        front.push(token)?;
        tokens.skip();
    }
    Ok(front)
}

/// The tokens before the one at the position.
#[tactic(auto, using(crate::proofs::Fronts::all_before))]
pub(crate) fn tokens_before<'a>(
    alloc: Global,
    start: &ScriptTokens<'a, '_>,
    pos: Pos,
) -> Result<Vec<ScriptToken<'a>>, Memory>
    ensures { IfOk result (λ front. front.items ≡ spec.lexemes_before pos start.now) }
{
    let front = first_before(alloc, start, pos, start.left_at_most())?;
    Ok(front)
}
