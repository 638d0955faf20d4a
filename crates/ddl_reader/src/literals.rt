//! Literals, and the values of rows.

ghost use Rattle.std.specs.Prelude.{◌≡◌, ◌∷◌, IfOk};
ghost use Rattle.parse_rules.specs.Parser.{Reads};
ghost use Rattle.ddl_reader.specs.Reading as spec;
ghost use Rattle.ddl_reader.specs.Trees as trees;

use crate::compact_text::CompactText;
use crate::lexeme::{Expected, Lexeme, is_number, is_sign, is_str, is_word};
use crate::script::Literal;
use crate::tokens::ScriptTokens;
use crate::word::Word;
use parse_rules::{ReadError, TokenStream};
use pg_base::{Memory, Text};
use std::alloc::Global;

fn negated_bytes(alloc: Global, digits: &[u8]) -> Result<Vec<u8>, Memory>
    ensures { IfOk result (λ bytes. bytes.items ≡ 45 ∷ digits.now) }
{
    let mut bytes = Vec::new(alloc);
    bytes.push(b'-')?;
    bytes.extend_from_slice(digits)?;
    Ok(bytes)
}

/// Digits with a `-` before them.
fn negated(alloc: Global, digits: &Text) -> Result<Text, Memory>
    ensures { IfOk result (λ text. text ≡ 45 ∷ digits.now) }
{
    let bytes = negated_bytes(alloc, digits.bytes())?;
    Ok(Text::of_bytes(bytes))
}

#[tactic(auto, unfolding(crate::specs::Reading::negative))]
fn read_negative(alloc: Global, tokens: &mut ScriptTokens<'_, '_>) -> Result<Literal, ReadError>
    ensures { Reads (spec.negative tokens.old) result tokens.new }
{
    let digits = tokens.lexeme(alloc, Expected::Number)?;
    let text = negated(alloc, &digits.text)?;
    let digits = CompactText::of(alloc, text)?;
    Ok(Literal::Number(digits))
}

/// The literal of one token.
fn literal_of(alloc: Global, first: Lexeme) -> Result<Literal, Memory>
    ensures { IfOk result (λ literal. literal ≡ trees.literal_of first) }
{
    let Lexeme { kind, text, pos: _ } = first;
    if is_number(kind) {
        let digits = CompactText::of(alloc, text)?;
        return Ok(Literal::Number(digits));
    }
    if is_str(kind) {
        let string = CompactText::of(alloc, text)?;
        return Ok(Literal::Str(string));
    }
    if is_word(kind, Word::True) {
        return Ok(Literal::True);
    }
    if is_word(kind, Word::False) {
        return Ok(Literal::False);
    }
    Ok(Literal::Null)
}

#[tactic(auto, unfolding(crate::specs::Reading::literal))]
pub(crate) fn read_literal(
    alloc: Global,
    tokens: &mut ScriptTokens<'_, '_>,
) -> Result<Literal, ReadError>
    ensures { Reads (spec.literal tokens.old) result tokens.new }
{
    let first = tokens.lexeme(alloc, Expected::LiteralStart)?;
    if is_sign(first.kind, b'-') {
        return read_negative(alloc, tokens);
    }
    let literal = literal_of(alloc, first)?;
    Ok(literal)
}

#[tactic(auto, unfolding(crate::specs::Reading::default_value))]
fn read_default_value(tokens: &mut ScriptTokens<'_, '_>) -> Result<Literal, ReadError>
    ensures { Reads (spec.default_value tokens.old) result tokens.new }
{
    tokens.expect(Expected::Word(Word::Default))?;
    Ok(Literal::Default)
}

/// A value of a row.
#[tactic(auto, unfolding(crate::specs::Reading::value))]
pub(crate) fn read_value(
    alloc: Global,
    tokens: &mut ScriptTokens<'_, '_>,
) -> Result<Literal, ReadError>
    ensures { Reads (spec.value tokens.old) result tokens.new }
{
    if tokens.sees(Expected::Word(Word::Default)) {
        return read_default_value(tokens);
    }
    read_literal(alloc, tokens)
}
