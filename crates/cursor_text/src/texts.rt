//! Texts, read.

ghost use Rattle.std.specs.Prelude.{◌≡◌, ◌<◌, IfSome};
ghost use Rattle.cursor_text.specs.Reader.{Reads, until};
ghost use Rattle.cursor_text.specs.Reading as spec;

use crate::bytes::Bytes;
use crate::fault::ReadFault;
use pg_base::{Sequence, Text};
use std::alloc::Global;

/// What a hexadecimal digit in lower case stands for.
fn hex_value(digit: u8) -> Option<u8>
    ensures value { result ≡ spec.hex_value digit }
    ensures small { IfSome result (λ value. value < 16) }
{
    if digit < b'0' {
        None
    } else if digit <= b'9' {
        Some(digit - b'0')
    } else if digit < b'a' {
        None
    } else if digit <= b'f' {
        Some(digit - b'a' + 10)
    } else {
        None
    }
}

/// Whether a byte of a text has no other escape than its number.
fn is_numbered(byte: u8) -> bool
    ensures { result ≡ spec.is_numbered byte }
{
    byte < 0x20 && !matches!(byte, 0x08 | b'\t' | b'\n' | 0x0c | b'\r')
}

fn numbered_of(high: u8, low: u8) -> Option<u8>
    requires high { high < 16 }
    requires low { low < 16 }
    ensures { result ≡ spec.numbered_of high low }
{
    let byte = 16 * high + low;
    if !is_numbered(byte) {
        return None;
    }
    Some(byte)
}

/// The byte that two hexadecimal digits stand for.
fn control_of(high: u8, low: u8) -> Option<u8>
    ensures { result ≡ spec.control_of high low }
{
    let high = hex_value(high)?;
    let low = hex_value(low)?;
    numbered_of(high, low)
}

/// What stands after `\u`.
#[tactic(auto, unfolding(crate::specs::Reading::numbered))]
fn numbered(bytes: &mut Bytes<'_>) -> Result<u8, ReadFault>
    ensures { Reads (spec.numbered bytes.old.rest.now) result bytes.new.rest.now }
{
    bytes.byte(b'0')?;
    bytes.byte(b'0')?;
    let high = bytes.any()?;
    let low = bytes.any()?;
    match control_of(high, low) {
        Some(byte) => Ok(byte),
        None => Err(ReadFault::NoCursor),
    }
}

/// The byte that a letter after `\` stands for.
fn lettered(letter: u8) -> Option<u8>
    ensures { result ≡ spec.lettered letter }
{
    match letter {
        b'"' => Some(b'"'),
        b'\\' => Some(b'\\'),
        b'b' => Some(0x08),
        b't' => Some(b'\t'),
        b'n' => Some(b'\n'),
        b'f' => Some(0x0c),
        b'r' => Some(b'\r'),
        _ => None,
    }
}

/// What stands after `\`.
#[tactic(auto, unfolding(crate::specs::Reading::escape))]
fn escape(bytes: &mut Bytes<'_>) -> Result<u8, ReadFault>
    ensures { Reads (spec.escape bytes.old.rest.now) result bytes.new.rest.now }
{
    let letter = bytes.any()?;
    if letter == b'u' {
        return numbered(bytes);
    }
    match lettered(letter) {
        Some(byte) => Ok(byte),
        None => Err(ReadFault::NoCursor),
    }
}

/// One byte of a text, as it stands there or by its escape.
#[tactic(auto, unfolding(crate::specs::Reading::text_byte))]
fn text_byte(bytes: &mut Bytes<'_>) -> Result<u8, ReadFault>
    ensures { Reads (spec.text_byte bytes.old.rest.now) result bytes.new.rest.now }
{
    let byte = bytes.any()?;
    if byte == b'\\' {
        return escape(bytes);
    }
    if byte == b'"' {
        return Err(ReadFault::NoCursor);
    }
    if byte < 0x20 {
        return Err(ReadFault::NoCursor);
    }
    Ok(byte)
}

/// The bytes of a text up to the quote that closes it.
fn text_bytes(alloc: Global, bytes: &mut Bytes<'_>) -> Result<Sequence<u8>, ReadFault>
    ensures { Reads (until 34 spec.text_byte bytes.old.rest.now) result bytes.new.rest.now }
{
    let mut found = Sequence::new(alloc);
    for _turn in 0..bytes.rest.len() {
        if bytes.eat(b'"') {
            return Ok(found);
        }
        found.push(text_byte(bytes)?)?;
    }
    Err(ReadFault::NoCursor)
}

/// These bytes as a text, where they are UTF-8.
fn text_of(bytes: Sequence<u8>) -> Option<Text>
    ensures { result ≡ spec.utf8_of bytes }
{
    match str::from_utf8(bytes.as_slice()) {
        Ok(_) => Some(Text::of_bytes(bytes.into_vec())),
        Err(_) => None,
    }
}

/// What stands after a text's first quote.
#[tactic(auto, unfolding(crate::specs::Reading::text_rest))]
pub(crate) fn text_rest(alloc: Global, bytes: &mut Bytes<'_>) -> Result<Text, ReadFault>
    ensures { Reads (spec.text_rest bytes.old.rest.now) result bytes.new.rest.now }
{
    let found = text_bytes(alloc, bytes)?;
    match text_of(found) {
        Some(text) => Ok(text),
        None => Err(ReadFault::NoCursor),
    }
}

#[tactic(auto, unfolding(crate::specs::Reading::text))]
pub(crate) fn text(alloc: Global, bytes: &mut Bytes<'_>) -> Result<Text, ReadFault>
    ensures { Reads (spec.text bytes.old.rest.now) result bytes.new.rest.now }
{
    bytes.byte(b'"')?;
    let text = text_rest(alloc, bytes)?;
    Ok(text)
}
