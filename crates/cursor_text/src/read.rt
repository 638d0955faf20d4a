//! Cursors, read.

ghost use Rattle.std.specs.Prelude.{◌≡◌, ◌++◌, IfOk, IfSome, None};
ghost use Rattle.cursor_text.specs.CursorText.{IsCursor, IsNoCursor};
ghost use Rattle.cursor_text.specs.Reader.{Reads, after_items, until};
ghost use Rattle.cursor_text.specs.Reading as spec;

use crate::bytes::Bytes;
use crate::cursor::Cursor;
use crate::fault::ReadFault;
use crate::numbers::{integer, natural};
use crate::texts::{text, text_rest};
use base64::DecodeAllocError;
use base64::engine::general_purpose::STANDARD;
use pg_base::{Memory, Text, Value};
use sqlite_items::Items;
use std::alloc::{AllocError, Global};

#[tactic(auto, unfolding(crate::specs::Reading::null_rest))]
fn null_rest(bytes: &mut Bytes<'_>) -> Result<Value, ReadFault>
    ensures { Reads (spec.null_rest bytes.old.rest.now) result bytes.new.rest.now }
{
    bytes.byte(b'u')?;
    bytes.byte(b'l')?;
    bytes.byte(b'l')?;
    Ok(Value::Null)
}

#[tactic(auto, unfolding(crate::specs::Reading::true_rest))]
fn true_rest(bytes: &mut Bytes<'_>) -> Result<Value, ReadFault>
    ensures { Reads (spec.true_rest bytes.old.rest.now) result bytes.new.rest.now }
{
    bytes.byte(b'r')?;
    bytes.byte(b'u')?;
    bytes.byte(b'e')?;
    Ok(Value::Bool(true))
}

#[tactic(auto, unfolding(crate::specs::Reading::false_rest))]
fn false_rest(bytes: &mut Bytes<'_>) -> Result<Value, ReadFault>
    ensures { Reads (spec.false_rest bytes.old.rest.now) result bytes.new.rest.now }
{
    bytes.byte(b'a')?;
    bytes.byte(b'l')?;
    bytes.byte(b's')?;
    bytes.byte(b'e')?;
    Ok(Value::Bool(false))
}

#[tactic(auto, unfolding(crate::specs::Reading::text_value))]
fn text_value(alloc: Global, bytes: &mut Bytes<'_>) -> Result<Value, ReadFault>
    ensures { Reads (spec.text_value bytes.old.rest.now) result bytes.new.rest.now }
{
    let text = text_rest(alloc, bytes)?;
    Ok(Value::Text(text))
}

#[tactic(auto, unfolding(crate::specs::Reading::int_value))]
fn int_value(bytes: &mut Bytes<'_>) -> Result<Value, ReadFault>
    ensures { Reads (spec.int_value bytes.old.rest.now) result bytes.new.rest.now }
{
    let number = integer(bytes)?;
    Ok(Value::Int(number))
}

#[tactic(auto, unfolding(crate::specs::Reading::text_or_int))]
fn text_or_int(alloc: Global, bytes: &mut Bytes<'_>) -> Result<Value, ReadFault>
    ensures { Reads (spec.text_or_int bytes.old.rest.now) result bytes.new.rest.now }
{
    if bytes.eat(b'"') {
        return text_value(alloc, bytes);
    }
    int_value(bytes)
}

/// A value of an order: a null, a truth, a text or an integer.
#[tactic(auto, unfolding(crate::specs::Reading::mark_value))]
fn mark_value(alloc: Global, bytes: &mut Bytes<'_>) -> Result<Value, ReadFault>
    ensures { Reads (spec.mark_value bytes.old.rest.now) result bytes.new.rest.now }
{
    if bytes.eat(b'n') {
        return null_rest(bytes);
    }
    if bytes.eat(b't') {
        return true_rest(bytes);
    }
    if bytes.eat(b'f') {
        return false_rest(bytes);
    }
    text_or_int(alloc, bytes)
}

#[tactic(auto, unfolding(crate::specs::Reading::later))]
fn later_text(alloc: Global, bytes: &mut Bytes<'_>) -> Result<Text, ReadFault>
    ensures { Reads (spec.later spec.text bytes.old.rest.now) result bytes.new.rest.now }
{
    bytes.byte(b',')?;
    let text = text(alloc, bytes)?;
    Ok(text)
}

#[tactic(auto, unfolding(crate::specs::Reading::later))]
fn later_value(alloc: Global, bytes: &mut Bytes<'_>) -> Result<Value, ReadFault>
    ensures { Reads (spec.later spec.mark_value bytes.old.rest.now) result bytes.new.rest.now }
{
    bytes.byte(b',')?;
    let value = mark_value(alloc, bytes)?;
    Ok(value)
}

/// The names after the first, up to the bracket that closes the list.
fn later_texts(
    alloc: Global,
    bytes: &mut Bytes<'_>,
    mut found: Items<Text>,
) -> Result<Items<Text>, ReadFault>
    ensures { Reads (after_items found (until 93 (spec.later spec.text)) bytes.old.rest.now) result
        bytes.new.rest.now }
{
    for _turn in 0..bytes.rest.len() {
        if bytes.eat(b']') {
            return Ok(found);
        }
        found.push(later_text(alloc, bytes)?)?;
    }
    Err(ReadFault::NoCursor)
}

/// The values after the first, up to the bracket that closes the list.
fn later_values(
    alloc: Global,
    bytes: &mut Bytes<'_>,
    mut found: Items<Value>,
) -> Result<Items<Value>, ReadFault>
    ensures { Reads (after_items found (until 93 (spec.later spec.mark_value)) bytes.old.rest.now)
        result bytes.new.rest.now }
{
    for _turn in 0..bytes.rest.len() {
        if bytes.eat(b']') {
            return Ok(found);
        }
        found.push(later_value(alloc, bytes)?)?;
    }
    Err(ReadFault::NoCursor)
}

#[tactic(auto, unfolding(crate::specs::Reading::some_items))]
fn some_texts(alloc: Global, bytes: &mut Bytes<'_>) -> Result<Items<Text>, ReadFault>
    ensures { Reads (spec.some_items spec.text bytes.old.rest.now) result bytes.new.rest.now }
{
    let mut found = Items::new(alloc);
    found.push(text(alloc, bytes)?)?;
    later_texts(alloc, bytes, found)
}

#[tactic(auto, unfolding(crate::specs::Reading::some_items))]
fn some_values(alloc: Global, bytes: &mut Bytes<'_>) -> Result<Items<Value>, ReadFault>
    ensures { Reads (spec.some_items spec.mark_value bytes.old.rest.now) result
        bytes.new.rest.now }
{
    let mut found = Items::new(alloc);
    found.push(mark_value(alloc, bytes)?)?;
    later_values(alloc, bytes, found)
}

#[tactic(auto, unfolding(crate::specs::Reading::list))]
fn order(alloc: Global, bytes: &mut Bytes<'_>) -> Result<Items<Text>, ReadFault>
    ensures { Reads (spec.list spec.text bytes.old.rest.now) result bytes.new.rest.now }
{
    bytes.byte(b'[')?;
    if bytes.eat(b']') {
        return Ok(Items::new(alloc));
    }
    let names = some_texts(alloc, bytes)?;
    Ok(names)
}

#[tactic(auto, unfolding(crate::specs::Reading::list))]
fn values(alloc: Global, bytes: &mut Bytes<'_>) -> Result<Items<Value>, ReadFault>
    ensures { Reads (spec.list spec.mark_value bytes.old.rest.now) result bytes.new.rest.now }
{
    bytes.byte(b'[')?;
    if bytes.eat(b']') {
        return Ok(Items::new(alloc));
    }
    let values = some_values(alloc, bytes)?;
    Ok(values)
}

/// `[ORDER,VALUES,NUMBER]`.
#[tactic(auto, unfolding(crate::specs::Reading::cursor))]
fn cursor(alloc: Global, bytes: &mut Bytes<'_>) -> Result<Cursor, ReadFault>
    ensures { Reads (spec.cursor bytes.old.rest.now) result bytes.new.rest.now }
{
    bytes.byte(b'[')?;
    let order = order(alloc, bytes)?;
    bytes.byte(b',')?;
    let values = values(alloc, bytes)?;
    bytes.byte(b',')?;
    let number = natural(bytes)?;
    bytes.byte(b']')?;
    Ok(Cursor {
        order,
        values,
        number,
    })
}

/// Whether a cursor that was read has a value for each name, a row's number, and nothing after it.
fn is_whole(cursor: &Cursor, rest: &[u8]) -> bool
    ensures { result ≡ spec.is_whole cursor.now rest.now }
{
    rest.is_empty() && cursor.values.len() == cursor.order.len() && cursor.number > 0
}

/// The cursor that the JSON spells.
#[tactic(auto, unfolding(crate::specs::Reading::cursor_in))]
fn cursor_in(alloc: Global, json: &[u8]) -> Result<Option<Cursor>, Memory>
    ensures { IfOk result (λ cursor. cursor ≡ spec.cursor_in json.now) }
{
    let mut bytes = Bytes { rest: json };
    match cursor(alloc, &mut bytes) {
        Ok(cursor) => {
            if is_whole(&cursor, bytes.rest) {
                Ok(Some(cursor))
            } else {
                Ok(None)
            }
        }
        Err(ReadFault::NoCursor) => Ok(None),
        Err(ReadFault::Memory) => Err(AllocError),
    }
}

/// The cursor that a text is, and none where it is the text of no cursor.
pub fn read_cursor(alloc: Global, text: &[u8]) -> Result<Option<Cursor>, Memory>
    ensures value { IfOk result (λ cursor. cursor ≡ spec.cursor_at text.now) }
    ensures found { IfOk result (λ cursor. IfSome cursor (IsCursor text.now)) }
    ensures none { IfOk result (λ cursor. cursor ≡ None → IsNoCursor text.now) }
{
    match STANDARD.decode(alloc, text) {
        Ok(json) => cursor_in(alloc, json.as_slice()),
        Err(DecodeAllocError::DecodeError(_)) => Ok(None),
        Err(DecodeAllocError::OutOfMemory) => Err(AllocError),
    }
}
