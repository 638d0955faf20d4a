//! Numbers, read.

ghost use Rattle.std.specs.Prelude.{◌≡◌, ◌≤◌, length, take_while, drop};
ghost use Rattle.std.specs.Char.{is_ascii_digit};
ghost use Rattle.std.specs.Str.Parse.{AllDigits};
ghost use Rattle.cursor_text.specs.Reader.{Reads};
ghost use Rattle.cursor_text.specs.Reading as spec;

use crate::bytes::Bytes;
use crate::fault::ReadFault;

fn digit_count(bytes: &[u8]) -> usize
    ensures value { result ≡ length (take_while is_ascii_digit bytes.now) }
    ensures within { result ≤ length bytes.now }
{
    bytes
        .iter()
        .take_while(|byte| byte.is_ascii_digit())
        .count()
}

/// Whether digits are spelled with no leading zero.
fn is_spelled(digits: &[u8]) -> bool
    ensures { result ≡ spec.is_spelled digits.now }
{
    match digits {
        [] => false,
        [_] => true,
        [first, _, ..] => *first != b'0',
    }
}

/// The number that these digits are.
fn natural_of(digits: &[u8]) -> Option<u64>
    requires { AllDigits 10 digits.now }
    ensures { result ≡ spec.natural_of digits.now }
{
    if !is_spelled(digits) {
        return None;
    }
    match str::from_utf8(digits) {
        Ok(text) => text.parse().ok(),
        Err(_) => None,
    }
}

/// An unsigned integer of 64 bits, in decimal with no leading zero.
#[tactic(auto, using(crate::proofs::Runs::take_prefix), unfolding(crate::specs::Reading::natural))]
pub(crate) fn natural(bytes: &mut Bytes<'_>) -> Result<u64, ReadFault>
    ensures { Reads (spec.natural bytes.old.rest.now) result bytes.new.rest.now }
{
    let (digits, rest) = bytes.rest.split_at(digit_count(bytes.rest));
    let Some(number) = natural_of(digits) else {
        return Err(ReadFault::NoCursor);
    };
    bytes.rest = rest;
    Ok(number)
}

fn negative_of(number: u64) -> Option<i64>
    ensures { result ≡ spec.negative_of number }
{
    if number == 0 {
        return None;
    }
    let below = number - 1;
    if below > i64::MAX as u64 {
        return None;
    }
    Some(-1 - below as i64)
}

fn positive_of(number: u64) -> Option<i64>
    ensures { result ≡ spec.positive_of number }
{
    if number > i64::MAX as u64 {
        return None;
    }
    Some(number as i64)
}

#[tactic(auto, unfolding(crate::specs::Reading::negative))]
fn negative(bytes: &mut Bytes<'_>) -> Result<i64, ReadFault>
    ensures { Reads (spec.negative bytes.old.rest.now) result bytes.new.rest.now }
{
    let number = natural(bytes)?;
    match negative_of(number) {
        Some(integer) => Ok(integer),
        None => Err(ReadFault::NoCursor),
    }
}

#[tactic(auto, unfolding(crate::specs::Reading::positive))]
fn positive(bytes: &mut Bytes<'_>) -> Result<i64, ReadFault>
    ensures { Reads (spec.positive bytes.old.rest.now) result bytes.new.rest.now }
{
    let number = natural(bytes)?;
    match positive_of(number) {
        Some(integer) => Ok(integer),
        None => Err(ReadFault::NoCursor),
    }
}

/// A signed integer of 64 bits, in decimal with no leading zero, and never `-0`.
#[tactic(auto, unfolding(crate::specs::Reading::integer))]
pub(crate) fn integer(bytes: &mut Bytes<'_>) -> Result<i64, ReadFault>
    ensures { Reads (spec.integer bytes.old.rest.now) result bytes.new.rest.now }
{
    if bytes.eat(b'-') {
        return negative(bytes);
    }
    positive(bytes)
}
