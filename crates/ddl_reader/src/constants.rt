//! Literals after DEFAULT as the catalog takes them.

ghost use Rattle.std.specs.Prelude.{◌≡◌, ◌≤◌, ◌^◌, IfOk};
ghost use Rattle.ddl_reader.specs.Parts as spec;

use crate::script::Literal;
use pg_base::Memory;
use pg_catalog::Literal as Constant;
use std::alloc::Global;

/// The least number whose digits are too many for any column.
const PAST_INTEGERS: u64 = (1u64 << 63) + 1;

/// A number, or one of those that are too great, with one more digit.
fn longer(number: u64, digit: u8) -> u64
    requires { number ≤ spec.past_integers }
    ensures value { result ≡ spec.longer number digit }
    ensures small { result ≤ spec.past_integers }
{
    let next = number
        .saturating_mul(10)
        .saturating_add(digit.saturating_sub(b'0') as u64);
    next.min(PAST_INTEGERS)
}

/// The number that digits spell, up to the first that is too great.
fn magnitude_of(digits: &[u8]) -> u64
    ensures value { result ≡ spec.magnitude digits.now }
    ensures small { result ≤ spec.past_integers }
{
    let mut number = 0u64;
    for digit in digits {
        number = longer(number, *digit);
    }
    number
}

fn positive(number: u64) -> Constant
    ensures { result ≡ spec.positive number }
{
    if number < 1u64 << 63 {
        return Constant::Int(number as i64);
    }
    Constant::LongInt
}

fn negative(number: u64) -> Constant
    ensures { result ≡ spec.negative number }
{
    if number < 1u64 << 63 {
        return Constant::Int(-(number as i64));
    }
    if number == 1u64 << 63 {
        return Constant::Int(i64::MIN);
    }
    Constant::LongInt
}

/// Digits, with a `-` before them where one stands there.
fn integer_of(digits: &[u8]) -> Constant
    ensures { result ≡ spec.integer_of digits.now }
{
    match digits {
        [b'-', rest @ ..] => negative(magnitude_of(rest)),
        _ => positive(magnitude_of(digits)),
    }
}

/// The literal as the catalog takes it; the word DEFAULT never stands after DEFAULT.
pub(crate) fn constant_of(alloc: Global, literal: &Literal) -> Result<Constant, Memory>
    ensures { IfOk result (λ constant. constant ≡ spec.constant_of literal.now) }
{
    match literal {
        Literal::Number(digits) => Ok(integer_of(digits.bytes())),
        Literal::Str(text) => {
            let copy = text.to_text(alloc)?;
            Ok(Constant::Text(copy))
        }
        Literal::True => Ok(Constant::Bool(true)),
        Literal::False => Ok(Constant::Bool(false)),
        Literal::Null => Ok(Constant::Null),
        Literal::Default => Ok(Constant::Null),
    }
}
