//! Integers as they are spelled (section 2.9.1).

ghost use Rattle.std.specs.Prelude.{◌≡◌};
ghost use Rattle.std.specs.List.{list_all};
ghost use Rattle.gql_input.specs.Coercions.{Coercion};
ghost use Rattle.gql_input.specs.Spelled as spec;

use crate::fault::{OUT_OF_RANGE, WRONG_KIND};

fn is_digit(byte: u8) -> bool
    ensures { result ≡ spec.is_digit byte }
{
    byte.is_ascii_digit()
}

fn are_all_digits(bytes: &[u8]) -> bool
    ensures { result ≡ list_all spec.is_digit bytes.now }
{
    bytes.iter().all(|byte| is_digit(*byte))
}

fn are_digits(bytes: &[u8]) -> bool
    ensures { result ≡ spec.are_digits bytes.now }
{
    match bytes {
        [] => false,
        [byte] => is_digit(*byte),
        [b'0', _, ..] => false,
        _ => are_all_digits(bytes),
    }
}

fn is_int_value(bytes: &[u8]) -> bool
    ensures { result ≡ spec.is_int_value bytes.now }
{
    match bytes {
        [] => false,
        [b'-', digits @ ..] => are_digits(digits),
        _ => are_digits(bytes),
    }
}

/// The integer of 64 bits that the text spells, or the number of the fault.
pub(crate) fn read_integer(text: &str) -> Result<i64, u8>
    ensures { result ≡ spec.integer_spelled text.now }
{
    if !is_int_value(text.as_bytes()) {
        return Err(WRONG_KIND);
    }
    match text.parse::<i64>() {
        Ok(number) => Ok(number),
        Err(_) => Err(OUT_OF_RANGE),
    }
}
