//! Numbers as they are written.

ghost use Rattle.std.specs.Prelude.{◌≡◌};
ghost use Rattle.rows_reader.specs.Cells as spec;

use ddl_reader::CompactText;

fn parse_int(text: &str) -> Option<i64>
    ensures { result ≡ spec.int_number text.now }
{
    match text.parse::<i32>() {
        Ok(number) => Some(i64::from(number)),
        Err(_) => None,
    }
}

fn parse_bigint(text: &str) -> Option<i64>
    ensures { result ≡ spec.bigint_number text.now }
{
    match text.parse::<i64>() {
        Ok(number) => Some(number),
        Err(_) => None,
    }
}

/// The number of 32 bits that a text writes.
pub(crate) fn int_number(text: &CompactText) -> Option<i64>
    ensures { result ≡ spec.int_number text.now }
{
    match str::from_utf8(text.bytes()) {
        Ok(written) => parse_int(written),
        Err(_) => unreachable!(),
    }
}

/// The number of 64 bits that a text writes.
pub(crate) fn bigint_number(text: &CompactText) -> Option<i64>
    ensures { result ≡ spec.bigint_number text.now }
{
    match str::from_utf8(text.bytes()) {
        Ok(written) => parse_bigint(written),
        Err(_) => unreachable!(),
    }
}
