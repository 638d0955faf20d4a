//! The fields of a head.

ghost use Rattle.std.specs.Prelude.{◌≡◌, ◌≤◌, IfOk, map, length, take, take_while};
ghost use Rattle.std.specs.List.{list_all, prefix_len};
ghost use Rattle.std.specs.Char.{is_ascii_digit};
ghost use Rattle.httparse.specs.Spans.{span_bytes, header_bytes};
ghost use Rattle.httparse.specs.Grammar.{is_ows};
ghost use Rattle.http_sessions.specs.HeadTests as spec;

use crate::refusal::Refusal;
use httparse::spans::{HeaderSpan, Span};
use pg_base::limits::MOST_BODY_BYTES;

/// The bytes of a span, of which those past the end are left out.
pub fn span_text(head: &[u8], span: Span) -> &[u8]
    ensures { result.now ≡ span_bytes head.now span }
{
    let end = span.end.min(head.len());
    let start = span.start.min(end);
    &head[start..end]
}

pub fn is_word(text: &[u8], word: &[u8]) -> bool
    ensures { result ≡ spec.is_word text.now word.now }
{
    text.eq_ignore_ascii_case(word)
}

fn is_blank(byte: u8) -> bool
    ensures { result ≡ is_ows byte }
{
    byte == b' ' || byte == b'\t'
}

fn are_blank(bytes: &[u8]) -> bool
    ensures { result ≡ list_all is_ows bytes.now }
{
    bytes.iter().all(|byte| is_blank(*byte))
}

fn begins_close(text: &[u8]) -> bool
    ensures { result ≡ spec.begins_close text.now }
{
    let count = text.len().min(5);
    if !is_word(&text[..count], b"close") {
        return false;
    }
    are_blank(&text[count..])
}

fn blank_count(part: &[u8]) -> usize
    ensures count { result ≡ length (take_while is_ows part.now) }
    ensures within { result ≤ length part.now }
{
    part.iter().take_while(|byte| is_blank(**byte)).count()
}

fn is_close(part: &[u8]) -> bool
    ensures { result ≡ spec.is_close part.now }
{
    let blanks = blank_count(part);
    begins_close(&part[blanks..])
}

fn comma_place(text: &[u8]) -> usize
    ensures count { result ≡ prefix_len spec.is_no_comma text.now }
    ensures within { result ≤ length text.now }
{
    text.iter().take_while(|byte| **byte != b',').count()
}

/// What stands before the first comma.
fn first_part(text: &[u8]) -> &[u8]
    ensures part { result.now ≡ take (prefix_len spec.is_no_comma text.now) text.now }
    ensures count { length result.now ≡ prefix_len spec.is_no_comma text.now }
    ensures within { length result.now ≤ length text.now }
{
    let count = comma_place(text);
    &text[..count]
}

/// Whether a part between commas is the word close.
fn has_close(value: &[u8]) -> bool
    ensures { result ≡ spec.has_close value.now }
{
    let mut at = 0;
    'parts: loop {
        let part = first_part(&value[at..]);
        if is_close(part) {
            return true;
        }
        let end = at + part.len();
        if end == value.len() {
            return false;
        }
        at = end + 1;
    }
}

fn is_encoding(head: &[u8], header: &HeaderSpan) -> bool
    ensures { result ≡ spec.is_encoding (span_bytes head.now header.now.name)
        (span_bytes head.now header.now.value) }
{
    is_word(span_text(head, header.name), b"transfer-encoding")
}

fn is_expecting(head: &[u8], header: &HeaderSpan) -> bool
    ensures { result ≡ spec.is_expecting (span_bytes head.now header.now.name)
        (span_bytes head.now header.now.value) }
{
    if !is_word(span_text(head, header.name), b"expect") {
        return false;
    }
    is_word(span_text(head, header.value), b"100-continue")
}

fn is_closing(head: &[u8], header: &HeaderSpan) -> bool
    ensures { result ≡ spec.is_closing (span_bytes head.now header.now.name)
        (span_bytes head.now header.now.value) }
{
    if !is_word(span_text(head, header.name), b"connection") {
        return false;
    }
    has_close(span_text(head, header.value))
}

fn is_length(head: &[u8], header: &HeaderSpan) -> bool
    ensures { result ≡ spec.is_length (span_bytes head.now header.now.name) }
{
    is_word(span_text(head, header.name), b"content-length")
}

pub fn has_encoding(head: &[u8], headers: &[HeaderSpan]) -> bool
    ensures { result ≡ spec.any_field spec.is_encoding (map (header_bytes head.now) headers.now) }
{
    for header in headers {
        if is_encoding(head, header) {
            return true;
        }
    }
    false
}

pub fn has_expecting(head: &[u8], headers: &[HeaderSpan]) -> bool
    ensures { result ≡ spec.any_field spec.is_expecting (map (header_bytes head.now) headers.now) }
{
    for header in headers {
        if is_expecting(head, header) {
            return true;
        }
    }
    false
}

pub fn has_closing(head: &[u8], headers: &[HeaderSpan]) -> bool
    ensures { result ≡ spec.any_field spec.is_closing (map (header_bytes head.now) headers.now) }
{
    for header in headers {
        if is_closing(head, header) {
            return true;
        }
    }
    false
}

fn length_count(head: &[u8], headers: &[HeaderSpan]) -> usize
    ensures { result ≡ spec.length_count (map (header_bytes head.now) headers.now) }
{
    headers
        .iter()
        .filter(|header| is_length(head, header))
        .count()
}

/// The value of the first field that gives a length.
fn first_length<'a>(head: &'a [u8], headers: &[HeaderSpan]) -> &'a [u8]
    ensures { result.now ≡ spec.first_length (map (header_bytes head.now) headers.now) }
{
    for header in headers {
        if is_length(head, header) {
            return span_text(head, header.value);
        }
    }
    b""
}

fn all_digits(text: &[u8]) -> bool
    ensures { result ≡ list_all is_ascii_digit text.now }
{
    text.iter().all(|byte| byte.is_ascii_digit())
}

fn are_digits(text: &[u8]) -> bool
    ensures { result ≡ spec.are_digits text.now }
{
    if text.is_empty() {
        return false;
    }
    all_digits(text)
}

/// The number of digits, where it is within the limit of a body.
fn number_of(digits: &[u8]) -> Result<usize, Refusal>
    ensures value { result ≡ spec.within_limit (spec.number_from 0 digits.now) }
    ensures small { IfOk result (λ size. size ≤ 1048576) }
{
    let mut number = 0;
    for digit in digits {
        number = number * 10 + usize::from(digit.saturating_sub(b'0'));
        if number > MOST_BODY_BYTES {
            return Err(Refusal::BodyTooLarge);
        }
    }
    Ok(number)
}

fn size_of(value: &[u8]) -> Result<usize, Refusal>
    ensures value { result ≡ spec.size_of value.now }
    ensures small { IfOk result (λ size. size ≤ 1048576) }
{
    if !are_digits(value) {
        return Err(Refusal::BadLength);
    }
    number_of(value)
}

/// The size of the body that the fields give.
pub fn size_in(head: &[u8], headers: &[HeaderSpan]) -> Result<usize, Refusal>
    ensures value { result ≡ spec.size_in (map (header_bytes head.now) headers.now) }
    ensures small { IfOk result (λ size. size ≤ 1048576) }
{
    let count = length_count(head, headers);
    if count == 0 {
        return Err(Refusal::LengthRequired);
    }
    if count > 1 {
        return Err(Refusal::BadLength);
    }
    size_of(first_length(head, headers))
}
