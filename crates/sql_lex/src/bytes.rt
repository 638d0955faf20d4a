//! Tests on bytes.

ghost use Rattle.std.specs.Prelude.{◌≡◌, ◌≤◌, ◌+◌, length, drop, take_while};
ghost use Rattle.sql_lex.specs.Bytes as spec;

pub fn is_blank(byte: u8) -> bool
    ensures { result ≡ spec.is_blank byte }
{
    matches!(byte, b' ' | b'\t' | b'\n' | b'\x0c' | b'\r')
}

pub fn is_line_end(byte: u8) -> bool
    ensures { result ≡ spec.is_line_end byte }
{
    matches!(byte, b'\n' | b'\r')
}

pub fn is_digit(byte: u8) -> bool
    ensures { result ≡ spec.is_digit byte }
{
    byte >= b'0' && byte <= b'9'
}

pub fn is_word_start(byte: u8) -> bool
    ensures { result ≡ spec.is_word_start byte }
{
    byte == b'_' || (byte >= b'a' && byte <= b'z') || (byte >= b'A' && byte <= b'Z')
}

pub fn is_word_byte(byte: u8) -> bool
    ensures { result ≡ spec.is_word_byte byte }
{
    is_word_start(byte) || is_digit(byte)
}

pub fn is_sign(byte: u8) -> bool
    ensures { result ≡ spec.is_sign byte }
{
    byte >= b'!' && byte <= b'~' && !is_word_byte(byte) && byte != b'"' && byte != b'\''
}

pub fn is_escape_mark(byte: u8) -> bool
    ensures { result ≡ spec.is_escape_mark byte }
{
    matches!(byte, b'E' | b'e')
}

pub fn is_escape(byte: u8) -> bool
    ensures { result ≡ spec.is_escape byte }
{
    matches!(byte, b'n' | b't' | b'\\' | b'\'')
}

/// Whether this byte stands there.
pub fn stands_at(text: &[u8], at: usize, byte: u8) -> bool
    requires { at ≤ length text.now }
    ensures { result ≡ spec.begins_with byte (drop at text.now) }
{
    at < text.len() && text[at] == byte
}

/// Whether these two bytes stand there.
pub fn pair_stands_at(text: &[u8], at: usize, first: u8, second: u8) -> bool
    requires { at ≤ length text.now }
    ensures { result ≡ spec.begins_with_pair first second (drop at text.now) }
{
    at < text.len() && text[at] == first && stands_at(text, at + 1, second)
}

/// Whether what may follow a backslash stands there.
pub fn is_escape_at(text: &[u8], at: usize) -> bool
    requires { at ≤ length text.now }
    ensures { result ≡ spec.begins_escape (drop at text.now) }
{
    at < text.len() && is_escape(text[at])
}

/// The end of a run of letters, digits and `_`.
pub fn word_end(text: &[u8], from: usize) -> usize
    requires { from ≤ length text.now }
    ensures { result ≡ from + length (take_while spec.is_word_byte (drop from text.now)) }
{
    from + word_len(&text[from..])
}

/// The end of a run of digits.
pub fn digits_end(text: &[u8], from: usize) -> usize
    requires { from ≤ length text.now }
    ensures { result ≡ from + length (take_while spec.is_digit (drop from text.now)) }
{
    from + digits_len(&text[from..])
}

fn word_len(bytes: &[u8]) -> usize
    ensures value { result ≡ length (take_while spec.is_word_byte bytes.now) }
    ensures within { result ≤ length bytes.now }
{
    bytes.iter().take_while(|b| is_word_byte(**b)).count()
}

fn digits_len(bytes: &[u8]) -> usize
    ensures value { result ≡ length (take_while spec.is_digit bytes.now) }
    ensures within { result ≤ length bytes.now }
{
    bytes.iter().take_while(|b| is_digit(**b)).count()
}
