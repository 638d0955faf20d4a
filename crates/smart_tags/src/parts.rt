//! Lines and words.

ghost use Rattle.std.specs.Prelude.{◌≡◌, ◌≤◌, ◌<◌, length, drop};
ghost use Rattle.std.specs.List.{before_first, after_first, position, position_or_len};
ghost use Rattle.std.specs.Str.{IsUtf8};
ghost use Rattle.smart_tags.specs.Tags.{is_space};
ghost use Rattle.smart_tags.specs.Parts as spec;

/// The first line, and the lines after it.
pub fn first_line(text: &[u8]) -> (&[u8], &[u8])
    ensures first { result.0.now ≡ spec.line_of text.now }
    ensures others { result.1.now ≡ spec.after_line text.now }
    ensures utf8 { IsUtf8 text.now → IsUtf8 result.0.now × IsUtf8 result.1.now }
{
    let mut at = 0;
    'line: while at < text.len() {
        let len = break_len(text, at);
        if len > 0 {
            return (&text[..at], &text[at + len..]);
        }
        at += 1;
    }
    (text, &text[at..])
}

/// How many bytes of the end of a line stand there.
pub fn break_len(text: &[u8], at: usize) -> usize
    requires { at < length text.now }
    ensures { result ≡ spec.break_len (drop at text.now) }
{
    if text[at] == b'\n' {
        1
    } else if text[at] == b'\r' && at + 1 < text.len() && text[at + 1] == b'\n' {
        2
    } else {
        0
    }
}

/// The first word, and what stands after its space.
pub fn first_word(bytes: &[u8]) -> (&[u8], &[u8])
    ensures first { result.0.now ≡ before_first is_space bytes.now }
    ensures others { result.1.now ≡ after_first is_space bytes.now }
    ensures utf8 { IsUtf8 bytes.now → IsUtf8 result.1.now }
{
    let at = first_space(bytes);
    if at < bytes.len() {
        (&bytes[..at], &bytes[at + 1..])
    } else {
        (bytes, &bytes[at..])
    }
}

/// How many bytes stand before the first space.
fn first_space(bytes: &[u8]) -> usize
    ensures place { result ≡ position_or_len is_space bytes.now }
    ensures within { result ≤ length bytes.now }
{
    match find_space(bytes) {
        Some(at) => at,
        None => bytes.len(),
    }
}

fn find_space(bytes: &[u8]) -> Option<usize>
    ensures { result ≡ position is_space bytes.now }
{
    bytes.iter().position(|b| *b == b' ')
}
