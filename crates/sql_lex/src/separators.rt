//! What separates tokens.

ghost use Rattle.std.specs.Prelude.{◌≡◌, ◌≤◌, ◌+◌, length, drop, Ok};
ghost use Rattle.sql_lex.specs.Offsets.{GoesOn};
ghost use Rattle.sql_lex.specs.Separators.{after_separators, after_line, after_comment};

use crate::bytes::{is_blank, is_line_end, pair_stands_at};
use crate::token::{Halt, LexFault};

/// After the separators that stand from a place on.
pub fn separators_end(text: &[u8], from: usize) -> Result<usize, Halt>
    requires { from ≤ length text.now }
    ensures { GoesOn text.now from (after_separators (drop from text.now)) Ok result }
{
    let mut at = from;
    'separators: while at < text.len() {
        let byte = text[at];
        if is_blank(byte) {
            at += 1;
            continue;
        }
        if pair_stands_at(text, at, b'-', b'-') {
            at = line_end(text, at + 2)?;
            continue;
        }
        if pair_stands_at(text, at, b'/', b'*') {
            at = comment_end(text, at)?;
            continue;
        }
        return Ok(at);
    }
    Ok(at)
}

/// After the end of a comment's line.
fn line_end(text: &[u8], from: usize) -> Result<usize, Halt>
    requires { from ≤ length text.now }
    ensures { GoesOn text.now from (after_line (drop from text.now)) after_separators result }
{
    let mut at = from;
    'line: while at < text.len() {
        let byte = text[at];
        if is_line_end(byte) {
            return Ok(at + 1);
        }
        if byte == 0 {
            return Err(Halt::stray(at));
        }
        at += 1;
    }
    Ok(at)
}

/// After the comment that begins there, with those that it holds.
fn comment_end(text: &[u8], from: usize) -> Result<usize, Halt>
    requires { from + 2 ≤ length text.now }
    ensures { GoesOn text.now (from + 2) (after_comment (drop from text.now) 0
        (drop (from + 2) text.now)) after_separators result }
{
    let mut at = from + 2;
    let mut depth = 0usize;
    'comment: while at < text.len() {
        let byte = text[at];
        if byte == 0 {
            return Err(Halt::stray(at));
        }
        if pair_stands_at(text, at, b'*', b'/') {
            at += 2;
            if depth == 0 {
                return Ok(at);
            }
            depth -= 1;
            continue;
        }
        if pair_stands_at(text, at, b'/', b'*') {
            at += 2;
            depth += 1;
            continue;
        }
        at += 1;
    }
    Err(Halt::unterminated(LexFault::UNTERMINATED_COMMENT, from, text.len()))
}
