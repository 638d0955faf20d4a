//! Texts between quotes.

ghost use Rattle.std.specs.Prelude.{◌≤◌, length, drop, Ok};
ghost use Rattle.sql_lex.specs.Offsets.{GoesOn};
ghost use Rattle.sql_lex.specs.Quoted.{after_quoted};

use crate::bytes::{is_escape_at, stands_at};
use crate::token::{Halt, LexFault};

/// After the closing quote of a text that goes on at `from`, in a token that begins at `whole`.
pub fn quoted_end(
    text: &[u8],
    whole: usize,
    from: usize,
    quote: u8,
    escapes: bool,
) -> Result<usize, Halt>
    requires whole { whole ≤ length text.now }
    requires within { from ≤ length text.now }
    ensures { GoesOn text.now from (after_quoted (drop whole text.now) escapes quote
        (drop from text.now)) Ok result }
{
    let mut at = from;
    'quoted: while at < text.len() {
        let byte = text[at];
        if byte == 0 {
            return Err(Halt::stray(at));
        }
        if byte == quote {
            if !stands_at(text, at + 1, quote) {
                return Ok(at + 1);
            }
            at += 2;
            continue;
        }
        if escapes && byte == b'\\' {
            if !is_escape_at(text, at + 1) {
                return Err(Halt::stray(at));
            }
            at += 2;
            continue;
        }
        at += 1;
    }
    Err(Halt::unterminated(LexFault::UNTERMINATED_TEXT, whole, text.len()))
}
