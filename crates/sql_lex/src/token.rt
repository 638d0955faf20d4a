//! Tokens, and why there is none.

ghost use Rattle.std.specs.Prelude.{◌≡◌, ◌<◌, ◌+◌, ◌^◌};
ghost use Rattle.sql_lex.specs.Faults.{stray_byte};

use pg_base::Pos;

/// What a token is (PostgreSQL's documentation, "Lexical Structure").
#[derive(Clone, Copy, Debug, PartialEq, Eq)]
pub enum TokenKind {
    /// A keyword or a name without quotes: a letter or `_`, then letters, digits or `_`, of ASCII.
    Word,
    /// A name between `"`.
    Quoted,
    /// A string between `'`.
    Str,
    /// A string between `'` with a directly preceding `E`, in which escapes count.
    EscStr,
    /// A run of digits.
    Number,
    /// Any other character of ASCII that is seen.
    Sign(u8),
    /// The end of the text.
    End,
}

/// A token of a text.
#[derive(Clone, Copy, Debug, PartialEq, Eq)]
pub struct Token {
    pub kind: TokenKind,
    /// How many bytes stand before it.
    pub from: usize,
    /// How many bytes stand before what is after it.
    pub to: usize,
    /// Where it begins.
    pub pos: Pos,
}

/// Why no token can be read.
#[derive(Clone, Copy, Debug, PartialEq, Eq)]
pub struct LexFault {
    /// One of the numbers below.
    pub which: u8,
    /// The first character of what has no end, or the byte.
    pub pos: Pos,
}

impl LexFault {
    /// A string or a quoted name has no end.
    pub const UNTERMINATED_TEXT: u8 = 1;
    /// A comment has none.
    pub const UNTERMINATED_COMMENT: u8 = 2;
    /// A byte can't stand there.
    pub const STRAY_BYTE: u8 = 3;
    /// A byte belongs to no character of UTF-8.
    pub const NOT_UTF8: u8 = 4;
}

/// A token without its position.
#[derive(Clone, Copy)]
pub struct Piece {
    pub kind: TokenKind,
    pub from: usize,
    pub to: usize,
}

/// Why reading stops, by places in the text: where the fault stands, and how far the text was looked at to find it.
#[derive(Clone, Copy)]
pub struct Halt {
    pub which: u8,
    pub stands: usize,
    pub unread: usize,
}

impl Halt {
    /// The byte there cannot stand there.
    pub fn stray(at: usize) -> Halt
        requires { at < 2 ^ 63 }
        ensures { result ≡ record { which = stray_byte; stands = at; unread = at + 1 } }
    {
        Halt {
            which: LexFault::STRAY_BYTE,
            stands: at,
            unread: at + 1,
        }
    }

    /// What begins there has no end in a text of `end` bytes.
    pub fn unterminated(which: u8, at: usize, end: usize) -> Halt
        ensures { result ≡ record { which = which; stands = at; unread = end } }
    {
        Halt {
            which,
            stands: at,
            unread: end,
        }
    }
}
