//! Why a text is no document, and where.

ghost use Rattle.std.specs.Prelude.{◌≡◌};
ghost use Rattle.gql_reader.specs.Faults as spec;
ghost use Rattle.gql_reader.specs.declared.fault.ReadFault.TheVariants.{Memory};

use crate::expected::opens;
use crate::tokens::DocumentToken;
use gql_lex::Ending;
use pg_base::Pos;
use std::alloc::AllocError;

/// How many brackets may be open at once.
pub const BRACKET_LIMIT: usize = 64;

/// The fault of bytes with which no token begins, or that aren't UTF-8.
pub const LEXICAL_FAULT: u8 = 1;

/// The fault of the first token, or the end, that no document has after the tokens before it.
pub const SYNTAX_FAULT: u8 = 2;

/// The fault of the bracket that would be the 65th open one.
pub const TOO_DEEP: u8 = 3;

/// The fault of token 8,193.
pub const TOO_MANY_TOKENS: u8 = 4;

/// Why no document was read.
#[derive(Clone, Copy, Debug, PartialEq, Eq, Drop)]
pub enum ReadFault {
    /// The first fault of a text that is no document, as `LEXICAL_FAULT`, `SYNTAX_FAULT`, `TOO_DEEP` or
    /// `TOO_MANY_TOKENS`, and where it stands.
    At { which: u8, pos: Pos },
    /// Memory ran out.
    Memory,
}

impl From<AllocError> for ReadFault {
    ghost from_gives = { λ _ e. e ≡ Memory };

    fn from(_: AllocError) -> ReadFault {
        ReadFault::Memory
    }
}

/// Whether the tokens end with the text.
pub fn is_end(ending: Ending) -> bool
    ensures { result ≡ spec.is_end ending }
{
    match ending {
        Ending::End(_) => true,
        Ending::Invalid(_) | Ending::TooManyTokens(_) => false,
    }
}

/// The fault where the tokens end.
pub fn fault_at_end(ending: Ending) -> ReadFault
    ensures { result ≡ spec.fault_at_end ending }
{
    let (which, pos) = match ending {
        Ending::End(pos) => (SYNTAX_FAULT, pos),
        Ending::Invalid(pos) => (LEXICAL_FAULT, pos),
        Ending::TooManyTokens(pos) => (TOO_MANY_TOKENS, pos),
    };
    ReadFault::At { which, pos }
}

/// The fault where this token comes next, or none does, and `depth` brackets are open.
pub fn fault_before(ending: Ending, depth: usize, next: Option<DocumentToken<'_>>) -> ReadFault
    ensures { result ≡ spec.fault_before ending depth next.entry }
{
    match next {
        None => fault_at_end(ending),
        Some(token) if opens(token.kind()) && depth == BRACKET_LIMIT => ReadFault::At {
            which: TOO_DEEP,
            pos: token.pos(),
        },
        Some(token) => ReadFault::At {
            which: SYNTAX_FAULT,
            pos: token.pos(),
        },
    }
}
