//! What the grammar asks of a token.

ghost use Rattle.std.specs.Prelude.{◌≡◌};
ghost use Rattle.gql_reader.specs.Grammar.{kind_opens, kind_closes};
ghost use Rattle.gql_reader.specs.Expected as spec;

use gql_lex::{Punctuator, TokenKind, Word};

/// What the grammar expects a token to be.
#[derive(Clone, Copy, Debug)]
pub enum Expected {
    /// This punctuator.
    Punctuator(Punctuator),
    /// Any name.
    Name,
    /// A name that a fragment may have: any but `on`.
    FragmentName,
    /// This name.
    Word(Word),
    /// A value of one token: a number, a string or a name.
    Scalar,
    /// The `$` of a variable, where a value isn't to be constant.
    VariableUnless(bool),
    /// `query`, `mutation` or `subscription`.
    OperationType,
    /// What doesn't begin a definition of a type system: neither a string nor one of its words.
    Executable,
}

fn same_punctuator(a: Punctuator, b: Punctuator) -> bool
    ensures { result ≡ spec.same_punctuator a b }
{
    a == b
}

fn same_word(a: Word, b: Word) -> bool
    ensures { result ≡ spec.same_word a b }
{
    a == b
}

fn is_punctuator(kind: TokenKind, wanted: Punctuator) -> bool
    ensures { result ≡ spec.is_punctuator kind wanted }
{
    match kind {
        TokenKind::Punctuator(punctuator) => same_punctuator(punctuator, wanted),
        _ => false,
    }
}

fn is_word(kind: TokenKind, wanted: Word) -> bool
    ensures { result ≡ spec.is_word kind wanted }
{
    match kind {
        TokenKind::Name(word) => same_word(word, wanted),
        _ => false,
    }
}

fn is_name(kind: TokenKind) -> bool
    ensures { result ≡ spec.is_name kind }
{
    match kind {
        TokenKind::Name(_) => true,
        _ => false,
    }
}

fn is_scalar(kind: TokenKind) -> bool
    ensures { result ≡ spec.is_scalar kind }
{
    match kind {
        TokenKind::Punctuator(_) => false,
        _ => true,
    }
}

fn is_string(kind: TokenKind) -> bool
    ensures { result ≡ spec.is_string kind }
{
    match kind {
        TokenKind::String | TokenKind::BlockString => true,
        _ => false,
    }
}

/// Whether the token opens a bracket.
pub fn opens(kind: TokenKind) -> bool
    ensures { result ≡ kind_opens kind }
{
    is_punctuator(kind, Punctuator::OpenParen)
        || is_punctuator(kind, Punctuator::OpenBracket)
        || is_punctuator(kind, Punctuator::OpenBrace)
}

/// Whether the token closes a bracket.
pub fn closes(kind: TokenKind) -> bool
    ensures { result ≡ kind_closes kind }
{
    is_punctuator(kind, Punctuator::CloseParen)
        || is_punctuator(kind, Punctuator::CloseBracket)
        || is_punctuator(kind, Punctuator::CloseBrace)
}

impl Expected {
    /// Whether a token of this kind is what is expected.
    pub fn is_kind(self, kind: TokenKind) -> bool
        ensures { result ≡ spec.kind_is self kind }
    {
        match self {
            Expected::Punctuator(wanted) => is_punctuator(kind, wanted),
            Expected::Name => is_name(kind),
            Expected::FragmentName => is_name(kind) && !is_word(kind, Word::On),
            Expected::Word(word) => is_word(kind, word),
            Expected::Scalar => is_scalar(kind),
            Expected::VariableUnless(constant) => !constant
                && is_punctuator(kind, Punctuator::Dollar),
            Expected::OperationType => {
                is_word(kind, Word::Query)
                    || is_word(kind, Word::Mutation)
                    || is_word(kind, Word::Subscription)
            }
            Expected::Executable => !is_word(kind, Word::TypeSystem) && !is_string(kind),
        }
    }
}
