//! The tokens of a SQL script: words, quoted names, strings, numbers and signs, with their positions.
#![tactic(auto)]

mod bytes;
mod laws;
mod lex;
mod quoted;
mod separators;
mod token;
mod value;

pub use laws::{
    fault_is_by_the_grammar, token_is_by_the_grammar, tokens_are_the_text,
    values_are_by_the_grammar,
};
pub use lex::{next, next_from};
pub use token::{LexFault, Token, TokenKind};
pub use value::{name_text, string_text, word_text};
