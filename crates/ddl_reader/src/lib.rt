//! Scripts in a subset of PostgreSQL's SQL: the catalog and the rows that they give, or their first fault.
#![tactic(auto)]

mod adding;
mod columns;
mod comments;
mod compact_text;
mod constants;
mod copies;
mod fault;
mod fitting;
mod inserts;
mod known;
pub mod laws;
mod lexeme;
mod literals;
mod names;
mod parts;
mod reading;
mod resolving;
mod rows;
mod rules;
mod script;
mod statement;
mod statements;
mod stops;
mod tables;
mod text_tokens;
mod tokens;
mod types;
mod whole;
mod word;

pub use columns::Columns;
pub use compact_text::CompactText;
pub use fault::ScriptFault;
pub use reading::read_script;
pub use script::{Literal, RowText, Script};
