//! The tags of a comment of a SQL script: leading lines that begin with `@`.
#![tactic(auto)]

mod parts;
mod tags;

pub use tags::read_tags;
