//! Types where they are used, in documents and in schemas: sections 2.11 and 3 of the GraphQL specification (October
//! 2021).
#![tactic(auto)]

mod named;
mod position;

pub use named::{arg_named, inputs_at, inputs_of, object_at, object_named, type_named};
pub use position::{Position, expected, written};
