//! The input of a request: its operation, its variables (GraphQL October 2021, section 6.1), and literals at their
//! types.
#![tactic(auto)]

mod argument;
mod body;
mod coerced;
mod fault;
mod given;
mod input;
mod leaf;
mod lists;
mod literal;
mod operation;
mod spelled;
mod texts;

pub use argument::{ArgMember, ArgValue, value_with};
pub use body::{BodyError, read_variables};
pub use coerced::coerce_vars;
pub use fault::{
    InputError, MISSING, NULL_GIVEN, OUT_OF_RANGE, UNKNOWN_FIELD, VarError, VarFault, WRONG_KIND,
};
pub use input::{Input, input_at};
pub use literal::{coerce_literal, fits};
pub use operation::chosen_operation;
