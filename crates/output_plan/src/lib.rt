//! The text of a response straight from the values of a plan (GraphQL October 2021, section 7).
#![tactic(auto)]

mod failures;
mod fault;
mod layout;
mod leaves;
mod printing;
mod reader;
mod steps;
mod walking;

pub use fault::PrintFault;
pub use printing::print_query;
