//! The schema of a catalog, and its text (GraphQL October 2021, section 3).
#![tactic(auto)]

mod behaving;
mod built;
mod columns;
mod connections;
mod fault_line;
mod faults;
mod graphql_names;
mod inputs;
mod marks;
mod meetings;
mod naming;
mod places;
mod refs;
mod roles;
mod roots;
mod rows;
mod sdl;
mod tables;
mod types;

pub use built::{build, schema_of};
pub use fault_line::put_fault_line;
pub use sdl::print_schema;
