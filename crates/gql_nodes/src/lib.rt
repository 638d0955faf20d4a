//! The nodes of a document, in document order, with what the rules of validation ask of their surroundings (GraphQL,
//! October 2021, section 5), and what is reached in a graph.
#![tactic(auto)]

mod closure;
mod definitions;
mod fault;
mod fields;
mod names;
mod node;
mod places;
mod selections;
mod values;

pub use closure::{Graph, reached};
pub use definitions::nodes;
pub use fault::{RuleError, RuleFault};
pub use fields::{Known, directive_args, field_of, if_args, root_of};
pub use node::{At, Location, Node, position_of};
pub use places::Places;
