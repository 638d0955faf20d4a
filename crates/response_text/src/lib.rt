//! The text of a response from its events, errors before data (GraphQL October 2021, section 7).
#![tactic(auto)]

mod errors;
mod fault;
pub mod laws;
mod path;
mod response;

pub use errors::{put_after, put_before, put_error};
pub use fault::ResponseFault;
pub use path::Part;
pub use response::response_of;
