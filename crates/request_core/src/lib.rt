//! One request: a script and a document to the bytes of the answer.
#![tactic(auto)]

mod answer;
mod asked;
mod asking;
mod execution;
mod explaining;
mod fault_lines;
mod house;
mod loading;
mod preparing;
mod refusals;
mod replies;
mod request;
mod responding;
mod rule_messages;

pub use answer::answer_request;
pub use asked::Asked;
pub use asking::{answer_own, asked_of, explain_own};
pub use explaining::{Explanation, explained};
pub use fault_lines::put_fault_line;
pub use house::OwnHouse;
pub use loading::{LoadError, LoadFault, Loaded, load};
pub use preparing::{Prepared, prepare};
pub use request::Request;
pub use responding::respond_own;
