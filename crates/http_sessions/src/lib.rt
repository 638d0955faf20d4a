//! Sessions over HTTP/1.1 (RFC 9112): messages are framed from a source, a responder answers their bodies, and its
//! replies go to a sink.
#![tactic(auto)]

mod fields;
mod printing;
mod reading;
mod refusal;
mod reply;
mod report;
mod responder;
mod scan;
mod sending;
mod session;
mod wants;
mod window;

pub use refusal::Refusal;
pub use reply::{Note, Reply, ReplyBytes};
pub use report::{SessionEnd, SessionReport};
pub use responder::Responder;
pub use session::run_session;
