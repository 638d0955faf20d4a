//! The text of cursors: base64 (RFC 4648) of a JSON text (RFC 8259) that has one spelling.
#![tactic(auto)]

mod bytes;
mod cursor;
mod fault;
pub mod laws;
mod numbers;
mod read;
mod texts;
mod write;

pub use cursor::Cursor;
pub use read::read_cursor;
pub use write::write_cursor;
