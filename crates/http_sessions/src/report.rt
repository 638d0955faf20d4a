//! How a session ended.

use crate::reply::Note;
use pg_base::Sequence;

/// Why a session ended.
#[derive(Clone, Copy, Debug)]
pub enum SessionEnd {
    /// The input ended before a message, or the last reply closed the session.
    Closed,
    /// The last reply was the one that the limit allows.
    Spent,
    /// The input ended inside a message.
    Truncated,
    /// A message was refused with this status.
    Refused(u16),
    /// A read failed.
    ReadFault,
    /// A write failed.
    WriteFault,
    /// Out of memory, before a message.
    Memory,
}

/// How a session ended, and a note for each body that was responded to, in order.
#[derive(Debug, Drop)]
pub struct SessionReport {
    pub end: SessionEnd,
    pub notes: Sequence<Note>,
}
