//! Replies to bodies, and what is noted of them.

ghost use Rattle.std.specs.Prelude.{◌≡◌};
ghost use Rattle.http_sessions.specs.ReplyText as spec;

use pg_base::Blob;

/// The body of a reply.
#[derive(Debug, Drop)]
pub enum ReplyBytes {
    Made(Blob),
    /// The constant text for out of memory.
    NoMemory,
}

impl ReplyBytes {
    pub fn bytes(&self) -> &[u8]
        ensures { result.now ≡ spec.text_of self.now }
    {
        match self {
            ReplyBytes::Made(blob) => blob.bytes(),
            ReplyBytes::NoMemory => b"{\"errors\":[{\"message\":\"out of memory\"}]}",
        }
    }
}

/// A reply to a framed body.
#[derive(Debug, Drop)]
pub struct Reply {
    pub status: u16,
    pub bytes: ReplyBytes,
    /// The version of the data that the reply is about.
    pub front: u64,
    /// Whether a plan was made for it.
    pub planned: bool,
    /// How many statements were sent for it.
    pub statements: u64,
}

/// What is noted of a reply.
#[derive(Clone, Copy, Debug)]
pub struct Note {
    pub front: u64,
    pub planned: bool,
    pub statements: u64,
}
