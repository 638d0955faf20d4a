//! Sessions over fakes.

ghost use Rattle.std.specs.Prelude.{◌≡◌, ◌++◌, ⊤};
ghost use Rattle.pg_io.specs.Streams.{ReadsWithin, ReadTakes, Gains, HasCause};
ghost use Rattle.http_sessions.specs.ReplyText.{IsReplyStatus};

use http_sessions::{Reply, ReplyBytes, Responder, SessionEnd, SessionReport, run_session};
use pg_base::{Blob, Memory};
use pg_io::{Failed, MemSink, MemSource, Source};
use std::alloc::Global;

/// A source that gives at most a number of bytes a call.
#[derive(Drop)]
pub struct Pieces {
    pub inner: MemSource,
    pub size: usize,
}

impl Source for Pieces {
    ghost left = { λ pieces. ⟦<MemSource as Source>⟧.left pieces.inner };

    ghost given = { λ pieces. ⟦<MemSource as Source>⟧.given pieces.inner };

    ghost faults = { λ pieces. ⟦<MemSource as Source>⟧.faults pieces.inner };

    fn read(&mut self, into: &mut [u8]) -> Result<usize, Failed> {
        let count = into.len().min(self.size.max(1));
        self.inner.read(&mut into[..count])
    }
}

/// Answers each body with itself, and counts.
#[derive(Drop)]
pub struct Echo {
    pub alloc: Global,
    pub count: u64,
}

impl Responder for Echo {
    ghost front = { λ echo. echo.count };

    ghost responds = { λ echo body reply now. ⊤ };

    fn respond(&mut self, body: &[u8]) -> Reply {
        self.count = self.count.saturating_add(1);
        let bytes = match Vec::from_slice(self.alloc, body) {
            Ok(copy) => ReplyBytes::Made(Blob::of(copy)),
            Err(_) => ReplyBytes::NoMemory,
        };
        Reply {
            status: 200,
            bytes,
            front: self.count,
            planned: false,
            statements: 0,
        }
    }

    fn front(&self) -> u64 {
        self.count
    }
}

/// What a session gave.
#[derive(Drop)]
pub struct Seen {
    pub end: SessionEnd,
    pub notes: usize,
    pub bytes: Vec<u8>,
}

/// A session over bytes, in pieces of a size, where these reads and writes fail.
pub fn serve(
    alloc: Global,
    input: &[u8],
    size: usize,
    reads: &[u64],
    writes: &[u64],
) -> Result<Seen, Memory> {
    let bytes = Blob::of(Vec::from_slice(alloc, input)?);
    let inner = MemSource::of(bytes, Vec::from_slice(alloc, reads)?);
    let mut source = Pieces { inner, size };
    let mut sink = MemSink::of(alloc, Vec::from_slice(alloc, writes)?);
    let mut echo = Echo { alloc, count: 0 };
    let SessionReport { end, notes } = run_session(alloc, &mut echo, &mut source, &mut sink);
    let bytes = Vec::from_slice(alloc, sink.bytes())?;
    Ok(Seen {
        end,
        notes: notes.len(),
        bytes,
    })
}

/// The end in short: its first letter, and the status of a refusal.
pub fn short(end: SessionEnd) -> (char, u16) {
    match end {
        SessionEnd::Closed => ('C', 0),
        SessionEnd::Spent => ('S', 0),
        SessionEnd::Truncated => ('T', 0),
        SessionEnd::Refused(status) => ('R', status),
        SessionEnd::ReadFault => ('r', 0),
        SessionEnd::WriteFault => ('w', 0),
        SessionEnd::Memory => ('M', 0),
    }
}
