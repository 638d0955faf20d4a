//! Gives replies to a sink.

ghost use Rattle.std.specs.Prelude.{◌≡◌, ◌≤◌, ◌++◌, ◌==◌, ◌||◌, true, OnErr};
ghost use Rattle.std.specs.Vec.{vec_capacity};
ghost use Rattle.pg_base.specs.Limits.{most_replies};
ghost use Rattle.pg_io.specs.Streams.{Delivers, HasCause};
ghost use Rattle.http_sessions.specs.ReplyText as spec;
ghost use Rattle.http_sessions.specs.Turns.{RefuseIs, ReplyIs, HasSentCause};
ghost use Rattle.http_sessions.specs.SessionRuns.{HasWriteCause};

use crate::printing::{MOST_REPLY_HEAD, put, put_head};
use crate::refusal::Refusal;
use crate::reply::Reply;
use crate::report::SessionEnd;
use pg_base::limits::MOST_REPLIES;
use pg_io::{Failed, Sink, write_all};

/// The bytes of a reply that are given to the sink in one piece at most.
pub const MOST_PIECE: usize = 65_536;

/// Gives two pieces to the sink, one after the other.
fn write_both<K: Sink>(sink: &mut K, first: &[u8], second: &[u8]) -> Result<(), Failed>
    ensures bytes { Delivers (K.taken sink.old) (K.taken sink.new) result
        (first.now ++ second.now) }
    ensures cause { HasCause (K.faults sink.old) (K.faults sink.new) result }
{
    match write_all(sink, first) {
        Err(Failed) => Err(Failed),
        Ok(()) => write_all(sink, second),
    }
}

/// Gives a reply to the sink: in one piece, or the head and then the body where both don't fit one.
fn send<K: Sink>(
    sink: &mut K,
    out: &mut Vec<u8>,
    closes: bool,
    status: u16,
    front: u64,
    text: &[u8],
) -> Result<(), Failed>
    requires { 65536 ≤ vec_capacity out.old }
    ensures bytes { Delivers (K.taken sink.old) (K.taken sink.new) result
        (spec.reply_text closes status front text.now) }
    ensures cause { HasCause (K.faults sink.old) (K.faults sink.new) result }
    ensures room { 65536 ≤ vec_capacity out.new }
{
    out.clear();
    put_head(out, closes, status, front, text.len() as u64);
    if text.len() > MOST_PIECE - MOST_REPLY_HEAD {
        return write_both(sink, out.as_slice(), text);
    }
    put(out, text);
    write_all(sink, out.as_slice())
}

/// Writes the word before a body, where it is asked for.
pub fn send_continue<K: Sink>(sink: &mut K, continues: bool) -> Result<(), Failed>
    ensures bytes { Delivers (K.taken sink.old) (K.taken sink.new) result
        (spec.if_so continues spec.continue_text) }
    ensures asked { OnErr result (continues ≡ true) }
    ensures cause { HasCause (K.faults sink.old) (K.faults sink.new) result }
{
    if !continues {
        return Ok(());
    }
    write_all(sink, b"HTTP/1.1 100 Continue\r\n\r\n")
}

/// Refuses a message, and ends the session.
pub fn refuse<K: Sink>(sink: &mut K, out: &mut Vec<u8>, front: u64, refusal: Refusal) -> SessionEnd
    requires { 65536 ≤ vec_capacity out.old }
    ensures bytes { RefuseIs (K.taken sink.old) (K.taken sink.new) (spec.status_of refusal)
        (spec.refusal_text front refusal) result }
    ensures cause { HasWriteCause result (K.faults sink.old) (K.faults sink.new) }
    ensures room { 65536 ≤ vec_capacity out.new }
{
    let status = refusal.status();
    match send(sink, out, true, status, front, refusal.body()) {
        Ok(()) => SessionEnd::Refused(status),
        Err(Failed) => SessionEnd::WriteFault,
    }
}

fn is_last(count: usize, closes: bool) -> bool
    ensures { result ≡ (count == most_replies || closes) }
{
    if count == MOST_REPLIES {
        return true;
    }
    closes
}

/// Gives the reply that makes this count of them. The session goes on where none is answered.
pub fn reply_to<K: Sink>(
    sink: &mut K,
    out: &mut Vec<u8>,
    reply: &Reply,
    closes: bool,
    count: usize,
) -> Option<SessionEnd>
    requires { 65536 ≤ vec_capacity out.old }
    ensures bytes { ReplyIs (K.taken sink.old) (K.taken sink.new) reply.now closes count result }
    ensures cause { HasSentCause result (K.faults sink.old) (K.faults sink.new) }
    ensures room { 65536 ≤ vec_capacity out.new }
{
    let last = is_last(count, closes);
    let text = reply.bytes.bytes();
    match send(sink, out, last, reply.status, reply.front, text) {
        Err(Failed) => Some(SessionEnd::WriteFault),
        Ok(()) => {
            if count == MOST_REPLIES {
                return Some(SessionEnd::Spent);
            }
            if closes {
                return Some(SessionEnd::Closed);
            }
            None
        }
    }
}
