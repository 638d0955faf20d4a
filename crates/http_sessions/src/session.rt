//! Sessions.

ghost use Rattle.std.specs.Prelude.{◌≡◌, ◌+◌, ◌<◌, ◌≤◌, ◌++◌, [], ◌∷◌, length, take, vec_len, IfOk};
ghost use Rattle.std.specs.List.{list_all};
ghost use Rattle.std.specs.Vec.{vec_capacity};
ghost use Rattle.http_sessions.specs.HeadEnd.{is_line_byte};
ghost use Rattle.http_sessions.specs.HeadTests as tests;
ghost use Rattle.http_sessions.specs.Messages.{Asks};
ghost use Rattle.http_sessions.specs.ReplyText as spec;
ghost use Rattle.http_sessions.specs.SessionRuns.{HasReadCause, HasWriteCause};
ghost use Rattle.http_sessions.specs.Turns.{Turn, Answered, HasGotCause, HasSentCause, Ran, before_end, inside_end};
ghost use Rattle.http_sessions.specs.Windows.{window_of, IsWindow, HeadStands};
ghost use Rattle.http_sessions.specs.declared.report.SessionEnd.TheVariants as ends;
ghost use Rattle.http_sessions.specs.declared.wants.Wants.TheVariants.{Body};

use crate::reading::{Halt, HeadFound, fill, find_head};
use crate::refusal::Refusal;
use crate::reply::{Note, Reply};
use crate::report::{SessionEnd, SessionReport};
use crate::responder::Responder;
use crate::scan::Extent;
use crate::sending::{MOST_PIECE, refuse, reply_to, send_continue};
use crate::wants::{Wants, read_head};
use crate::window::Window;
use pg_base::limits::{MOST_BODY_BYTES, MOST_HEAD_BYTES, MOST_REPLIES};
use pg_base::{Memory, Sequence};
use pg_io::{Failed, Sink, Source};
use std::alloc::Global;

/// The most bytes of a message.
const MOST_MESSAGE: usize = MOST_HEAD_BYTES + MOST_BODY_BYTES;

fn is_blank(bytes: &[u8]) -> bool
    ensures { result ≡ list_all is_line_byte bytes.now }
{
    bytes.iter().all(|byte| *byte == b'\r' || *byte == b'\n')
}

/// How a session ends where no more of a head comes.
fn end_before(bytes: &[u8], halt: Halt) -> SessionEnd
    ensures { result ≡ before_end halt (list_all is_line_byte bytes.now) }
{
    match halt {
        Halt::Fault => SessionEnd::ReadFault,
        Halt::End => {
            if is_blank(bytes) {
                return SessionEnd::Closed;
            }
            SessionEnd::Truncated
        }
    }
}

/// How a session ends where no more of a body comes.
fn end_inside(halt: Halt) -> SessionEnd
    ensures { result ≡ inside_end halt }
{
    match halt {
        Halt::Fault => SessionEnd::ReadFault,
        Halt::End => SessionEnd::Truncated,
    }
}

/// Notes a reply, for which there is a place.
fn push_note(notes: &mut Vec<Note>, reply: &Reply)
    requires { vec_len notes.old < vec_capacity notes.old }
    ensures items { notes.new.items ≡ notes.old.items ++ spec.note_of reply.now ∷ [] }
    ensures len { vec_len notes.new ≡ vec_len notes.old + 1 }
{
    let note = Note {
        front: reply.front,
        planned: reply.planned,
        statements: reply.statements,
    };
    if notes.push(note).is_err() {
        unreachable!();
    }
}

/// Where a body stands after its head, and whether the session ends after its reply.
#[derive(Clone, Copy, Debug)]
struct BodyPlace {
    head: usize,
    size: usize,
    closes: bool,
}

/// Answers a body that stands in the window.
fn answer<P: Responder, K: Sink>(
    responder: &mut P,
    sink: &mut K,
    room: &[u8],
    window: &mut Window,
    out: &mut Vec<u8>,
    notes: &mut Vec<Note>,
    body: BodyPlace,
) -> Option<SessionEnd>
    requires window { IsWindow room.now window.old }
    requires whole { body.head + body.size ≤ length (window_of room.now window.old) }
    requires room { 65536 ≤ vec_capacity out.old }
    requires place { vec_len notes.old < vec_capacity notes.old }
    ensures window { IsWindow room.now window.new }
    ensures answered { Answered P.front P.responds result responder.old responder.new
        (K.taken sink.old) (K.taken sink.new) (window_of room.now window.old)
        (window_of room.now window.new) notes.old.items notes.new.items body.head body.size
        body.closes }
    ensures write_cause { HasSentCause result (K.faults sink.old) (K.faults sink.new) }
    ensures room { 65536 ≤ vec_capacity out.new }
{
    let from = window.start + body.head;
    let to = from + body.size;
    let reply = responder.respond(&room[from..to]);
    *window = Window {
        start: to,
        held: window.held,
    };
    push_note(notes, &reply);
    let count = notes.as_slice().len();
    reply_to(sink, out, &reply, body.closes, count)
}

/// Reads a body and answers it.
fn answer_body<P: Responder, S: Source, K: Sink>(
    responder: &mut P,
    source: &mut S,
    sink: &mut K,
    room: &mut [u8],
    window: &mut Window,
    out: &mut Vec<u8>,
    notes: &mut Vec<Note>,
    body: BodyPlace,
    continues: bool,
) -> Option<SessionEnd>
    requires window { IsWindow room.old window.old }
    requires head { body.head ≤ length (window_of room.old window.old) }
    requires asks { Asks (take body.head (window_of room.old window.old))
        (Body body.size body.closes continues) }
    requires fits { body.head + body.size ≤ length room.old }
    requires room { 65536 ≤ vec_capacity out.old }
    requires place { vec_len notes.old < vec_capacity notes.old }
    ensures window { IsWindow room.new window.new }
    ensures turn { Turn P.front P.responds result responder.old responder.new
        (S.given source.old) (S.given source.new) (S.left source.old) (S.left source.new)
        (K.taken sink.old) (K.taken sink.new) (window_of room.old window.old)
        (window_of room.new window.new) notes.old.items notes.new.items }
    ensures read_cause { HasGotCause result (S.faults source.old) (S.faults source.new) }
    ensures write_cause { HasSentCause result (K.faults sink.old) (K.faults sink.new) }
    ensures room { 65536 ≤ vec_capacity out.new }
{
    match send_continue(sink, continues) {
        Err(Failed) => return Some(SessionEnd::WriteFault),
        Ok(()) => {}
    }
    match fill(source, room, window, body.head + body.size) {
        Err(halt) => return Some(end_inside(halt)),
        Ok(()) => {}
    }
    answer(responder, sink, room, window, out, notes, body)
}

/// Answers the message whose head stands at the front of the window.
fn answer_head<P: Responder, S: Source, K: Sink>(
    responder: &mut P,
    source: &mut S,
    sink: &mut K,
    room: &mut [u8],
    window: &mut Window,
    out: &mut Vec<u8>,
    notes: &mut Vec<Note>,
    extent: Extent,
) -> Option<SessionEnd>
    requires window { IsWindow room.old window.old }
    requires head { HeadStands (window_of room.old window.old) extent }
    requires fits { 1064960 ≤ length room.old }
    requires room { 65536 ≤ vec_capacity out.old }
    requires place { vec_len notes.old < vec_capacity notes.old }
    ensures window { IsWindow room.new window.new }
    ensures turn { Turn P.front P.responds result responder.old responder.new
        (S.given source.old) (S.given source.new) (S.left source.old) (S.left source.new)
        (K.taken sink.old) (K.taken sink.new) (window_of room.old window.old)
        (window_of room.new window.new) notes.old.items notes.new.items }
    ensures read_cause { HasGotCause result (S.faults source.old) (S.faults source.new) }
    ensures write_cause { HasSentCause result (K.faults sink.old) (K.faults sink.new) }
    ensures room { 65536 ≤ vec_capacity out.new }
{
    let end = window.start + extent.end;
    match read_head(&room[window.start..end], extent) {
        Wants::Refuses(refusal) => Some(refuse(sink, out, responder.front(), refusal)),
        Wants::Body {
            size,
            closes,
            continues,
        } => {
            let body = BodyPlace {
                head: extent.end,
                size,
                closes,
            };
            answer_body(
                responder, source, sink, room, window, out, notes, body, continues,
            )
        }
    }
}

/// Reads a message and answers it. The session goes on where no end is answered.
fn turn<P: Responder, S: Source, K: Sink>(
    responder: &mut P,
    source: &mut S,
    sink: &mut K,
    room: &mut [u8],
    window: &mut Window,
    out: &mut Vec<u8>,
    notes: &mut Vec<Note>,
) -> Option<SessionEnd>
    requires window { IsWindow room.old window.old }
    requires fits { 1064960 ≤ length room.old }
    requires room { 65536 ≤ vec_capacity out.old }
    requires place { vec_len notes.old < vec_capacity notes.old }
    ensures window { IsWindow room.new window.new }
    ensures turn { Turn P.front P.responds result responder.old responder.new
        (S.given source.old) (S.given source.new) (S.left source.old) (S.left source.new)
        (K.taken sink.old) (K.taken sink.new) (window_of room.old window.old)
        (window_of room.new window.new) notes.old.items notes.new.items }
    ensures read_cause { HasGotCause result (S.faults source.old) (S.faults source.new) }
    ensures write_cause { HasSentCause result (K.faults sink.old) (K.faults sink.new) }
    ensures room { 65536 ≤ vec_capacity out.new }
{
    match find_head(source, room, window) {
        HeadFound::TooLong => { Some(refuse(sink, out, responder.front(), Refusal::HeadTooLarge)) }
        HeadFound::Halted(halt) => Some(end_before(&room[window.start..window.held], halt)),
        HeadFound::Head(extent) => {
            answer_head(responder, source, sink, room, window, out, notes, extent)
        }
    }
}

fn report(end: SessionEnd, notes: Vec<Note>) -> SessionReport
    ensures end { result.end ≡ end }
    ensures notes { result.notes ≡ notes.items }
{
    SessionReport {
        end,
        notes: Sequence::of(notes),
    }
}

/// A session over buffers that were taken.
fn serve<P: Responder, S: Source, K: Sink>(
    alloc: Global,
    responder: &mut P,
    source: &mut S,
    sink: &mut K,
    room: &mut [u8],
    out: &mut Vec<u8>,
) -> SessionReport
    requires fits { 1064960 ≤ length room.old }
    requires room { 65536 ≤ vec_capacity out.old }
    ensures session { Ran P.front P.responds result.end result.notes responder.old responder.new
        (S.given source.old) (S.given source.new) (S.left source.old) (S.left source.new)
        (K.taken sink.old) (K.taken sink.new) }
    ensures read_cause { HasReadCause result.end (S.faults source.old) (S.faults source.new) }
    ensures write_cause { HasWriteCause result.end (K.faults sink.old) (K.faults sink.new) }
{
    let mut notes = Vec::new(alloc);
    let mut window = Window { start: 0, held: 0 };
    'turns: for _turn in 0..MOST_REPLIES {
        if notes.reserve(1).is_err() {
            return report(SessionEnd::Memory, notes);
        }
        match turn(responder, source, sink, room, &mut window, out, &mut notes) {
            Some(end) => return report(end, notes),
            None => {}
        }
    }
    unreachable!()
}

/// A buffer of a size.
fn buffer(alloc: Global, size: usize) -> Result<Vec<u8>, Memory>
    ensures { IfOk result (λ buffer. length buffer.items ≡ size) }
{
    let buffer = vec![in alloc; 0u8; size]?;
    Ok(buffer)
}

/// How a session ends before its first message, where its buffers are refused.
fn refused(alloc: Global) -> SessionReport
    ensures end { result.end ≡ ends.Memory }
    ensures notes { result.notes ≡ [] }
{
    report(SessionEnd::Memory, Vec::new(alloc))
}

/// A session: messages are read from the source and framed (RFC 9112), the responder answers their
/// bodies, and its replies go to the sink, until the input ends, a message asks to close or is
/// refused, a read or a write fails, the limit of replies is reached, or memory runs out.
///
/// It takes its buffers at the start, 1,064,960 bytes for a message and 65,536 for a reply, and a
/// place for a note before each message; where either is refused it ends so, and writes nothing more.
pub fn run_session<P: Responder, S: Source, K: Sink>(
    alloc: Global,
    responder: &mut P,
    source: &mut S,
    sink: &mut K,
) -> SessionReport
    ensures session { Ran P.front P.responds result.end result.notes responder.old responder.new
        (S.given source.old) (S.given source.new) (S.left source.old) (S.left source.new)
        (K.taken sink.old) (K.taken sink.new) }
    ensures read_cause { HasReadCause result.end (S.faults source.old) (S.faults source.new) }
    ensures write_cause { HasWriteCause result.end (K.faults sink.old) (K.faults sink.new) }
{
    let Ok(mut room) = buffer(alloc, MOST_MESSAGE) else {
        return refused(alloc);
    };
    let Ok(mut out) = Vec::with_capacity(alloc, MOST_PIECE) else {
        return refused(alloc);
    };
    serve(
        alloc,
        responder,
        source,
        sink,
        room.as_mut_slice(),
        &mut out,
    )
}
