//! What a head asks for.

ghost use Rattle.std.specs.Prelude.{◌≡◌, ◌≤◌, ◌==◌, ◌||◌, codes, map, length};
ghost use Rattle.std.specs.Str.{bytes_eq};
ghost use Rattle.pg_base.specs.Limits.{most_head_bytes};
ghost use Rattle.httparse.specs.Spans.{header_bytes, span_bytes};
ghost use Rattle.http_sessions.specs.HeadTests as spec;
ghost use Rattle.http_sessions.specs.HeadEnd.{IsHeadWith, lf_count};
ghost use Rattle.http_sessions.specs.Messages.{Asks, WantsOf, IsSmall};

use crate::fields::{has_closing, has_encoding, has_expecting, size_in, span_text};
use crate::refusal::Refusal;
use crate::scan::Extent;
use httparse::Status;
use httparse::spans::{EMPTY_HEADER_SPAN, HeaderSpan, RequestSpans, parse_request};
use pg_base::limits::MOST_HEAD_LINES;

/// What a head asks for.
#[derive(Clone, Copy, Debug)]
pub enum Wants {
    Refuses(Refusal),
    Body {
        size: usize,
        /// The session ends after the reply.
        closes: bool,
        /// A word is written before the body is read.
        continues: bool,
    },
}

fn is_target(head: &[u8], spans: &RequestSpans) -> bool
    ensures { result ≡ bytes_eq (span_bytes head.now spans.now.path) (codes "/graphql") }
{
    span_text(head, spans.path) == b"/graphql".as_slice()
}

fn is_method(head: &[u8], spans: &RequestSpans) -> bool
    ensures { result ≡ bytes_eq (span_bytes head.now spans.now.method) (codes "POST") }
{
    span_text(head, spans.method) == b"POST".as_slice()
}

fn closes(head: &[u8], spans: &RequestSpans, headers: &[HeaderSpan]) -> bool
    ensures { result ≡ (spans.now.version == 0
        || spec.any_field spec.is_closing (map (header_bytes head.now) headers.now)) }
{
    if spans.version == 0 {
        return true;
    }
    has_closing(head, headers)
}

fn wants_of(head: &[u8], spans: &RequestSpans, headers: &[HeaderSpan]) -> Wants
    ensures value { result ≡ spec.wants_of (span_bytes head.now spans.now.path)
        (span_bytes head.now spans.now.method) spans.now.version
        (map (header_bytes head.now) headers.now) }
    ensures small { IsSmall result }
{
    if !is_target(head, spans) {
        return Wants::Refuses(Refusal::NotFound);
    }
    if !is_method(head, spans) {
        return Wants::Refuses(Refusal::MethodNotAllowed);
    }
    if has_encoding(head, headers) {
        return Wants::Refuses(Refusal::NotImplemented);
    }
    match size_in(head, headers) {
        Err(refusal) => Wants::Refuses(refusal),
        Ok(size) => {
            let closes = closes(head, spans, headers);
            let continues = has_expecting(head, headers) && size > 0;
            Wants::Body {
                size,
                closes,
                continues,
            }
        }
    }
}

/// What the lines of a head ask for, of which there are not too many.
fn read_lines(lines: &[u8]) -> Wants
    requires { lf_count lines.now ≤ 66 }
    ensures value { WantsOf lines.now result }
    ensures small { IsSmall result }
{
    let mut headers = [EMPTY_HEADER_SPAN; MOST_HEAD_LINES];
    match parse_request(lines, &mut headers) {
        Ok(Status::Complete(spans)) => wants_of(lines, &spans, &headers[..spans.headers]),
        Ok(Status::Partial) => Wants::Refuses(Refusal::BadHead),
        Err(_) => Wants::Refuses(Refusal::BadHead),
    }
}

/// What a head asks for.
pub fn read_head(head: &[u8], extent: Extent) -> Wants
    requires size { length head.now ≤ most_head_bytes }
    requires extent { IsHeadWith head.now extent.first extent.lines }
    ensures value { Asks head.now result }
    ensures small { IsSmall result }
{
    if extent.lines > MOST_HEAD_LINES + 1 {
        return Wants::Refuses(Refusal::HeadTooLarge);
    }
    read_lines(&head[extent.first..])
}
