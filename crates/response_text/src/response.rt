//! Responses.

ghost use Rattle.std.specs.Prelude.{◌≡◌, IfOk, IfErr};
ghost use Rattle.response_text.specs.Responses.{IsResponse, IsCause, events_response};

use crate::errors::put_errors;
use crate::fault::ResponseFault;
use pg_base::limits::MOST_RESPONSE_BYTES;
use pg_base::{Blob, Memory};
use place_tree::{Event, put_events};
use std::alloc::Global;

fn put_response(alloc: Global, events: &[Event]) -> Result<Vec<u8>, Memory>
    ensures { IfOk result (λ text. text.items ≡ events_response events.now) }
{
    let mut out = Vec::new(alloc);
    out.push(b'{')?;
    put_errors(alloc, &mut out, events)?;
    out.extend_from_slice(b"\"data\":{")?;
    put_events(&mut out, events)?;
    out.extend_from_slice(b"}}")?;
    Ok(out)
}

/// The text of the response whose data the events give.
///
/// # Errors
/// `TooLarge` where it has more than 64 MiB, or out of memory.
pub fn response_of(alloc: Global, events: &[Event]) -> Result<Blob, ResponseFault>
    ensures ok { IfOk result (IsResponse events.now) }
    ensures err { IfErr result (IsCause events.now) }
{
    let text = put_response(alloc, events)?;
    if text.len() > MOST_RESPONSE_BYTES {
        return Err(ResponseFault::TooLarge);
    }
    Ok(Blob::of(text))
}
