//! Replies to requests.

ghost use Rattle.std.specs.Prelude.{◌≡◌, ◌⊎◌, ℕ, List, Ok, Err, IfOk};
ghost use Rattle.planned_response.specs.declared.fault.RespondFault.TheVariants as fault_is;
ghost use Rattle.request_core.specs.Replied as spec;
ghost use Rattle.request_core.specs.Reply.{answer_reply};

use crate::refusals::{storage_fault, too_large};
use http_sessions::{Reply, ReplyBytes};
use kept_responses::KeptResponse;
use pg_base::{Blob, Memory};
use planned_response::RespondFault;
use std::alloc::{AllocError, Global};

/// What a reply tells.
#[derive(Drop)]
pub(crate) struct Told {
    pub status: u16,
    pub bytes: ReplyBytes,
}

/// That memory ran out.
fn no_memory() -> Told
    ensures { result ≡ spec.told_as (Err fault_is.Memory) }
{
    Told {
        status: 503,
        bytes: ReplyBytes::NoMemory,
    }
}

/// A text under a status, where there was memory for it.
fn text_or_memory(status: u16, text: Result<Blob, Memory>) -> Told
    ensures { (due : List ℕ) → IfOk text (λ t. t ≡ due)
        → (result ≡ spec.told_text status due) ⊎ (result ≡ spec.told_as (Err fault_is.Memory)) }
{
    match text {
        Ok(text) => Told {
            status,
            bytes: ReplyBytes::Made(text),
        },
        Err(AllocError) => no_memory(),
    }
}

/// What is told of a fault, or that there is no memory for that.
fn told_of_fault(alloc: Global, fault: RespondFault) -> Told
    ensures { spec.TellsAs (Err fault) result }
{
    match fault {
        RespondFault::Store => text_or_memory(500, storage_fault(alloc)),
        RespondFault::TooLarge => text_or_memory(200, too_large(alloc)),
        RespondFault::Memory => no_memory(),
    }
}

/// What is told of a response, or that there is no memory for that.
fn told_of(alloc: Global, answer: Result<Blob, RespondFault>) -> Told
    ensures { spec.TellsAs answer result }
{
    match answer {
        Ok(text) => Told {
            status: 200,
            bytes: ReplyBytes::Made(text),
        },
        Err(fault) => told_of_fault(alloc, fault),
    }
}

/// The reply to a request that is refused.
pub(crate) fn refusal_reply(text: Blob) -> Reply
    ensures { result ≡ answer_reply 0 (Ok text) }
{
    Reply {
        status: 200,
        bytes: ReplyBytes::Made(text),
        front: 0,
        planned: false,
        statements: 0,
    }
}

/// The reply where memory ran out before a plan was looked for.
pub(crate) fn memory_reply() -> Reply
    ensures { result ≡ answer_reply 0 (Err fault_is.Memory) }
{
    Reply {
        status: 503,
        bytes: ReplyBytes::NoMemory,
        front: 0,
        planned: false,
        statements: 0,
    }
}

/// The reply that tells a response, after so many statements.
pub(crate) fn response_reply(alloc: Global, response: KeptResponse, statements: u64) -> Reply
    ensures { spec.RepliesAs statements response result }
{
    let planned = response.planned;
    let told = told_of(alloc, response.answer);
    Reply {
        status: told.status,
        bytes: told.bytes,
        front: 0,
        planned,
        statements,
    }
}
