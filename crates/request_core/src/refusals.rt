//! Responses that have one error and no data.

ghost use Rattle.std.specs.Prelude.{◌≡◌, ◌++◌, OnOk, IfOk};
ghost use Rattle.std.specs.String.{string_bytes};
ghost use Rattle.request_core.specs.Refusals as spec;

use crate::rule_messages::rule_message;
use gql_input::{MISSING, NULL_GIVEN, OUT_OF_RANGE, VarFault, WRONG_KIND};
use gql_nodes::RuleFault;
use gql_reader::{LEXICAL_FAULT, SYNTAX_FAULT, TOO_DEEP};
use json_out::{put_int, put_text};
use pg_base::{Blob, Memory, Pos, Text};
use std::alloc::Global;
use std::str::from_utf8;

fn put_opened(out: &mut Vec<u8>, message: &str) -> Result<(), Memory>
    ensures { OnOk result (out.new.items ≡ out.old.items ++ spec.opened message.now) }
{
    out.extend_from_slice(b"{\"errors\":[{\"message\":")?;
    put_text(out, message.as_bytes())?;
    Ok(())
}

fn put_labelled(out: &mut Vec<u8>, label: &[u8], n: u32) -> Result<(), Memory>
    ensures { OnOk result (out.new.items ≡ out.old.items ++ spec.labelled label.now n) }
{
    out.extend_from_slice(label)?;
    put_int(out, i64::from(n))?;
    Ok(())
}

fn put_location(out: &mut Vec<u8>, at: Pos) -> Result<(), Memory>
    ensures { OnOk result (out.new.items ≡ out.old.items ++ spec.location at) }
{
    put_labelled(out, b",\"locations\":[{\"line\":", at.line)?;
    put_labelled(out, b",\"column\":", at.column)?;
    out.extend_from_slice(b"}]")?;
    Ok(())
}

/// The response with an error that stands nowhere in the document.
#[tactic(auto, unfolding(crate::specs::Refusals::refusal))]
pub(crate) fn refusal(alloc: Global, message: &str) -> Result<Blob, Memory>
    ensures { IfOk result (λ text. text ≡ spec.refusal message.now) }
{
    let mut out = Vec::new(alloc);
    put_opened(&mut out, message)?;
    out.extend_from_slice(b"}]}")?;
    Ok(Blob::of(out))
}

/// The response with an error at a place of the document.
#[tactic(auto, unfolding(crate::specs::Refusals::refusal_at))]
pub(crate) fn refusal_at(alloc: Global, message: &str, at: Pos) -> Result<Blob, Memory>
    ensures { IfOk result (λ text. text ≡ spec.refusal_at message.now at) }
{
    let mut out = Vec::new(alloc);
    put_opened(&mut out, message)?;
    put_location(&mut out, at)?;
    out.extend_from_slice(b"}]}")?;
    Ok(Blob::of(out))
}

/// The message of a fault of reading.
fn read_message(which: u8) -> &'static str
    ensures { result.now ≡ spec.read_message which }
{
    if which == LEXICAL_FAULT {
        "document lexical fault"
    } else if which == SYNTAX_FAULT {
        "document syntax fault"
    } else if which == TOO_DEEP {
        "document too deep"
    } else {
        "document has too many tokens"
    }
}

/// The message of a fault of a variable's value.
fn value_message(which: u8) -> &'static str
    ensures { result.now ≡ spec.value_message which }
{
    if which == MISSING {
        "missing"
    } else if which == NULL_GIVEN {
        "null"
    } else if which == WRONG_KIND {
        "wrong kind"
    } else if which == OUT_OF_RANGE {
        "out of range"
    } else {
        "unknown input field"
    }
}

fn as_str(text: &Text) -> &str
    ensures { result.now ≡ text.now }
{
    match from_utf8(text.bytes()) {
        Ok(text) => text,
        Err(_) => unreachable!(),
    }
}

fn variable_message(alloc: Global, name: &Text, which: u8) -> Result<String, Memory>
    ensures { IfOk result (λ message. string_bytes message
        ≡ spec.variable_message name.now which) }
{
    let mut message = String::new(alloc);
    message.push_str("variable $")?;
    message.push_str(as_str(name))?;
    message.push_str(": ")?;
    message.push_str(value_message(which))?;
    Ok(message)
}

/// The refusal of bytes that are no JSON object or null.
pub(crate) fn bad_body(alloc: Global) -> Result<Blob, Memory>
    ensures { IfOk result (λ text. text ≡ spec.bad_body) }
{
    refusal(alloc, "bad request body")
}

/// The refusal of bytes that are no document.
pub(crate) fn read_refusal(alloc: Global, which: u8, pos: Pos) -> Result<Blob, Memory>
    ensures { IfOk result (λ text. text ≡ spec.refusal_at (spec.read_message which) pos) }
{
    refusal_at(alloc, read_message(which), pos)
}

/// The refusal of a document that breaks a rule.
pub(crate) fn rule_refusal(alloc: Global, fault: RuleFault) -> Result<Blob, Memory>
    ensures { IfOk result (λ text. text ≡ spec.rule_refusal fault) }
{
    refusal_at(alloc, rule_message(fault.rule), fault.pos)
}

/// The refusal of an operation that isn't there.
pub(crate) fn no_operation(alloc: Global) -> Result<Blob, Memory>
    ensures { IfOk result (λ text. text ≡ spec.no_operation) }
{
    refusal(alloc, "no such operation")
}

/// The refusal of a variable's value.
pub(crate) fn variable_refusal(alloc: Global, fault: &VarFault) -> Result<Blob, Memory>
    ensures { IfOk result (λ text. text ≡ spec.variable_refusal fault.now) }
{
    let message = variable_message(alloc, &fault.name, fault.which)?;
    refusal_at(alloc, message.as_str(), fault.pos)
}

/// The response to a mutation.
pub(crate) fn no_mutation(alloc: Global) -> Result<Blob, Memory>
    ensures { IfOk result (λ text. text ≡ spec.no_mutation) }
{
    refusal(alloc, "mutations are not built")
}

/// The refusal of a tree that has too many places.
pub(crate) fn too_many(alloc: Global) -> Result<Blob, Memory>
    ensures { IfOk result (λ text. text ≡ spec.too_many) }
{
    refusal(alloc, "too many fields")
}

/// The refusal of an answer that visits too many rows or has too long a text.
pub(crate) fn too_large(alloc: Global) -> Result<Blob, Memory>
    ensures { IfOk result (λ text. text ≡ spec.too_large) }
{
    refusal(alloc, "answer too large")
}

/// The response to a request over a store that failed.
pub(crate) fn storage_fault(alloc: Global) -> Result<Blob, Memory>
    ensures { IfOk result (λ text. text ≡ spec.storage_fault) }
{
    refusal(alloc, "storage fault")
}
