//! The errors of a response (GraphQL October 2021, section 7.1.2).

ghost use Rattle.std.specs.Prelude.{◌≡◌, ◌++◌, ◌^◌, ◌∷◌, [], List, map, decimal, OnOk, IfOk};
ghost use Rattle.place_tree.specs.Events.{events_errors, error_at};
ghost use Rattle.place_tree.specs.Response.{key, part_text, path_text, errors_text, FieldError};
ghost use Rattle.response_text.specs.Paths as spec;

use crate::path::{Part, pass};
use json_out::{put_int, put_text};
use pg_base::{Memory, Pos, Text};
use place_tree::Event;
use std::alloc::Global;

fn put_part(out: &mut Vec<u8>, part: Part<'_>) -> Result<(), Memory>
    requires { spec.IsBelow (2 ^ 63) part }
    ensures { OnOk result (out.new.items
        ≡ out.old.items ++ part_text (spec.part_of part.entry)) }
{
    match part {
        Part::Member => out.extend_from_slice(b"\"\"")?,
        Part::Key(name) => put_text(out, name.bytes())?,
        Part::Index(place) => put_int(out, place as i64)?,
    }
    Ok(())
}

/// Appends the parts of a path, outermost first, with a comma between two.
fn put_path(out: &mut Vec<u8>, path: &[Part<'_>]) -> Result<(), Memory>
    requires { spec.AreBelow (2 ^ 63) path.now }
    ensures { OnOk result (out.new.items
        ≡ out.old.items ++ path_text (map spec.part_of path.now)) }
{
    let mut due = false;
    for part in path {
        if due {
            out.push(b',')?;
        }
        put_part(out, *part)?;
        due = true;
    }
    Ok(())
}

/// Appends a label and a number.
fn put_number(out: &mut Vec<u8>, label: &[u8], number: u32) -> Result<(), Memory>
    ensures { OnOk result (out.new.items ≡ out.old.items ++ (label.now ++ decimal number)) }
{
    out.extend_from_slice(label)?;
    put_int(out, i64::from(number))?;
    Ok(())
}

#[tactic(auto, unfolding(crate::specs::Paths::message_piece))]
fn put_message(out: &mut Vec<u8>, message: &Text) -> Result<(), Memory>
    ensures { OnOk result (out.new.items ≡ out.old.items ++ spec.message_piece message.now) }
{
    out.extend_from_slice(b"{\"message\":")?;
    put_text(out, message.bytes())?;
    Ok(())
}

/// Appends where an error stands in the document.
#[tactic(auto, unfolding(crate::specs::Paths::place_piece))]
fn put_place(out: &mut Vec<u8>, pos: Pos) -> Result<(), Memory>
    ensures { OnOk result (out.new.items ≡ out.old.items ++ spec.place_piece pos) }
{
    put_number(out, b",\"locations\":[{\"line\":", pos.line)?;
    put_number(out, b",\"column\":", pos.column)?;
    Ok(())
}

/// Appends where an error stands in the data.
#[tactic(auto, unfolding(crate::specs::Paths::path_piece))]
fn put_path_piece(out: &mut Vec<u8>, path: &[Part<'_>]) -> Result<(), Memory>
    requires { spec.AreBelow (2 ^ 63) path.now }
    ensures { OnOk result (out.new.items
        ≡ out.old.items ++ spec.path_piece (map spec.part_of path.now)) }
{
    out.extend_from_slice(b"}],\"path\":[")?;
    put_path(out, path)?;
    out.extend_from_slice(b"]}")?;
    Ok(())
}

/// Appends an error.
pub fn put_error(
    out: &mut Vec<u8>,
    message: &Text,
    pos: Pos,
    path: &[Part<'_>],
) -> Result<(), Memory>
    requires { spec.AreBelow (2 ^ 63) path.now }
    ensures { OnOk result (out.new.items ≡ out.old.items
        ++ spec.error_pieces message.now pos (map spec.part_of path.now)) }
{
    put_message(out, message)?;
    put_place(out, pos)?;
    put_path_piece(out, path)?;
    Ok(())
}

/// Appends what stands before an error, where one has been written or none has.
pub fn put_before(out: &mut Vec<u8>, some: bool) -> Result<(), Memory>
    ensures { OnOk result (out.new.items ≡ out.old.items ++ spec.before_error some) }
{
    if some {
        out.push(b',')?;
    } else {
        out.extend_from_slice(b"\"errors\":[")?;
    }
    Ok(())
}

/// Appends the error of an event, if it has one, and says whether one has been written by then.
fn put_event_error(
    out: &mut Vec<u8>,
    some: bool,
    event: &Event,
    path: &[Part<'_>],
) -> Result<bool, Memory>
    requires { spec.AreBelow (2 ^ 63) path.now }
    ensures { IfOk result (λ after. (errors : List FieldError)
        → out.new.items ++ spec.errors_left after errors
        ≡ out.old.items ++ spec.errors_left some
        (error_at event.now (spec.path_of path.now) errors)) }
{
    match event {
        Event::Failed(message, pos) => {
            put_before(out, some)?;
            put_error(out, message, *pos, path)?;
            Ok(true)
        }
        Event::Key(_) => Ok(some),
        Event::Null => Ok(some),
        Event::Int(_) => Ok(some),
        Event::Bool(_) => Ok(some),
        Event::Text(_) => Ok(some),
        Event::OpenList => Ok(some),
        Event::CloseList => Ok(some),
        Event::OpenObject => Ok(some),
        Event::CloseObject => Ok(some),
    }
}

/// Appends the end of the errors, where there are some.
pub fn put_after(out: &mut Vec<u8>, some: bool) -> Result<(), Memory>
    ensures { OnOk result (out.new.items ≡ out.old.items ++ spec.errors_left some []) }
{
    if some {
        out.extend_from_slice(b"],")?;
    }
    Ok(())
}

/// Appends the member `errors` of a response and a comma, where the events have errors.
pub(crate) fn put_errors(alloc: Global, out: &mut Vec<u8>, events: &[Event]) -> Result<(), Memory>
    ensures { OnOk result (out.new.items
        ≡ out.old.items ++ errors_text (events_errors (key [] ∷ []) events.now)) }
{
    let mut path = Vec::new(alloc);
    path.push(Part::Member)?;
    let mut some = false;
    for event in events {
        some = put_event_error(out, some, event, path.as_slice())?;
        pass(&mut path, event)?;
    }
    put_after(out, some)
}
