//! The path to where the events stand.

ghost use Rattle.std.specs.Prelude.{◌≡◌, ◌+◌, ◌^◌, ◌∷◌, ℕ, OnOk};
ghost use Rattle.place_tree.specs.Events.{path_behind, behind_value, outer};
ghost use Rattle.place_tree.specs.Response.{key};
ghost use Rattle.response_text.specs.Paths as spec;

use pg_base::{Memory, Text};
use place_tree::Event;

/// A part of a path: a response key, or a place in a list.
#[derive(Clone, Copy)]
pub enum Part<'a> {
    /// A member whose key is still to come.
    Member,
    Key(&'a Text),
    Index(u64),
}

/// Goes on to the next item, where the innermost part is a place in a list.
fn pass_value(path: &mut Vec<Part<'_>>) -> Result<(), Memory>
    requires few { spec.AreBelow (2 ^ 63) path.now.items }
    ensures passed { OnOk result (spec.path_of path.new.items
        ≡ behind_value (spec.path_of path.old.items)) }
    ensures below { OnOk result ((n : ℕ) → spec.AreBelow n path.old.items
        → spec.AreBelow (n + 1) path.new.items) }
{
    match path.pop() {
        Some(Part::Index(place)) => path.push(Part::Index(place + 1))?,
        Some(Part::Key(name)) => path.push(Part::Key(name))?,
        Some(Part::Member) => path.push(Part::Member)?,
        None => {}
    }
    Ok(())
}

/// Takes a key in place of the innermost part.
fn pass_key<'a>(path: &mut Vec<Part<'a>>, name: &'a Text) -> Result<(), Memory>
    ensures passed { OnOk result (spec.path_of path.new.items
        ≡ key name.now ∷ outer (spec.path_of path.old.items)) }
    ensures below { OnOk result ((n : ℕ) → spec.AreBelow n path.old.items
        → spec.AreBelow (n + 1) path.new.items) }
{
    let _outer = path.pop();
    path.push(Part::Key(name))?;
    Ok(())
}

/// Enters a list or an object.
fn open<'a>(path: &mut Vec<Part<'a>>, part: Part<'a>) -> Result<(), Memory>
    requires first { spec.IsBelow 1 part }
    ensures passed { OnOk result (spec.path_of path.new.items
        ≡ spec.part_of part.entry ∷ spec.path_of path.old.items) }
    ensures below { OnOk result ((n : ℕ) → spec.AreBelow n path.old.items
        → spec.AreBelow (n + 1) path.new.items) }
{
    path.push(part)?;
    Ok(())
}

/// Leaves a list or an object.
fn close(path: &mut Vec<Part<'_>>) -> Result<(), Memory>
    requires few { spec.AreBelow (2 ^ 63) path.now.items }
    ensures passed { OnOk result (spec.path_of path.new.items
        ≡ behind_value (outer (spec.path_of path.old.items))) }
    ensures below { OnOk result ((n : ℕ) → spec.AreBelow n path.old.items
        → spec.AreBelow (n + 1) path.new.items) }
{
    let _inner = path.pop();
    pass_value(path)
}

/// Goes on behind the event.
pub(crate) fn pass<'a>(path: &mut Vec<Part<'a>>, event: &'a Event) -> Result<(), Memory>
    requires few { spec.AreBelow (2 ^ 63) path.now.items }
    ensures passed { OnOk result (spec.path_of path.new.items
        ≡ path_behind event.now (spec.path_of path.old.items)) }
    ensures below { OnOk result ((n : ℕ) → spec.AreBelow n path.old.items
        → spec.AreBelow (n + 1) path.new.items) }
{
    match event {
        Event::Key(name) => pass_key(path, name),
        Event::OpenList => open(path, Part::Index(0)),
        Event::OpenObject => open(path, Part::Member),
        Event::CloseList => close(path),
        Event::CloseObject => close(path),
        Event::Null => pass_value(path),
        Event::Int(_) => pass_value(path),
        Event::Bool(_) => pass_value(path),
        Event::Text(_) => pass_value(path),
        Event::Failed(_, _) => pass_value(path),
    }
}
