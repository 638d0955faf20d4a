//! The members that the places of a tree give, written out: the one recursion over places, for any asker.

ghost use Rattle.std.specs.Prelude.{◌≡◌, ℕ, ◌+◌, ◌^◌, ◌<◌, ◌≤◌, ◌++◌, ◌∷◌, [], IfOk, OnOk, Some, length, drop};
ghost use Rattle.place_tree.specs.Fold.{same_place};
ghost use Rattle.place_tree.specs.Events as spec;
ghost use Rattle.place_tree.specs.Written.{written, member_written, object_written, list_written};

use crate::{Answer, Event, Leaf, Place};
use pg_base::Memory;
use std::alloc::Global;

/// What gives an answer at each place, from the state at which it stands.
pub trait Asker {
    ghost use Rattle.place_tree.specs.declared.place.Place.{Place};
    ghost use Rattle.place_tree.specs.declared.answer.Answer.{Answer};

    type State: Drop;

    ghost asked: { Self → ℕ → Place → Self.State → Answer Self.State };

    fn ask(
        &self,
        alloc: Global,
        number: u32,
        place: &Place,
        state: &Self::State,
    ) -> Result<Answer<Self::State>, Memory>
        ensures { IfOk result (λ answer. answer ≡ asked self.now number place.now state.now) };
}

pub(crate) fn is_below(place: &Place, parent: Option<u32>) -> bool
    ensures { result ≡ same_place place.now.parent parent }
{
    match place.parent {
        None => parent.is_none(),
        Some(above) => match parent {
            None => false,
            Some(other) => above == other,
        },
    }
}

pub(crate) fn leaf_event(leaf: Leaf) -> Event
    ensures { result ≡ spec.leaf_event leaf }
{
    match leaf {
        Leaf::Null => Event::Null,
        Leaf::Int(number) => Event::Int(number),
        Leaf::Truth(truth) => Event::Bool(truth),
        Leaf::Text(text) => Event::Text(text),
    }
}

/// Appends the members that the places of this parent, from a number on, give at a state.
#[cycle(put)]
pub fn put_members<A: Asker>(
    alloc: Global,
    asker: &A,
    places: &[Place],
    from: usize,
    parent: Option<u32>,
    state: &A::State,
    out: &mut Vec<Event>,
) -> Result<(), Memory>
    requires few { length places.now < 2 ^ 32 }
    ensures { OnOk result (out.new.items ≡ out.old.items
        ++ written (A.asked asker.now) (drop from places.now) from parent state.now) }
{
    for i in from..places.len() {
        let place = &places[i];
        if !is_below(place, parent) {
            continue;
        }
        put_member(alloc, asker, places, i, place, state, out)?;
    }
    Ok(())
}

#[cycle(put)]
fn put_member<A: Asker>(
    alloc: Global,
    asker: &A,
    places: &[Place],
    i: usize,
    place: &Place,
    state: &A::State,
    out: &mut Vec<Event>,
) -> Result<(), Memory>
    requires few { length places.now < 2 ^ 32 }
    requires here { i < length places.now }
    ensures { OnOk result (out.new.items ≡ out.old.items
        ++ member_written (A.asked asker.now) (drop (i + 1) places.now) i place.now state.now) }
{
    let number = i as u32;
    out.push(Event::Key(place.key.copy(alloc)?))?;
    match asker.ask(alloc, number, place, state)? {
        Answer::Shows(leaf) => out.push(leaf_event(leaf))?,
        Answer::Fails(message) => out.push(Event::Failed(message, place.pos))?,
        Answer::One(below) => put_object(alloc, asker, places, i, &below, out)?,
        Answer::Many(list) => put_list(alloc, asker, places, i, list.as_slice(), out)?,
    }
    Ok(())
}

#[cycle(put)]
fn put_object<A: Asker>(
    alloc: Global,
    asker: &A,
    places: &[Place],
    i: usize,
    state: &A::State,
    out: &mut Vec<Event>,
) -> Result<(), Memory>
    requires few { length places.now < 2 ^ 32 }
    requires here { i < length places.now }
    ensures { OnOk result (out.new.items ≡ out.old.items
        ++ object_written (A.asked asker.now) (drop (i + 1) places.now) i state.now) }
{
    out.push(Event::OpenObject)?;
    put_members(alloc, asker, places, i + 1, Some(i as u32), state, out)?;
    out.push(Event::CloseObject)?;
    Ok(())
}

#[cycle(put)]
fn put_list<A: Asker>(
    alloc: Global,
    asker: &A,
    places: &[Place],
    i: usize,
    states: &[A::State],
    out: &mut Vec<Event>,
) -> Result<(), Memory>
    requires few { length places.now < 2 ^ 32 }
    requires here { i < length places.now }
    ensures { OnOk result (out.new.items ≡ out.old.items
        ++ list_written (A.asked asker.now) (drop (i + 1) places.now) i states.now) }
{
    out.push(Event::OpenList)?;
    for state in states {
        put_object(alloc, asker, places, i, state, out)?;
    }
    out.push(Event::CloseList)?;
    Ok(())
}
