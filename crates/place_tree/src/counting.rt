//! The members that the places of a tree give, written out and counted in one walk: what the places cost is taken from
//! what is left.

ghost use Rattle.std.specs.Prelude.{◌≡◌, ℕ, ◌+◌, ◌^◌, ◌<◌, ◌++◌, ◌∷◌, [], OnOk, Some, length, drop};
ghost use Rattle.place_tree.specs.Written.{written, member_written, answer_written, object_written, list_written};
ghost use Rattle.place_tree.specs.Spent.{spent, member_spent, answer_spent, state_spent, states_spent, Spends};

use crate::writing::{is_below, leaf_event};
use crate::{Answer, Asker, Event, Place};
use pg_base::Memory;
use std::alloc::{AllocError, Global};

#[derive(Clone, Copy, Drop)]
pub enum CountFault {
    TooMany,
    Memory,
}

impl From<AllocError> for CountFault {
    ghost use Rattle.std.specs.Prelude.{◌≡◌};
    ghost use Rattle.place_tree.specs.declared.counting.CountFault.TheVariants.{Memory};

    ghost from_gives = { λ _ e. e ≡ Memory };

    fn from(_: AllocError) -> CountFault {
        CountFault::Memory
    }
}

/// What a place costs, by what it gives.
pub trait Coster: Asker {
    ghost use Rattle.std.specs.Prelude.{◌≡◌, ℕ};
    ghost use Rattle.place_tree.specs.declared.place.Place.{Place};
    ghost use Rattle.place_tree.specs.declared.answer.Answer.{Answer};

    ghost costs: { Self → ℕ → Place → Answer Self.State → ℕ };

    fn cost(&self, number: u32, place: &Place, answer: &Answer<Self::State>) -> u64
        ensures { result ≡ costs self.now number place.now answer.now };
}

fn append(out: &mut Vec<Event>, event: Event) -> Result<(), Memory>
    ensures { OnOk result (out.new.items ≡ out.old.items ++ event ∷ []) }
{
    out.push(event)?;
    Ok(())
}

/// Appends the members that the places of this parent, from a number on, give at a state, and takes what these places
/// cost from what is left. It stops where there is too little.
#[cycle(visit)]
pub fn visit_members<A: Coster>(
    alloc: Global,
    asker: &A,
    places: &[Place],
    from: usize,
    parent: Option<u32>,
    state: &A::State,
    left: &mut u64,
    out: &mut Vec<Event>,
) -> Result<(), CountFault>
    requires few { length places.now < 2 ^ 32 }
    ensures written { OnOk result (out.new.items ≡ out.old.items
        ++ written (A.asked asker.now) (drop from places.now) from parent state.now) }
    ensures spent { Spends left.old left.new
        (spent (A.asked asker.now) (A.costs asker.now) (drop from places.now) from parent state.now)
        result }
{
    for i in from..places.len() {
        let place = &places[i];
        if !is_below(place, parent) {
            continue;
        }
        match visit_member(alloc, asker, places, i, place, state, left, out) {
            Ok(()) => {}
            Err(fault) => return Err(fault),
        }
    }
    Ok(())
}

#[cycle(visit)]
fn visit_member<A: Coster>(
    alloc: Global,
    asker: &A,
    places: &[Place],
    i: usize,
    place: &Place,
    state: &A::State,
    left: &mut u64,
    out: &mut Vec<Event>,
) -> Result<(), CountFault>
    requires few { length places.now < 2 ^ 32 }
    requires here { i < length places.now }
    ensures written { OnOk result (out.new.items ≡ out.old.items
        ++ member_written (A.asked asker.now) (drop (i + 1) places.now) i place.now state.now) }
    ensures spent { Spends left.old left.new
        (member_spent (A.asked asker.now) (A.costs asker.now) (drop (i + 1) places.now) i place.now
        state.now) result }
{
    let answer = asker.ask(alloc, i as u32, place, state)?;
    let cost = asker.cost(i as u32, place, &answer);
    if cost > *left {
        return Err(CountFault::TooMany);
    }
    *left -= cost;
    let key = place.key.copy(alloc)?;
    append(out, Event::Key(key))?;
    visit_answer(alloc, asker, places, i, place, answer, left, out)
}

#[cycle(visit)]
fn visit_answer<A: Coster>(
    alloc: Global,
    asker: &A,
    places: &[Place],
    i: usize,
    place: &Place,
    answer: Answer<A::State>,
    left: &mut u64,
    out: &mut Vec<Event>,
) -> Result<(), CountFault>
    requires few { length places.now < 2 ^ 32 }
    requires here { i < length places.now }
    ensures written { OnOk result (out.new.items ≡ out.old.items
        ++ answer_written (A.asked asker.now) (drop (i + 1) places.now) i place.now answer) }
    ensures spent { Spends left.old left.new
        (answer_spent (A.asked asker.now) (A.costs asker.now) (drop (i + 1) places.now) i answer)
        result }
{
    match answer {
        Answer::Shows(leaf) => {
            append(out, leaf_event(leaf))?;
            Ok(())
        }
        Answer::Fails(message) => {
            append(out, Event::Failed(message, place.pos))?;
            Ok(())
        }
        Answer::One(below) => visit_object(alloc, asker, places, i, &below, left, out),
        Answer::Many(list) => visit_list(alloc, asker, places, i, list.as_slice(), left, out),
    }
}

#[cycle(visit)]
fn visit_object<A: Coster>(
    alloc: Global,
    asker: &A,
    places: &[Place],
    i: usize,
    state: &A::State,
    left: &mut u64,
    out: &mut Vec<Event>,
) -> Result<(), CountFault>
    requires few { length places.now < 2 ^ 32 }
    requires here { i < length places.now }
    ensures written { OnOk result (out.new.items ≡ out.old.items
        ++ object_written (A.asked asker.now) (drop (i + 1) places.now) i state.now) }
    ensures spent { Spends left.old left.new
        (state_spent (A.asked asker.now) (A.costs asker.now) (drop (i + 1) places.now) i state.now)
        result }
{
    append(out, Event::OpenObject)?;
    match visit_members(
        alloc,
        asker,
        places,
        i + 1,
        Some(i as u32),
        state,
        left,
        out,
    ) {
        Ok(()) => {}
        Err(fault) => return Err(fault),
    }
    append(out, Event::CloseObject)?;
    Ok(())
}

#[cycle(visit)]
fn visit_list<A: Coster>(
    alloc: Global,
    asker: &A,
    places: &[Place],
    i: usize,
    states: &[A::State],
    left: &mut u64,
    out: &mut Vec<Event>,
) -> Result<(), CountFault>
    requires few { length places.now < 2 ^ 32 }
    requires here { i < length places.now }
    ensures written { OnOk result (out.new.items ≡ out.old.items
        ++ list_written (A.asked asker.now) (drop (i + 1) places.now) i states.now) }
    ensures spent { Spends left.old left.new
        (states_spent (A.asked asker.now) (A.costs asker.now) (drop (i + 1) places.now) i
        states.now) result }
{
    append(out, Event::OpenList)?;
    for state in states {
        match visit_object(alloc, asker, places, i, state, left, out) {
            Ok(()) => {}
            Err(fault) => return Err(fault),
        }
    }
    append(out, Event::CloseList)?;
    Ok(())
}
