//! The next place below the same one, of each place.

ghost use Rattle.std.specs.Prelude.{◌≡◌, ◌+◌, ◌++◌, ◌∷◌, [], ◌^◌, ◌<◌, ◌≤◌, IfOk, OnOk, length, drop, reverse, slice_get, slice_set};
ghost use Rattle.place_tree.specs.Fold.{same_place};
ghost use Rattle.batch_execute.specs.Firsts as firsts_are;
ghost use Rattle.batch_execute.specs.Nexts as spec;

use pg_base::Memory;
use place_tree::Place;
use sqlite_items::Items;
use std::alloc::Global;

/// Whether a place stands below this one.
pub fn is_below(place: &Place, parent: Option<u32>) -> bool
    ensures { result ≡ same_place place.now.parent parent }
{
    match place.parent {
        None => parent.is_none(),
        Some(above) => match parent {
            None => false,
            Some(other) => above == other,
        },
    }
}

// ---- the first place below each

/// Where a table of first places has that below a parent.
fn slot_of(parent: Option<u32>) -> usize
    ensures { result ≡ firsts_are.slot_of parent }
{
    match parent {
        None => 0,
        Some(place) => place as usize + 1,
    }
}

fn put_first(firsts: &mut Vec<usize>, parent: Option<u32>, place: usize)
    ensures { firsts.new.items ≡ slice_set firsts.old.items (firsts_are.slot_of parent) place }
{
    let slot = slot_of(parent);
    if slot < firsts.len() {
        firsts[slot] = place;
    }
}

/// The first place from a number on that stands below the parent, or else the end.
fn next_from(places: &[Place], from: usize, parent: Option<u32>) -> usize
    requires { from ≤ length places.now }
    ensures { result ≡ spec.next_from parent from (drop from places.now) }
{
    for i in from..places.len() {
        if is_below(&places[i], parent) {
            return i;
        }
    }
    places.len()
}

/// The same, from the table. Only a parent that is no place has no slot in it.
fn next_in(firsts: &[usize], places: &[Place], from: usize, parent: Option<u32>) -> usize
    requires within { from ≤ length places.now }
    requires firsts { firsts_are.AreFirsts firsts.now from (drop from places.now) }
    ensures { result ≡ spec.next_from parent from (drop from places.now) }
{
    match firsts.get(slot_of(parent)) {
        None => next_from(places, from, parent),
        Some(first) => *first,
    }
}

// ---- the next places

/// Appends the next place of that at i, which becomes the first one below its parent.
fn link(
    places: &[Place],
    i: usize,
    firsts: &mut Vec<usize>,
    nexts: &mut Vec<usize>,
) -> Result<(), Memory>
    requires here { i < length places.now }
    requires firsts { firsts_are.AreFirsts firsts.old.items (i + 1) (drop (i + 1) places.now) }
    requires nexts { reverse nexts.old.items
        ≡ spec.nexts_from (i + 1) (drop (i + 1) places.now) }
    ensures firsts { OnOk result (firsts_are.AreFirsts firsts.new.items i (drop i places.now)) }
    ensures nexts { OnOk result (reverse nexts.new.items
        ≡ spec.nexts_from i (drop i places.now)) }
{
    let place = &places[i];
    let next = next_in(firsts.as_slice(), places, i + 1, place.parent);
    nexts.push(next)?;
    put_first(firsts, place.parent, i);
    Ok(())
}

/// The next place below the same one, of each place.
pub fn nexts_of(alloc: Global, places: &[Place]) -> Result<Items<usize>, Memory>
    ensures { IfOk result (λ nexts. nexts ≡ spec.nexts_from 0 places.now) }
{
    let count = places.len();
    let mut firsts = vec![in alloc; count; count.saturating_add(1)]?;
    let mut nexts = Vec::with_capacity(alloc, count)?;
    let mut left = count;
    'left: while left > 0 {
        left -= 1;
        link(places, left, &mut firsts, &mut nexts)?;
    }
    nexts.reverse();
    Ok(Items::from_vec(nexts))
}

/// The next place below the same one, read from the table of them.
pub fn next_of(nexts: &[usize], i: usize) -> usize
    requires { i + 1 < 2 ^ 64 }
    ensures { result ≡ spec.next_or i (slice_get nexts.now i) }
{
    match nexts.get(i) {
        None => i + 1,
        Some(next) => *next,
    }
}
