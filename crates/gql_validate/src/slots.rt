//! Fields of joined selection sets by their response keys.

ghost use Rattle.std.specs.Prelude.{◌≡◌};
ghost use Rattle.gql_validate.specs.Merged.{field_view};
ghost use Rattle.gql_validate.specs.JoinedSets as spec;

use crate::paired_fields::{FieldOn, response_key};
use indexmap::IndexMap;
use pg_base::Memory;
use std::alloc::Global;
use std::marker::Model;

/// Where a field goes: the head of its set, its parent type and a number of its response key. Keys that share a number
/// are taken for one.
#[derive(Clone, Copy, PartialEq, Eq, Hash)]
pub(crate) struct Slot {
    head: usize,
    parent: u32,
    print: u64,
}

fn print_of(key: &[u8]) -> u64
    ensures { result ≡ spec.print_from 0 key.now }
{
    let mut print = 0u64;
    for byte in key {
        print = print.wrapping_mul(31).wrapping_add(u64::from(*byte));
    }
    print
}

/// Where a field of sets with the head goes.
pub(crate) fn slot_of(head: usize, field: &FieldOn<'_>) -> Slot
    ensures { result ≡ spec.slot_of head (field_view field.now) }
{
    let key = response_key(field.field).bytes();
    Slot {
        head,
        parent: field.parent,
        print: print_of(key),
    }
}

/// The first field of each slot, by its place. Contracts see the slots with the places.
#[derive(Drop)]
pub(crate) struct Slots {
    places: IndexMap<Slot, usize>,
}

impl Model for Slots {
    ghost use Rattle.std.specs.Prelude.{ℕ, List};
    ghost use Rattle.gql_validate.specs.declared.slots.Slot.{Slot};

    ghost Value = { List (Slot × ℕ) };

    ghost view = { λ slots. slots.places.entries };
}

impl Slots {
    /// No fields.
    pub(crate) fn new(alloc: Global) -> Slots {
        Slots {
            places: IndexMap::new(alloc),
        }
    }

    /// The place of the field that went to the slot.
    pub(crate) fn find(&self, slot: Slot) -> Option<usize>
        ensures { result ≡ spec.first_in self.now slot }
    {
        match self.places.get(&slot) {
            None => None,
            Some(place) => Some(*place),
        }
    }

    /// Puts a field to a slot.
    pub(crate) fn put(&mut self, slot: Slot, place: usize) -> Result<(), Memory> {
        self.places.insert(slot, place)?;
        Ok(())
    }
}
