//! Places by name, of several of one name the first.

ghost use Rattle.std.specs.Prelude.{◌≡◌, ℕ, List, OnOk, []};
ghost use Rattle.gql_nodes.specs.Names as spec;

use indexmap::IndexMap;
use pg_base::{Memory, Text};
use std::alloc::Global;
use std::marker::Model;

/// Names, each with the first place that was put to it. Contracts see the names with their places.
#[derive(Drop)]
pub struct Places {
    places: IndexMap<Text, usize>,
}

impl Model for Places {
    ghost use Rattle.std.specs.Prelude.{ℕ, List};

    ghost Value = { List (List ℕ × ℕ) };

    ghost view = { λ places. places.places.entries };
}

impl Places {
    /// No names.
    pub fn new(alloc: Global) -> Places
        ensures { result ≡ [] }
    {
        Places {
            places: IndexMap::new(alloc),
        }
    }

    /// The place of a name, if it has one.
    pub fn find(&self, name: &Text) -> Option<usize>
        ensures { result ≡ spec.place_in self.now name.now }
    {
        match self.places.get(name) {
            None => None,
            Some(place) => Some(*place),
        }
    }

    fn put(&mut self, alloc: Global, name: &Text, place: usize) -> Result<(), Memory>
        ensures { OnOk result (self.new ≡ spec.with_place self.old name.now place) }
    {
        self.places.insert(name.copy(alloc)?, place)?;
        Ok(())
    }

    /// Puts a place to a name that has none yet; one that has a place keeps it.
    pub fn put_first(&mut self, alloc: Global, name: &Text, place: usize) -> Result<(), Memory>
        ensures { OnOk result ((other : List ℕ) → spec.place_in self.new other
            ≡ spec.first_of (spec.place_in self.old other) (spec.when_named other name.now place)) }
    {
        match self.find(name) {
            Some(_) => Ok(()),
            None => {
                self.put(alloc, name, place)?;
                Ok(())
            }
        }
    }
}
