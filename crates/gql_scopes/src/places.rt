//! Places of definitions that are reached.

ghost use Rattle.std.specs.Prelude.{◌≡◌, []};
ghost use Rattle.gql_scopes.specs.Tables.{has};

use indexmap::IndexSet;
use std::alloc::Global;
use std::marker::Model;

/// Places, each once.
#[derive(Drop)]
pub(crate) struct PlaceSet {
    places: IndexSet<usize>,
}

impl Model for PlaceSet {
    ghost use Rattle.std.specs.Prelude.{ℕ, List};

    ghost Value = { List ℕ };

    ghost view = { λ places. places.places.keys };
}

impl PlaceSet {
    pub(crate) fn new(alloc: Global) -> PlaceSet
        ensures { result ≡ [] }
    {
        PlaceSet {
            places: IndexSet::new(alloc),
        }
    }

    pub(crate) fn of(places: IndexSet<usize>) -> PlaceSet
        ensures { result ≡ places.keys }
    {
        PlaceSet { places }
    }

    pub(crate) fn has(&self, place: usize) -> bool
        ensures { result ≡ has self.now place }
    {
        self.places.contains(&place)
    }

    pub(crate) fn as_slice(&self) -> &[usize]
        ensures { result.now ≡ self.now }
    {
        self.places.as_slice()
    }
}
