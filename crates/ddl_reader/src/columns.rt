//! The columns of rows.

ghost use Rattle.std.specs.Prelude.{◌≡◌, ◌==◌, length, position, IfOk};
ghost use Rattle.ddl_reader.specs.Compact.{below};

use pg_base::Memory;
use shared_list::Shared;
use sqlite_items::Items;
use std::alloc::Global;
use std::marker::Model;

/// The places of columns: the first so many of a table, or those that an INSERT names.
#[derive(Drop)]
pub(crate) enum Places {
    First(u32),
    Named(Shared<Items<u32>>),
}

/// The places of a row's columns, which contracts see as the list of them. The rows of an INSERT share the list.
#[derive(Drop)]
pub struct Columns {
    places: Places,
}

impl Model for Columns {
    ghost use Rattle.std.specs.Prelude.{ℕ, List};
    ghost use Rattle.ddl_reader.specs.Compact.{places_in};

    ghost Value = { List ℕ };

    ghost view = { λ columns. places_in columns.places };
}

impl Columns {
    /// The first places, this many.
    pub(crate) fn first(count: u32) -> Columns
        ensures { result ≡ below count }
    {
        Columns {
            places: Places::First(count),
        }
    }

    /// These places.
    pub(crate) fn named(alloc: Global, places: Items<u32>) -> Result<Columns, Memory>
        ensures { IfOk result (λ columns. columns ≡ places) }
    {
        let shared = Shared::new(alloc, places)?;
        Ok(Columns {
            places: Places::Named(shared),
        })
    }

    /// The same places, for one row more.
    pub(crate) fn share(&self) -> Result<Columns, Memory>
        ensures { IfOk result (λ columns. columns ≡ self.now) }
    {
        match &self.places {
            Places::First(count) => Ok(Columns::first(*count)),
            Places::Named(shared) => {
                let shared = shared.share()?;
                Ok(Columns {
                    places: Places::Named(shared),
                })
            }
        }
    }

    /// How many there are.
    pub fn len(&self) -> usize
        ensures { result ≡ length self.now }
    {
        match &self.places {
            Places::First(count) => count_of_first(*count),
            Places::Named(shared) => shared.get().len(),
        }
    }

    /// Where the place of a column stands among these.
    pub fn find(&self, place: usize) -> Option<usize>
        ensures { result ≡ position (λ column. column == place) self.now }
    {
        match &self.places {
            Places::First(count) => find_in_first(*count, place),
            Places::Named(shared) => find_in(shared.get().as_slice(), place),
        }
    }
}

fn count_of_first(count: u32) -> usize
    ensures { result ≡ length (below count) }
{
    count as usize
}

fn find_in_first(count: u32, place: usize) -> Option<usize>
    ensures { result ≡ position (λ column. column == place) (below count) }
{
    if place < count as usize {
        Some(place)
    } else {
        None
    }
}

fn find_in(columns: &[u32], place: usize) -> Option<usize>
    ensures { result ≡ position (λ column. column == place) columns.now }
{
    columns.iter().position(|column| *column as usize == place)
}
