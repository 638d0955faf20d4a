//! Names in order, with a look-up of their places.

ghost use Rattle.std.specs.Prelude.{◌≡◌, ◌<◌, ◌≤◌, ◌++◌, [], ◌∷◌, false, None, find, not, length, IfOk, OnOk, IfSome};
ghost use Rattle.std.specs.Option.{option_copied};
ghost use Rattle.pg_base.specs.Limits.{most_columns};
ghost use Rattle.pg_catalog.specs.Names.{stands, place_of, places_of, first_double, is_long};
ghost use Rattle.pg_catalog.specs.Faults.{when};

use indexmap::IndexSet;
use pg_base::limits::MOST_NAME_BYTES;
use pg_base::{Memory, Text};
use sqlite_items::Items;
use std::alloc::Global;
use std::marker::Model;

/// Names of which no two are equal, in the order in which they came.
#[derive(Drop)]
pub(crate) struct Names {
    names: IndexSet<Text>,
}

impl Model for Names {
    ghost use Rattle.std.specs.Prelude.{ℕ, List};

    ghost Value = { List (List ℕ) };

    ghost view = { λ names. names.names.keys };
}

impl Names {
    pub(crate) fn new(alloc: Global) -> Names
        ensures { result ≡ [] }
    {
        Names {
            names: IndexSet::new(alloc),
        }
    }

    /// These names, copied.
    pub(crate) fn of(alloc: Global, names: &[Text]) -> Result<Names, Memory>
        requires { first_double names.now ≡ None }
        ensures { IfOk result (λ made. made ≡ names.now) }
    {
        let mut made = Names::new(alloc);
        for name in names {
            made.push(alloc, name)?;
        }
        Ok(made)
    }

    /// Whether the name is one of these.
    pub(crate) fn has(&self, name: &Text) -> bool
        ensures { result ≡ stands self.now name.now }
    {
        self.names.contains(name)
    }

    /// The name's place.
    pub(crate) fn place(&self, name: &Text) -> Option<usize>
        ensures value { result ≡ place_of self.now name.now }
        ensures within { IfSome result (λ at. at < length self.now) }
    {
        self.names.get_index_of(name)
    }

    /// One more name, copied, at the end.
    pub(crate) fn push(&mut self, alloc: Global, name: &Text) -> Result<(), Memory>
        requires { stands self.old name.now ≡ false }
        ensures { OnOk result (self.new ≡ self.old ++ name.now ∷ []) }
    {
        self.names.insert(name.copy(alloc)?)?;
        Ok(())
    }

    /// The first of the names that isn't one of these.
    pub(crate) fn first_missing<'a>(&self, names: &'a [Text]) -> Option<&'a Text>
        ensures { option_copied result ≡ find (λ name. not (stands self.now name)) names.now }
    {
        names.iter().find(|name| !self.has(name))
    }

    /// The places of those names that stand.
    pub(crate) fn places(&self, alloc: Global, names: &[Text]) -> Result<Items<u32>, Memory>
        requires { length self.now ≤ most_columns }
        ensures { IfOk result (λ places. places ≡ places_of self.now names.now) }
    {
        let mut places = Items::new(alloc);
        for name in names {
            let Some(place) = self.place(name) else {
                continue;
            };
            places.push(place as u32)?;
        }
        Ok(places)
    }
}

/// The first name that stands before it already.
pub(crate) fn first_double(alloc: Global, names: &[Text]) -> Result<Option<&Text>, Memory>
    ensures { IfOk result (λ found. option_copied found ≡ first_double names.now) }
{
    let mut seen = Names::new(alloc);
    for name in names {
        if seen.has(name) {
            return Ok(Some(name));
        }
        seen.push(alloc, name)?;
    }
    Ok(None)
}

/// The name, where the test holds.
pub(crate) fn when(test: bool, name: &Text) -> Option<&Text>
    ensures { option_copied result ≡ when test name.now }
{
    if test { Some(name) } else { None }
}

/// Whether a name is longer than may be.
pub(crate) fn is_long(name: &Text) -> bool
    ensures { result ≡ is_long name.now }
{
    name.bytes().len() > MOST_NAME_BYTES
}
