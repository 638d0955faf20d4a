//! Names of columns, with a look-up of their places.

ghost use Rattle.std.specs.Prelude.{◌≡◌, ◌<◌, ◌≤◌, ◌++◌, [], ◌∷◌, false, None, find, not, map, length, slice_get, Some, IfOk, OnOk, IfSome};
ghost use Rattle.std.specs.Option.{option_copied};
ghost use Rattle.pg_base.specs.Limits.{most_columns};
ghost use Rattle.pg_base.specs.Lists.{Each, AreDistinct};
ghost use Rattle.pg_base.specs.Catalog.{IsValidCatalog};
ghost use Rattle.pg_catalog.specs.Names.{stands, place_of, places_of, first_double, column_names};

use indexmap::IndexSet;
use pg_base::{ColumnDef, Memory, TableDef, Text};
use sqlite_items::Items;
use std::alloc::Global;
use std::marker::Model;

/// Names of which no two are equal, in the order in which they came.
#[derive(Drop)]
pub(crate) struct Known {
    names: IndexSet<Text>,
}

impl Model for Known {
    ghost use Rattle.std.specs.Prelude.{ℕ, List};

    ghost Value = { List (List ℕ) };

    ghost view = { λ known. known.names.keys };
}

impl Known {
    fn new(alloc: Global) -> Known
        ensures { result ≡ [] }
    {
        Known {
            names: IndexSet::new(alloc),
        }
    }

    /// Whether the name is one of these.
    fn has(&self, name: &Text) -> bool
        ensures { result ≡ stands self.now name.now }
    {
        self.names.contains(name)
    }

    fn place(&self, name: &Text) -> Option<usize>
        ensures value { result ≡ place_of self.now name.now }
        ensures within { IfSome result (λ at. at < length self.now) }
    {
        self.names.get_index_of(name)
    }

    /// One more name, copied, at the end.
    fn push(&mut self, alloc: Global, name: &Text) -> Result<(), Memory>
        requires { stands self.old name.now ≡ false }
        ensures { OnOk result (self.new ≡ self.old ++ name.now ∷ []) }
    {
        self.names.insert(name.copy(alloc)?)?;
        Ok(())
    }

    /// The first of the names that isn't one of these.
    pub(crate) fn first_missing<'a>(&self, names: &'a [Text]) -> Option<&'a Text>
        ensures { option_copied result ≡ find (λ name. not (stands self.now name)) names.now }
    {
        names.iter().find(|name| !self.has(name))
    }

    /// The places of those names that stand.
    pub(crate) fn places(&self, alloc: Global, names: &[Text]) -> Result<Items<u32>, Memory>
        requires { length self.now ≤ most_columns }
        ensures { IfOk result (λ places. places ≡ places_of self.now names.now) }
    {
        let mut places = Items::new(alloc);
        for name in names {
            let Some(place) = self.place(name) else {
                continue;
            };
            places.push(place as u32)?;
        }
        Ok(places)
    }
}

/// The names of a table's columns.
fn names_of(alloc: Global, columns: &[ColumnDef]) -> Result<Known, Memory>
    requires { AreDistinct (map (λ column. column.name) columns.now) }
    ensures { IfOk result (λ known. known ≡ map (λ column. column.name) columns.now) }
{
    let mut known = Known::new(alloc);
    for column in columns {
        known.push(alloc, &column.name)?;
    }
    Ok(known)
}

/// The names of each table's columns.
pub(crate) fn names_in(alloc: Global, tables: &[TableDef]) -> Result<Items<Known>, Memory>
    requires { Each (λ t. AreDistinct (column_names t)) tables.now }
    ensures { IfOk result (λ known. known ≡ map column_names tables.now) }
{
    let mut known = Items::new(alloc);
    for table in tables {
        let names = names_of(alloc, table.columns.as_slice())?;
        known.push(names)?;
    }
    Ok(known)
}

/// The first of the names that stands before it already.
pub(crate) fn first_double(alloc: Global, names: &[Text]) -> Result<Option<&Text>, Memory>
    ensures { IfOk result (λ found. option_copied found ≡ first_double names.now) }
{
    let mut seen = Known::new(alloc);
    for name in names {
        if seen.has(name) {
            return Ok(Some(name));
        }
        seen.push(alloc, name)?;
    }
    Ok(None)
}
