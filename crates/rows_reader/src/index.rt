//! The cells that rows have in certain columns, found in constant time.

ghost use Rattle.std.specs.Prelude.{◌≡◌, [], map, length, IfOk, OnOk, IsTrue};
ghost use Rattle.pg_base.specs.Lists.{Each};
ghost use Rattle.rel_model.specs.Tables.{cells_at};
ghost use Rattle.rows_reader.specs.Keys as spec;
ghost use Rattle.rows_reader.specs.Kept.{Index, IsIndexOf, grown};

use crate::key::Key;
use indexmap::IndexSet;
use pg_base::{Cell, Memory};
use rel_model::{Row, cell_at, is_null};
use sqlite_items::Items;
use std::alloc::Global;
use std::marker::Model;

/// Columns, and the cells that rows have in them.
#[derive(Drop)]
pub(crate) struct KeyIndex {
    places: Items<u32>,
    keys: IndexSet<Key>,
}

impl Model for KeyIndex {
    ghost use Rattle.rows_reader.specs.Kept.{Index};

    ghost Value = { Index };

    ghost view = { λ index. record { places = index.places; keys = index.keys.keys } };
}

/// The cells at several places, a null where there is none.
fn key_of_several(alloc: Global, places: &[u32], cells: &[Cell]) -> Result<Key, Memory>
    ensures { IfOk result (λ key. key ≡ cells_at places.now cells.now) }
{
    let mut key = Vec::with_capacity(alloc, places.len())?;
    for place in places {
        key.push(cell_at(alloc, cells, *place)?)?;
    }
    Ok(Key::several(key))
}

/// The cells at these places, a null where there is none.
pub(crate) fn key_of(alloc: Global, places: &[u32], cells: &[Cell]) -> Result<Key, Memory>
    ensures { IfOk result (λ key. key ≡ cells_at places.now cells.now) }
{
    match places {
        [place] => {
            let cell = cell_at(alloc, cells, *place)?;
            Ok(Key::one(cell))
        }
        _ => key_of_several(alloc, places, cells),
    }
}

pub(crate) fn has_null(key: &[Cell]) -> bool
    ensures { result ≡ spec.has_null key.now }
{
    key.iter().any(|cell| is_null(cell))
}

impl KeyIndex {
    fn new(alloc: Global, places: &[u32]) -> Result<KeyIndex, Memory>
        ensures { IfOk result (λ index. index ≡ record { places = places.now; keys = [] }) }
    {
        let places = Items::from_slice(alloc, places)?;
        Ok(KeyIndex {
            places,
            keys: IndexSet::new(alloc),
        })
    }

    fn is_at(&self, places: &[u32]) -> bool
        ensures { IsTrue result → self.now.places ≡ places.now }
    {
        self.places.as_slice() == places
    }

    fn has(&self, key: &Key) -> bool
        ensures { result ≡ spec.stands self.now.keys key.now }
    {
        self.keys.contains(key)
    }

    /// The cells of one row more.
    fn add(&mut self, alloc: Global, cells: &[Cell]) -> Result<(), Memory>
        ensures { OnOk result (self.new ≡ grown cells.now self.old) }
    {
        let key = key_of(alloc, self.places.as_slice(), cells)?;
        self.keys.insert(key)?;
        Ok(())
    }
}

fn add_all(alloc: Global, indexes: &mut Vec<KeyIndex>, cells: &[Cell]) -> Result<(), Memory>
    ensures { OnOk result (indexes.new.items ≡ map (grown cells.now) indexes.old.items) }
{
    for i in 0..indexes.len() {
        indexes[i].add(alloc, cells)?;
    }
    Ok(())
}

/// Looks through the rows themselves.
fn scan(alloc: Global, rows: &[Row], places: &[u32], key: &Key) -> Result<bool, Memory>
    ensures { IfOk result
        (λ found. found ≡ spec.stands (spec.keys_at places.now rows.now) key.now) }
{
    for row in rows {
        let other = key_of(alloc, places, row.cells.as_slice())?;
        if *key == other {
            return Ok(true);
        }
    }
    Ok(false)
}

fn look_up(
    alloc: Global,
    indexes: &[KeyIndex],
    rows: &[Row],
    places: &[u32],
    key: &Key,
) -> Result<bool, Memory>
    requires { Each (IsIndexOf rows.now) indexes.now }
    ensures { IfOk result
        (λ found. found ≡ spec.stands (spec.keys_at places.now rows.now) key.now) }
{
    for index in indexes {
        if index.is_at(places) {
            return Ok(index.has(key));
        }
    }
    scan(alloc, rows, places, key)
}

/// The indexes of a table, which contracts see as the list of them.
#[derive(Drop)]
pub(crate) struct Indexes {
    indexes: Vec<KeyIndex>,
}

impl Model for Indexes {
    ghost use Rattle.std.specs.Prelude.{List};
    ghost use Rattle.rows_reader.specs.Kept.{Index};

    ghost Value = { List Index };

    ghost view = { λ indexes. indexes.indexes.items };
}

impl Indexes {
    pub(crate) fn new(alloc: Global) -> Indexes
        ensures { result ≡ [] }
    {
        Indexes {
            indexes: Vec::new(alloc),
        }
    }

    /// An index of these columns, before any row, where there is none.
    pub(crate) fn have(&mut self, alloc: Global, places: &[u32]) -> Result<(), Memory>
        ensures { OnOk result (Each (IsIndexOf []) self.old → Each (IsIndexOf []) self.new) }
    {
        if self.indexes.iter().any(|index| index.is_at(places)) {
            return Ok(());
        }
        self.indexes.push(KeyIndex::new(alloc, places)?)?;
        Ok(())
    }

    /// The cells of one row more, in each index.
    pub(crate) fn add(&mut self, alloc: Global, cells: &[Cell]) -> Result<(), Memory>
        ensures { OnOk result (self.new ≡ map (grown cells.now) self.old) }
    {
        add_all(alloc, &mut self.indexes, cells)?;
        Ok(())
    }

    /// Whether a row has these cells at these columns: in constant time where there is an index of them.
    pub(crate) fn find(
        &self,
        alloc: Global,
        rows: &[Row],
        places: &[u32],
        key: &Key,
    ) -> Result<bool, Memory>
        requires { Each (IsIndexOf rows.now) self.now }
        ensures { IfOk result
            (λ found. found ≡ spec.stands (spec.keys_at places.now rows.now) key.now) }
    {
        look_up(alloc, self.indexes.as_slice(), rows, places, key)
    }
}
