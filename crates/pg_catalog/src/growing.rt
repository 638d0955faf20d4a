//! The catalog so far, with its look-ups.

ghost use Rattle.std.specs.Prelude.{◌≡◌, ◌<◌, ◌≤◌, length, option_map, option_and_then, slice_get, IfSome, IfOk};
ghost use Rattle.std.specs.Option.{option_copied};
ghost use Rattle.pg_base.specs.Catalog.{IsValidCatalog, names};
ghost use Rattle.pg_catalog.specs.Indexed.{IsIndexed};
ghost use Rattle.pg_catalog.specs.Names.{enum_names, table_names, column_names, stands, place_of, places_of, table_of};
ghost use Rattle.pg_catalog.specs.Constraints.{target_places};
ghost use Rattle.pg_base.specs.declared.table_def.TableDef.{TableDef};
ghost use Rattle.pg_base.specs.Limits.{most_columns};
ghost use Rattle.pg_catalog.specs.Built.{empty};

use crate::LinkPart;
use crate::constraints::primary_key;
use crate::names::Names;
use pg_base::{Catalog, EnumDef, Memory, TableDef, Text};
use sqlite_items::{Items, at};
use std::alloc::Global;
use std::marker::Model;

/// The catalog so far, which contracts see as its enums and tables. It is valid after each part. Tables, enums and
/// columns are found by their names in constant time.
#[derive(Drop)]
pub struct Growing {
    pub(crate) enums: Vec<EnumDef>,
    pub(crate) tables: Vec<TableDef>,
    pub(crate) enum_names: Names,
    pub(crate) table_names: Names,
    pub(crate) column_names: Vec<Names>,
}

impl Model for Growing {
    ghost use Rattle.pg_base.specs.Catalog.{CatalogParts};
    ghost use Rattle.pg_catalog.specs.Indexed.{IsIndexed};

    ghost Value = { CatalogParts };

    ghost view = { λ growing.
        record { enums = growing.enums.items; tables = growing.tables.items } };

    ghost invariant = { λ growing. IsIndexed
        (record { enums = growing.enums.items; tables = growing.tables.items })
        growing.enum_names growing.table_names growing.column_names.items };
}

impl Growing {
    /// The catalog in which nothing stands.
    pub fn new(alloc: Global) -> Growing
        ensures { result ≡ empty }
    {
        Growing {
            enums: Vec::new(alloc),
            tables: Vec::new(alloc),
            enum_names: Names::new(alloc),
            table_names: Names::new(alloc),
            column_names: Vec::new(alloc),
        }
    }

    /// The catalog so far, with no copy.
    pub fn finish(self) -> Catalog
        ensures { result ≡ self }
    {
        let Growing {
            enums,
            tables,
            enum_names: _,
            table_names: _,
            column_names: _,
        } = self;
        Catalog::of(Items::from_vec(enums), Items::from_vec(tables))
    }

    pub fn enums(&self) -> &[EnumDef]
        ensures { result.now ≡ self.now.enums }
    {
        self.enums.as_slice()
    }

    pub fn tables(&self) -> &[TableDef]
        ensures { result.now ≡ self.now.tables }
    {
        self.tables.as_slice()
    }

    /// Tells what the type keeps, and does nothing.
    pub fn know(&self)
        ensures { IsValidCatalog self.now }
    {
        let _ = &self.tables;
    }

    /// The place of the enum of this name, as kinds of columns name it.
    pub fn enum_place(&self, name: &Text) -> Option<usize>
        ensures value { result ≡ place_of (enum_names self.now) name.now }
        ensures within { IfSome result (λ at. at < length self.now.enums) }
    {
        self.enum_names.place(name)
    }

    /// The place of the table of this name.
    pub fn table_place(&self, name: &Text) -> Option<usize>
        ensures value { result ≡ place_of (table_names self.now) name.now }
        ensures within { IfSome result (λ at. at < length self.now.tables) }
    {
        self.table_names.place(name)
    }

    /// Whether an enum has the name.
    pub fn has_enum(&self, name: &Text) -> bool
        ensures { result ≡ stands (enum_names self.now) name.now }
    {
        self.enum_names.has(name)
    }

    /// Whether a table has the name.
    pub fn has_table(&self, name: &Text) -> bool
        ensures { result ≡ stands (table_names self.now) name.now }
    {
        self.table_names.has(name)
    }

    /// Whether a table or an enum has the name: then CREATE TABLE IF NOT EXISTS has no effect.
    pub fn has_name(&self, name: &Text) -> bool
        ensures { result ≡ stands (names self.now) name.now }
    {
        self.enum_names.has(name) || self.table_names.has(name)
    }

    /// The table of this name.
    pub fn table(&self, name: &Text) -> Option<&TableDef>
        ensures { option_copied result ≡ table_of self.now name.now }
    {
        let place = self.table_names.place(name)?;
        at(self.tables.as_slice(), place)
    }

    /// The names of the columns of the table of this name.
    pub(crate) fn columns(&self, name: &Text) -> Option<&Names>
        ensures value { option_copied result
            ≡ option_map column_names (table_of self.now name.now) }
        ensures within { IfSome (option_copied result) (λ names. length names ≤ most_columns) }
    {
        let place = self.table_names.place(name)?;
        at(self.column_names.as_slice(), place)
    }

    /// The places of those columns that the table of this name has.
    pub(crate) fn places_in(
        &self,
        alloc: Global,
        table: &Text,
        columns: &[Text],
    ) -> Result<Option<Items<u32>>, Memory>
        ensures { IfOk result (λ places. places
            ≡ option_and_then (λ t. Some (places_of (column_names t) columns.now))
            (table_of self.now table.now)) }
    {
        let Some(names) = self.columns(table) else {
            return Ok(None);
        };
        let places = names.places(alloc, columns)?;
        Ok(Some(places))
    }

    /// The places of those columns that the table at the place has.
    pub(crate) fn places_at(
        &self,
        alloc: Global,
        place: usize,
        columns: &[Text],
    ) -> Result<Items<u32>, Memory>
        requires { place < length self.now.tables }
        ensures { IfOk result (λ places. (t : TableDef) → slice_get self.now.tables place ≡ Some t
            → places ≡ places_of (column_names t) columns.now) }
    {
        let places = self.column_names[place].places(alloc, columns)?;
        Ok(places)
    }

    /// The place of the column of this name in the table at the place.
    pub(crate) fn column_place(&self, place: usize, name: &Text) -> Option<usize>
        requires { place < length self.now.tables }
        ensures { (t : TableDef) → slice_get self.now.tables place ≡ Some t
            → result ≡ place_of (column_names t) name.now }
    {
        self.column_names[place].place(name)
    }

    /// The places that a link refers to.
    pub(crate) fn target_places(
        &self,
        alloc: Global,
        part: &LinkPart,
    ) -> Result<Option<Items<u32>>, Memory>
        ensures { IfOk result (λ places. places
            ≡ option_and_then (λ t. target_places t part.now.target_columns)
            (table_of self.now part.now.target)) }
    {
        if let Some(columns) = &part.target_columns {
            return self.places_in(alloc, &part.target, columns.as_slice());
        }
        let Some(table) = self.table(&part.target) else {
            return Ok(None);
        };
        let Some(key) = primary_key(table) else {
            return Ok(None);
        };
        let places = Items::from_slice(alloc, key.columns.as_slice())?;
        Ok(Some(places))
    }
}

/// The catalog so far of these, and what stands beside it.
pub(crate) fn indexed(
    enums: Vec<EnumDef>,
    tables: Vec<TableDef>,
    enum_names: Names,
    table_names: Names,
    column_names: Vec<Names>,
) -> Growing
    requires { IsIndexed (record { enums = enums.items; tables = tables.items })
        enum_names table_names column_names.items }
    ensures { result ≡ record { enums = enums.items; tables = tables.items } }
{
    Growing {
        enums,
        tables,
        enum_names,
        table_names,
        column_names,
    }
}
