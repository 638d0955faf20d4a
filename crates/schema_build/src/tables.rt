//! The tables of a catalog by their places. Where no table stands, one without anything does.

ghost use Rattle.std.specs.Prelude.{◌≡◌, ◌<◌, ◌^◌, length};
ghost use Rattle.pg_base.specs.Lists.{Each};
ghost use Rattle.pg_base.specs.Lookups as spec;
ghost use Rattle.schema_build.specs.Small.{IsSmall};

use pg_base::{Catalog, TableDef, Tags, Text};
use sqlite_items::Items;
use std::alloc::Global;

// Tells that the catalog's enums and tables, and what each table has, can be numbered with 32 bits.
pub(crate) fn know_tables(catalog: &Catalog)
    ensures enums { length catalog.now.enums < 2 ^ 32 }
    ensures tables { length catalog.now.tables < 2 ^ 32 }
    ensures small { Each IsSmall catalog.now.tables }
{
    catalog.know();
}

pub(crate) fn no_table(alloc: Global) -> TableDef
    ensures { result ≡ spec.no_table }
{
    TableDef {
        name: Text::of_bytes(Vec::new(alloc)),
        columns: Items::new(alloc),
        keys: Items::new(alloc),
        links: Items::new(alloc),
        tags: Tags::none(),
    }
}

pub(crate) fn table_at<'a>(catalog: &'a Catalog, nothing: &'a TableDef, place: u32) -> &'a TableDef
    requires { nothing.now ≡ spec.no_table }
    ensures at { result.now ≡ spec.table_at catalog.now place }
    ensures small { IsSmall result.now }
{
    know_tables(catalog);
    match catalog.tables().get(place as usize) {
        None => nothing,
        Some(t) => t,
    }
}

// The columns of the key, none where there is no such key.
pub(crate) fn key_columns(t: &TableDef, key: u32) -> &[u32]
    ensures { result.now ≡ (spec.key_in t.now key).columns }
{
    match t.keys.get(key as usize) {
        None => &[],
        Some(k) => k.columns.as_slice(),
    }
}
