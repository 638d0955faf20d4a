//! Laws of the definitions: functions that do nothing, each with a law as its contract.

ghost use Rattle.std.specs.Prelude.{◌≡◌, true};
ghost use Rattle.pg_base.specs.Catalog.{CatalogParts};
ghost use Rattle.rel_model.specs.Tables.{AreValidTables, IsUniqueIn};
ghost use Rattle.rel_model.specs.Picked.{AreRising, rows_of};
ghost use Rattle.row_tables.specs.Rows as spec;
ghost use Rattle.row_tables.specs.Set.{AreListsOf, list_at};

use crate::TableSet;
use rel_model::{Row, Tables};

/// Tables that are valid for a catalog have the form of which a set is made.
pub fn valid_tables_have_form(tables: &Tables)
    ensures { (c : CatalogParts) → AreValidTables c tables.now → AreListsOf c tables.now }
{}

/// The rows of a table of a set are those of the tables that it stands for.
pub fn sets_have_rows(set: &TableSet, table: u32)
    ensures { (list_at set.now table).rows ≡ rows_of set.now.tables table }
{}

/// A row that is free in a key's columns keeps them unique when it is put in place or last.
pub fn free_rows_keep_keys(places: &[u32], row: &Row, rows: &[Row])
    requires numbers { AreRising rows.now }
    requires unique { IsUniqueIn rows.now places.now }
    requires free { spec.is_free_in places.now row.now rows.now ≡ true }
    ensures { IsUniqueIn (spec.put row.now rows.now) places.now }
{}
