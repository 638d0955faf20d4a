//! Laws of the definitions: functions that do nothing, each with a law as its contract.

ghost use Rattle.std.specs.Prelude.{◌≡◌, Ok};
ghost use Rattle.pg_base.specs.Lists.{Each};
ghost use Rattle.ddl_reader.specs.Rows.{IsRowOf};
ghost use Rattle.rel_model.specs.declared.tables.Tables.{Tables};
ghost use Rattle.rel_model.specs.Tables.{AreValidTables};
ghost use Rattle.rows_reader.specs.Loaded.{rows_of};
ghost use Rattle.rows_reader.specs.Texts.{HasTexts};

use ddl_reader::RowText;
use pg_base::Catalog;

/// The tables that rows make are valid for their catalog.
pub fn loaded_tables_are_valid(catalog: &Catalog, rows: &[RowText])
    requires rows { Each (IsRowOf catalog.now) rows.now }
    requires texts { Each HasTexts rows.now }
    ensures { (tables : Tables) → rows_of catalog.now rows.now ≡ Ok tables
        → AreValidTables catalog.now tables }
{
    catalog.know();
}
