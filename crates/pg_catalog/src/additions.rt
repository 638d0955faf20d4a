//! What a part adds to the catalog so far.

ghost use Rattle.std.specs.Prelude.{◌≡◌, ◌++◌, ◌∷◌, [], true, None, unwrap_or, OnOk, IfOk};
ghost use Rattle.pg_catalog.specs.Added.{added, not_null_at, holding, linked};
ghost use Rattle.pg_catalog.specs.Names.{changed};
ghost use Rattle.pg_catalog.specs.Constraints.{key_name, link_name};
ghost use Rattle.pg_catalog.specs.Faults.{fault_of};
ghost use Rattle.pg_catalog.specs.declared.part.Part.TheVariants as variant;

use crate::columns::{columns_of, names_of};
use crate::copies::{column_without_null, copy_texts};
use crate::growing::{Growing, indexed};
use crate::names::Names;
use crate::texts::{know_columns, know_text, know_texts};
use crate::{EnumPart, KeyPart, LinkPart, TablePart};
use pg_base::{ColumnDef, EnumDef, KeyDef, LinkDef, Memory, TableDef, Tags, Text};
use sqlite_items::{Items, at};
use std::alloc::Global;

/// One item more at the end.
fn append<T: Drop>(items: &mut Vec<T>, item: T) -> Result<(), Memory>
    ensures { OnOk result (items.new.items ≡ items.old.items ++ item ∷ []) }
{
    items.push(item)?;
    Ok(())
}

/// One column takes no null.
fn refuse_null(alloc: Global, columns: &mut Items<ColumnDef>, place: u32) -> Result<(), Memory>
    ensures { OnOk result
        (columns.new ≡ changed columns.old place (λ column. record column { not_null = true })) }
{
    let Some(column) = at(columns.as_slice(), place as usize) else {
        return Ok(());
    };
    let column = column_without_null(alloc, column)?;
    if (place as usize) < columns.len() {
        columns.set(place as usize, column);
    }
    Ok(())
}

/// The columns at these places take no null.
fn refuse_nulls(alloc: Global, columns: &mut Items<ColumnDef>, places: &[u32]) -> Result<(), Memory>
    ensures { OnOk result (columns.new ≡ not_null_at columns.old places.now) }
{
    for place in places {
        refuse_null(alloc, columns, *place)?;
    }
    Ok(())
}

fn hold(alloc: Global, table: &mut TableDef, key: KeyDef) -> Result<(), Memory>
    ensures { OnOk result (table.new ≡ holding table.old key) }
{
    if key.primary {
        refuse_nulls(alloc, &mut table.columns, key.columns.as_slice())?;
    }
    table.keys.push(key)?;
    Ok(())
}

fn link_up(table: &mut TableDef, link: LinkDef) -> Result<(), Memory>
    ensures { OnOk result (table.new ≡ linked table.old link) }
{
    table.links.push(link)?;
    Ok(())
}

fn or_empty(alloc: Global, places: Option<Items<u32>>) -> Items<u32>
    ensures { result ≡ unwrap_or places [] }
{
    match places {
        Some(places) => places,
        None => Items::new(alloc),
    }
}

impl Growing {
    /// The catalog with one enum more.
    pub(crate) fn with_enum(self, alloc: Global, part: &EnumPart) -> Result<Growing, Memory>
        requires { fault_of self (variant.Enum part.now) ≡ None }
        ensures { IfOk result (λ grown. grown ≡ added self (variant.Enum part.now)) }
    {
        know_text(&part.name);
        know_texts(part.cases.as_slice());
        let name = part.name.copy(alloc)?;
        let cases = copy_texts(alloc, part.cases.as_slice())?;
        let Growing {
            mut enums,
            tables,
            mut enum_names,
            table_names,
            column_names,
        } = self;
        enum_names.push(alloc, &part.name)?;
        let made = EnumDef {
            name,
            cases,
            tags: Tags::none(),
        };
        append(&mut enums, made)?;
        Ok(indexed(enums, tables, enum_names, table_names, column_names))
    }

    /// The catalog with one table more.
    pub(crate) fn with_table(self, alloc: Global, part: &TablePart) -> Result<Growing, Memory>
        requires { fault_of self (variant.Table part.now) ≡ None }
        ensures { IfOk result (λ grown. grown ≡ added self (variant.Table part.now)) }
    {
        know_text(&part.name);
        know_columns(part.columns.as_slice());
        self.know();
        let name = part.name.copy(alloc)?;
        let columns = columns_of(alloc, self.enums(), part.columns.as_slice())?;
        let named = names_of(alloc, part.columns.as_slice())?;
        let known = Names::of(alloc, named.as_slice())?;
        let Growing {
            enums,
            mut tables,
            enum_names,
            mut table_names,
            mut column_names,
        } = self;
        table_names.push(alloc, &part.name)?;
        append(&mut column_names, known)?;
        let made = TableDef {
            name,
            columns,
            keys: Items::new(alloc),
            links: Items::new(alloc),
            tags: Tags::none(),
        };
        append(&mut tables, made)?;
        Ok(indexed(enums, tables, enum_names, table_names, column_names))
    }

    /// The catalog with one key more.
    pub(crate) fn with_key(
        self,
        alloc: Global,
        part: &KeyPart,
        name: Text,
    ) -> Result<Growing, Memory>
        requires fault { fault_of self (variant.Key part.now) ≡ None }
        requires name { name ≡ key_name part.now }
        ensures { IfOk result (λ grown. grown ≡ added self (variant.Key part.now)) }
    {
        know_text(&name);
        let Some(place) = self.table_place(&part.table) else {
            return Ok(self);
        };
        let columns = self.places_at(alloc, place, part.columns.as_slice())?;
        let key = KeyDef {
            name,
            columns,
            primary: part.primary,
            tags: Tags::none(),
        };
        let Growing {
            enums,
            mut tables,
            enum_names,
            table_names,
            column_names,
        } = self;
        hold(alloc, &mut tables[place], key)?;
        Ok(indexed(enums, tables, enum_names, table_names, column_names))
    }

    /// The catalog with one link more.
    pub(crate) fn with_link(
        self,
        alloc: Global,
        part: &LinkPart,
        name: Text,
    ) -> Result<Growing, Memory>
        requires fault { fault_of self (variant.Link part.now) ≡ None }
        requires name { name ≡ link_name part.now }
        ensures { IfOk result (λ grown. grown ≡ added self (variant.Link part.now)) }
    {
        know_text(&name);
        self.know();
        let Some(place) = self.table_place(&part.table) else {
            return Ok(self);
        };
        let Some(target) = self.table_place(&part.target) else {
            return Ok(self);
        };
        let columns = self.places_at(alloc, place, part.columns.as_slice())?;
        let places = self.target_places(alloc, part)?;
        let link = LinkDef {
            name,
            columns,
            target: target as u32,
            target_columns: or_empty(alloc, places),
            tags: Tags::none(),
        };
        let Growing {
            enums,
            mut tables,
            enum_names,
            table_names,
            column_names,
        } = self;
        link_up(&mut tables[place], link)?;
        Ok(indexed(enums, tables, enum_names, table_names, column_names))
    }
}
