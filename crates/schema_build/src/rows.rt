//! The fields of a table's rows: columns, the rows that they refer to, and the rows that refer to them.

ghost use Rattle.std.specs.Prelude.{◌≡◌, ◌++◌, ◌&&◌, ◌==◌, ◌<◌, ◌^◌, length, unwrap_or, IfOk, OnOk};
ghost use Rattle.std.specs.Option.{option_map};
ghost use Rattle.pg_base.specs.Lists.{Each};
ghost use Rattle.pg_base.specs.Listing.{when, each_at};
ghost use Rattle.pg_base.specs.Behaviors as behaviors;
ghost use Rattle.pg_base.specs.Naming as names;
ghost use Rattle.pg_base.specs.Lookups.{table_at};
ghost use Rattle.pg_base.specs.RowFields as spec;
ghost use Rattle.schema_build.specs.Small.{IsSmall};

use crate::behaving::{CONNECTING, SELECTING, finds_one, is_on};
use crate::columns::put_column_fields;
use crate::connections::connection_arguments;
use crate::naming::{as_str, by_columns, copied, joined, row_field_name, rows_field_name};
use crate::places::Places;
use crate::refs::one;
use crate::tables::{know_tables, no_table, table_at};
use pg_base::{Catalog, Does, FieldDef, LinkDef, Memory, Role, TableDef, Text};
use sqlite_items::Items;
use std::alloc::Global;

// ---- names

fn forward_name(alloc: Global, target: &TableDef, t: &TableDef, l: &LinkDef) -> Result<Text, Memory>
    ensures { IfOk result (λ name. name ≡ unwrap_or l.now.tags.field_name
        (names.row_field_name target.now ++ names.by_columns t.now l.now.columns)) }
{
    match &l.tags.field_name {
        Some(name) => name.copy(alloc),
        None => {
            let row = row_field_name(alloc, target)?;
            let by = by_columns(alloc, t, l.columns.as_slice())?;
            joined(alloc, "", as_str(&row), as_str(&by))
        }
    }
}

fn backward_row_name(alloc: Global, t: &TableDef, l: &LinkDef) -> Result<Text, Memory>
    ensures { IfOk result (λ name. name ≡ unwrap_or l.now.tags.foreign_field_name
        (names.row_field_name t.now ++ names.by_columns t.now l.now.columns)) }
{
    match &l.tags.foreign_field_name {
        Some(name) => name.copy(alloc),
        None => {
            let row = row_field_name(alloc, t)?;
            let by = by_columns(alloc, t, l.columns.as_slice())?;
            joined(alloc, "", as_str(&row), as_str(&by))
        }
    }
}

fn backward_rows_name(alloc: Global, t: &TableDef, l: &LinkDef) -> Result<Text, Memory>
    ensures { IfOk result (λ name. name ≡ unwrap_or l.now.tags.foreign_field_name
        (names.rows_field_name t.now ++ names.by_columns t.now l.now.columns)) }
{
    match &l.tags.foreign_field_name {
        Some(name) => name.copy(alloc),
        None => {
            let rows = rows_field_name(alloc, t)?;
            let by = by_columns(alloc, t, l.columns.as_slice())?;
            joined(alloc, "", as_str(&rows), as_str(&by))
        }
    }
}

// ---- one field

fn forward_field(
    alloc: Global,
    catalog: &Catalog,
    types: &Places,
    table: u32,
    t: &TableDef,
    place: u32,
    l: &LinkDef,
) -> Result<FieldDef, Memory>
    ensures { IfOk result
        (λ f. f ≡ spec.forward_field catalog.now types.now table t.now place l.now) }
{
    let nothing = no_table(alloc);
    let target = table_at(catalog, &nothing, l.target);
    let name = forward_name(alloc, target, t, l)?;
    let deprecated = copied(alloc, &l.tags.deprecated)?;
    let ty = one(types.of_role(Role::Row(l.target)), false);
    Ok(FieldDef {
        name,
        args: Items::new(alloc),
        ty,
        does: Does::Forward(table, place),
        deprecated,
    })
}

fn backward_row(
    alloc: Global,
    types: &Places,
    table: u32,
    t: &TableDef,
    place: u32,
    l: &LinkDef,
) -> Result<FieldDef, Memory>
    ensures { IfOk result (λ f. f ≡ spec.backward_row types.now table t.now place l.now) }
{
    let name = backward_row_name(alloc, t, l)?;
    let deprecated = copied(alloc, &l.tags.deprecated)?;
    let ty = one(types.of_role(Role::Row(table)), false);
    Ok(FieldDef {
        name,
        args: Items::new(alloc),
        ty,
        does: Does::Backward(table, place),
        deprecated,
    })
}

fn backward_rows(
    alloc: Global,
    types: &Places,
    table: u32,
    t: &TableDef,
    place: u32,
    l: &LinkDef,
) -> Result<FieldDef, Memory>
    ensures { IfOk result (λ f. f ≡ spec.backward_rows types.now table t.now place l.now) }
{
    let name = backward_rows_name(alloc, t, l)?;
    let args = connection_arguments(alloc, types, table, t)?;
    let deprecated = copied(alloc, &l.tags.deprecated)?;
    let ty = one(types.of_role(Role::Connection(table)), false);
    Ok(FieldDef {
        name,
        args,
        ty,
        does: Does::Backward(table, place),
        deprecated,
    })
}

fn backward_field(
    alloc: Global,
    types: &Places,
    table: u32,
    t: &TableDef,
    place: u32,
    l: &LinkDef,
) -> Result<FieldDef, Memory>
    ensures { IfOk result (λ f. f ≡ spec.backward_field types.now table t.now place l.now) }
{
    if finds_one(t, l) {
        return backward_row(alloc, types, table, t, place, l);
    }
    backward_rows(alloc, types, table, t, place, l)
}

// ---- the fields

fn put_forward_field(
    alloc: Global,
    fields: &mut Vec<FieldDef>,
    catalog: &Catalog,
    types: &Places,
    table: u32,
    t: &TableDef,
    place: u32,
    l: &LinkDef,
) -> Result<(), Memory>
    ensures { OnOk result (fields.new.items ≡ fields.old.items
        ++ when (behaviors.is_on behaviors.selecting l.now.tags)
        (spec.forward_field catalog.now types.now table t.now place l.now)) }
{
    if is_on(SELECTING, &l.tags) {
        let field = forward_field(alloc, catalog, types, table, t, place, l)?;
        fields.push(field)?;
    }
    Ok(())
}

fn put_forward_fields(
    alloc: Global,
    fields: &mut Vec<FieldDef>,
    catalog: &Catalog,
    types: &Places,
    table: u32,
    t: &TableDef,
    links: &[LinkDef],
) -> Result<(), Memory>
    requires { length links.now < 2 ^ 32 }
    ensures { OnOk result (fields.new.items ≡ fields.old.items ++ each_at
        (λ place l. when (behaviors.is_on behaviors.selecting l.tags)
        (spec.forward_field catalog.now types.now table t.now place l)) 0 links.now) }
{
    let mut place: u32 = 0;
    for l in links {
        put_forward_field(alloc, fields, catalog, types, table, t, place, l)?;
        place += 1;
    }
    Ok(())
}

// The link leads to the table, and has a field there.
fn leads_back(target: u32, l: &LinkDef) -> bool
    ensures { result ≡ (l.now.target == target && behaviors.is_on behaviors.connecting l.now.tags) }
{
    if l.target != target {
        return false;
    }
    is_on(CONNECTING, &l.tags)
}

fn put_backward_field(
    alloc: Global,
    fields: &mut Vec<FieldDef>,
    types: &Places,
    target: u32,
    table: u32,
    t: &TableDef,
    place: u32,
    l: &LinkDef,
) -> Result<(), Memory>
    ensures { OnOk result (fields.new.items ≡ fields.old.items
        ++ when (l.now.target == target && behaviors.is_on behaviors.connecting l.now.tags)
        (spec.backward_field types.now table t.now place l.now)) }
{
    if leads_back(target, l) {
        let field = backward_field(alloc, types, table, t, place, l)?;
        fields.push(field)?;
    }
    Ok(())
}

fn put_backward_fields_from(
    alloc: Global,
    fields: &mut Vec<FieldDef>,
    types: &Places,
    target: u32,
    table: u32,
    t: &TableDef,
    links: &[LinkDef],
) -> Result<(), Memory>
    requires { length links.now < 2 ^ 32 }
    ensures { OnOk result (fields.new.items ≡ fields.old.items ++ each_at
        (λ place l. when (l.target == target && behaviors.is_on behaviors.connecting l.tags)
        (spec.backward_field types.now table t.now place l)) 0 links.now) }
{
    let mut place: u32 = 0;
    for l in links {
        put_backward_field(alloc, fields, types, target, table, t, place, l)?;
        place += 1;
    }
    Ok(())
}

fn put_backward_fields_of(
    alloc: Global,
    fields: &mut Vec<FieldDef>,
    types: &Places,
    target: u32,
    table: u32,
    t: &TableDef,
) -> Result<(), Memory>
    requires { IsSmall t.now }
    ensures { OnOk result (fields.new.items ≡ fields.old.items
        ++ spec.backward_fields_from types.now target table t.now) }
{
    put_backward_fields_from(alloc, fields, types, target, table, t, t.links.as_slice())?;
    Ok(())
}

fn put_backward_fields(
    alloc: Global,
    fields: &mut Vec<FieldDef>,
    types: &Places,
    target: u32,
    tables: &[TableDef],
) -> Result<(), Memory>
    requires few { length tables.now < 2 ^ 32 }
    requires small { Each IsSmall tables.now }
    ensures { OnOk result (fields.new.items ≡ fields.old.items
        ++ each_at (spec.backward_fields_from types.now target) 0 tables.now) }
{
    let mut place: u32 = 0;
    for t in tables {
        put_backward_fields_of(alloc, fields, types, target, place, t)?;
        place += 1;
    }
    Ok(())
}

pub(crate) fn row_fields(
    alloc: Global,
    catalog: &Catalog,
    types: &Places,
    table: u32,
    t: &TableDef,
) -> Result<Items<FieldDef>, Memory>
    requires at { t.now ≡ table_at catalog.now table }
    requires small { IsSmall t.now }
    ensures { IfOk result (λ fields. fields ≡ spec.row_fields catalog.now types.now table) }
{
    know_tables(catalog);
    let mut fields = Vec::new(alloc);
    put_column_fields(alloc, &mut fields, types, table, t.columns.as_slice())?;
    put_forward_fields(
        alloc,
        &mut fields,
        catalog,
        types,
        table,
        t,
        t.links.as_slice(),
    )?;
    put_backward_fields(alloc, &mut fields, types, table, catalog.tables())?;
    Ok(Items::from_vec(fields))
}
