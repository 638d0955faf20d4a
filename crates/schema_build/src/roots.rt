//! The fields of Query and Mutation.

ghost use Rattle.std.specs.Prelude.{◌≡◌, ◌++◌, ◌<◌, ◌≤◌, ◌^◌, [], ◌∷◌, length, unwrap_or, IfOk, OnOk};
ghost use Rattle.pg_base.specs.Lists.{Each};
ghost use Rattle.pg_base.specs.Listing.{when, all_when, each_at};
ghost use Rattle.pg_base.specs.Behaviors as behaviors;
ghost use Rattle.pg_base.specs.Naming as names;
ghost use Rattle.pg_base.specs.Roles as rolled;
ghost use Rattle.pg_base.specs.RootFields as spec;
ghost use Rattle.schema_build.specs.Small.{IsSmall};

use crate::behaving::{
    CONNECTING, SELECTING, has_create, has_delete, has_update, is_new_key, is_on,
};
use crate::columns::put_key_arguments;
use crate::connections::connection_arguments;
use crate::naming::{
    as_str, by_columns, copied, joined, row_field_name, row_type_name, rows_type_name,
};
use crate::places::Places;
use crate::refs::{one, put_argument};
use crate::tables::know_tables;
use pg_base::{Catalog, Does, FieldDef, KeyDef, Memory, Role, TableDef, Text};
use sqlite_items::Items;
use std::alloc::Global;

// ---- Query

fn all_field(alloc: Global, types: &Places, table: u32, t: &TableDef) -> Result<FieldDef, Memory>
    ensures { IfOk result (λ f. f ≡ spec.all_field types.now table t.now) }
{
    let rows = rows_type_name(alloc, t)?;
    let name = joined(alloc, "all", as_str(&rows), "")?;
    let args = connection_arguments(alloc, types, table, t)?;
    let ty = one(types.of_role(Role::Connection(table)), false);
    Ok(FieldDef {
        name,
        args,
        ty,
        does: Does::All(table),
        deprecated: None,
    })
}

fn key_name(alloc: Global, t: &TableDef, k: &KeyDef) -> Result<Text, Memory>
    ensures { IfOk result (λ name. name ≡ unwrap_or k.now.tags.field_name
        (names.row_field_name t.now ++ names.by_columns t.now k.now.columns)) }
{
    match &k.tags.field_name {
        Some(name) => name.copy(alloc),
        None => {
            let row = row_field_name(alloc, t)?;
            let by = by_columns(alloc, t, k.columns.as_slice())?;
            joined(alloc, "", as_str(&row), as_str(&by))
        }
    }
}

fn key_field(
    alloc: Global,
    types: &Places,
    table: u32,
    t: &TableDef,
    key: u32,
    k: &KeyDef,
) -> Result<FieldDef, Memory>
    ensures { IfOk result (λ f. f ≡ spec.key_field types.now table t.now key k.now) }
{
    let name = key_name(alloc, t, k)?;
    let mut args = Vec::new(alloc);
    put_key_arguments(alloc, &mut args, types, t, k.columns.as_slice())?;
    let deprecated = copied(alloc, &k.tags.deprecated)?;
    let ty = one(types.of_role(Role::Row(table)), false);
    Ok(FieldDef {
        name,
        args: Items::from_vec(args),
        ty,
        does: Does::ByKey(table, key),
        deprecated,
    })
}

fn put_all_field(
    alloc: Global,
    fields: &mut Vec<FieldDef>,
    types: &Places,
    table: u32,
    t: &TableDef,
) -> Result<(), Memory>
    ensures { OnOk result (fields.new.items ≡ fields.old.items
        ++ when (behaviors.is_on behaviors.connecting t.now.tags)
        (spec.all_field types.now table t.now)) }
{
    if is_on(CONNECTING, &t.tags) {
        let field = all_field(alloc, types, table, t)?;
        fields.push(field)?;
    }
    Ok(())
}

fn put_key_field(
    alloc: Global,
    fields: &mut Vec<FieldDef>,
    types: &Places,
    table: u32,
    t: &TableDef,
    key: u32,
    k: &KeyDef,
) -> Result<(), Memory>
    requires { key ≤ length t.now.keys }
    ensures { OnOk result (fields.new.items ≡ fields.old.items
        ++ all_when (rolled.is_new_key t.now.keys key k.now)
        (spec.key_field types.now table t.now key k.now ∷ [])) }
{
    if is_new_key(t.keys.as_slice(), key as usize, k) {
        let field = key_field(alloc, types, table, t, key, k)?;
        fields.push(field)?;
    }
    Ok(())
}

fn put_each_key(
    alloc: Global,
    fields: &mut Vec<FieldDef>,
    types: &Places,
    table: u32,
    t: &TableDef,
) -> Result<(), Memory>
    requires { IsSmall t.now }
    ensures { OnOk result (fields.new.items ≡ fields.old.items
        ++ rolled.each_key (λ key k. spec.key_field types.now table t.now key k ∷ []) t.now) }
{
    let mut key: u32 = 0;
    for k in t.keys.as_slice() {
        put_key_field(alloc, fields, types, table, t, key, k)?;
        key += 1;
    }
    Ok(())
}

fn put_key_fields(
    alloc: Global,
    fields: &mut Vec<FieldDef>,
    types: &Places,
    table: u32,
    t: &TableDef,
) -> Result<(), Memory>
    requires { IsSmall t.now }
    ensures { OnOk result (fields.new.items ≡ fields.old.items
        ++ all_when (behaviors.is_on behaviors.selecting t.now.tags)
        (rolled.each_key (λ key k. spec.key_field types.now table t.now key k ∷ []) t.now)) }
{
    if is_on(SELECTING, &t.tags) {
        put_each_key(alloc, fields, types, table, t)?;
    }
    Ok(())
}

fn put_query_fields_of(
    alloc: Global,
    fields: &mut Vec<FieldDef>,
    types: &Places,
    table: u32,
    t: &TableDef,
) -> Result<(), Memory>
    requires { IsSmall t.now }
    ensures { OnOk result (fields.new.items ≡ fields.old.items
        ++ spec.query_fields_of types.now table t.now) }
{
    put_all_field(alloc, fields, types, table, t)?;
    put_key_fields(alloc, fields, types, table, t)?;
    Ok(())
}

fn put_query_fields(
    alloc: Global,
    fields: &mut Vec<FieldDef>,
    types: &Places,
    tables: &[TableDef],
) -> Result<(), Memory>
    requires few { length tables.now < 2 ^ 32 }
    requires small { Each IsSmall tables.now }
    ensures { OnOk result (fields.new.items ≡ fields.old.items
        ++ each_at (spec.query_fields_of types.now) 0 tables.now) }
{
    let mut place: u32 = 0;
    for t in tables {
        put_query_fields_of(alloc, fields, types, place, t)?;
        place += 1;
    }
    Ok(())
}

pub(crate) fn query_fields(
    alloc: Global,
    catalog: &Catalog,
    types: &Places,
) -> Result<Items<FieldDef>, Memory>
    ensures { IfOk result (λ fields. fields ≡ spec.query_fields catalog.now types.now) }
{
    know_tables(catalog);
    let mut fields = Vec::new(alloc);
    put_query_fields(alloc, &mut fields, types, catalog.tables())?;
    Ok(Items::from_vec(fields))
}

// ---- Mutation

// A field that takes one input and gives a payload.
fn change_field(
    alloc: Global,
    types: &Places,
    name: Text,
    input: Role,
    payload: Role,
    does: Does,
    deprecated: Option<Text>,
) -> Result<FieldDef, Memory>
    ensures { IfOk result
        (λ f. f ≡ spec.change_field types.now name input payload does deprecated) }
{
    let mut args = Vec::new(alloc);
    put_argument(alloc, &mut args, "input", one(types.of_role(input), true))?;
    let ty = one(types.of_role(payload), false);
    Ok(FieldDef {
        name,
        args: Items::from_vec(args),
        ty,
        does,
        deprecated,
    })
}

fn create_field(alloc: Global, types: &Places, table: u32, t: &TableDef) -> Result<FieldDef, Memory>
    ensures { IfOk result (λ f. f ≡ spec.create_field types.now table t.now) }
{
    let row = row_type_name(alloc, t)?;
    let name = joined(alloc, "create", as_str(&row), "")?;
    let input = Role::CreateInput(table);
    let payload = Role::CreatePayload(table);
    change_field(
        alloc,
        types,
        name,
        input,
        payload,
        Does::Create(table),
        None,
    )
}

fn update_field(
    alloc: Global,
    types: &Places,
    table: u32,
    t: &TableDef,
    key: u32,
    k: &KeyDef,
) -> Result<FieldDef, Memory>
    ensures { IfOk result (λ f. f ≡ spec.update_field types.now table t.now key k.now) }
{
    let row = row_type_name(alloc, t)?;
    let by = by_columns(alloc, t, k.columns.as_slice())?;
    let name = joined(alloc, "update", as_str(&row), as_str(&by))?;
    let deprecated = copied(alloc, &k.tags.deprecated)?;
    let input = Role::UpdateInput(table, key);
    let payload = Role::UpdatePayload(table);
    change_field(
        alloc,
        types,
        name,
        input,
        payload,
        Does::Update(table, key),
        deprecated,
    )
}

fn delete_field(
    alloc: Global,
    types: &Places,
    table: u32,
    t: &TableDef,
    key: u32,
    k: &KeyDef,
) -> Result<FieldDef, Memory>
    ensures { IfOk result (λ f. f ≡ spec.delete_field types.now table t.now key k.now) }
{
    let row = row_type_name(alloc, t)?;
    let by = by_columns(alloc, t, k.columns.as_slice())?;
    let name = joined(alloc, "delete", as_str(&row), as_str(&by))?;
    let deprecated = copied(alloc, &k.tags.deprecated)?;
    let input = Role::DeleteInput(table, key);
    let payload = Role::DeletePayload(table);
    change_field(
        alloc,
        types,
        name,
        input,
        payload,
        Does::Delete(table, key),
        deprecated,
    )
}

fn put_create_field(
    alloc: Global,
    fields: &mut Vec<FieldDef>,
    types: &Places,
    table: u32,
    t: &TableDef,
) -> Result<(), Memory>
    ensures { OnOk result (fields.new.items ≡ fields.old.items
        ++ when (rolled.has_create t.now) (spec.create_field types.now table t.now)) }
{
    if has_create(t) {
        let field = create_field(alloc, types, table, t)?;
        fields.push(field)?;
    }
    Ok(())
}

fn put_update_field(
    alloc: Global,
    fields: &mut Vec<FieldDef>,
    types: &Places,
    table: u32,
    t: &TableDef,
    key: u32,
    k: &KeyDef,
) -> Result<(), Memory>
    requires { key ≤ length t.now.keys }
    ensures { OnOk result (fields.new.items ≡ fields.old.items
        ++ all_when (rolled.is_new_key t.now.keys key k.now)
        (spec.update_field types.now table t.now key k.now ∷ [])) }
{
    if is_new_key(t.keys.as_slice(), key as usize, k) {
        let field = update_field(alloc, types, table, t, key, k)?;
        fields.push(field)?;
    }
    Ok(())
}

fn put_each_update(
    alloc: Global,
    fields: &mut Vec<FieldDef>,
    types: &Places,
    table: u32,
    t: &TableDef,
) -> Result<(), Memory>
    requires { IsSmall t.now }
    ensures { OnOk result (fields.new.items ≡ fields.old.items
        ++ rolled.each_key (λ key k. spec.update_field types.now table t.now key k ∷ []) t.now) }
{
    let mut key: u32 = 0;
    for k in t.keys.as_slice() {
        put_update_field(alloc, fields, types, table, t, key, k)?;
        key += 1;
    }
    Ok(())
}

fn put_update_fields(
    alloc: Global,
    fields: &mut Vec<FieldDef>,
    types: &Places,
    table: u32,
    t: &TableDef,
) -> Result<(), Memory>
    requires { IsSmall t.now }
    ensures { OnOk result (fields.new.items ≡ fields.old.items ++ all_when (rolled.has_update t.now)
        (rolled.each_key (λ key k. spec.update_field types.now table t.now key k ∷ []) t.now)) }
{
    if has_update(t) {
        put_each_update(alloc, fields, types, table, t)?;
    }
    Ok(())
}

fn put_delete_field(
    alloc: Global,
    fields: &mut Vec<FieldDef>,
    types: &Places,
    table: u32,
    t: &TableDef,
    key: u32,
    k: &KeyDef,
) -> Result<(), Memory>
    requires { key ≤ length t.now.keys }
    ensures { OnOk result (fields.new.items ≡ fields.old.items
        ++ all_when (rolled.is_new_key t.now.keys key k.now)
        (spec.delete_field types.now table t.now key k.now ∷ [])) }
{
    if is_new_key(t.keys.as_slice(), key as usize, k) {
        let field = delete_field(alloc, types, table, t, key, k)?;
        fields.push(field)?;
    }
    Ok(())
}

fn put_each_delete(
    alloc: Global,
    fields: &mut Vec<FieldDef>,
    types: &Places,
    table: u32,
    t: &TableDef,
) -> Result<(), Memory>
    requires { IsSmall t.now }
    ensures { OnOk result (fields.new.items ≡ fields.old.items
        ++ rolled.each_key (λ key k. spec.delete_field types.now table t.now key k ∷ []) t.now) }
{
    let mut key: u32 = 0;
    for k in t.keys.as_slice() {
        put_delete_field(alloc, fields, types, table, t, key, k)?;
        key += 1;
    }
    Ok(())
}

fn put_delete_fields(
    alloc: Global,
    fields: &mut Vec<FieldDef>,
    types: &Places,
    table: u32,
    t: &TableDef,
) -> Result<(), Memory>
    requires { IsSmall t.now }
    ensures { OnOk result (fields.new.items ≡ fields.old.items ++ all_when (rolled.has_delete t.now)
        (rolled.each_key (λ key k. spec.delete_field types.now table t.now key k ∷ []) t.now)) }
{
    if has_delete(t) {
        put_each_delete(alloc, fields, types, table, t)?;
    }
    Ok(())
}

fn put_mutation_fields_of(
    alloc: Global,
    fields: &mut Vec<FieldDef>,
    types: &Places,
    table: u32,
    t: &TableDef,
) -> Result<(), Memory>
    requires { IsSmall t.now }
    ensures { OnOk result (fields.new.items ≡ fields.old.items
        ++ spec.mutation_fields_of types.now table t.now) }
{
    put_create_field(alloc, fields, types, table, t)?;
    put_update_fields(alloc, fields, types, table, t)?;
    put_delete_fields(alloc, fields, types, table, t)?;
    Ok(())
}

fn put_mutation_fields(
    alloc: Global,
    fields: &mut Vec<FieldDef>,
    types: &Places,
    tables: &[TableDef],
) -> Result<(), Memory>
    requires few { length tables.now < 2 ^ 32 }
    requires small { Each IsSmall tables.now }
    ensures { OnOk result (fields.new.items ≡ fields.old.items
        ++ each_at (spec.mutation_fields_of types.now) 0 tables.now) }
{
    let mut place: u32 = 0;
    for t in tables {
        put_mutation_fields_of(alloc, fields, types, place, t)?;
        place += 1;
    }
    Ok(())
}

pub(crate) fn mutation_fields(
    alloc: Global,
    catalog: &Catalog,
    types: &Places,
) -> Result<Items<FieldDef>, Memory>
    ensures { IfOk result (λ fields. fields ≡ spec.mutation_fields catalog.now types.now) }
{
    know_tables(catalog);
    let mut fields = Vec::new(alloc);
    put_mutation_fields(alloc, &mut fields, types, catalog.tables())?;
    Ok(Items::from_vec(fields))
}
