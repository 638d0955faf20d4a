//! Each type of the schema, by what it is for.

ghost use Rattle.std.specs.Prelude.{◌≡◌, ◌++◌, codes, map, IfOk, OnOk};
ghost use Rattle.pg_base.specs.EnumCases.{case_of_label};
ghost use Rattle.pg_base.specs.Lookups as lookups;
ghost use Rattle.pg_base.specs.Lookups.{enum_at};
ghost use Rattle.pg_base.specs.declared.role.Role.TheVariants as role_kinds;
ghost use Rattle.pg_base.specs.Naming as names;
ghost use Rattle.pg_base.specs.Roles as rolled;
ghost use Rattle.pg_base.specs.SchemaOf as spec;

use crate::behaving::{FILTERING, INSERTING, UPDATING};
use crate::columns::{input_fields, order_cases};
use crate::connections::{connection_fields, edge_fields, page_fields};
use crate::inputs::{
    create_input_fields, delete_input_fields, payload_fields, update_input_fields,
};
use crate::naming::{
    as_str, by_columns, case_name, enum_type_name, joined, row_type_name, rows_type_name,
};
use crate::places::Places;
use crate::roots::{mutation_fields, query_fields};
use crate::rows::row_fields;
use crate::tables::{key_columns, no_table, table_at};
use pg_base::{Catalog, Memory, Role, Text, TypeDef, TypeKind};
use sqlite_items::Items;
use std::alloc::Global;

// ---- names

fn around_row(
    alloc: Global,
    catalog: &Catalog,
    before: &str,
    table: u32,
    after: &str,
) -> Result<Text, Memory>
    ensures { IfOk result
        (λ name. name ≡ rolled.around_row before.now
        (lookups.table_at catalog.now table) after.now) }
{
    let nothing = no_table(alloc);
    let row = row_type_name(alloc, table_at(catalog, &nothing, table))?;
    let name = joined(alloc, before, as_str(&row), after)?;
    Ok(name)
}

fn key_name(alloc: Global, catalog: &Catalog, table: u32, key: u32) -> Result<Text, Memory>
    ensures { IfOk result (λ name. name ≡ names.by_columns (lookups.table_at catalog.now table)
        (lookups.key_in (lookups.table_at catalog.now table) key).columns) }
{
    let nothing = no_table(alloc);
    let t = table_at(catalog, &nothing, table);
    let name = by_columns(alloc, t, key_columns(t, key))?;
    Ok(name)
}

fn around_key(
    alloc: Global,
    catalog: &Catalog,
    before: &str,
    table: u32,
    key: u32,
) -> Result<Text, Memory>
    ensures { IfOk result (λ name. name ≡ rolled.around_key before.now
        (lookups.table_at catalog.now table) key (codes "Input")) }
{
    let by = key_name(alloc, catalog, table, key)?;
    let end = joined(alloc, "", as_str(&by), "Input")?;
    let name = around_row(alloc, catalog, before, table, as_str(&end))?;
    Ok(name)
}

fn before_rows(alloc: Global, catalog: &Catalog, table: u32, after: &str) -> Result<Text, Memory>
    ensures { IfOk result
        (λ name. name ≡ names.rows_type_name (lookups.table_at catalog.now table) ++ after.now) }
{
    let nothing = no_table(alloc);
    let rows = rows_type_name(alloc, table_at(catalog, &nothing, table))?;
    let name = joined(alloc, "", as_str(&rows), after)?;
    Ok(name)
}

fn enum_name(alloc: Global, catalog: &Catalog, place: u32) -> Result<Text, Memory>
    ensures { IfOk result (λ name. name ≡ names.enum_type_name (enum_at catalog.now place)) }
{
    match catalog.enums().get(place as usize) {
        None => inflection::type_name(alloc, ""),
        Some(e) => enum_type_name(alloc, e),
    }
}

fn row_name(alloc: Global, catalog: &Catalog, table: u32) -> Result<Text, Memory>
    ensures { IfOk result
        (λ name. name ≡ names.row_type_name (lookups.table_at catalog.now table)) }
{
    let nothing = no_table(alloc);
    row_type_name(alloc, table_at(catalog, &nothing, table))
}

fn name_of_role(alloc: Global, catalog: &Catalog, role: Role) -> Result<Text, Memory>
    ensures { IfOk result (λ name. name ≡ rolled.name_of_role catalog.now role) }
{
    match role {
        Role::BigInt => Text::of(alloc, "BigInt"),
        Role::Cursor => Text::of(alloc, "Cursor"),
        Role::PageInfo => Text::of(alloc, "PageInfo"),
        Role::Enum(place) => enum_name(alloc, catalog, place),
        Role::Row(table) => row_name(alloc, catalog, table),
        Role::Connection(table) => before_rows(alloc, catalog, table, "Connection"),
        Role::Edge(table) => before_rows(alloc, catalog, table, "Edge"),
        Role::Order(table) => before_rows(alloc, catalog, table, "OrderBy"),
        Role::Condition(table) => around_row(alloc, catalog, "", table, "Condition"),
        Role::Input(table) => around_row(alloc, catalog, "", table, "Input"),
        Role::Patch(table) => around_row(alloc, catalog, "", table, "Patch"),
        Role::Query => Text::of(alloc, "Query"),
        Role::Mutation => Text::of(alloc, "Mutation"),
        Role::CreateInput(table) => around_row(alloc, catalog, "Create", table, "Input"),
        Role::CreatePayload(table) => around_row(alloc, catalog, "Create", table, "Payload"),
        Role::UpdateInput(table, key) => around_key(alloc, catalog, "Update", table, key),
        Role::UpdatePayload(table) => around_row(alloc, catalog, "Update", table, "Payload"),
        Role::DeleteInput(table, key) => around_key(alloc, catalog, "Delete", table, key),
        Role::DeletePayload(table) => around_row(alloc, catalog, "Delete", table, "Payload"),
    }
}

// ---- what they have

fn put_labels(alloc: Global, cases: &mut Vec<Text>, labels: &[Text]) -> Result<(), Memory>
    ensures { OnOk result (cases.new.items ≡ cases.old.items ++ map case_of_label labels.now) }
{
    for label in labels {
        let case = case_name(alloc, as_str(label))?;
        cases.push(case)?;
    }
    Ok(())
}

fn enum_cases(alloc: Global, catalog: &Catalog, place: u32) -> Result<Items<Text>, Memory>
    ensures { IfOk result (λ cases. cases ≡ map case_of_label (enum_at catalog.now place).cases) }
{
    let mut cases = Vec::new(alloc);
    match catalog.enums().get(place as usize) {
        None => Ok(Items::from_vec(cases)),
        Some(e) => {
            put_labels(alloc, &mut cases, e.cases.as_slice())?;
            Ok(Items::from_vec(cases))
        }
    }
}

fn kind_of_role(
    alloc: Global,
    catalog: &Catalog,
    types: &Places,
    role: Role,
) -> Result<TypeKind, Memory>
    ensures { IfOk result (λ kind. kind ≡ spec.kind_of_role catalog.now types.now role) }
{
    let nothing = no_table(alloc);
    match role {
        Role::BigInt => Ok(TypeKind::Scalar),
        Role::Cursor => Ok(TypeKind::Scalar),
        Role::PageInfo => Ok(TypeKind::Object(page_fields(alloc, types)?)),
        Role::Enum(place) => Ok(TypeKind::Enum(enum_cases(alloc, catalog, place)?)),
        Role::Row(table) => {
            let t = table_at(catalog, &nothing, table);
            Ok(TypeKind::Object(row_fields(alloc, catalog, types, table, t)?))
        }
        Role::Connection(table) => {
            let t = table_at(catalog, &nothing, table);
            Ok(TypeKind::Object(connection_fields(alloc, types, table, t)?))
        }
        Role::Edge(table) => Ok(TypeKind::Object(edge_fields(alloc, types, table)?)),
        Role::Order(table) => {
            let t = table_at(catalog, &nothing, table);
            Ok(TypeKind::Enum(order_cases(alloc, t)?))
        }
        Role::Condition(table) => {
            let columns = table_at(catalog, &nothing, table).columns.as_slice();
            Ok(TypeKind::Input(input_fields(alloc, types, FILTERING, false, columns)?))
        }
        Role::Input(table) => {
            let columns = table_at(catalog, &nothing, table).columns.as_slice();
            Ok(TypeKind::Input(input_fields(alloc, types, INSERTING, true, columns)?))
        }
        Role::Patch(table) => {
            let columns = table_at(catalog, &nothing, table).columns.as_slice();
            Ok(TypeKind::Input(input_fields(alloc, types, UPDATING, false, columns)?))
        }
        Role::Query => Ok(TypeKind::Object(query_fields(alloc, catalog, types)?)),
        Role::Mutation => Ok(TypeKind::Object(mutation_fields(alloc, catalog, types)?)),
        Role::CreateInput(table) => {
            let t = table_at(catalog, &nothing, table);
            Ok(TypeKind::Input(create_input_fields(alloc, types, table, t)?))
        }
        Role::UpdateInput(table, key) => {
            let t = table_at(catalog, &nothing, table);
            Ok(TypeKind::Input(update_input_fields(alloc, types, table, t, key)?))
        }
        Role::DeleteInput(table, key) => {
            let t = table_at(catalog, &nothing, table);
            Ok(TypeKind::Input(delete_input_fields(alloc, types, t, key)?))
        }
        Role::CreatePayload(table) => payload(alloc, catalog, types, table),
        Role::UpdatePayload(table) => payload(alloc, catalog, types, table),
        Role::DeletePayload(table) => payload(alloc, catalog, types, table),
    }
}

fn payload(alloc: Global, catalog: &Catalog, types: &Places, table: u32) -> Result<TypeKind, Memory>
    ensures { IfOk result (λ kind. kind
        ≡ spec.kind_of_role catalog.now types.now (role_kinds.CreatePayload table)) }
{
    let nothing = no_table(alloc);
    let t = table_at(catalog, &nothing, table);
    Ok(TypeKind::Object(payload_fields(alloc, types, table, t)?))
}

fn type_of_role(
    alloc: Global,
    catalog: &Catalog,
    types: &Places,
    role: Role,
) -> Result<TypeDef, Memory>
    ensures { IfOk result (λ ty. ty ≡ spec.type_of_role catalog.now types.now role) }
{
    let name = name_of_role(alloc, catalog, role)?;
    let kind = kind_of_role(alloc, catalog, types, role)?;
    Ok(TypeDef { name, kind })
}

fn put_types(
    alloc: Global,
    listed: &mut Vec<TypeDef>,
    catalog: &Catalog,
    types: &Places,
    roles: &[Role],
) -> Result<(), Memory>
    ensures { OnOk result (listed.new.items ≡ listed.old.items
        ++ map (spec.type_of_role catalog.now types.now) roles.now) }
{
    for role in roles {
        let ty = type_of_role(alloc, catalog, types, *role)?;
        listed.push(ty)?;
    }
    Ok(())
}

// The types of the schema, in their order.
pub(crate) fn types_of(
    alloc: Global,
    catalog: &Catalog,
    types: &Places,
) -> Result<Items<TypeDef>, Memory>
    ensures { IfOk result
        (λ listed. listed ≡ map (spec.type_of_role catalog.now types.now) types.now) }
{
    let mut listed = Vec::new(alloc);
    put_types(alloc, &mut listed, catalog, types, types.roles())?;
    Ok(Items::from_vec(listed))
}
