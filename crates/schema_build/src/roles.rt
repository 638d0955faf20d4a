//! The types that a catalog has in its schema, in their order.

ghost use Rattle.std.specs.Prelude.{◌≡◌, ◌++◌, ◌≤◌, ◌<◌, ◌^◌, [], ◌∷◌, length, IfOk, OnOk};
ghost use Rattle.pg_base.specs.Lists.{Each};
ghost use Rattle.pg_base.specs.Listing.{when, all_when, each_at};
ghost use Rattle.pg_base.specs.Roles as spec;
ghost use Rattle.pg_base.specs.declared.role.Role.TheVariants as role;
ghost use Rattle.schema_build.specs.Small.{IsSmall};

use crate::behaving::{has_condition, has_create, has_delete, has_update, have_change, is_new_key};
use crate::tables::know_tables;
use pg_base::{Catalog, EnumDef, KeyDef, Memory, Role, TableDef};
use std::alloc::Global;

/// The types of the schema, by what they are for.
#[tactic(auto, unfolding(pg_base::specs::Roles::roles_of))]
pub(crate) fn roles_of(alloc: Global, catalog: &Catalog) -> Result<Vec<Role>, Memory>
    ensures { IfOk result (λ roles. roles.items ≡ spec.roles_of catalog.now) }
{
    know_tables(catalog);
    let mut roles = Vec::new(alloc);
    roles.push(Role::BigInt)?;
    roles.push(Role::Cursor)?;
    roles.push(Role::PageInfo)?;
    push_enums(&mut roles, catalog.enums())?;
    push_tables(&mut roles, catalog.tables())?;
    roles.push(Role::Query)?;
    push_if(&mut roles, have_change(catalog.tables()), Role::Mutation)?;
    push_changes(&mut roles, catalog.tables())?;
    Ok(roles)
}

fn push_if(roles: &mut Vec<Role>, test: bool, role: Role) -> Result<(), Memory>
    ensures { OnOk result (roles.new.items ≡ roles.old.items ++ when test role) }
{
    if test {
        roles.push(role)?;
    }
    Ok(())
}

fn push_enums(roles: &mut Vec<Role>, enums: &[EnumDef]) -> Result<(), Memory>
    requires { length enums.now < 2 ^ 32 }
    ensures { OnOk result (roles.new.items
        ≡ roles.old.items ++ each_at spec.enum_roles 0 enums.now) }
{
    let mut place: u32 = 0;
    for _e in enums {
        roles.push(Role::Enum(place))?;
        place += 1;
    }
    Ok(())
}

fn push_tables(roles: &mut Vec<Role>, tables: &[TableDef]) -> Result<(), Memory>
    requires { length tables.now < 2 ^ 32 }
    ensures { OnOk result (roles.new.items ≡ roles.old.items
        ++ each_at spec.table_roles 0 tables.now) }
{
    let mut place: u32 = 0;
    for t in tables {
        push_table(roles, place, t)?;
        place += 1;
    }
    Ok(())
}

fn push_table(roles: &mut Vec<Role>, table: u32, t: &TableDef) -> Result<(), Memory>
    ensures { OnOk result (roles.new.items ≡ roles.old.items ++ spec.table_roles table t.now) }
{
    roles.push(Role::Row(table))?;
    roles.push(Role::Connection(table))?;
    roles.push(Role::Edge(table))?;
    roles.push(Role::Order(table))?;
    push_if(roles, has_condition(t), Role::Condition(table))?;
    push_if(roles, has_create(t), Role::Input(table))?;
    push_if(roles, has_update(t), Role::Patch(table))?;
    Ok(())
}

fn push_changes(roles: &mut Vec<Role>, tables: &[TableDef]) -> Result<(), Memory>
    requires few { length tables.now < 2 ^ 32 }
    requires small { Each IsSmall tables.now }
    ensures { OnOk result (roles.new.items ≡ roles.old.items
        ++ each_at spec.change_roles 0 tables.now) }
{
    let mut place: u32 = 0;
    for t in tables {
        push_changes_of(roles, place, t)?;
        place += 1;
    }
    Ok(())
}

fn push_changes_of(roles: &mut Vec<Role>, table: u32, t: &TableDef) -> Result<(), Memory>
    requires { IsSmall t.now }
    ensures { OnOk result (roles.new.items ≡ roles.old.items ++ spec.change_roles table t.now) }
{
    push_create(roles, table, t)?;
    push_update(roles, table, t)?;
    push_delete(roles, table, t)?;
    Ok(())
}

fn push_create(roles: &mut Vec<Role>, table: u32, t: &TableDef) -> Result<(), Memory>
    ensures { OnOk result (roles.new.items ≡ roles.old.items
        ++ all_when (spec.has_create t.now) (spec.create_roles table t.now)) }
{
    if has_create(t) {
        roles.push(Role::CreateInput(table))?;
        roles.push(Role::CreatePayload(table))?;
    }
    Ok(())
}

fn push_update(roles: &mut Vec<Role>, table: u32, t: &TableDef) -> Result<(), Memory>
    requires { IsSmall t.now }
    ensures { OnOk result (roles.new.items ≡ roles.old.items
        ++ all_when (spec.has_update t.now) (spec.update_roles table t.now)) }
{
    if has_update(t) {
        push_update_inputs(roles, table, t.keys.as_slice())?;
        roles.push(Role::UpdatePayload(table))?;
    }
    Ok(())
}

fn push_update_inputs(roles: &mut Vec<Role>, table: u32, keys: &[KeyDef]) -> Result<(), Memory>
    requires { length keys.now < 2 ^ 32 }
    ensures { OnOk result (roles.new.items ≡ roles.old.items ++ each_at
        (λ key k. all_when (spec.is_new_key keys.now key k) (role.UpdateInput table key ∷ []))
        0 keys.now) }
{
    let mut place: u32 = 0;
    for k in keys {
        push_if(
            roles,
            is_new_key(keys, place as usize, k),
            Role::UpdateInput(table, place),
        )?;
        place += 1;
    }
    Ok(())
}

fn push_delete(roles: &mut Vec<Role>, table: u32, t: &TableDef) -> Result<(), Memory>
    requires { IsSmall t.now }
    ensures { OnOk result (roles.new.items ≡ roles.old.items
        ++ all_when (spec.has_delete t.now) (spec.delete_roles table t.now)) }
{
    if has_delete(t) {
        push_delete_inputs(roles, table, t.keys.as_slice())?;
        roles.push(Role::DeletePayload(table))?;
    }
    Ok(())
}

fn push_delete_inputs(roles: &mut Vec<Role>, table: u32, keys: &[KeyDef]) -> Result<(), Memory>
    requires { length keys.now < 2 ^ 32 }
    ensures { OnOk result (roles.new.items ≡ roles.old.items ++ each_at
        (λ key k. all_when (spec.is_new_key keys.now key k) (role.DeleteInput table key ∷ []))
        0 keys.now) }
{
    let mut place: u32 = 0;
    for k in keys {
        push_if(
            roles,
            is_new_key(keys, place as usize, k),
            Role::DeleteInput(table, place),
        )?;
        place += 1;
    }
    Ok(())
}
