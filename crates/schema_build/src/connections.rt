//! Connections: lists of a table's rows, their edges and pages, and their arguments.

ghost use Rattle.std.specs.Prelude.{◌≡◌, ◌++◌, true, false, codes, IfOk, OnOk};
ghost use Rattle.pg_base.specs.declared.does.Does.TheVariants as does;
ghost use Rattle.pg_base.specs.declared.role.Role.TheVariants as role;
ghost use Rattle.pg_base.specs.Listing.{when};
ghost use Rattle.pg_base.specs.Behaviors as behaviors;
ghost use Rattle.pg_base.specs.Roles as rolled;
ghost use Rattle.pg_base.specs.TypeRefs as refs;
ghost use Rattle.pg_base.specs.Connections as spec;

use crate::behaving::{LISTING, has_condition, is_on};
use crate::places::Places;
use crate::refs::{many, one, put_argument, put_field};
use pg_base::schema::{BOOLEAN, INT};
use pg_base::{ArgDef, Does, FieldDef, Memory, Role, TableDef};
use sqlite_items::Items;
use std::alloc::Global;

pub(crate) fn page_fields(alloc: Global, types: &Places) -> Result<Items<FieldDef>, Memory>
    ensures { IfOk result (λ fields. fields ≡ spec.page_fields types.now) }
{
    let cursor = one(types.of_role(Role::Cursor), false);
    let mut fields = Vec::new(alloc);
    put_field(
        alloc,
        &mut fields,
        "hasNextPage",
        one(BOOLEAN, true),
        Does::HasNext,
    )?;
    put_field(
        alloc,
        &mut fields,
        "hasPreviousPage",
        one(BOOLEAN, true),
        Does::HasPrevious,
    )?;
    put_field(alloc, &mut fields, "startCursor", cursor, Does::Start)?;
    put_field(alloc, &mut fields, "endCursor", cursor, Does::End)?;
    Ok(Items::from_vec(fields))
}

fn put_nodes(
    alloc: Global,
    fields: &mut Vec<FieldDef>,
    types: &Places,
    table: u32,
    t: &TableDef,
) -> Result<(), Memory>
    ensures { OnOk result (fields.new.items ≡ fields.old.items
        ++ when (behaviors.is_on behaviors.listing t.now.tags) (refs.field (codes "nodes")
        (refs.many (rolled.place_of types.now (role.Row table)) true) does.Nodes)) }
{
    if is_on(LISTING, &t.tags) {
        let rows = many(types.of_role(Role::Row(table)), true);
        put_field(alloc, fields, "nodes", rows, Does::Nodes)?;
    }
    Ok(())
}

pub(crate) fn connection_fields(
    alloc: Global,
    types: &Places,
    table: u32,
    t: &TableDef,
) -> Result<Items<FieldDef>, Memory>
    ensures { IfOk result (λ fields. fields ≡ spec.connection_fields types.now table t.now) }
{
    let edges = many(types.of_role(Role::Edge(table)), true);
    let page = one(types.of_role(Role::PageInfo), true);
    let mut fields = Vec::new(alloc);
    put_nodes(alloc, &mut fields, types, table, t)?;
    put_field(alloc, &mut fields, "edges", edges, Does::Edges)?;
    put_field(alloc, &mut fields, "pageInfo", page, Does::PageInfo)?;
    put_field(
        alloc,
        &mut fields,
        "totalCount",
        one(INT, true),
        Does::Total,
    )?;
    Ok(Items::from_vec(fields))
}

pub(crate) fn edge_fields(
    alloc: Global,
    types: &Places,
    table: u32,
) -> Result<Items<FieldDef>, Memory>
    ensures { IfOk result (λ fields. fields ≡ spec.edge_fields types.now table) }
{
    let cursor = one(types.of_role(Role::Cursor), true);
    let row = one(types.of_role(Role::Row(table)), true);
    let mut fields = Vec::new(alloc);
    put_field(alloc, &mut fields, "cursor", cursor, Does::Cursor)?;
    put_field(alloc, &mut fields, "node", row, Does::Node)?;
    Ok(Items::from_vec(fields))
}

fn put_condition(
    alloc: Global,
    args: &mut Vec<ArgDef>,
    types: &Places,
    table: u32,
    t: &TableDef,
) -> Result<(), Memory>
    ensures { OnOk result (args.new.items ≡ args.old.items
        ++ when (rolled.has_condition t.now) (refs.argument (codes "condition")
        (refs.one (rolled.place_of types.now (role.Condition table)) false))) }
{
    if has_condition(t) {
        let condition = one(types.of_role(Role::Condition(table)), false);
        put_argument(alloc, args, "condition", condition)?;
    }
    Ok(())
}

// The arguments of each field that gives a connection of the table.
pub(crate) fn connection_arguments(
    alloc: Global,
    types: &Places,
    table: u32,
    t: &TableDef,
) -> Result<Items<ArgDef>, Memory>
    ensures { IfOk result (λ args. args ≡ spec.connection_arguments types.now table t.now) }
{
    let cursor = one(types.of_role(Role::Cursor), false);
    let orders = many(types.of_role(Role::Order(table)), false);
    let mut args = Vec::new(alloc);
    put_argument(alloc, &mut args, "first", one(INT, false))?;
    put_argument(alloc, &mut args, "last", one(INT, false))?;
    put_argument(alloc, &mut args, "offset", one(INT, false))?;
    put_argument(alloc, &mut args, "before", cursor)?;
    put_argument(alloc, &mut args, "after", cursor)?;
    put_argument(alloc, &mut args, "orderBy", orders)?;
    put_condition(alloc, &mut args, types, table, t)?;
    Ok(Items::from_vec(args))
}
