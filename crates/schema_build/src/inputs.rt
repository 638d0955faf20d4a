//! What mutations take and give.

ghost use Rattle.std.specs.Prelude.{◌≡◌, ◌++◌, [], ◌∷◌, IfOk, OnOk};
ghost use Rattle.pg_base.specs.Lookups.{key_in};
ghost use Rattle.pg_base.specs.MutationInputs as spec;

use crate::columns::put_key_arguments;
use crate::naming::{as_str, joined, row_field_name};
use crate::places::Places;
use crate::refs::{one, put_argument, put_field};
use crate::tables::key_columns;
use pg_base::schema::STRING;
use pg_base::{ArgDef, Does, FieldDef, Memory, Role, TableDef};
use sqlite_items::Items;
use std::alloc::Global;

// The client's own mark of a request.
fn put_client_id(alloc: Global, args: &mut Vec<ArgDef>) -> Result<(), Memory>
    ensures { OnOk result (args.new.items ≡ args.old.items ++ spec.client_id ∷ []) }
{
    put_argument(alloc, args, "clientMutationId", one(STRING, false))?;
    Ok(())
}

pub(crate) fn create_input_fields(
    alloc: Global,
    types: &Places,
    table: u32,
    t: &TableDef,
) -> Result<Items<ArgDef>, Memory>
    ensures { IfOk result (λ args. args ≡ spec.create_input_fields types.now table t.now) }
{
    let row = row_field_name(alloc, t)?;
    let mut args = Vec::new(alloc);
    put_client_id(alloc, &mut args)?;
    put_argument(
        alloc,
        &mut args,
        as_str(&row),
        one(types.of_role(Role::Input(table)), true),
    )?;
    Ok(Items::from_vec(args))
}

pub(crate) fn update_input_fields(
    alloc: Global,
    types: &Places,
    table: u32,
    t: &TableDef,
    key: u32,
) -> Result<Items<ArgDef>, Memory>
    ensures { IfOk result
        (λ args. args ≡ spec.update_input_fields types.now table t.now (key_in t.now key)) }
{
    let row = row_field_name(alloc, t)?;
    let patch = joined(alloc, "", as_str(&row), "Patch")?;
    let mut args = Vec::new(alloc);
    put_client_id(alloc, &mut args)?;
    put_key_arguments(alloc, &mut args, types, t, key_columns(t, key))?;
    put_argument(
        alloc,
        &mut args,
        as_str(&patch),
        one(types.of_role(Role::Patch(table)), true),
    )?;
    Ok(Items::from_vec(args))
}

pub(crate) fn delete_input_fields(
    alloc: Global,
    types: &Places,
    t: &TableDef,
    key: u32,
) -> Result<Items<ArgDef>, Memory>
    ensures { IfOk result
        (λ args. args ≡ spec.delete_input_fields types.now t.now (key_in t.now key)) }
{
    let mut args = Vec::new(alloc);
    put_client_id(alloc, &mut args)?;
    put_key_arguments(alloc, &mut args, types, t, key_columns(t, key))?;
    Ok(Items::from_vec(args))
}

pub(crate) fn payload_fields(
    alloc: Global,
    types: &Places,
    table: u32,
    t: &TableDef,
) -> Result<Items<FieldDef>, Memory>
    ensures { IfOk result (λ fields. fields ≡ spec.payload_fields types.now table t.now) }
{
    let row = row_field_name(alloc, t)?;
    let ty = one(types.of_role(Role::Row(table)), false);
    let mut fields = Vec::new(alloc);
    put_field(
        alloc,
        &mut fields,
        "clientMutationId",
        one(STRING, false),
        Does::ClientId,
    )?;
    put_field(alloc, &mut fields, as_str(&row), ty, Does::Payload)?;
    Ok(Items::from_vec(fields))
}
