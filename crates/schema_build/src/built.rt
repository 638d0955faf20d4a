//! The schema of a catalog.

ghost use Rattle.std.specs.Prelude.{◌≡◌, ◌<◌, ◌^◌, None, Some, if◌then◌else◌, length, map, IfErr, IfOk, OnOk, ◌⊎◌};
ghost use Rattle.pg_base.specs.Roles as rolled;
ghost use Rattle.pg_base.specs.SchemaOf as spec;
ghost use Rattle.pg_base.specs.SchemaFaults.{build_fault};
ghost use Rattle.pg_base.specs.declared.build_fault.BuildFault.TheVariants as faults;
ghost use Rattle.pg_base.specs.declared.role.Role.TheVariants as role_kinds;

use crate::behaving::have_change;
use crate::faults::first_fault;
use crate::places::Places;
use crate::roles::roles_of;
use crate::types::types_of;
use pg_base::{BuildFault, Catalog, Memory, Role, Schema, TypeDef};
use schema_laws::laws::fields_lead_to_their_types;
use sqlite_items::Items;
use std::alloc::Global;

/// The schema of a catalog, whether or not its names have a fault (GraphQL October 2021, section 3).
pub fn schema_of(alloc: Global, catalog: &Catalog) -> Result<Schema, Memory>
    ensures schema { IfOk result (λ schema. schema ≡ spec.schema_of catalog.now) }
{
    know_roles(catalog);
    let roles = roles_of(alloc, catalog)?;
    let types = Places::of(alloc, roles)?;
    let query = types.of_role(Role::Query);
    let mutation = mutation_place(catalog, &types);
    let listed = types_of(alloc, catalog, &types)?;
    Ok(schema_from(catalog, listed, query, mutation))
}

/// The schema of a catalog whose schema has no fault (GraphQL October 2021, section 3).
///
/// # Errors
/// The first fault, or out of memory. Types are looked at in their order, and of each: whether the objects have too many
/// fields with its own, whether its name is one, whether it has a field, whether what it has is named by names, each
/// field before its arguments, and then whether one of these names is an earlier one's, in the same order.
#[tactic(auto, unfolding(pg_base::specs::SchemaFaults::build_fault))]
pub fn build(alloc: Global, catalog: &Catalog) -> Result<Schema, BuildFault>
    ensures schema { IfOk result (λ schema. schema ≡ spec.schema_of catalog.now) }
    ensures faultless { OnOk result (build_fault catalog.now ≡ None) }
    ensures fault { IfErr result (λ fault. (fault ≡ faults.Memory)
        ⊎ (build_fault catalog.now ≡ Some fault)) }
{
    let Ok(schema) = schema_of(alloc, catalog) else {
        return Err(BuildFault::Memory);
    };
    match first_fault(alloc, &schema) {
        Ok(None) => Ok(schema),
        Ok(Some(fault)) => Err(fault),
        Err(_) => Err(BuildFault::Memory),
    }
}

// Tells that the types can be numbered with 32 bits.
fn know_roles(catalog: &Catalog)
    ensures { length (rolled.roles_of catalog.now) < 2 ^ 32 }
{
    fields_lead_to_their_types(catalog);
}

fn mutation_place(catalog: &Catalog, types: &Places) -> Option<u32>
    ensures { result ≡ (if rolled.has_mutation catalog.now
        then Some (rolled.place_of types.now role_kinds.Mutation) else None) }
{
    if have_change(catalog.tables()) {
        return Some(types.of_role(Role::Mutation));
    }
    None
}

fn schema_from(
    catalog: &Catalog,
    listed: Items<TypeDef>,
    query: u32,
    mutation: Option<u32>,
) -> Schema
    requires types { listed
        ≡ map (spec.type_of_role catalog.now (rolled.roles_of catalog.now))
        (rolled.roles_of catalog.now) }
    requires query { query ≡ rolled.place_of (rolled.roles_of catalog.now) role_kinds.Query }
    requires mutation { mutation ≡ (if rolled.has_mutation catalog.now
        then Some (rolled.place_of (rolled.roles_of catalog.now) role_kinds.Mutation) else None) }
    ensures { result ≡ spec.schema_of catalog.now }
{
    fields_lead_to_their_types(catalog);
    Schema::of(listed, query, mutation)
}
