//! The first fault of a schema, in the order of its types and of what each has.

ghost use Rattle.std.specs.Prelude.{◌≡◌, ◌∷◌, ◌<◌, ◌^◌, List, Some, length, IfOk, OnOk};
ghost use Rattle.pg_base.specs.Lists.{Each};
ghost use Rattle.pg_base.specs.Schema.{fields_of};
ghost use Rattle.pg_base.specs.SchemaFaults as spec;
ghost use Rattle.pg_base.specs.SchemaFaults.{Named, named};
ghost use Rattle.pg_base.specs.declared.build_fault.Origin.TheVariants as origins;
ghost use Rattle.pg_base.specs.declared.build_fault.BuildFault.TheVariants as fault;
ghost use Rattle.schema_build.specs.Looking.{HasFew, HasFewParts, HasNames, IsLooked, first};
ghost use Rattle.schema_build.specs.Looking as looking;

use crate::graphql_names::{is_odd, odd_in};
use crate::meetings::{Names, add_type, meeting_in};
use pg_base::limits::MOST_FIELDS;
use pg_base::{BuildFault, Memory, Origin, Schema, Text, TypeDef, TypeKind};
use std::alloc::Global;

fn not_a_name(alloc: Global, name: &Text) -> Result<Option<BuildFault>, Memory>
    ensures { IfOk result (λ found. found ≡ Some (fault.NotAName name.now)) }
{
    let name = name.copy(alloc)?;
    Ok(Some(BuildFault::NotAName(name)))
}

fn no_fields(alloc: Global, name: &Text) -> Result<Option<BuildFault>, Memory>
    ensures { IfOk result (λ found. found ≡ Some (fault.NoFields name.now)) }
{
    let name = name.copy(alloc)?;
    Ok(Some(BuildFault::NoFields(name)))
}

fn is_empty(kind: &TypeKind) -> bool
    ensures { result ≡ spec.is_empty kind.now }
{
    match kind {
        TypeKind::Scalar => false,
        TypeKind::Object(fields) => fields.len() == 0,
        TypeKind::Enum(cases) => cases.len() == 0,
        TypeKind::Input(args) => args.len() == 0,
    }
}

fn field_count(kind: &TypeKind) -> usize
    ensures { result ≡ length (fields_of kind.now) }
{
    match kind {
        TypeKind::Scalar => 0,
        TypeKind::Object(fields) => fields.len(),
        TypeKind::Enum(_cases) => 0,
        TypeKind::Input(_args) => 0,
    }
}

// The first fault of the type that speaks of no other name.
fn fault_alone(alloc: Global, t: &TypeDef) -> Result<Option<BuildFault>, Memory>
    ensures { IfOk result (λ found. found ≡ looking.fault_alone t.now) }
{
    if is_odd(&t.name) {
        return not_a_name(alloc, &t.name);
    }
    if is_empty(&t.kind) {
        return no_fields(alloc, &t.name);
    }
    match odd_in(&t.kind) {
        None => Ok(None),
        Some(name) => not_a_name(alloc, name),
    }
}

// The first fault of the type, where the objects so far have this number of fields with its own.
fn type_fault(
    alloc: Global,
    names: &mut Names,
    ty: u32,
    fields: usize,
    t: &TypeDef,
) -> Result<Option<BuildFault>, Memory>
    requires { HasFewParts t.now.kind }
    ensures { IfOk result (λ found. IsLooked ty fields t.now names.old names.new found) }
{
    if fields > MOST_FIELDS {
        return Ok(Some(BuildFault::TooManyFields));
    }
    let found = fault_alone(alloc, t)?;
    if found.is_some() {
        return Ok(found);
    }
    let found = add_type(alloc, names, &t.name, ty)?;
    if found.is_some() {
        return Ok(found);
    }
    let found = meeting_in(alloc, &t.name, ty, &t.kind)?;
    Ok(found)
}

fn put_built_in(alloc: Global, names: &mut Names, name: &str) -> Result<(), Memory>
    ensures { OnOk result ((earlier : List Named) → HasNames earlier names.old
        → HasNames (named name.now origins.BuiltIn ∷ earlier) names.new) }
{
    let name = Text::of(alloc, name)?;
    names.insert(name, Origin::BuiltIn)?;
    Ok(())
}

// The names of the types that stand in no list.
fn built_in_names(alloc: Global) -> Result<Names, Memory>
    ensures { IfOk result (λ names. HasNames spec.built_in_names names) }
{
    let mut names = Names::new(alloc);
    put_built_in(alloc, &mut names, "Boolean")?;
    put_built_in(alloc, &mut names, "String")?;
    put_built_in(alloc, &mut names, "Int")?;
    Ok(names)
}

// The first fault of the types, where there is one.
fn fault_in(alloc: Global, built_in: Names, types: &[TypeDef]) -> Result<Option<BuildFault>, Memory>
    requires built_in { HasNames spec.built_in_names built_in }
    requires few { length types.now < 2 ^ 32 }
    requires few_parts { Each HasFew types.now }
    ensures { IfOk result (λ found. found ≡ first (spec.faults_of types.now)) }
{
    let mut names = built_in;
    let mut ty: u32 = 0;
    let mut fields = 0;
    for t in types {
        fields += field_count(&t.kind);
        let found = type_fault(alloc, &mut names, ty, fields, t)?;
        if found.is_some() {
            return Ok(found);
        }
        ty += 1;
    }
    Ok(None)
}

// The first fault of the schema, where there is one.
pub(crate) fn first_fault(alloc: Global, schema: &Schema) -> Result<Option<BuildFault>, Memory>
    ensures { IfOk result (λ found. found ≡ first (spec.faults_of schema.now.types)) }
{
    know_few(schema);
    let built_in = built_in_names(alloc)?;
    let found = fault_in(alloc, built_in, schema.types())?;
    Ok(found)
}

// Tells that the types, and what each has, can be numbered with 32 bits.
fn know_few(schema: &Schema)
    ensures few { length schema.now.types < 2 ^ 32 }
    ensures few_parts { Each HasFew schema.now.types }
{
    schema.know();
}
