//! The places that selection sets ask for, in preorder (sections 6.3.2 and 6.4.3).

ghost use Rattle.std.specs.Prelude.{◌≡◌, ◌<◌, ◌≤◌, ◌^◌, ◌++◌, [], IfOk, IfSome, OnOk, Some, length, option_map};
ghost use Rattle.pg_base.specs.Limits.{most_places};
ghost use Rattle.pg_base.specs.Schema.{field_at as field_in};
ghost use Rattle.gql_types.specs.Types.{ty_of};
ghost use Rattle.gql_input.specs.Literals.{literal_at};
ghost use Rattle.gql_collect.specs.Asking.{argument_in};
ghost use Rattle.gql_collect.specs.Collected.{collected};
ghost use Rattle.gql_collect.specs.Growing as spec;
ghost use Rattle.gql_collect.specs.Kept.{fields_of, request_of, grown, Grows, IsMet};

use crate::CollectFault;
use crate::asking::{argument_named, is_word};
use crate::collecting::collect_set;
use crate::grouping::{groups_of, keys_of};
use crate::request::Request;
use gql_input::{InputError, coerce_literal};
use gql_reader::{Argument, Field, Value};
use gql_types::Position;
use indexmap::IndexSet;
use pg_base::limits::MOST_PLACES;
use pg_base::{ArgDef, FieldDef, Memory, Schema, Text, TypeKind};
use place_tree::{Place, PlaceArg};
use sqlite_items::Items;
use std::alloc::{AllocError, Global};

/// The fields of a type, none where it has none.
fn fields_at(schema: &Schema, ty: u32) -> &[FieldDef]
    ensures { result.now ≡ spec.fields_at schema.now ty }
{
    match schema.types().get(ty as usize) {
        None => &[],
        Some(def) => match &def.kind {
            TypeKind::Object(fields) => fields.as_slice(),
            TypeKind::Scalar => &[],
            TypeKind::Enum(_) => &[],
            TypeKind::Input(_) => &[],
        },
    }
}

/// The place of the first field with the name.
fn place_named(fields: &[FieldDef], name: &Text) -> Option<usize>
    ensures place { result ≡ spec.place_in fields.now name.now }
    ensures within { IfSome result (λ i. i < length fields.now) }
{
    for i in 0..fields.len() {
        if fields[i].name == *name {
            return Some(i);
        }
    }
    None
}

/// The number of a field in a type that has it.
fn number_of(schema: &Schema, ty: u32, name: &Text) -> Option<u32>
    ensures { result ≡ spec.number_of schema.now ty name.now }
{
    if is_word(name, b"__typename") {
        return Some(u32::MAX);
    }
    schema.know();
    match place_named(fields_at(schema, ty), name) {
        None => None,
        Some(i) => Some(i as u32),
    }
}

fn field_at(schema: &Schema, ty: u32, number: u32) -> Option<&FieldDef>
    ensures { option_map (λ f. f.now) result ≡ field_in schema.now ty number }
{
    fields_at(schema, ty).get(number as usize)
}

/// Appends a literal at its position's type, where it is one of the type.
fn put_literal(
    alloc: Global,
    schema: &Schema,
    arg: u32,
    def: &ArgDef,
    value: &Value,
    args: &mut Items<PlaceArg>,
) -> Result<(), Memory>
    ensures { OnOk result (args.new ≡ args.old ++ spec.with_literal arg
        (literal_at schema.now value.now.kind (ty_of def.now.ty)) []) }
{
    match coerce_literal(alloc, schema, value, Position::Of(def.ty)) {
        Ok(value) => {
            args.push(PlaceArg { arg, value })?;
            Ok(())
        }
        Err(InputError::Fault(_)) => Ok(()),
        Err(InputError::Memory) => Err(AllocError),
    }
}

/// Appends an argument, where it is written.
fn put_arg(
    alloc: Global,
    schema: &Schema,
    arguments: &[Argument],
    arg: u32,
    def: &ArgDef,
    args: &mut Items<PlaceArg>,
) -> Result<(), Memory>
    ensures { OnOk result (args.new ≡ args.old ++ spec.with_arg schema.now arg def.now
        (argument_in arguments.now def.now.name) []) }
{
    match argument_named(arguments, def.name.bytes()) {
        None => Ok(()),
        Some(value) => {
            put_literal(alloc, schema, arg, def, value, args)?;
            Ok(())
        }
    }
}

/// The arguments that are written, in the order of the schema.
fn args_of(
    alloc: Global,
    schema: &Schema,
    arguments: &[Argument],
    defs: &[ArgDef],
) -> Result<Items<PlaceArg>, Memory>
    requires { length defs.now < 2 ^ 32 }
    ensures { IfOk result (λ args. args
        ≡ spec.args_from schema.now arguments.now 0 defs.now) }
{
    let mut args = Items::new(alloc);
    for i in 0..defs.len() {
        put_arg(alloc, schema, arguments, i as u32, &defs[i], &mut args)?;
    }
    Ok(args)
}

fn make_place(
    alloc: Global,
    schema: &Schema,
    parent: Option<u32>,
    ty: u32,
    key: &Text,
    field: &Field,
    number: u32,
    def: Option<&FieldDef>,
) -> Result<Place, Memory>
    requires { option_map (λ f. f.now) def ≡ field_in schema.now ty number }
    ensures { IfOk result (λ p. p
        ≡ spec.place_of schema.now parent ty key.now field.now number) }
{
    schema.know();
    let args = match def {
        None => Items::new(alloc),
        Some(f) => args_of(alloc, schema, field.arguments.as_slice(), f.args.as_slice())?,
    };
    Ok(Place {
        parent,
        key: key.copy(alloc)?,
        ty,
        field: number,
        args,
        pos: field.pos,
    })
}

/// The fields of the selection sets of these fields, as one set of an object type.
fn sub_fields<'a>(
    alloc: Global,
    request: &Request<'a>,
    ty: u32,
    group: &[&'a Field],
    asked: &mut IndexSet<Text>,
) -> Result<Vec<&'a Field>, Memory>
    ensures { IfOk result (λ fields. IsMet (fields_of fields.items) asked.new.keys
        (collected (request_of request.now) ty (spec.merged (fields_of group.now))
        asked.old.keys)) }
{
    let mut fields = Vec::new(alloc);
    let mut entered = IndexSet::new(alloc);
    let left = request.fragments.count();
    for field in group {
        collect_set(
            alloc,
            request,
            ty,
            left,
            field.selections.as_slice(),
            &mut fields,
            &mut entered,
            asked,
        )?;
    }
    Ok(fields)
}

/// Appends the places of a set's fields, each with those below it.
#[cycle(grow)]
pub(crate) fn add_fields<'a>(
    alloc: Global,
    request: &Request<'a>,
    levels: usize,
    parent: Option<u32>,
    ty: u32,
    fields: &[&'a Field],
    places: &mut Items<Place>,
    asked: &mut IndexSet<Text>,
) -> Result<(), CollectFault>
    requires few { length places.old ≤ most_places }
    ensures { Grows result (grown places.new asked.new.keys)
        (spec.with_keys (spec.with_set levels (request_of request.now))
        (request_of request.now).schema parent ty (fields_of fields.now)
        (spec.keys_of (fields_of fields.now)) (grown places.old asked.old.keys)) }
{
    let keys = keys_of(alloc, fields)?;
    let groups = groups_of(alloc, fields)?;
    for key in keys.as_slice() {
        let Some(group) = groups.get(key) else {
            continue;
        };
        match add_group(
            alloc,
            request,
            levels,
            parent,
            ty,
            key,
            group.as_slice(),
            places,
            asked,
        ) {
            Ok(()) => {}
            Err(fault) => return Err(fault),
        }
    }
    Ok(())
}

/// Appends the place of a response key, and those below it.
#[cycle(grow)]
fn add_group<'a>(
    alloc: Global,
    request: &Request<'a>,
    levels: usize,
    parent: Option<u32>,
    ty: u32,
    key: &Text,
    group: &[&'a Field],
    places: &mut Items<Place>,
    asked: &mut IndexSet<Text>,
) -> Result<(), CollectFault>
    requires few { length places.old ≤ most_places }
    ensures { Grows result (grown places.new asked.new.keys)
        (spec.with_group (spec.with_set levels (request_of request.now))
        (request_of request.now).schema parent ty key.now (fields_of group.now)
        (grown places.old asked.old.keys)) }
{
    if group.is_empty() {
        return Ok(());
    }
    let first = group[0];
    let Some(number) = number_of(request.schema, ty, &first.name) else {
        return Ok(());
    };
    if places.len() >= MOST_PLACES {
        return Err(CollectFault::TooMany);
    }
    let at = places.len() as u32;
    let def = field_at(request.schema, ty, number);
    places.push(make_place(alloc, request.schema, parent, ty, key, first, number, def)?)?;
    let Some(f) = def else {
        return Ok(());
    };
    add_below(alloc, request, levels, at, f.ty.name, group, places, asked)
}

/// Appends the places below a place, so many levels deep.
#[cycle(grow)]
fn add_below<'a>(
    alloc: Global,
    request: &Request<'a>,
    levels: usize,
    parent: u32,
    ty: u32,
    group: &[&'a Field],
    places: &mut Items<Place>,
    asked: &mut IndexSet<Text>,
) -> Result<(), CollectFault>
    requires few { length places.old ≤ most_places }
    ensures { Grows result (grown places.new asked.new.keys)
        (spec.with_set levels (request_of request.now) (Some parent) ty
        (spec.merged (fields_of group.now)) (grown places.old asked.old.keys)) }
{
    if levels == 0 {
        return Ok(());
    }
    let fields = sub_fields(alloc, request, ty, group, asked)?;
    add_fields(
        alloc,
        request,
        levels - 1,
        Some(parent),
        ty,
        fields.as_slice(),
        places,
        asked,
    )
}
