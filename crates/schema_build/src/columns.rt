//! Columns as fields of rows and of inputs, and as cases of orders.

ghost use Rattle.std.specs.Prelude.{◌≡◌, ◌++◌, ◌<◌, ◌^◌, ◌&&◌, [], ◌∷◌, true, length, map, filter, flat_map, IfOk, OnOk};
ghost use Rattle.pg_base.specs.Listing.{when, all_when, each_at};
ghost use Rattle.name_rules.specs.Names.{field_name_of};
ghost use Rattle.pg_base.specs.Behaviors as behaviors;
ghost use Rattle.pg_base.specs.Behaviors.{selecting, ordering};
ghost use Rattle.pg_base.specs.Schema.{string};
ghost use Rattle.pg_base.specs.TypeRefs as refs;
ghost use Rattle.pg_base.specs.Lookups.{column_at};
ghost use Rattle.pg_base.specs.ColumnFields as spec;

use crate::behaving::{ORDERING, SELECTING, is_on};
use crate::naming::{as_str, called, case_name, column_field_name, copied, joined};
use crate::places::Places;
use crate::refs::{one, type_of_kind};
use pg_base::schema::STRING;
use pg_base::{ArgDef, ColumnDef, Does, FieldDef, Memory, TableDef, Tags, Text};
use sqlite_items::Items;
use std::alloc::Global;

// ---- fields of rows

fn column_field(
    alloc: Global,
    types: &Places,
    table: u32,
    place: u32,
    c: &ColumnDef,
) -> Result<FieldDef, Memory>
    ensures { IfOk result (λ f. f ≡ spec.column_field types.now table place c.now) }
{
    let name = column_field_name(alloc, c)?;
    let deprecated = copied(alloc, &c.tags.deprecated)?;
    let ty = one(type_of_kind(types, c.kind), c.not_null);
    Ok(FieldDef {
        name,
        args: Items::new(alloc),
        ty,
        does: Does::Column(table, place),
        deprecated,
    })
}

fn put_column_field(
    alloc: Global,
    fields: &mut Vec<FieldDef>,
    types: &Places,
    table: u32,
    place: u32,
    c: &ColumnDef,
) -> Result<(), Memory>
    ensures { OnOk result (fields.new.items ≡ fields.old.items
        ++ when (behaviors.is_on selecting c.now.tags)
        (spec.column_field types.now table place c.now)) }
{
    if is_on(SELECTING, &c.tags) {
        let field = column_field(alloc, types, table, place, c)?;
        fields.push(field)?;
    }
    Ok(())
}

pub(crate) fn put_column_fields(
    alloc: Global,
    fields: &mut Vec<FieldDef>,
    types: &Places,
    table: u32,
    columns: &[ColumnDef],
) -> Result<(), Memory>
    requires { length columns.now < 2 ^ 32 }
    ensures { OnOk result (fields.new.items ≡ fields.old.items ++ each_at
        (λ place c. when (behaviors.is_on selecting c.tags)
        (spec.column_field types.now table place c)) 0 columns.now) }
{
    let mut place: u32 = 0;
    for c in columns {
        put_column_field(alloc, fields, types, table, place, c)?;
        place += 1;
    }
    Ok(())
}

// ---- fields of inputs

fn input_field(
    alloc: Global,
    types: &Places,
    not_null: bool,
    c: &ColumnDef,
) -> Result<ArgDef, Memory>
    ensures { IfOk result (λ a. a ≡ spec.input_field types.now not_null c.now) }
{
    let name = column_field_name(alloc, c)?;
    let ty = one(type_of_kind(types, c.kind), not_null);
    Ok(ArgDef { name, ty })
}

// A new row must be given a cell of the column.
fn must_be_given(c: &ColumnDef) -> bool
    ensures { result ≡ spec.must_be_given c.now }
{
    if !c.not_null {
        return false;
    }
    if c.default.is_some() {
        return false;
    }
    !c.identity
}

// Whether the column of an input takes no null: never, or where the input is a new row that must be given it.
fn is_needed(creates: bool, c: &ColumnDef) -> bool
    ensures { result ≡ (creates && spec.must_be_given c.now) }
{
    if !creates {
        return false;
    }
    must_be_given(c)
}

fn put_input_field(
    alloc: Global,
    args: &mut Vec<ArgDef>,
    types: &Places,
    behavior: usize,
    creates: bool,
    c: &ColumnDef,
) -> Result<(), Memory>
    ensures { OnOk result (args.new.items ≡ args.old.items
        ++ when (behaviors.is_on behavior c.now.tags)
        (spec.input_field types.now (creates && spec.must_be_given c.now) c.now)) }
{
    if is_on(behavior, &c.tags) {
        let field = input_field(alloc, types, is_needed(creates, c), c)?;
        args.push(field)?;
    }
    Ok(())
}

fn put_input_fields(
    alloc: Global,
    args: &mut Vec<ArgDef>,
    types: &Places,
    behavior: usize,
    creates: bool,
    columns: &[ColumnDef],
) -> Result<(), Memory>
    ensures { OnOk result (args.new.items ≡ args.old.items ++ flat_map
        (λ c. when (behaviors.is_on behavior c.tags)
        (spec.input_field types.now (creates && spec.must_be_given c) c)) columns.now) }
{
    for c in columns {
        put_input_field(alloc, args, types, behavior, creates, c)?;
    }
    Ok(())
}

// The columns with the behaviour as fields of an input.

pub(crate) fn input_fields(
    alloc: Global,
    types: &Places,
    behavior: usize,
    creates: bool,
    columns: &[ColumnDef],
) -> Result<Items<ArgDef>, Memory>
    ensures { IfOk result (λ args. args ≡ map
        (λ c. spec.input_field types.now (creates && spec.must_be_given c) c)
        (filter (λ c. behaviors.is_on behavior c.tags) columns.now)) }
{
    let mut args = Vec::new(alloc);
    put_input_fields(alloc, &mut args, types, behavior, creates, columns)?;
    Ok(Items::from_vec(args))
}

fn put_key_argument(
    alloc: Global,
    args: &mut Vec<ArgDef>,
    types: &Places,
    t: &TableDef,
    place: u32,
) -> Result<(), Memory>
    ensures { OnOk result (args.new.items ≡ args.old.items
        ++ spec.input_field types.now true (column_at t.now place) ∷ []) }
{
    let argument = key_argument(alloc, types, t, place)?;
    args.push(argument)?;
    Ok(())
}

fn key_argument(alloc: Global, types: &Places, t: &TableDef, place: u32) -> Result<ArgDef, Memory>
    ensures { IfOk result (λ a. a ≡ spec.input_field types.now true (column_at t.now place)) }
{
    match t.columns.get(place as usize) {
        None => nameless_argument(alloc),
        Some(c) => input_field(alloc, types, true, c),
    }
}

// An argument for a column that there isn't.
fn nameless_argument(alloc: Global) -> Result<ArgDef, Memory>
    ensures { IfOk result (λ a. a ≡ refs.argument (field_name_of []) (refs.one string true)) }
{
    let name = inflection::field_name(alloc, "")?;
    let ty = one(STRING, true);
    Ok(ArgDef { name, ty })
}

// The columns at the places as arguments, in the order of the places.
pub(crate) fn put_key_arguments(
    alloc: Global,
    args: &mut Vec<ArgDef>,
    types: &Places,
    t: &TableDef,
    places: &[u32],
) -> Result<(), Memory>
    ensures { OnOk result (args.new.items ≡ args.old.items
        ++ map (λ place. spec.input_field types.now true (column_at t.now place)) places.now) }
{
    for place in places {
        put_key_argument(alloc, args, types, t, *place)?;
    }
    Ok(())
}

// ---- cases of orders

fn put_column_cases(alloc: Global, cases: &mut Vec<Text>, c: &ColumnDef) -> Result<(), Memory>
    ensures { OnOk result (cases.new.items ≡ cases.old.items ++ spec.column_cases c.now) }
{
    let name = case_name(alloc, called(&c.name, &c.tags))?;
    let rising = joined(alloc, "", as_str(&name), "_ASC")?;
    let falling = joined(alloc, "", as_str(&name), "_DESC")?;
    cases.push(rising)?;
    cases.push(falling)?;
    Ok(())
}

fn has_order(tags: &Tags, c: &ColumnDef) -> bool
    ensures { result ≡ (behaviors.is_on ordering tags.now && behaviors.is_on ordering c.now.tags) }
{
    if !is_on(ORDERING, tags) {
        return false;
    }
    is_on(ORDERING, &c.tags)
}

fn put_cases_if_ordered(
    alloc: Global,
    cases: &mut Vec<Text>,
    tags: &Tags,
    c: &ColumnDef,
) -> Result<(), Memory>
    ensures { OnOk result (cases.new.items ≡ cases.old.items
        ++ all_when (behaviors.is_on ordering tags.now && behaviors.is_on ordering c.now.tags)
        (spec.column_cases c.now)) }
{
    if has_order(tags, c) {
        put_column_cases(alloc, cases, c)?;
    }
    Ok(())
}

fn put_order_cases(
    alloc: Global,
    cases: &mut Vec<Text>,
    tags: &Tags,
    columns: &[ColumnDef],
) -> Result<(), Memory>
    ensures { OnOk result (cases.new.items ≡ cases.old.items ++ flat_map spec.column_cases (filter
        (λ c. behaviors.is_on ordering tags.now && behaviors.is_on ordering c.tags) columns.now)) }
{
    for c in columns {
        put_cases_if_ordered(alloc, cases, tags, c)?;
    }
    Ok(())
}

pub(crate) fn order_cases(alloc: Global, t: &TableDef) -> Result<Items<Text>, Memory>
    ensures { IfOk result (λ cases. cases ≡ spec.order_cases t.now) }
{
    let mut cases = Vec::new(alloc);
    let natural = Text::of(alloc, "NATURAL")?;
    cases.push(natural)?;
    put_order_cases(alloc, &mut cases, &t.tags, t.columns.as_slice())?;
    Ok(Items::from_vec(cases))
}
