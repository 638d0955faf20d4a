//! What is laid out of a plan before its values are printed.

ghost use Rattle.std.specs.Prelude.{◌≡◌, ◌++◌, IfOk, Some, map, option_map, slice_get};
ghost use Rattle.std.specs.String.{string_bytes};
ghost use Rattle.pg_base.specs.Naming.{called, column_called};
ghost use Rattle.batch_execute.specs.Reading.{type_of as type_of_place};
ghost use Rattle.plan_steps.specs.Values as values;
ghost use Rattle.output_plan.specs.Layout as spec;

use inflection::enum_case;
use json_out::put_key;
use list_execution::{columns_of, field_of};
use pg_base::{Base, Blob, ColumnDef, Memory, Schema, Tags, Text, TypeRef};
use place_tree::Place;
use plan_steps::{FetchStep, Step};
use rel_model::By;
use schema_laws::laws::case_is_by_characters;
use sqlite_items::{Items, at};
use std::alloc::Global;

// ---- places

fn label_of(alloc: Global, place: &Place) -> Result<Blob, Memory>
    ensures { IfOk result (λ label. label ≡ spec.label_of place.now) }
{
    let mut label = Vec::new(alloc);
    put_key(&mut label, place.key.bytes())?;
    Ok(Blob::of(label))
}

/// The keys of places, each with a colon.
pub(crate) fn labels_of(alloc: Global, places: &[Place]) -> Result<Items<Blob>, Memory>
    ensures { IfOk result (λ labels. labels ≡ map spec.label_of places.now) }
{
    let mut labels = Items::new(alloc);
    for place in places {
        labels.push(label_of(alloc, place)?)?;
    }
    Ok(labels)
}

fn type_of(schema: &Schema, place: &Place) -> TypeRef
    ensures { result ≡ type_of_place schema.now place.now }
{
    match field_of(schema, place) {
        None => TypeRef {
            name: 0,
            list: false,
            item_not_null: false,
            not_null: false,
        },
        Some(field) => field.ty,
    }
}

/// The types of the fields of places.
pub(crate) fn types_of(
    alloc: Global,
    schema: &Schema,
    places: &[Place],
) -> Result<Items<TypeRef>, Memory>
    ensures { IfOk result (λ types. types ≡ map (type_of_place schema.now) places.now) }
{
    let mut types = Items::new(alloc);
    for place in places {
        types.push(type_of(schema, place))?;
    }
    Ok(types)
}

// ---- the names of orders

fn as_str(text: &Text) -> &str
    ensures { result.now ≡ text.now }
{
    let bytes = text.bytes();
    unsafe { str::from_utf8_unchecked(bytes) }
}

fn text_of(string: String) -> Text
    ensures { result ≡ string_bytes string }
{
    let _text = string.as_str();
    Text::of_bytes(string.into_bytes())
}

fn joined(alloc: Global, before: &str, after: &str) -> Result<Text, Memory>
    ensures { IfOk result (λ text. text ≡ before.now ++ after.now) }
{
    let len = before.len().saturating_add(after.len());
    let mut string = String::with_capacity(alloc, len)?;
    string.push_str(before)?;
    string.push_str(after)?;
    Ok(text_of(string))
}

fn called_by<'a>(name: &'a Text, tags: &'a Tags) -> &'a str
    ensures { result.now ≡ called name.now tags.now }
{
    match &tags.name {
        None => as_str(name),
        Some(other) => as_str(other),
    }
}

fn direction(descending: bool) -> &'static str
    ensures { result.now ≡ values.direction descending }
{
    if descending {
        return "_DESC";
    }
    "_ASC"
}

fn column_name(alloc: Global, column: &ColumnDef, descending: bool) -> Result<Text, Memory>
    ensures { IfOk result (λ name. name ≡ values.order_name (Some column.now) descending) }
{
    let label = called_by(&column.name, &column.tags);
    case_is_by_characters(label);
    let case = enum_case(alloc, label)?;
    let name = joined(alloc, as_str(&case), direction(descending))?;
    Ok(name)
}

fn order_name(alloc: Global, column: Option<&ColumnDef>, descending: bool) -> Result<Text, Memory>
    ensures { IfOk result (λ name. name ≡
        values.order_name (option_map (λ c. c.now) column.entry) descending) }
{
    match column {
        None => Text::of(alloc, ""),
        Some(column) => column_name(alloc, column, descending),
    }
}

fn name_by(alloc: Global, columns: &[ColumnDef], by: By) -> Result<Text, Memory>
    ensures { IfOk result (λ name. name ≡
        values.order_name (slice_get columns.now by.column) by.descending) }
{
    let name = order_name(alloc, at(columns, by.column as usize), by.descending)?;
    Ok(name)
}

fn order_names(alloc: Global, columns: &[ColumnDef], order: &[By]) -> Result<Items<Text>, Memory>
    ensures { IfOk result (λ names. names ≡ map (λ b. values.order_name
        (slice_get columns.now b.column) b.descending) order.now) }
{
    let mut names = Items::new(alloc);
    for by in order {
        names.push(name_by(alloc, columns, *by)?)?;
    }
    Ok(names)
}

fn fetch_names(alloc: Global, base: &Base, fetch: &FetchStep) -> Result<Items<Text>, Memory>
    ensures { IfOk result (λ names. names ≡ spec.fetch_names base.now fetch.now) }
{
    let columns = columns_of(base.catalog(), fetch.table);
    let names = order_names(alloc, columns, fetch.order.as_slice())?;
    Ok(names)
}

fn names_of(alloc: Global, base: &Base, step: &Step) -> Result<Items<Text>, Memory>
    ensures { IfOk result (λ names. names ≡ spec.names_of base.now step.now) }
{
    match step {
        Step::Const(_) => Ok(Items::new(alloc)),
        Step::Var(_) => Ok(Items::new(alloc)),
        Step::Given => Ok(Items::new(alloc)),
        Step::Fetch(fetch) => fetch_names(alloc, base, fetch),
        Step::Item(_) => Ok(Items::new(alloc)),
        Step::Column(_, _) => Ok(Items::new(alloc)),
        Step::Count(_) => Ok(Items::new(alloc)),
        Step::Page(_, _) => Ok(Items::new(alloc)),
        Step::CursorOf(_) => Ok(Items::new(alloc)),
    }
}

/// The names of the order of each step.
pub(crate) fn all_names(
    alloc: Global,
    base: &Base,
    steps: &[Step],
) -> Result<Items<Items<Text>>, Memory>
    ensures { IfOk result (λ names. names ≡ map (spec.names_of base.now) steps.now) }
{
    let mut names = Items::new(alloc);
    for step in steps {
        names.push(names_of(alloc, base, step)?)?;
    }
    Ok(names)
}
