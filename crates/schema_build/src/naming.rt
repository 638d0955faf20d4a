//! The names that tables, columns, keys and enums have in the schema.

ghost use Rattle.std.specs.Prelude.{◌≡◌, ◌++◌, map, flat_map, codes, IfOk, OnOk};
ghost use Rattle.std.specs.String.{string_bytes};
ghost use Rattle.pg_base.specs.EnumCases.{case_of_label};
ghost use Rattle.pg_base.specs.Naming as spec;
ghost use Rattle.schema_build.specs.Joined.{joined_names};

use pg_base::{ColumnDef, EnumDef, Memory, TableDef, Tags, Text};
use schema_laws::laws::case_is_by_characters;
use std::alloc::Global;

// The text as a `str`, with no copy.
pub(crate) fn as_str(text: &Text) -> &str
    ensures { result.now ≡ text.now }
{
    let bytes = text.bytes();
    unsafe { str::from_utf8_unchecked(bytes) }
}

fn text_of(string: String) -> Text
    ensures { result ≡ string_bytes string }
{
    let _text = string.as_str();
    Text::of_bytes(string.into_bytes())
}

pub(crate) fn joined(alloc: Global, before: &str, middle: &str, after: &str) -> Result<Text, Memory>
    ensures { IfOk result (λ text. text ≡ before.now ++ middle.now ++ after.now) }
{
    let len = before
        .len()
        .saturating_add(middle.len())
        .saturating_add(after.len());
    let mut string = String::with_capacity(alloc, len)?;
    string.push_str(before)?;
    string.push_str(middle)?;
    string.push_str(after)?;
    Ok(text_of(string))
}

pub(crate) fn copied(alloc: Global, text: &Option<Text>) -> Result<Option<Text>, Memory>
    ensures { IfOk result (λ copy. copy ≡ text.now) }
{
    match text {
        None => Ok(None),
        Some(text) => {
            let copy = text.copy(alloc)?;
            Ok(Some(copy))
        }
    }
}

// The name in the script, or the one that the tags put in its place.
pub(crate) fn called<'a>(name: &'a Text, tags: &'a Tags) -> &'a str
    ensures { result.now ≡ spec.called name.now tags.now }
{
    match &tags.name {
        None => as_str(name),
        Some(other) => as_str(other),
    }
}

pub(crate) fn enum_type_name(alloc: Global, e: &EnumDef) -> Result<Text, Memory>
    ensures { IfOk result (λ text. text ≡ spec.enum_type_name e.now) }
{
    inflection::type_name(alloc, called(&e.name, &e.tags))
}

// The enum case of a label.
pub(crate) fn case_name(alloc: Global, label: &str) -> Result<Text, Memory>
    ensures { IfOk result (λ text. text ≡ case_of_label label.now) }
{
    case_is_by_characters(label);
    let case = inflection::enum_case(alloc, label)?;
    Ok(case)
}

// ---- a table's names

fn singular_name(alloc: Global, t: &TableDef) -> Result<Text, Memory>
    ensures { IfOk result (λ text. text ≡ spec.singular_name t.now) }
{
    inflection::singular(alloc, called(&t.name, &t.tags))
}

fn plural_name(alloc: Global, t: &TableDef) -> Result<Text, Memory>
    ensures { IfOk result (λ text. text ≡ spec.plural_name t.now) }
{
    let singular = singular_name(alloc, t)?;
    let plural = inflection::plural(alloc, as_str(&singular))?;
    Ok(plural)
}

pub(crate) fn row_type_name(alloc: Global, t: &TableDef) -> Result<Text, Memory>
    ensures { IfOk result (λ text. text ≡ spec.row_type_name t.now) }
{
    let singular = singular_name(alloc, t)?;
    let name = inflection::type_name(alloc, as_str(&singular))?;
    Ok(name)
}

pub(crate) fn rows_type_name(alloc: Global, t: &TableDef) -> Result<Text, Memory>
    ensures { IfOk result (λ text. text ≡ spec.rows_type_name t.now) }
{
    let plural = plural_name(alloc, t)?;
    let name = inflection::type_name(alloc, as_str(&plural))?;
    Ok(name)
}

pub(crate) fn row_field_name(alloc: Global, t: &TableDef) -> Result<Text, Memory>
    ensures { IfOk result (λ text. text ≡ spec.row_field_name t.now) }
{
    let singular = singular_name(alloc, t)?;
    let name = inflection::field_name(alloc, as_str(&singular))?;
    Ok(name)
}

pub(crate) fn rows_field_name(alloc: Global, t: &TableDef) -> Result<Text, Memory>
    ensures { IfOk result (λ text. text ≡ spec.rows_field_name t.now) }
{
    let plural = plural_name(alloc, t)?;
    let name = inflection::field_name(alloc, as_str(&plural))?;
    Ok(name)
}

// ---- columns

pub(crate) fn column_field_name(alloc: Global, c: &ColumnDef) -> Result<Text, Memory>
    ensures { IfOk result (λ text. text ≡ spec.column_field_name c.now) }
{
    inflection::field_name(alloc, called(&c.name, &c.tags))
}

fn column_type_name(alloc: Global, t: &TableDef, place: u32) -> Result<Text, Memory>
    ensures { IfOk result (λ text. text ≡ spec.column_type_name t.now place) }
{
    match t.columns.get(place as usize) {
        None => inflection::type_name(alloc, ""),
        Some(c) => inflection::type_name(alloc, called(&c.name, &c.tags)),
    }
}

// `ByAAndB` of the columns a and b
#[tactic(auto, using(crate::proofs::Joined::joined_all))]
pub(crate) fn by_columns(alloc: Global, t: &TableDef, places: &[u32]) -> Result<Text, Memory>
    ensures { IfOk result (λ text. text ≡ spec.by_columns t.now places.now) }
{
    let mut out = String::from_str(alloc, "By")?;
    put_columns(alloc, &mut out, t, places)?;
    Ok(text_of(out))
}

fn put_columns(alloc: Global, out: &mut String, t: &TableDef, places: &[u32]) -> Result<(), Memory>
    ensures { OnOk result (string_bytes out.new ≡ string_bytes out.old
        ++ joined_names (spec.column_type_name t.now) places.now) }
{
    match places {
        [] => Ok(()),
        [first, others @ ..] => {
            put_column(alloc, out, t, *first)?;
            put_other_columns(alloc, out, t, others)?;
            Ok(())
        }
    }
}

fn put_column(alloc: Global, out: &mut String, t: &TableDef, place: u32) -> Result<(), Memory>
    ensures { OnOk result (string_bytes out.new
        ≡ string_bytes out.old ++ spec.column_type_name t.now place) }
{
    let name = column_type_name(alloc, t, place)?;
    out.push_str(as_str(&name))?;
    Ok(())
}

fn put_other_columns(
    alloc: Global,
    out: &mut String,
    t: &TableDef,
    others: &[u32],
) -> Result<(), Memory>
    ensures { OnOk result (string_bytes out.new ≡ string_bytes out.old
        ++ flat_map (λ place. codes "And" ++ spec.column_type_name t.now place) others.now) }
{
    for other in others {
        out.push_str("And")?;
        put_column(alloc, out, t, *other)?;
    }
    Ok(())
}
