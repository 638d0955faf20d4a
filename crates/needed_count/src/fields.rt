//! What the fields of places do.

ghost use Rattle.std.specs.Prelude.{◌≡◌, Some, slice_get, option_map};
ghost use Rattle.std.specs.List.{list_all, list_any};
ghost use Rattle.pg_base.specs.Schema as schema_of;
ghost use Rattle.place_tree.specs.Fields as spec;
ghost use Rattle.place_tree.specs.Needs as needs;

use pg_base::{Base, Catalog, Does, FieldDef, KeyDef, LinkDef, Schema, TypeKind};
use place_tree::Place;

fn fields_of(kind: &TypeKind) -> &[FieldDef]
    ensures { result.now ≡ schema_of.fields_of kind.now }
{
    match kind {
        TypeKind::Scalar => &[],
        TypeKind::Object(fields) => fields.as_slice(),
        TypeKind::Enum(_) => &[],
        TypeKind::Input(_) => &[],
    }
}

fn fields_at(schema: &Schema, ty: u32) -> &[FieldDef]
    ensures { result.now ≡ schema_of.fields_of (schema_of.kind_at schema.now ty) }
{
    match schema.types().get(ty as usize) {
        None => &[],
        Some(def) => fields_of(&def.kind),
    }
}

fn field_there<'a>(schema: &'a Schema, place: &Place) -> Option<&'a FieldDef>
    ensures { option_map (λ f. f.now) result ≡ spec.field_of schema.now place.now }
{
    fields_at(schema, place.ty).get(place.field as usize)
}

/// What the field of a place does.
pub(crate) fn does_of(schema: &Schema, place: &Place) -> Option<Does>
    ensures { result ≡ spec.does_of schema.now place.now }
{
    match field_there(schema, place) {
        None => None,
        Some(field) => Some(field.does),
    }
}

fn link_at(catalog: &Catalog, table: u32, link: u32) -> Option<&LinkDef>
    ensures { option_map (λ l. l.now) result ≡ spec.link_at catalog.now table link }
{
    match catalog.tables().get(table as usize) {
        None => None,
        Some(table) => table.links.as_slice().get(link as usize),
    }
}

fn is_among(places: &[u32], place: u32) -> bool
    ensures { result ≡ spec.is_among places.now place }
{
    places.iter().any(|other| *other == place)
}

fn are_among(places: &[u32], columns: &[u32]) -> bool
    ensures { result ≡ list_all (spec.is_among places.now) columns.now }
{
    columns.iter().all(|column| is_among(places, *column))
}

fn some_key_among(keys: &[KeyDef], places: &[u32]) -> bool
    ensures { result ≡
        list_any (λ k. list_all (spec.is_among places.now) k.columns) keys.now }
{
    keys.iter()
        .any(|key| are_among(places, key.columns.as_slice()))
}

/// Whether one row at most refers to a row by the link, as some key of its table has all its columns among the link's.
fn finds_one(catalog: &Catalog, table: u32, link: &LinkDef) -> bool
    ensures { result ≡ spec.finds_one (slice_get catalog.now.tables table) link.now }
{
    match catalog.tables().get(table as usize) {
        None => false,
        Some(table) => some_key_among(table.keys.as_slice(), link.columns.as_slice()),
    }
}

/// Whether many rows can refer to a row by the link.
fn finds_many(catalog: &Catalog, table: u32, link: u32) -> bool
    ensures { result ≡ spec.finds_many (slice_get catalog.now.tables table)
        (spec.link_at catalog.now table link) }
{
    match link_at(catalog, table, link) {
        Some(found) => !finds_one(catalog, table, found),
        None => false,
    }
}

fn finds_list(catalog: &Catalog, does: Does) -> bool
    ensures { result ≡ spec.finds_list catalog.now does }
{
    match does {
        Does::Column(_, _) => false,
        Does::Forward(_, _) => false,
        Does::Backward(table, link) => finds_many(catalog, table, link),
        Does::All(_) => true,
        Does::ByKey(_, _) => false,
        Does::Create(_) => false,
        Does::Update(_, _) => false,
        Does::Delete(_, _) => false,
        Does::Nodes => false,
        Does::Edges => false,
        Does::PageInfo => false,
        Does::Total => false,
        Does::Node => false,
        Does::Cursor => false,
        Does::HasNext => false,
        Does::HasPrevious => false,
        Does::Start => false,
        Does::End => false,
        Does::ClientId => false,
        Does::Payload => false,
    }
}

/// Whether the field of a place gives a list of rows.
pub(crate) fn is_list(base: &Base, place: &Place) -> bool
    ensures { result ≡ spec.is_list base.now place.now }
{
    match does_of(base.schema(), place) {
        Some(does) => finds_list(base.catalog(), does),
        None => false,
    }
}

/// Whether a field asks for rows.
fn gives_rows(does: Does) -> bool
    ensures { result ≡ spec.is_row_field (Some does) }
{
    match does {
        Does::Column(_, _) => false,
        Does::Forward(_, _) => true,
        Does::Backward(_, _) => true,
        Does::All(_) => true,
        Does::ByKey(_, _) => true,
        Does::Create(_) => false,
        Does::Update(_, _) => false,
        Does::Delete(_, _) => false,
        Does::Nodes => false,
        Does::Edges => false,
        Does::PageInfo => false,
        Does::Total => false,
        Does::Node => false,
        Does::Cursor => false,
        Does::HasNext => false,
        Does::HasPrevious => false,
        Does::Start => false,
        Does::End => false,
        Does::ClientId => false,
        Does::Payload => false,
    }
}

/// Whether it is the field of the rows that refer to a row.
fn refers_back(does: Does) -> bool
    ensures { result ≡ needs.is_backward (Some does) }
{
    match does {
        Does::Column(_, _) => false,
        Does::Forward(_, _) => false,
        Does::Backward(_, _) => true,
        Does::All(_) => false,
        Does::ByKey(_, _) => false,
        Does::Create(_) => false,
        Does::Update(_, _) => false,
        Does::Delete(_, _) => false,
        Does::Nodes => false,
        Does::Edges => false,
        Does::PageInfo => false,
        Does::Total => false,
        Does::Node => false,
        Does::Cursor => false,
        Does::HasNext => false,
        Does::HasPrevious => false,
        Does::Start => false,
        Does::End => false,
        Does::ClientId => false,
        Does::Payload => false,
    }
}

/// Whether it is one of the fields that change a table.
fn changes(does: Does) -> bool
    ensures { result ≡ needs.is_mutation (Some does) }
{
    match does {
        Does::Column(_, _) => false,
        Does::Forward(_, _) => false,
        Does::Backward(_, _) => false,
        Does::All(_) => false,
        Does::ByKey(_, _) => false,
        Does::Create(_) => true,
        Does::Update(_, _) => true,
        Does::Delete(_, _) => true,
        Does::Nodes => false,
        Does::Edges => false,
        Does::PageInfo => false,
        Does::Total => false,
        Does::Node => false,
        Does::Cursor => false,
        Does::HasNext => false,
        Does::HasPrevious => false,
        Does::Start => false,
        Does::End => false,
        Does::ClientId => false,
        Does::Payload => false,
    }
}

pub(crate) fn is_row_field(does: Option<Does>) -> bool
    ensures { result ≡ spec.is_row_field does }
{
    match does {
        None => false,
        Some(does) => gives_rows(does),
    }
}

pub(crate) fn is_backward(does: Option<Does>) -> bool
    ensures { result ≡ needs.is_backward does }
{
    match does {
        None => false,
        Some(does) => refers_back(does),
    }
}

pub(crate) fn is_mutation(does: Option<Does>) -> bool
    ensures { result ≡ needs.is_mutation does }
{
    match does {
        None => false,
        Some(does) => changes(does),
    }
}
