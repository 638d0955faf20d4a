//! What stands at the places of a schema and of a catalog.

ghost use Rattle.std.specs.Prelude.{IfSome, ◌≡◌, ◌<◌, ◌^◌, length, slice_get, option_map};
ghost use Rattle.std.specs.List.{list_all, list_any};
ghost use Rattle.pg_base.specs.Schema as schema_of;
ghost use Rattle.place_tree.specs.Fields as spec;
ghost use Rattle.place_tree.specs.Cursors as cursors;

use pg_base::{
    ArgDef, Catalog, ColumnDef, FieldDef, KeyDef, LinkDef, Schema, TableDef, Text, TypeKind,
};
use place_tree::Place;

// ---- of a schema

fn cases_of(kind: &TypeKind) -> &[Text]
    ensures { result.now ≡ schema_of.cases_of kind.now }
{
    match kind {
        TypeKind::Scalar => &[],
        TypeKind::Object(_) => &[],
        TypeKind::Enum(cases) => cases.as_slice(),
        TypeKind::Input(_) => &[],
    }
}

fn inputs_of(kind: &TypeKind) -> &[ArgDef]
    ensures { result.now ≡ schema_of.inputs_of kind.now }
{
    match kind {
        TypeKind::Scalar => &[],
        TypeKind::Object(_) => &[],
        TypeKind::Enum(_) => &[],
        TypeKind::Input(args) => args.as_slice(),
    }
}

fn fields_of(kind: &TypeKind) -> &[FieldDef]
    ensures { result.now ≡ schema_of.fields_of kind.now }
{
    match kind {
        TypeKind::Scalar => &[],
        TypeKind::Object(fields) => fields.as_slice(),
        TypeKind::Enum(_) => &[],
        TypeKind::Input(_) => &[],
    }
}

fn cases_there(schema: &Schema, ty: u32) -> &[Text]
    ensures { result.now ≡ schema_of.cases_of (schema_of.kind_at schema.now ty) }
{
    match schema.types().get(ty as usize) {
        None => &[],
        Some(def) => cases_of(&def.kind),
    }
}

/// The cases of the enum at a place.
pub fn cases_at(schema: &Schema, ty: u32) -> &[Text]
    ensures value { result.now ≡ schema_of.cases_of (schema_of.kind_at schema.now ty) }
    ensures few { length result.now < 2 ^ 32 }
{
    schema.know();
    cases_there(schema, ty)
}

/// The fields of the input type at a place.
pub(crate) fn inputs_at(schema: &Schema, ty: u32) -> &[ArgDef]
    ensures { result.now ≡ schema_of.inputs_of (schema_of.kind_at schema.now ty) }
{
    match schema.types().get(ty as usize) {
        None => &[],
        Some(def) => inputs_of(&def.kind),
    }
}

fn fields_at(schema: &Schema, ty: u32) -> &[FieldDef]
    ensures { result.now ≡ schema_of.fields_of (schema_of.kind_at schema.now ty) }
{
    match schema.types().get(ty as usize) {
        None => &[],
        Some(def) => fields_of(&def.kind),
    }
}

fn field_there<'a>(schema: &'a Schema, place: &Place) -> Option<&'a FieldDef>
    ensures { option_map (λ f. f.now) result ≡ spec.field_of schema.now place.now }
{
    fields_at(schema, place.ty).get(place.field as usize)
}

/// The definition of a place's field, and none for `__typename`.
pub fn field_of<'a>(schema: &'a Schema, place: &Place) -> Option<&'a FieldDef>
    ensures value { option_map (λ f. f.now) result ≡ spec.field_of schema.now place.now }
    ensures few { IfSome result (λ f. length f.now.args < 2 ^ 32) }
{
    schema.know();
    field_there(schema, place)
}

/// The name of the type at a place; none where there is no such type.
pub(crate) fn type_name_at(schema: &Schema, ty: u32) -> Option<&Text>
    ensures { option_map (λ n. n.now) result
        ≡ option_map (λ t. t.name) (slice_get schema.now.types ty) }
{
    match schema.types().get(ty as usize) {
        None => None,
        Some(def) => Some(&def.name),
    }
}

// ---- of a catalog

fn columns_in(table: Option<&TableDef>) -> &[ColumnDef]
    ensures { result.now ≡ spec.columns_in (option_map (λ t. t.now) table.entry) }
{
    match table {
        None => &[],
        Some(table) => table.columns.as_slice(),
    }
}

fn columns_there(catalog: &Catalog, table: u32) -> &[ColumnDef]
    ensures { result.now ≡ spec.columns_of catalog.now table }
{
    columns_in(catalog.tables().get(table as usize))
}

/// The columns of a table.
pub fn columns_of(catalog: &Catalog, table: u32) -> &[ColumnDef]
    ensures value { result.now ≡ spec.columns_of catalog.now table }
    ensures few { length result.now < 2 ^ 32 }
{
    catalog.know();
    columns_there(catalog, table)
}

pub(crate) fn key_at(catalog: &Catalog, table: u32, key: u32) -> Option<&KeyDef>
    ensures { option_map (λ k. k.now) result ≡ spec.key_at catalog.now table key }
{
    match catalog.tables().get(table as usize) {
        None => None,
        Some(table) => table.keys.as_slice().get(key as usize),
    }
}

pub(crate) fn link_at(catalog: &Catalog, table: u32, link: u32) -> Option<&LinkDef>
    ensures { option_map (λ l. l.now) result ≡ spec.link_at catalog.now table link }
{
    match catalog.tables().get(table as usize) {
        None => None,
        Some(table) => table.links.as_slice().get(link as usize),
    }
}

fn is_among(places: &[u32], place: u32) -> bool
    ensures { result ≡ spec.is_among places.now place }
{
    places.iter().any(|other| *other == place)
}

fn are_among(places: &[u32], columns: &[u32]) -> bool
    ensures { result ≡ list_all (spec.is_among places.now) columns.now }
{
    columns.iter().all(|column| is_among(places, *column))
}

fn some_key_among(keys: &[KeyDef], places: &[u32]) -> bool
    ensures { result ≡
        list_any (λ k. list_all (spec.is_among places.now) k.columns) keys.now }
{
    keys.iter()
        .any(|key| are_among(places, key.columns.as_slice()))
}

/// Whether one row at most refers to a row by the link, as some key of its table has all its columns among the link's.
pub(crate) fn finds_one(catalog: &Catalog, table: u32, link: &LinkDef) -> bool
    ensures { result ≡ spec.finds_one (slice_get catalog.now.tables table) link.now }
{
    match catalog.tables().get(table as usize) {
        None => false,
        Some(table) => some_key_among(table.keys.as_slice(), link.columns.as_slice()),
    }
}

fn labels_there(catalog: &Catalog, place: u32) -> &[Text]
    ensures { result.now ≡ cursors.labels_in (slice_get catalog.now.enums place) }
{
    match catalog.enums().get(place as usize) {
        None => &[],
        Some(def) => def.cases.as_slice(),
    }
}

/// The labels of an enum's cases.
pub(crate) fn labels_in(catalog: &Catalog, place: u32) -> &[Text]
    ensures value { result.now ≡ cursors.labels_in (slice_get catalog.now.enums place) }
    ensures few { length result.now < 2 ^ 32 }
{
    catalog.know();
    labels_there(catalog, place)
}
