//! Whether a place is a list's, and whether its rows are shown.

ghost use Rattle.std.specs.Prelude.{◌≡◌, ◌<◌, ◌≤◌, ◌^◌, Some, slice_get, length, IfOk, OnOk};
ghost use Rattle.place_tree.specs.Exec as exec;
ghost use Rattle.place_tree.specs.Fields as spec;

use crate::lookups::{field_of, finds_one, link_at};
use pg_base::{Base, Catalog, Does, Schema};
use place_tree::Place;

/// What the field of a place does.
fn does_of(schema: &Schema, place: &Place) -> Option<Does>
    ensures { result ≡ spec.does_of schema.now place.now }
{
    match field_of(schema, place) {
        None => None,
        Some(field) => Some(field.does),
    }
}

/// Whether many rows can refer to a row by the link.
fn finds_many(catalog: &Catalog, table: u32, link: u32) -> bool
    ensures { result ≡ spec.finds_many (slice_get catalog.now.tables table)
        (spec.link_at catalog.now table link) }
{
    match link_at(catalog, table, link) {
        Some(found) => !finds_one(catalog, table, found),
        None => false,
    }
}

fn finds_list(catalog: &Catalog, does: Does) -> bool
    ensures { result ≡ spec.finds_list catalog.now does }
{
    match does {
        Does::Column(_, _) => false,
        Does::Forward(_, _) => false,
        Does::Backward(table, link) => finds_many(catalog, table, link),
        Does::All(_) => true,
        Does::ByKey(_, _) => false,
        Does::Create(_) => false,
        Does::Update(_, _) => false,
        Does::Delete(_, _) => false,
        Does::Nodes => false,
        Does::Edges => false,
        Does::PageInfo => false,
        Does::Total => false,
        Does::Node => false,
        Does::Cursor => false,
        Does::HasNext => false,
        Does::HasPrevious => false,
        Does::Start => false,
        Does::End => false,
        Does::ClientId => false,
        Does::Payload => false,
    }
}

/// Whether the field of a place gives a list of rows.
pub(crate) fn is_list(base: &Base, place: &Place) -> bool
    ensures { result ≡ spec.is_list base.now place.now }
{
    match does_of(base.schema(), place) {
        Some(does) => finds_list(base.catalog(), does),
        None => false,
    }
}

fn shows(does: Does) -> bool
    ensures { result ≡ exec.shows_rows (Some does) }
{
    match does {
        Does::Nodes => true,
        Does::Edges => true,
        Does::PageInfo => true,
        Does::Column(_, _) => false,
        Does::Forward(_, _) => false,
        Does::Backward(_, _) => false,
        Does::All(_) => false,
        Does::ByKey(_, _) => false,
        Does::Create(_) => false,
        Does::Update(_, _) => false,
        Does::Delete(_, _) => false,
        Does::Total => false,
        Does::Node => false,
        Does::Cursor => false,
        Does::HasNext => false,
        Does::HasPrevious => false,
        Does::Start => false,
        Does::End => false,
        Does::ClientId => false,
        Does::Payload => false,
    }
}

/// Whether a place shows rows of the list above it, or their page.
pub(crate) fn shows_rows(schema: &Schema, place: &Place) -> bool
    ensures { result ≡ exec.shows_rows (spec.does_of schema.now place.now) }
{
    match does_of(schema, place) {
        None => false,
        Some(does) => shows(does),
    }
}
