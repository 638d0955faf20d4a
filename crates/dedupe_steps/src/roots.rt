//! What the fields of places do, and under which mutation field places stand.

ghost use Rattle.std.specs.Prelude.{◌≡◌, IfOk, Some, option_map, slice_get, length, if◌then◌else◌};
ghost use Rattle.std.specs.List.{list_any};
ghost use Rattle.pg_base.specs.Schema as schemas;
ghost use Rattle.place_tree.specs.Fields as fields;
ghost use Rattle.place_tree.specs.Needs as needs;
ghost use Rattle.dedupe_steps.specs.Roots as spec;

use crate::lookups::told_at;
use pg_base::{Base, Does, FieldDef, Memory, Schema, TypeKind};
use place_tree::{Place, Tree};
use sqlite_items::at;
use std::alloc::{AllocError, Global};

fn field_in(kind: &TypeKind, field: usize) -> Option<&FieldDef>
    ensures { option_map (λ f. f.now) result ≡ slice_get (schemas.fields_of kind.now) field }
{
    match kind {
        TypeKind::Scalar => None,
        TypeKind::Object(fields) => fields.get(field),
        TypeKind::Enum(_) => None,
        TypeKind::Input(_) => None,
    }
}

/// What the field of a place does.
fn does_of(schema: &Schema, place: &Place) -> Option<Does>
    ensures { result ≡ fields.does_of schema.now place.now }
{
    let Some(ty) = at(schema.types(), place.ty as usize) else {
        return None;
    };
    match field_in(&ty.kind, place.field as usize) {
        Some(field) => Some(field.does),
        None => None,
    }
}

/// Whether it is one of the fields that change a table.
fn changes(does: Does) -> bool
    ensures { result ≡ needs.is_mutation (Some does) }
{
    match does {
        Does::Create(_) => true,
        Does::Update(_, _) => true,
        Does::Delete(_, _) => true,
        Does::Column(_, _) => false,
        Does::Forward(_, _) => false,
        Does::Backward(_, _) => false,
        Does::All(_) => false,
        Does::ByKey(_, _) => false,
        Does::Nodes => false,
        Does::Edges => false,
        Does::PageInfo => false,
        Does::Total => false,
        Does::Node => false,
        Does::Cursor => false,
        Does::HasNext => false,
        Does::HasPrevious => false,
        Does::Start => false,
        Does::End => false,
        Does::ClientId => false,
        Does::Payload => false,
    }
}

/// Whether rows are found for the field.
fn finds(does: Does) -> bool
    ensures { result ≡ fields.is_row_field (Some does) }
{
    match does {
        Does::All(_) => true,
        Does::ByKey(_, _) => true,
        Does::Forward(_, _) => true,
        Does::Backward(_, _) => true,
        Does::Column(_, _) => false,
        Does::Create(_) => false,
        Does::Update(_, _) => false,
        Does::Delete(_, _) => false,
        Does::Nodes => false,
        Does::Edges => false,
        Does::PageInfo => false,
        Does::Total => false,
        Does::Node => false,
        Does::Cursor => false,
        Does::HasNext => false,
        Does::HasPrevious => false,
        Does::Start => false,
        Does::End => false,
        Does::ClientId => false,
        Does::Payload => false,
    }
}

fn is_mutation(schema: &Schema, place: &Place) -> bool
    ensures { result ≡ needs.is_mutation (fields.does_of schema.now place.now) }
{
    match does_of(schema, place) {
        Some(does) => changes(does),
        None => false,
    }
}

fn is_row_field(schema: &Schema, place: &Place) -> bool
    ensures { result ≡ fields.is_row_field (fields.does_of schema.now place.now) }
{
    match does_of(schema, place) {
        Some(does) => finds(does),
        None => false,
    }
}

/// Whether a row field stands at a place.
pub(crate) fn is_field_at(base: &Base, tree: &Tree, place: usize) -> bool
    ensures { result ≡ spec.is_field_at base.now tree.now place }
{
    match at(tree.places.as_slice(), place) {
        Some(found) => is_row_field(base.schema(), found),
        None => false,
    }
}

/// Whether the tree is a mutation's.
pub(crate) fn mutates(schema: &Schema, places: &[Place]) -> bool
    ensures { result ≡ spec.mutates schema.now places.now }
{
    for place in places {
        if is_mutation(schema, place) {
            return true;
        }
    }
    false
}

fn root_above(done: &[Option<u32>], above: Option<u32>) -> Option<u32>
    ensures { result ≡ spec.root_above done.now above }
{
    match above {
        Some(place) => told_at(done, place as usize),
        None => None,
    }
}

/// The mutation field at a place, or under which it stands.
fn root_below(schema: &Schema, done: &[Option<u32>], place: &Place) -> Result<Option<u32>, Memory>
    ensures { IfOk result (λ root. root ≡ spec.root_below schema.now done.now place.now) }
{
    if is_mutation(schema, place) {
        let Ok(number) = u32::try_from(done.len()) else {
            return Err(AllocError);
        };
        return Ok(Some(number));
    }
    Ok(root_above(done, place.parent))
}

/// The mutation field of each place, if one.
pub(crate) fn roots(
    alloc: Global,
    schema: &Schema,
    places: &[Place],
) -> Result<Vec<Option<u32>>, Memory>
    ensures { IfOk result (λ roots. roots.items ≡ spec.roots schema.now places.now) }
{
    let mut done = Vec::with_capacity(alloc, places.len())?;
    for place in places {
        let root = root_below(schema, done.as_slice(), place)?;
        done.push(root)?;
    }
    Ok(done)
}
