//! Whether the places of a tree show steps that are there.

ghost use Rattle.std.specs.Prelude.{◌≡◌, ◌-◌, not, ◌||◌, ◌==◌, ◌&&◌, Some, option_map, slice_get, length, drop, nat_lt};
ghost use Rattle.std.specs.List.{list_all, list_any};
ghost use Rattle.pg_base.specs.Schema as schemas;
ghost use Rattle.place_tree.specs.Fields as fields;
ghost use Rattle.plan_steps.specs.declared.plan.FetchStep.{out-FetchStep};
ghost use Rattle.plan_steps.specs.Check as spec;
ghost use Rattle.plan_steps.specs.Under as under;

use crate::chains::{is_given, layer_of, named_at, place_above};
use crate::fetches::{are_below, width_of};
use crate::layers::stands_over;
use crate::plan::{FetchStep, OutPlace, Plan, Step};
use pg_base::{Base, Catalog, Does, FieldDef, Schema, TypeKind};
use place_tree::{Place, Tree};
use sqlite_items::at;

fn field_in(kind: &TypeKind, field: usize) -> Option<&FieldDef>
    ensures { option_map (λ f. f.now) result ≡ slice_get (schemas.fields_of kind.now) field }
{
    match kind {
        TypeKind::Scalar => None,
        TypeKind::Object(fields) => fields.get(field),
        TypeKind::Enum(_) => None,
        TypeKind::Input(_) => None,
    }
}

/// What the field of a place does.
fn does_of(schema: &Schema, place: &Place) -> Option<Does>
    ensures { result ≡ fields.does_of schema.now place.now }
{
    let Some(ty) = at(schema.types(), place.ty as usize) else {
        return None;
    };
    match field_in(&ty.kind, place.field as usize) {
        Some(field) => Some(field.does),
        None => None,
    }
}

/// The table whose row a mutation field gives.
fn table_changed(does: Does) -> Option<u32>
    ensures { result ≡ under.mutated (Some does) }
{
    match does {
        Does::Create(table) => Some(table),
        Does::Update(table, _) => Some(table),
        Does::Delete(table, _) => Some(table),
        Does::Column(_, _) => None,
        Does::Forward(_, _) => None,
        Does::Backward(_, _) => None,
        Does::All(_) => None,
        Does::ByKey(_, _) => None,
        Does::Nodes => None,
        Does::Edges => None,
        Does::PageInfo => None,
        Does::Total => None,
        Does::Node => None,
        Does::Cursor => None,
        Does::HasNext => None,
        Does::HasPrevious => None,
        Does::Start => None,
        Does::End => None,
        Does::ClientId => None,
        Does::Payload => None,
    }
}

fn mutated(schema: &Schema, place: &Place) -> Option<u32>
    ensures { result ≡ under.mutated (fields.does_of schema.now place.now) }
{
    match does_of(schema, place) {
        Some(does) => table_changed(does),
        None => None,
    }
}

fn mutated_at(schema: &Schema, places: &[Place], place: usize) -> Option<u32>
    ensures { result ≡ under.mutated_at schema.now places.now place }
{
    match at(places, place) {
        Some(found) => mutated(schema, found),
        None => None,
    }
}

/// Whether the table of a mutation field has the columns.
fn table_has(catalog: &Catalog, columns: &[u32], table: Option<u32>) -> bool
    ensures { result ≡ spec.table_has catalog.now columns.now table }
{
    match table {
        Some(table) => are_below(width_of(catalog, table), columns),
        None => true,
    }
}

/// Whether the tables of the mutation fields above a place have the columns.
fn tables_have(base: &Base, places: &[Place], place: usize, columns: &[u32]) -> bool
    ensures { result ≡ spec.tables_have base.now places.now place columns.now }
{
    let mut above = place_above(places, place);
    for turn in 0..places.len() {
        let Some(at) = above else {
            return true;
        };
        let table = mutated_at(base.schema(), places, at as usize);
        if !table_has(base.catalog(), columns, table) {
            return false;
        }
        above = place_above(places, at as usize);
    }
    true
}

fn fetch_takes(
    base: &Base,
    places: &[Place],
    steps: &[Step],
    place: usize,
    fetch: &FetchStep,
) -> bool
    ensures { result ≡ spec.fetch_takes base.now places.now steps.now place fetch.now
        (out-FetchStep fetch.now).parent }
{
    match fetch.parent {
        Some(parent) => {
            if !is_given(steps, parent as usize) {
                return true;
            }
            tables_have(base, places, place, fetch.parent_columns.as_slice())
        }
        None => true,
    }
}

fn column_takes(
    base: &Base,
    places: &[Place],
    steps: &[Step],
    place: usize,
    row: u32,
    column: u32,
) -> bool
    ensures { result ≡ spec.column_takes base.now places.now steps.now place row column }
{
    if !is_given(steps, row as usize) {
        return true;
    }
    tables_have(base, places, place, &[column])
}

/// Whether what a step takes from the row that a mutation gives is there, for a place that uses the step.
fn takes_given(base: &Base, places: &[Place], steps: &[Step], place: usize, step: &Step) -> bool
    ensures { result ≡ spec.takes_given base.now places.now steps.now place (Some step.now) }
{
    match step {
        Step::Const(_) => true,
        Step::Var(_) => true,
        Step::Given => true,
        Step::Fetch(fetch) => fetch_takes(base, places, steps, place, fetch),
        Step::Item(_) => true,
        Step::Column(row, column) => column_takes(base, places, steps, place, *row, *column),
        Step::Count(_) => true,
        Step::Page(_, _) => true,
        Step::CursorOf(_) => true,
    }
}

fn takes_given_at(base: &Base, places: &[Place], steps: &[Step], place: usize, step: usize) -> bool
    ensures { result ≡
        spec.takes_given base.now places.now steps.now place (slice_get steps.now step) }
{
    match at(steps, step) {
        Some(found) => takes_given(base, places, steps, place, found),
        None => true,
    }
}

/// The same for each step that the place uses.
fn given_fits(base: &Base, places: &[Place], steps: &[Step], out: OutPlace) -> bool
    ensures { result ≡ spec.given_fits base.now places.now steps.now out }
{
    let mut used = Some(out.step);
    for turn in 0..steps.len() {
        let Some(step) = used else {
            return true;
        };
        if !takes_given_at(base, places, steps, out.place as usize, step as usize) {
            return false;
        }
        used = named_at(steps, step as usize);
    }
    true
}

/// Whether a place, its step and its layer are there, and the step can be seen from the layer.
fn out_fits(base: &Base, tree: &Tree, plan: &Plan, out: OutPlace) -> bool
    ensures { result ≡ spec.out_fits base.now tree.now plan.now out }
{
    if out.place as usize >= tree.places.len() {
        return false;
    }
    if out.step as usize >= plan.steps.len() {
        return false;
    }
    if out.layer as usize >= plan.layers.len() {
        return false;
    }
    let layers = plan.layers.as_slice();
    let layer = layer_of(layers, out.step as usize);
    if !stands_over(layers, Some(out.layer as usize), layer) {
        return false;
    }
    given_fits(base, tree.places.as_slice(), plan.steps.as_slice(), out)
}

fn has_place(outs: &[OutPlace], place: u32) -> bool
    ensures { result ≡ list_any (λ o. o.place == place) outs.now }
{
    outs.iter().any(|out| out.place == place)
}

/// Whether no place has two entries.
fn places_differ(outs: &[OutPlace]) -> bool
    ensures { result ≡ spec.places_differ outs.now }
{
    for i in 0..outs.len() {
        if has_place(&outs[i + 1..], outs[i].place) {
            return false;
        }
    }
    true
}

fn all_fit(base: &Base, tree: &Tree, plan: &Plan, outs: &[OutPlace]) -> bool
    ensures { result ≡ list_all (spec.out_fits base.now tree.now plan.now) outs.now }
{
    for out in outs {
        if !out_fits(base, tree, plan, *out) {
            return false;
        }
    }
    true
}

pub(crate) fn outs_fit(base: &Base, tree: &Tree, plan: &Plan) -> bool
    ensures { result ≡ spec.outs_fit base.now tree.now plan.now }
{
    let outs = plan.out.as_slice();
    all_fit(base, tree, plan, outs) && places_differ(outs)
}
