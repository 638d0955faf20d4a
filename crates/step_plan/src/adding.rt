//! What a place adds to a plan.

ghost use Rattle.std.specs.Prelude.{◌≡◌, ◌<◌, ◌^◌, [], None, Some, IfOk, length, option_map, slice_get, unwrap_or};
ghost use Rattle.pg_base.specs.Schema as schemas;
ghost use Rattle.pg_base.specs.declared.value.Value.TheVariants as of_value;
ghost use Rattle.place_tree.specs.Exec as exec;
ghost use Rattle.place_tree.specs.Fields as finding;
ghost use Rattle.plan_steps.specs.declared.plan.Step.TheVariants as of_step;
ghost use Rattle.step_plan.specs.Added as spec;
ghost use Rattle.step_plan.specs.Slots as slotted;
ghost use Rattle.step_plan.specs.declared.making.Added.TheVariants as adds;

use crate::fetches::{list_step, row_step};
use crate::ids::id_step;
use crate::lookups::{field_of, finds_one, key_at, link_at, type_name_at};
use crate::making::{Added, Footing};
use crate::slots::key_slots;
use pg_base::{Base, Does, FieldDef, KeyDef, LinkDef, Memory, Schema, Text, Value, Vars};
use place_tree::Place;
use plan_steps::Step;
use sqlite_items::Items;
use std::alloc::Global;

/// The step of the row on which places stand.
fn row_of(footing: Footing) -> u32
    ensures { result ≡ spec.row_of footing }
{
    match footing {
        Footing::Nothing => 0,
        Footing::List(_) => 0,
        Footing::Page(_) => 0,
        Footing::Row(_, item) => item,
        Footing::Edge(_, item) => item,
        Footing::Payload(given) => given,
        Footing::Given(given) => given,
    }
}

/// The fetch on which they stand.
fn fetch_of(footing: Footing) -> u32
    ensures { result ≡ spec.fetch_of footing }
{
    match footing {
        Footing::Nothing => 0,
        Footing::List(fetch) => fetch,
        Footing::Page(fetch) => fetch,
        Footing::Row(fetch, _) => fetch,
        Footing::Edge(fetch, _) => fetch,
        Footing::Payload(_) => 0,
        Footing::Given(_) => 0,
    }
}

/// A list of a whole table.
fn add_all(
    alloc: Global,
    base: &Base,
    vars: &Vars,
    place: &Place,
    shown: bool,
    field: &FieldDef,
    table: u32,
) -> Result<Added, Memory>
    ensures { IfOk result (λ a. a ≡
        adds.List
        (spec.list_step base.now vars.now place.now shown field.now table
        [] None [])) }
{
    let step = list_step(
        alloc,
        base,
        vars,
        place,
        shown,
        field,
        table,
        &[],
        None,
        &[],
    )?;
    Ok(Added::List(step))
}

/// A row by the arguments of a key.
fn add_key(
    alloc: Global,
    schema: &Schema,
    place: &Place,
    field: &FieldDef,
    table: u32,
    key: Option<&KeyDef>,
) -> Result<Added, Memory>
    requires few { length field.now.args < 2 ^ 32 }
    ensures { IfOk result (λ a. a ≡ spec.add_key (option_map (λ k. k.now) key.entry)
        (λ k. adds.Row
        (spec.row_step table k.columns None []
        (slotted.key_slots schema.now place.now 0 field.now.args)))) }
{
    match key {
        None => Ok(Added::Leaf(Step::Const(Value::Null))),
        Some(key) => {
            let slots = key_slots(alloc, schema, place, field.args.as_slice())?;
            let step = row_step(alloc, table, key.columns.as_slice(), None, &[], slots)?;
            Ok(Added::Row(step))
        }
    }
}

/// The row to which a row refers by a link.
fn add_forward(alloc: Global, row: u32, link: Option<&LinkDef>) -> Result<Added, Memory>
    ensures { IfOk result (λ a. a ≡ spec.add_link (option_map (λ l. l.now) link.entry)
        (λ l. adds.Row
        (spec.row_step l.target l.target_columns (Some row) l.columns
        []))) }
{
    match link {
        None => Ok(Added::Leaf(Step::Const(Value::Null))),
        Some(link) => {
            let by = link.target_columns.as_slice();
            let columns = link.columns.as_slice();
            let key = Items::new(alloc);
            let step = row_step(alloc, link.target, by, Some(row), columns, key)?;
            Ok(Added::Row(step))
        }
    }
}

/// The row, or the rows, that refer to a row by a link.
fn add_referring(
    alloc: Global,
    base: &Base,
    vars: &Vars,
    place: &Place,
    shown: bool,
    field: &FieldDef,
    table: u32,
    row: u32,
    link: &LinkDef,
) -> Result<Added, Memory>
    ensures { IfOk result (λ a. a ≡ spec.add_backward base.now vars.now place.now shown field.now
        table row link.now (finding.finds_one
        (slice_get base.now.catalog.tables table) link.now)) }
{
    let by = link.columns.as_slice();
    let columns = link.target_columns.as_slice();
    if finds_one(base.catalog(), table, link) {
        let key = Items::new(alloc);
        let step = row_step(alloc, table, by, Some(row), columns, key)?;
        return Ok(Added::Row(step));
    }
    let step = list_step(
        alloc,
        base,
        vars,
        place,
        shown,
        field,
        table,
        by,
        Some(row),
        columns,
    )?;
    Ok(Added::List(step))
}

fn add_backward(
    alloc: Global,
    base: &Base,
    vars: &Vars,
    place: &Place,
    shown: bool,
    field: &FieldDef,
    table: u32,
    row: u32,
    link: Option<&LinkDef>,
) -> Result<Added, Memory>
    ensures { IfOk result (λ a. a ≡ spec.add_link (option_map (λ l. l.now) link.entry)
        (λ l. spec.add_backward base.now vars.now place.now shown field.now table row l
        (finding.finds_one
        (slice_get base.now.catalog.tables table) l))) }
{
    match link {
        None => Ok(Added::Leaf(Step::Const(Value::Null))),
        Some(link) => { add_referring(alloc, base, vars, place, shown, field, table, row, link) }
    }
}

fn add_id(alloc: Global, places: &[Place], place: &Place) -> Result<Added, Memory>
    ensures { IfOk result (λ a. a ≡ adds.Leaf
        (spec.id_of (exec.place_above places.now place.now))) }
{
    let step = id_step(alloc, places, place)?;
    Ok(Added::Leaf(step))
}

fn added_by(
    alloc: Global,
    base: &Base,
    vars: &Vars,
    places: &[Place],
    place: &Place,
    shown: bool,
    footing: Footing,
    field: &FieldDef,
    does: Does,
) -> Result<Added, Memory>
    requires few { length field.now.args < 2 ^ 32 }
    ensures { IfOk result (λ a. a ≡ spec.added_by base.now vars.now places.now place.now shown
        footing field.now does) }
{
    let catalog = base.catalog();
    let row = row_of(footing);
    let fetch = fetch_of(footing);
    match does {
        Does::Column(_, column) => Ok(Added::Leaf(Step::Column(row, column))),
        Does::Forward(table, link) => add_forward(alloc, row, link_at(catalog, table, link)),
        Does::Backward(table, link) => {
            let link = link_at(catalog, table, link);
            add_backward(alloc, base, vars, place, shown, field, table, row, link)
        }
        Does::All(table) => add_all(alloc, base, vars, place, shown, field, table),
        Does::ByKey(table, key) => {
            let key = key_at(catalog, table, key);
            add_key(alloc, base.schema(), place, field, table, key)
        }
        Does::Create(_) => Ok(Added::Given),
        Does::Update(_, _) => Ok(Added::Given),
        Does::Delete(_, _) => Ok(Added::Given),
        Does::Nodes => Ok(Added::Item(false, fetch)),
        Does::Edges => Ok(Added::Item(true, fetch)),
        Does::PageInfo => Ok(Added::Shows(fetch, Footing::Page(fetch))),
        Does::Total => Ok(Added::Leaf(Step::Count(fetch))),
        Does::Node => Ok(Added::Shows(row, Footing::Row(fetch, row))),
        Does::Cursor => Ok(Added::Leaf(Step::CursorOf(row))),
        Does::HasNext => Ok(Added::Leaf(Step::Page(fetch, 0))),
        Does::HasPrevious => Ok(Added::Leaf(Step::Page(fetch, 1))),
        Does::Start => Ok(Added::Leaf(Step::Page(fetch, 2))),
        Does::End => Ok(Added::Leaf(Step::Page(fetch, 3))),
        Does::ClientId => add_id(alloc, places, place),
        Does::Payload => Ok(Added::Shows(row, Footing::Given(row))),
    }
}

fn copied(alloc: Global, name: Option<&Text>) -> Result<Text, Memory>
    ensures { IfOk result (λ copy. copy ≡ unwrap_or
        (option_map (λ n. n.now) name.entry) []) }
{
    match name {
        None => Text::of(alloc, ""),
        Some(name) => name.copy(alloc),
    }
}

/// The name of the type that has a place's field.
fn add_typename(alloc: Global, schema: &Schema, ty: u32) -> Result<Added, Memory>
    ensures { IfOk result (λ a. a ≡ adds.Leaf
        (of_step.Const
        (of_value.Text
        (schemas.type_name_at schema.now ty)))) }
{
    let name = copied(alloc, type_name_at(schema, ty))?;
    Ok(Added::Leaf(Step::Const(Value::Text(name))))
}

/// What a place adds, on what the place above it stands for.
pub(crate) fn added(
    alloc: Global,
    base: &Base,
    vars: &Vars,
    places: &[Place],
    place: &Place,
    shown: bool,
    footing: Footing,
) -> Result<Added, Memory>
    ensures { IfOk result (λ a. a ≡ spec.added base.now vars.now places.now place.now shown
        footing) }
{
    match field_of(base.schema(), place) {
        None => add_typename(alloc, base.schema(), place.ty),
        Some(field) => {
            let does = field.does;
            added_by(
                alloc, base, vars, places, place, shown, footing, field, does,
            )
        }
    }
}
