//! What a row field asks of the tables, and the first error in its arguments.

ghost use Rattle.std.specs.Prelude.{◌≡◌, ◌<◌, ◌^◌, IfOk, length, option_map, slice_get, Some};
ghost use Rattle.place_tree.specs.Fetch as spec;
ghost use Rattle.place_tree.specs.Fields as fields;
ghost use Rattle.place_tree.specs.declared.fetch.KeyCells.TheVariants as key_cells;
ghost use Rattle.pg_base.specs.declared.does.Does.TheVariants as does_what;

use crate::arguments::{CONDITION, ORDER_BY, argument};
use crate::conditions::{cells_of_args, condition_of};
use crate::lookups::{cases_at, columns_of, field_of, finds_one, inputs_at, key_at, link_at};
use crate::nulls::null_error;
use crate::orders::{order_names, order_of};
use crate::windows::{window_error, window_of};
use pg_base::{ArgDef, Base, Does, FieldDef, KeyDef, LinkDef, Memory, Text, Vars};
use place_tree::{Fetch, KeyCells, Place, Shape};
use rel_model::{By, Equal, Window};
use sqlite_items::Items;
use std::alloc::Global;

// ---- one row

/// A copy of these numbers.
fn copied(alloc: Global, numbers: &[u32]) -> Result<Items<u32>, Memory>
    ensures { IfOk result (λ copy. copy ≡ numbers.now) }
{
    let copy = Vec::from_slice(alloc, numbers)?;
    Ok(Items::from_vec(copy))
}

/// The columns of a row above whose cells are a key.
fn of_parent(alloc: Global, columns: &[u32]) -> Result<KeyCells, Memory>
    ensures { IfOk result (λ key. key ≡
        key_cells.OfParent columns.now) }
{
    let columns = copied(alloc, columns)?;
    Ok(KeyCells::OfParent(columns))
}

fn row_fetch(alloc: Global, table: u32, by: &[u32], key: KeyCells) -> Result<Fetch, Memory>
    ensures { IfOk result (λ fetch. fetch ≡ spec.row_fetch table by.now key) }
{
    let by = copied(alloc, by)?;
    Ok(Fetch {
        table,
        by,
        key,
        shape: Shape::Row,
        condition: Items::new(alloc),
        names: Items::new(alloc),
        order: Items::new(alloc),
        window: Window {
            first: None,
            last: None,
            offset: 0,
            before: None,
            after: None,
        },
    })
}

// ---- a connection

fn arg_type(arg: Option<&ArgDef>) -> u32
    ensures { result ≡ spec.arg_type (option_map (λ a. a.now) arg.entry) }
{
    match arg {
        None => 0,
        Some(arg) => arg.ty.name,
    }
}

/// The type of an argument, by its place.
fn type_of_arg(args: &[ArgDef], arg: u32) -> u32
    ensures { result ≡ spec.type_of_arg args.now arg }
{
    arg_type(args.get(arg as usize))
}

fn list_names(alloc: Global, vars: &Vars, place: &Place) -> Result<Items<Text>, Memory>
    ensures { IfOk result (λ names. names ≡ spec.list_names vars.now place.now) }
{
    let given = argument(alloc, vars, place, ORDER_BY)?;
    let names = order_names(alloc, &given)?;
    Ok(names)
}

fn list_order(
    alloc: Global,
    base: &Base,
    field: &FieldDef,
    vars: &Vars,
    table: u32,
    place: &Place,
) -> Result<Items<By>, Memory>
    ensures { IfOk result (λ order. order ≡
        spec.list_order base.now field.now vars.now table place.now) }
{
    let names = list_names(alloc, vars, place)?;
    let cases = cases_at(base.schema(), type_of_arg(field.args.as_slice(), ORDER_BY));
    let columns = columns_of(base.catalog(), table);
    let order = order_of(alloc, cases, columns, names.as_slice())?;
    Ok(order)
}

fn list_condition(
    alloc: Global,
    base: &Base,
    field: &FieldDef,
    vars: &Vars,
    table: u32,
    place: &Place,
) -> Result<Items<Equal>, Memory>
    ensures { IfOk result (λ condition. condition ≡
        spec.list_condition base.now field.now vars.now table place.now) }
{
    let given = argument(alloc, vars, place, CONDITION)?;
    let inputs = inputs_at(base.schema(), type_of_arg(field.args.as_slice(), CONDITION));
    let columns = columns_of(base.catalog(), table);
    let condition = condition_of(alloc, base.schema(), inputs, columns, &given)?;
    Ok(condition)
}

fn list_window(
    alloc: Global,
    base: &Base,
    vars: &Vars,
    table: u32,
    order: &[By],
    place: &Place,
) -> Result<Window, Memory>
    ensures { IfOk result (λ window. window ≡
        spec.list_window base.now vars.now table order.now place.now) }
{
    let columns = columns_of(base.catalog(), table);
    let window = window_of(alloc, base.catalog(), columns, order, vars, place)?;
    Ok(window)
}

/// The rows of a table, with the order, condition and window of the arguments.
fn list_fetch(
    alloc: Global,
    base: &Base,
    field: &FieldDef,
    vars: &Vars,
    place: &Place,
    table: u32,
    by: &[u32],
    key: KeyCells,
) -> Result<Fetch, Memory>
    ensures { IfOk result (λ fetch. fetch ≡
        spec.list_fetch base.now field.now vars.now place.now table by.now key) }
{
    let by = copied(alloc, by)?;
    let condition = list_condition(alloc, base, field, vars, table, place)?;
    let names = list_names(alloc, vars, place)?;
    let order = list_order(alloc, base, field, vars, table, place)?;
    let window = list_window(alloc, base, vars, table, order.as_slice(), place)?;
    Ok(Fetch {
        table,
        by,
        key,
        shape: Shape::List,
        condition,
        names,
        order,
        window,
    })
}

// ---- each row field

fn key_fetch(
    alloc: Global,
    base: &Base,
    field: &FieldDef,
    vars: &Vars,
    place: &Place,
    table: u32,
    key: Option<&KeyDef>,
) -> Result<Option<Fetch>, Memory>
    requires few { length field.now.args < 2 ^ 32 }
    ensures { IfOk result (λ fetch. fetch ≡ spec.key_fetch base.now field.now vars.now place.now
        table (option_map (λ k. k.now) key.entry)) }
{
    match key {
        None => Ok(None),
        Some(key) => {
            let cells = cells_of_args(alloc, base.schema(), vars, place, field.args.as_slice())?;
            let fetch = row_fetch(alloc, table, key.columns.as_slice(), KeyCells::Given(cells))?;
            Ok(Some(fetch))
        }
    }
}

fn forward_fetch(alloc: Global, link: Option<&LinkDef>) -> Result<Option<Fetch>, Memory>
    ensures { IfOk result (λ fetch. fetch ≡
        spec.forward_fetch (option_map (λ l. l.now) link.entry)) }
{
    match link {
        None => Ok(None),
        Some(link) => {
            let key = of_parent(alloc, link.columns.as_slice())?;
            let fetch = row_fetch(alloc, link.target, link.target_columns.as_slice(), key)?;
            Ok(Some(fetch))
        }
    }
}

/// The rows that refer to a row by a link, or the one row.
fn backward_fetch(
    alloc: Global,
    base: &Base,
    field: &FieldDef,
    vars: &Vars,
    place: &Place,
    table: u32,
    link: &LinkDef,
) -> Result<Fetch, Memory>
    ensures { IfOk result (λ fetch. fetch ≡ spec.backward_fetch base.now field.now vars.now
        place.now table link.now (fields.finds_one
        (slice_get base.now.catalog.tables table) link.now)) }
{
    let by = link.columns.as_slice();
    let key = of_parent(alloc, link.target_columns.as_slice())?;
    if finds_one(base.catalog(), table, link) {
        let fetch = row_fetch(alloc, table, by, key)?;
        return Ok(fetch);
    }
    let fetch = list_fetch(alloc, base, field, vars, place, table, by, key)?;
    Ok(fetch)
}

fn referring_fetch(
    alloc: Global,
    base: &Base,
    field: &FieldDef,
    vars: &Vars,
    place: &Place,
    table: u32,
    link: Option<&LinkDef>,
) -> Result<Option<Fetch>, Memory>
    ensures { IfOk result (λ fetch. fetch ≡ spec.referring_fetch base.now field.now vars.now
        place.now table (option_map (λ l. l.now) link.entry)) }
{
    match link {
        None => Ok(None),
        Some(link) => {
            let fetch = backward_fetch(alloc, base, field, vars, place, table, link)?;
            Ok(Some(fetch))
        }
    }
}

fn all_fetch(
    alloc: Global,
    base: &Base,
    field: &FieldDef,
    vars: &Vars,
    place: &Place,
    table: u32,
) -> Result<Option<Fetch>, Memory>
    ensures { IfOk result (λ fetch. fetch ≡ spec.fetch_by base.now field.now vars.now place.now
        (does_what.All table)) }
{
    let key = KeyCells::Given(Items::new(alloc));
    let fetch = list_fetch(alloc, base, field, vars, place, table, &[], key)?;
    Ok(Some(fetch))
}

fn fetch_by(
    alloc: Global,
    base: &Base,
    field: &FieldDef,
    vars: &Vars,
    place: &Place,
    does: Does,
) -> Result<Option<Fetch>, Memory>
    requires few { length field.now.args < 2 ^ 32 }
    ensures { IfOk result (λ fetch. fetch ≡
        spec.fetch_by base.now field.now vars.now place.now does) }
{
    match does {
        Does::Column(_, _) => Ok(None),
        Does::Forward(table, link) => forward_fetch(alloc, link_at(base.catalog(), table, link)),
        Does::Backward(table, link) => {
            let link = link_at(base.catalog(), table, link);
            referring_fetch(alloc, base, field, vars, place, table, link)
        }
        Does::All(table) => all_fetch(alloc, base, field, vars, place, table),
        Does::ByKey(table, key) => {
            let key = key_at(base.catalog(), table, key);
            key_fetch(alloc, base, field, vars, place, table, key)
        }
        Does::Create(_) => Ok(None),
        Does::Update(_, _) => Ok(None),
        Does::Delete(_, _) => Ok(None),
        Does::Nodes => Ok(None),
        Does::Edges => Ok(None),
        Does::PageInfo => Ok(None),
        Does::Total => Ok(None),
        Does::Node => Ok(None),
        Does::Cursor => Ok(None),
        Does::HasNext => Ok(None),
        Does::HasPrevious => Ok(None),
        Does::Start => Ok(None),
        Does::End => Ok(None),
        Does::ClientId => Ok(None),
        Does::Payload => Ok(None),
    }
}

/// What a place asks of the tables; none where it is no row field.
#[tactic(auto, unfolding(place_tree::specs::Fetch::fetch_of))]
pub fn fetch_of(
    alloc: Global,
    base: &Base,
    vars: &Vars,
    place: &Place,
) -> Result<Option<Fetch>, Memory>
    ensures { IfOk result (λ fetch. fetch ≡ spec.fetch_of base.now vars.now place.now) }
{
    match field_of(base.schema(), place) {
        None => Ok(None),
        Some(field) => {
            let fetch = fetch_by(alloc, base, field, vars, place, field.does)?;
            Ok(fetch)
        }
    }
}

// ---- the error of a field's arguments

fn shape_error(
    alloc: Global,
    base: &Base,
    vars: &Vars,
    place: &Place,
    fetch: &Fetch,
) -> Result<Option<&'static str>, Memory>
    ensures { IfOk result (λ error. option_map (λ t. t.now) error
        ≡ spec.shape_error base.now vars.now place.now fetch.now fetch.now.shape) }
{
    match fetch.shape {
        Shape::Row => Ok(None),
        Shape::List => {
            let columns = columns_of(base.catalog(), fetch.table);
            let (names, order) = (fetch.names.as_slice(), fetch.order.as_slice());
            let error = window_error(alloc, base.catalog(), columns, names, order, vars, place)?;
            Ok(error)
        }
    }
}

fn message_of(alloc: Global, error: Option<&'static str>) -> Result<Option<Text>, Memory>
    ensures { IfOk result (λ message. message ≡ option_map (λ t. t.now) error.entry) }
{
    match error {
        None => Ok(None),
        Some(error) => {
            let message = Text::of(alloc, error)?;
            Ok(Some(message))
        }
    }
}

/// The first error in the arguments of a row field, as a message: a null at a non-null position, then those of a
/// connection's window.
pub fn fetch_error(
    alloc: Global,
    base: &Base,
    vars: &Vars,
    place: &Place,
    fetch: &Fetch,
) -> Result<Option<Text>, Memory>
    ensures { IfOk result (λ error. error ≡ spec.error_with base.now vars.now place.now
        (Some fetch.now)) }
{
    match args_error(alloc, base, vars, place)? {
        Some(error) => Ok(Some(error)),
        None => {
            let error = shape_error(alloc, base, vars, place, fetch)?;
            let message = message_of(alloc, error)?;
            Ok(message)
        }
    }
}

fn args_error(
    alloc: Global,
    base: &Base,
    vars: &Vars,
    place: &Place,
) -> Result<Option<Text>, Memory>
    ensures { IfOk result (λ error. error ≡ spec.args_error base.now vars.now place.now
        (fields.field_of base.now.schema place.now)) }
{
    match field_of(base.schema(), place) {
        None => Ok(None),
        Some(field) => {
            let error = null_error(alloc, base.schema(), vars, place, field.args.as_slice())?;
            Ok(error)
        }
    }
}
