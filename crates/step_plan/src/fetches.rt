//! The fetches of row fields.

ghost use Rattle.std.specs.Prelude.{◌≡◌, ◌<◌, ◌^◌, IfOk, length, option_map};
ghost use Rattle.place_tree.specs.Arguments as arguments;
ghost use Rattle.place_tree.specs.Fetch as fetching;
ghost use Rattle.place_tree.specs.Fields as finding;
ghost use Rattle.step_plan.specs.Added as spec;
ghost use Rattle.step_plan.specs.Slots as slotted;

use crate::lookups::{cases_at, columns_of, inputs_at};
use crate::orders::{holds_null, order_names, order_of};
use crate::slots::condition_slots;
use crate::windows::window_slots;
use crate::written::{CONDITION, ORDER_BY, argument, written};
use pg_base::{ArgDef, Base, FieldDef, Memory, Value, Vars};
use place_tree::Place;
use plan_steps::{FetchStep, Slot, SlotEqual, SlotWindow};
use rel_model::By;
use sqlite_items::Items;
use std::alloc::Global;

fn no_window() -> SlotWindow
    ensures { result ≡ slotted.no_window }
{
    SlotWindow {
        first: None,
        last: None,
        offset: None,
        before: None,
        after: None,
    }
}

/// A fetch of one row, whose key is in the slots or is what the row of a step has at the columns.
pub(crate) fn row_step(
    alloc: Global,
    table: u32,
    by: &[u32],
    parent: Option<u32>,
    columns: &[u32],
    key: Items<Slot>,
) -> Result<FetchStep, Memory>
    ensures { IfOk result (λ f. f ≡ spec.row_step table by.now parent columns.now key) }
{
    let by = Items::from_slice(alloc, by)?;
    let parent_columns = Items::from_slice(alloc, columns)?;
    Ok(FetchStep {
        table,
        by,
        parent,
        parent_columns,
        condition: Items::new(alloc),
        key,
        order: Items::new(alloc),
        window: no_window(),
        rows: true,
        children: Items::new(alloc),
    })
}

fn arg_type(arg: Option<&ArgDef>) -> u32
    ensures { result ≡ fetching.arg_type
        (option_map (λ a. a.now) arg.entry) }
{
    match arg {
        None => 0,
        Some(arg) => arg.ty.name,
    }
}

fn type_of_arg(args: &[ArgDef], arg: u32) -> u32
    ensures { result ≡ fetching.type_of_arg args.now arg }
{
    arg_type(args.get(arg as usize))
}

fn list_order(
    alloc: Global,
    base: &Base,
    field: &FieldDef,
    given: &Option<Value>,
    table: u32,
) -> Result<Items<By>, Memory>
    ensures { IfOk result (λ order. order ≡
        arguments.order_of
        (fetching.cases_of_arg base.now field.now 5)
        (finding.columns_of base.now.catalog table)
        (arguments.order_names given.now)) }
{
    let names = order_names(alloc, given)?;
    let cases = cases_at(base.schema(), type_of_arg(field.args.as_slice(), ORDER_BY));
    let columns = columns_of(base.catalog(), table);
    let order = order_of(alloc, cases, columns, names.as_slice())?;
    Ok(order)
}

fn list_condition(
    alloc: Global,
    base: &Base,
    vars: &Vars,
    place: &Place,
    field: &FieldDef,
    table: u32,
) -> Result<Items<SlotEqual>, Memory>
    ensures { IfOk result (λ condition. condition ≡
        slotted.condition_slots base.now.schema vars.now
        (fetching.inputs_of_arg base.now field.now 6)
        (finding.columns_of base.now.catalog table)
        (arguments.written place.now.args 6)) }
{
    let schema = base.schema();
    let inputs = inputs_at(schema, type_of_arg(field.args.as_slice(), CONDITION));
    let columns = columns_of(base.catalog(), table);
    let condition = written(place.args.as_slice(), CONDITION);
    let slots = condition_slots(alloc, schema, vars, inputs, columns, condition)?;
    Ok(slots)
}

/// A fetch of a list, with what the arguments of its place give. `shown` tells whether places show its rows.
pub(crate) fn list_step(
    alloc: Global,
    base: &Base,
    vars: &Vars,
    place: &Place,
    shown: bool,
    field: &FieldDef,
    table: u32,
    by: &[u32],
    parent: Option<u32>,
    columns: &[u32],
) -> Result<FetchStep, Memory>
    ensures { IfOk result (λ f. f ≡ spec.list_step base.now vars.now place.now shown field.now
        table by.now parent columns.now) }
{
    let given = argument(alloc, vars, place, ORDER_BY)?;
    let order = list_order(alloc, base, field, &given, table)?;
    let condition = list_condition(alloc, base, vars, place, field, table)?;
    let window = window_slots(alloc, vars, place)?;
    let by = Items::from_slice(alloc, by)?;
    let parent_columns = Items::from_slice(alloc, columns)?;
    let null = holds_null(&given);
    Ok(FetchStep {
        table,
        by,
        parent,
        parent_columns,
        condition,
        key: Items::new(alloc),
        order,
        window,
        rows: shown && !null,
        children: Items::new(alloc),
    })
}
