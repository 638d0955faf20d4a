//! The order of a list, by its argument `orderBy`.

ghost use Rattle.std.specs.Prelude.{◌≡◌, ◌<◌, ◌^◌, IfOk, codes, length, option_map, filter_map};
ghost use Rattle.std.specs.List.{list_any};
ghost use Rattle.std.specs.Str.{bytes_eq};
ghost use Rattle.pg_base.specs.Value.{items_of, is_null as is_null_value};
ghost use Rattle.place_tree.specs.Arguments as spec;
ghost use Rattle.step_plan.specs.Added.{holds_null as some_null};

use crate::names::{ORDERING, by_name, columns_with};
use crate::variables::is_null;
use pg_base::{ColumnDef, Memory, Text, Value};
use rel_model::By;
use sqlite_items::Items;
use std::alloc::Global;

fn is_natural(name: &Text) -> bool
    ensures { result ≡ bytes_eq name.now (codes "NATURAL") }
{
    name.bytes() == b"NATURAL".as_slice()
}

fn but_natural(name: &Text) -> Option<&Text>
    ensures { option_map (λ t. t.now) result ≡ spec.but_natural (Some name.now) }
{
    if is_natural(name) {
        return None;
    }
    Some(name)
}

fn named_case(value: &Value) -> Option<&Text>
    ensures { option_map (λ t. t.now) result ≡ spec.named_case value.now }
{
    match value {
        Value::Null => None,
        Value::Int(_) => None,
        Value::Bool(_) => None,
        Value::Text(_) => None,
        Value::Case(name) => but_natural(name),
        Value::List(_) => None,
        Value::Object(_) => None,
    }
}

fn names_of(alloc: Global, items: &[Value]) -> Result<Items<Text>, Memory>
    ensures { IfOk result (λ names. names ≡ filter_map spec.named_case items.now) }
{
    let mut names = Items::new(alloc);
    for item in items {
        let Some(name) = named_case(item) else {
            continue;
        };
        names.push(name.copy(alloc)?)?;
    }
    Ok(names)
}

fn value_names(alloc: Global, value: &Value) -> Result<Items<Text>, Memory>
    ensures { IfOk result (λ names. names ≡ filter_map spec.named_case (items_of value.now)) }
{
    match value {
        Value::Null => Ok(Items::new(alloc)),
        Value::Int(_) => Ok(Items::new(alloc)),
        Value::Bool(_) => Ok(Items::new(alloc)),
        Value::Text(_) => Ok(Items::new(alloc)),
        Value::Case(_) => Ok(Items::new(alloc)),
        Value::List(items) => {
            let names = names_of(alloc, items.as_slice())?;
            Ok(names)
        }
        Value::Object(_) => Ok(Items::new(alloc)),
    }
}

/// The names of an order, in their order; none where it is absent or null.
pub(crate) fn order_names(alloc: Global, given: &Option<Value>) -> Result<Items<Text>, Memory>
    ensures { IfOk result (λ names. names ≡ spec.order_names given.now) }
{
    match given {
        None => Ok(Items::new(alloc)),
        Some(value) => {
            let names = value_names(alloc, value)?;
            Ok(names)
        }
    }
}

fn order_by(
    alloc: Global,
    cases: &[Text],
    columns: &[u32],
    names: &[Text],
) -> Result<Items<By>, Memory>
    ensures { IfOk result (λ order. order ≡
        filter_map (spec.by_name cases.now columns.now) names.now) }
{
    let mut order = Items::new(alloc);
    for name in names {
        let Some(by) = by_name(cases, columns, name) else {
            continue;
        };
        order.push(by)?;
    }
    Ok(order)
}

/// What the names of an order stand for.
pub(crate) fn order_of(
    alloc: Global,
    cases: &[Text],
    columns: &[ColumnDef],
    names: &[Text],
) -> Result<Items<By>, Memory>
    requires few { length columns.now < 2 ^ 32 }
    ensures { IfOk result (λ order. order ≡ spec.order_of cases.now columns.now names.now) }
{
    let places = columns_with(alloc, ORDERING, columns)?;
    let order = order_by(alloc, cases, places.as_slice(), names)?;
    Ok(order)
}

// ---- nulls in an order

fn some_is_null(items: &[Value]) -> bool
    ensures { result ≡ list_any is_null_value items.now }
{
    items.iter().any(|item| is_null(item))
}

fn value_holds_null(value: &Value) -> bool
    ensures { result ≡ list_any is_null_value (items_of value.now) }
{
    match value {
        Value::Null => false,
        Value::Int(_) => false,
        Value::Bool(_) => false,
        Value::Text(_) => false,
        Value::Case(_) => false,
        Value::List(items) => some_is_null(items.as_slice()),
        Value::Object(_) => false,
    }
}

/// Whether an order that is given has a null in its list.
pub(crate) fn holds_null(given: &Option<Value>) -> bool
    ensures { result ≡ some_null given.now }
{
    match given {
        None => false,
        Some(value) => value_holds_null(value),
    }
}
