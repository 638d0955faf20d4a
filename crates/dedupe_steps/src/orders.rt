//! Whether orders hold a null, as far as constraints tell.

ghost use Rattle.std.specs.Prelude.{◌≡◌, ◌++◌, OnOk, Some, option_map, drop};
ghost use Rattle.std.specs.List.{list_any};
ghost use Rattle.pg_base.specs.Value as values;
ghost use Rattle.place_tree.specs.Arguments as arguments;
ghost use Rattle.plan_constraints.specs.Path.{to_variable};
ghost use Rattle.plan_constraints.specs.Same.{same_path};
ghost use Rattle.plan_steps.specs.Fetches.{holds_null};
ghost use Rattle.dedupe_steps.specs.Keys.{order_at};
ghost use Rattle.dedupe_steps.specs.Orders as spec;
ghost use Rattle.dedupe_steps.specs.Sights as sights;
ghost use Rattle.dedupe_steps.specs.Words as words;

use crate::words::{Word, put_arg, put_number, put_truth};
use gql_input::ArgValue;
use pg_base::{Memory, Text, Value};
use place_tree::{Place, PlaceArg, Tree};
use plan_constraints::{Constraint, Part};
use plan_steps::Step;
use sqlite_items::at;
use std::alloc::Global;

/// The place of `orderBy` among the arguments of a list.
const ORDER_BY: u32 = 5;

/// Whether the path leads to the variable.
fn leads_to(path: &[Part], name: &Text) -> bool
    ensures { result ≡ same_path path.now (to_variable name.now) }
{
    match path {
        [] => false,
        [part] => match part {
            Part::Name(found) => *found == *name,
            Part::Index(_) => false,
        },
        [_, _, ..] => false,
    }
}

fn is_null(value: &Value) -> bool
    ensures { result ≡ values.is_null value.now }
{
    match value {
        Value::Null => true,
        Value::Int(_) => false,
        Value::Bool(_) => false,
        Value::Text(_) => false,
        Value::Case(_) => false,
        Value::List(_) => false,
        Value::Object(_) => false,
    }
}

fn any_null(items: &[Value]) -> bool
    ensures { result ≡ list_any values.is_null items.now }
{
    items.iter().any(|item| is_null(item))
}

/// Whether a list has an item that is null.
fn has_null(value: &Value) -> bool
    ensures { result ≡ holds_null (Some value.now) }
{
    match value {
        Value::Null => false,
        Value::Int(_) => false,
        Value::Bool(_) => false,
        Value::Text(_) => false,
        Value::Case(_) => false,
        Value::List(items) => any_null(items.as_slice()),
        Value::Object(_) => false,
    }
}

/// Whether the variable is absent or null, where the constraint tells that.
fn nothing_by(constraint: &Constraint, name: &Text) -> Option<bool>
    ensures { result ≡ option_map spec.is_nothing (spec.told_by name.now constraint.now) }
{
    match constraint {
        Constraint::Value(path, value) => {
            if leads_to(path.as_slice(), name) {
                return Some(is_null(value));
            }
            None
        }
        Constraint::Exists(path, present) => {
            if leads_to(path.as_slice(), name) {
                if *present {
                    return None;
                }
                return Some(true);
            }
            None
        }
        Constraint::Null(path, null) => {
            if leads_to(path.as_slice(), name) {
                if *null {
                    return Some(true);
                }
                return None;
            }
            None
        }
        Constraint::Keys(_, _) => None,
    }
}

/// Whether the variable is a list with a null, where the constraint tells that.
fn nulls_by(constraint: &Constraint, name: &Text) -> Option<bool>
    ensures { result ≡ option_map holds_null (spec.told_by name.now constraint.now) }
{
    match constraint {
        Constraint::Value(path, value) => {
            if leads_to(path.as_slice(), name) {
                return Some(has_null(value));
            }
            None
        }
        Constraint::Exists(path, present) => {
            if leads_to(path.as_slice(), name) {
                if *present {
                    return None;
                }
                return Some(false);
            }
            None
        }
        Constraint::Null(path, null) => {
            if leads_to(path.as_slice(), name) {
                if *null {
                    return Some(false);
                }
                return None;
            }
            None
        }
        Constraint::Keys(_, _) => None,
    }
}

fn nothing_told(constraints: &[Constraint], name: &Text) -> Option<bool>
    ensures { result ≡ option_map spec.is_nothing (spec.told constraints.now name.now) }
{
    for constraint in constraints {
        if let Some(nothing) = nothing_by(constraint, name) {
            return Some(nothing);
        }
    }
    None
}

fn nulls_told(constraints: &[Constraint], name: &Text) -> Option<bool>
    ensures { result ≡ option_map holds_null (spec.told constraints.now name.now) }
{
    for constraint in constraints {
        if let Some(nulls) = nulls_by(constraint, name) {
            return Some(nulls);
        }
    }
    None
}

/// Whether an item of an order is null, where that is told.
fn null_item(constraints: &[Constraint], item: &ArgValue) -> Option<bool>
    ensures { result ≡ spec.null_item constraints.now item.now }
{
    match item {
        ArgValue::Variable(name) => nothing_told(constraints, name),
        ArgValue::Null => Some(true),
        ArgValue::Int(_) => Some(false),
        ArgValue::Bool(_) => Some(false),
        ArgValue::Text(_) => Some(false),
        ArgValue::Case(_) => Some(false),
        ArgValue::List(_) => Some(false),
        ArgValue::Object(_) => Some(false),
    }
}

fn null_items(constraints: &[Constraint], items: &[ArgValue]) -> Option<bool>
    ensures { result ≡ sights.each_null constraints.now items.now }
{
    let mut found = false;
    for item in items {
        let Some(null) = null_item(constraints, item) else {
            return None;
        };
        found = found || null;
    }
    Some(found)
}

/// Whether an order holds a null, where that is told.
fn null_in(constraints: &[Constraint], order: &ArgValue) -> Option<bool>
    ensures { result ≡ spec.null_in constraints.now order.now }
{
    match order {
        ArgValue::Variable(name) => nulls_told(constraints, name),
        ArgValue::Null => Some(false),
        ArgValue::Int(_) => Some(false),
        ArgValue::Bool(_) => Some(false),
        ArgValue::Text(_) => Some(false),
        ArgValue::Case(_) => Some(false),
        ArgValue::List(items) => null_items(constraints, items.as_slice()),
        ArgValue::Object(_) => Some(false),
    }
}

/// What is written for an argument.
fn written(args: &[PlaceArg], arg: u32) -> Option<&ArgValue>
    ensures { option_map (λ a. a.now) result ≡ arguments.written args.now arg }
{
    for a in args {
        if a.arg == arg {
            return Some(&a.value);
        }
    }
    None
}

fn put_told(out: &mut Vec<Word>, told: bool) -> Result<(), Memory>
    ensures { OnOk result
        (out.new.items ≡ out.old.items ++ words.order_words (spec.Told told)) }
{
    put_number(out, 0)?;
    put_truth(out, told)
}

fn put_order(
    alloc: Global,
    out: &mut Vec<Word>,
    constraints: &[Constraint],
    order: &ArgValue,
) -> Result<(), Memory>
    ensures { OnOk result (out.new.items ≡ out.old.items
        ++ words.order_words (spec.order_of constraints.now (Some order.now))) }
{
    match null_in(constraints, order) {
        Some(told) => put_told(out, told),
        None => {
            put_number(out, 1)?;
            put_arg(alloc, out, order)
        }
    }
}

/// Whether the order of a place holds a null, and else how it is written.
fn put_order_of(
    alloc: Global,
    out: &mut Vec<Word>,
    constraints: &[Constraint],
    place: &Place,
) -> Result<(), Memory>
    ensures { OnOk result (out.new.items ≡ out.old.items
        ++ words.order_words (spec.order_told constraints.now place.now)) }
{
    match written(place.args.as_slice(), ORDER_BY) {
        Some(order) => put_order(alloc, out, constraints, order),
        None => put_told(out, false),
    }
}

fn put_order_at(
    alloc: Global,
    out: &mut Vec<Word>,
    constraints: &[Constraint],
    tree: &Tree,
    field: Option<u32>,
) -> Result<(), Memory>
    ensures { OnOk result (out.new.items ≡ out.old.items
        ++ words.order_words (order_at constraints.now tree.now field)) }
{
    let Some(place) = field else {
        return put_told(out, false);
    };
    match at(tree.places.as_slice(), place as usize) {
        Some(found) => put_order_of(alloc, out, constraints, found),
        None => put_told(out, false),
    }
}

/// The order of the row field of a step.
pub(crate) fn put_order_for(
    alloc: Global,
    out: &mut Vec<Word>,
    constraints: &[Constraint],
    tree: &Tree,
    field: Option<u32>,
    step: &Step,
) -> Result<(), Memory>
    ensures { OnOk result (out.new.items ≡ out.old.items
        ++ words.order_words (sights.order_with constraints.now tree.now field step.now)) }
{
    match step {
        Step::Const(_) => put_told(out, false),
        Step::Var(_) => put_told(out, false),
        Step::Given => put_told(out, false),
        Step::Fetch(_) => put_order_at(alloc, out, constraints, tree, field),
        Step::Item(_) => put_told(out, false),
        Step::Column(_, _) => put_told(out, false),
        Step::Count(_) => put_told(out, false),
        Step::Page(_, _) => put_told(out, false),
        Step::CursorOf(_) => put_told(out, false),
    }
}
