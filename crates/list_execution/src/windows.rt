//! The part of a connection's rows that its arguments ask for, and the first error in them.

ghost use Rattle.std.specs.Prelude.{◌≡◌, ◌&&◌, IfOk, option_map};
ghost use Rattle.place_tree.specs.Arguments as spec;

use crate::arguments::{
    AFTER, BEFORE, FIRST, LAST, OFFSET, argument, is_given, is_negative, number_of, text_of,
};
use crate::marks::{mark_in, mark_of_cursor};
use cursor_text::{Cursor, read_cursor};
use pg_base::{Catalog, ColumnDef, Mark, Memory, Text, Value, Vars};
use place_tree::Place;
use rel_model::{By, Window};
use std::alloc::Global;

fn number_given(alloc: Global, vars: &Vars, place: &Place, arg: u32) -> Result<Option<u64>, Memory>
    ensures { IfOk result (λ n. n ≡ spec.number_of (spec.argument vars.now place.now arg)) }
{
    let given = argument(alloc, vars, place, arg)?;
    Ok(number_of(&given))
}

/// The mark that the cursor in an argument names.
fn mark_given(
    alloc: Global,
    catalog: &Catalog,
    columns: &[ColumnDef],
    order: &[By],
    given: &Option<Value>,
) -> Result<Option<Mark>, Memory>
    ensures { IfOk result (λ mark. mark ≡
        spec.mark_given catalog.now columns.now order.now given.now) }
{
    let mark = mark_in(alloc, catalog, columns, order, text_of(given))?;
    Ok(mark)
}

/// The window of a connection's arguments.
pub(crate) fn window_of(
    alloc: Global,
    catalog: &Catalog,
    columns: &[ColumnDef],
    order: &[By],
    vars: &Vars,
    place: &Place,
) -> Result<Window, Memory>
    ensures { IfOk result (λ window. window ≡
        spec.window_of catalog.now columns.now order.now vars.now place.now) }
{
    let first = number_given(alloc, vars, place, FIRST)?;
    let last = number_given(alloc, vars, place, LAST)?;
    let offset = number_given(alloc, vars, place, OFFSET)?;
    let before = argument(alloc, vars, place, BEFORE)?;
    let before = mark_given(alloc, catalog, columns, order, &before)?;
    let after = argument(alloc, vars, place, AFTER)?;
    let after = mark_given(alloc, catalog, columns, order, &after)?;
    Ok(Window {
        first,
        last,
        offset: offset.unwrap_or(0),
        before,
        after,
    })
}

// ---- errors

/// Says why the number of rows that is asked for is none, by what is given for it.
fn count_error(
    first: &Option<Value>,
    last: &Option<Value>,
    offset: &Option<Value>,
) -> Option<&'static str>
    ensures { option_map (λ t. t.now) result
        ≡ spec.count_error first.now last.now offset.now }
{
    if is_negative(first) {
        return Some("first is negative");
    }
    if is_negative(last) {
        return Some("last is negative");
    }
    if is_negative(offset) {
        return Some("offset is negative");
    }
    if are_given(first, last) {
        return Some("first with last");
    }
    if are_given(offset, last) {
        return Some("offset with last");
    }
    None
}

fn are_given(one: &Option<Value>, other: &Option<Value>) -> bool
    ensures { result ≡ (spec.is_given one.now && spec.is_given other.now) }
{
    is_given(one) && is_given(other)
}

fn same_names(xs: &[Text], ys: &[Text]) -> bool
    ensures { result ≡ spec.same_names xs.now ys.now }
{
    xs == ys
}

fn mark_error(mark: &Option<Mark>) -> Option<&'static str>
    ensures { option_map (λ t. t.now) result ≡ spec.mark_error mark.now }
{
    match mark {
        None => Some("bad cursor"),
        Some(_) => None,
    }
}

/// The error of a cursor that was read.
fn read_error(
    alloc: Global,
    catalog: &Catalog,
    columns: &[ColumnDef],
    names: &[Text],
    order: &[By],
    cursor: &Option<Cursor>,
) -> Result<Option<&'static str>, Memory>
    ensures { IfOk result (λ error. option_map (λ t. t.now) error
        ≡ spec.read_error catalog.now columns.now names.now order.now cursor.now) }
{
    match cursor {
        None => Ok(Some("bad cursor")),
        Some(cursor) => {
            if !same_names(cursor.order.as_slice(), names) {
                return Ok(Some("cursor of another order"));
            }
            let mark = mark_of_cursor(alloc, catalog, columns, order, cursor)?;
            Ok(mark_error(&mark))
        }
    }
}

/// The error of the cursor in an argument.
fn cursor_error(
    alloc: Global,
    catalog: &Catalog,
    columns: &[ColumnDef],
    names: &[Text],
    order: &[By],
    text: Option<&Text>,
) -> Result<Option<&'static str>, Memory>
    ensures { IfOk result (λ error. option_map (λ t. t.now) error
        ≡ spec.cursor_error catalog.now columns.now names.now order.now
        (option_map (λ t. t.now) text.entry)) }
{
    match text {
        None => Ok(None),
        Some(text) => {
            let cursor = read_cursor(alloc, text.bytes())?;
            let error = read_error(alloc, catalog, columns, names, order, &cursor)?;
            Ok(error)
        }
    }
}

fn given_error(
    alloc: Global,
    catalog: &Catalog,
    columns: &[ColumnDef],
    names: &[Text],
    order: &[By],
    vars: &Vars,
    place: &Place,
    arg: u32,
) -> Result<Option<&'static str>, Memory>
    ensures { IfOk result (λ error. option_map (λ t. t.now) error
        ≡ spec.cursor_error catalog.now columns.now names.now order.now
        (spec.text_of (spec.argument vars.now place.now arg))) }
{
    let given = argument(alloc, vars, place, arg)?;
    let error = cursor_error(alloc, catalog, columns, names, order, text_of(&given))?;
    Ok(error)
}

fn counts_error(alloc: Global, vars: &Vars, place: &Place) -> Result<Option<&'static str>, Memory>
    ensures { IfOk result (λ error. option_map (λ t. t.now) error
        ≡ spec.count_error (spec.argument vars.now place.now spec.first)
        (spec.argument vars.now place.now spec.last)
        (spec.argument vars.now place.now spec.offset)) }
{
    let first = argument(alloc, vars, place, FIRST)?;
    let last = argument(alloc, vars, place, LAST)?;
    let offset = argument(alloc, vars, place, OFFSET)?;
    Ok(count_error(&first, &last, &offset))
}

/// The first error of a window's arguments.
pub(crate) fn window_error(
    alloc: Global,
    catalog: &Catalog,
    columns: &[ColumnDef],
    names: &[Text],
    order: &[By],
    vars: &Vars,
    place: &Place,
) -> Result<Option<&'static str>, Memory>
    ensures { IfOk result (λ error. option_map (λ t. t.now) error
        ≡ spec.window_error catalog.now columns.now names.now order.now vars.now place.now) }
{
    if let Some(error) = counts_error(alloc, vars, place)? {
        return Ok(Some(error));
    }
    if let Some(error) = given_error(alloc, catalog, columns, names, order, vars, place, AFTER)? {
        return Ok(Some(error));
    }
    let error = given_error(alloc, catalog, columns, names, order, vars, place, BEFORE)?;
    Ok(error)
}
