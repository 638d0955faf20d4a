//! Cursors, written.

ghost use Rattle.std.specs.Prelude.{◌≡◌, ◌<◌, ◌^◌, ◌++◌, ◌∷◌, decimal, length, OnOk, IfOk};
ghost use Rattle.std.specs.Str.{IsUtf8};
ghost use Rattle.json_out.specs.JsonText.{json_text};
ghost use Rattle.pg_base.specs.Lists.{Each};
ghost use Rattle.cursor_text.specs.CursorText.{IsCursor, IsMarkValue, bool_json, cursor_json, later_json, list_json, value_json};
ghost use Rattle.cursor_text.specs.Marked as spec;

use base64::engine::general_purpose::STANDARD;
use json_out::{put_int, put_text};
use pg_base::{Cell, Mark, Memory, Text};
use std::alloc::Global;

fn put_name(out: &mut Vec<u8>, name: &Text) -> Result<(), Memory>
    ensures ok { OnOk result (out.new.items ≡ out.old.items ++ json_text name.now) }
    ensures utf8 { OnOk result (IsUtf8 name.now) }
{
    put_text(out, name.bytes())?;
    Ok(())
}

fn put_later_name(out: &mut Vec<u8>, name: &Text) -> Result<(), Memory>
    ensures ok { OnOk result (out.new.items ≡ out.old.items ++ 44 ∷ json_text name.now) }
    ensures utf8 { OnOk result (IsUtf8 name.now) }
{
    out.push(b',')?;
    put_name(out, name)?;
    Ok(())
}

fn put_later_names(out: &mut Vec<u8>, names: &[Text]) -> Result<(), Memory>
    ensures ok { OnOk result (out.new.items ≡ out.old.items ++ later_json json_text names.now) }
    ensures utf8 { OnOk result (Each IsUtf8 names.now) }
{
    for name in names {
        put_later_name(out, name)?;
    }
    out.push(b']')?;
    Ok(())
}

fn put_names(out: &mut Vec<u8>, names: &[Text]) -> Result<(), Memory>
    ensures ok { OnOk result (out.new.items ≡ out.old.items ++ list_json json_text names.now) }
    ensures utf8 { OnOk result (Each IsUtf8 names.now) }
{
    match names {
        [] => {
            out.extend_from_slice(b"[]")?;
            Ok(())
        }
        [first, others @ ..] => {
            out.push(b'[')?;
            put_name(out, first)?;
            put_later_names(out, others)?;
            Ok(())
        }
    }
}

fn put_bool(out: &mut Vec<u8>, truth: bool) -> Result<(), Memory>
    ensures { OnOk result (out.new.items ≡ out.old.items ++ bool_json truth) }
{
    if truth {
        out.extend_from_slice(b"true")
    } else {
        out.extend_from_slice(b"false")
    }
}

/// Appends the first label as a text, and gives the others.
fn put_label<'a>(out: &mut Vec<u8>, labels: &'a [Text]) -> Result<&'a [Text], Memory>
    ensures ok { OnOk result (out.new.items
        ≡ out.old.items ++ json_text (spec.first_label labels.now)) }
    ensures left { IfOk result (λ left. left.now ≡ spec.other_labels labels.now) }
    ensures utf8 { OnOk result (IsUtf8 (spec.first_label labels.now)) }
{
    match labels {
        [] => {
            put_text(out, b"")?;
            Ok(labels)
        }
        [first, others @ ..] => {
            put_name(out, first)?;
            Ok(others)
        }
    }
}

/// Appends a cell's value, and gives the labels that are left.
fn put_cell<'a>(out: &mut Vec<u8>, cell: &Cell, labels: &'a [Text]) -> Result<&'a [Text], Memory>
    ensures ok { OnOk result (out.new.items
        ≡ out.old.items ++ value_json (spec.value_of cell.now labels.now)) }
    ensures left { IfOk result (λ left. left.now ≡ spec.labels_after cell.now labels.now) }
    ensures valid { OnOk result (IsMarkValue (spec.value_of cell.now labels.now)) }
{
    match cell {
        Cell::Null => {
            out.extend_from_slice(b"null")?;
            Ok(labels)
        }
        Cell::Int(number) => {
            put_int(out, *number)?;
            Ok(labels)
        }
        Cell::Bool(truth) => {
            put_bool(out, *truth)?;
            Ok(labels)
        }
        Cell::Text(text) => {
            put_name(out, text)?;
            Ok(labels)
        }
        Cell::EnumCase(_) => {
            let left = put_label(out, labels)?;
            Ok(left)
        }
    }
}

fn put_later_cell<'a>(
    out: &mut Vec<u8>,
    cell: &Cell,
    labels: &'a [Text],
) -> Result<&'a [Text], Memory>
    ensures ok { OnOk result (out.new.items
        ≡ out.old.items ++ 44 ∷ value_json (spec.value_of cell.now labels.now)) }
    ensures left { IfOk result (λ left. left.now ≡ spec.labels_after cell.now labels.now) }
    ensures valid { OnOk result (IsMarkValue (spec.value_of cell.now labels.now)) }
{
    out.push(b',')?;
    let left = put_cell(out, cell, labels)?;
    Ok(left)
}

/// Appends the values after the first, and what closes the list.
fn put_later_cells(out: &mut Vec<u8>, cells: &[Cell], labels: &[Text]) -> Result<(), Memory>
    ensures ok { OnOk result (out.new.items
        ≡ out.old.items ++ later_json value_json (spec.values_of cells.now labels.now)) }
    ensures valid { OnOk result (Each IsMarkValue (spec.values_of cells.now labels.now)) }
{
    let mut left = labels;
    for cell in cells {
        left = put_later_cell(out, cell, left)?;
    }
    out.push(b']')?;
    Ok(())
}

fn put_cells(out: &mut Vec<u8>, cells: &[Cell], labels: &[Text]) -> Result<(), Memory>
    ensures ok { OnOk result (out.new.items
        ≡ out.old.items ++ list_json value_json (spec.values_of cells.now labels.now)) }
    ensures valid { OnOk result (Each IsMarkValue (spec.values_of cells.now labels.now)) }
{
    match cells {
        [] => {
            out.extend_from_slice(b"[]")?;
            Ok(())
        }
        [first, others @ ..] => {
            out.push(b'[')?;
            let left = put_cell(out, first, labels)?;
            put_later_cells(out, others, left)?;
            Ok(())
        }
    }
}

fn put_number(out: &mut Vec<u8>, number: u64) -> Result<(), Memory>
    ensures ok { OnOk result (out.new.items ≡ out.old.items ++ decimal number) }
    ensures small { OnOk result (number < 2 ^ 64) }
{
    let mut digits = itoa::Buffer::new();
    out.extend_from_slice(digits.format(number).as_bytes())?;
    Ok(())
}

/// Appends `[ORDER,VALUES,NUMBER]`.
fn put_cursor(out: &mut Vec<u8>, order: &[Text], mark: &Mark, labels: &[Text]) -> Result<(), Memory>
    ensures ok { OnOk result (out.new.items
        ≡ out.old.items ++ cursor_json (spec.cursor_of order.now mark.now labels.now)) }
    ensures order { OnOk result (Each IsUtf8 order.now) }
    ensures values { OnOk result (Each IsMarkValue
        (spec.values_of mark.now.values labels.now)) }
    ensures number { OnOk result (mark.now.number < 2 ^ 64) }
{
    out.push(b'[')?;
    put_names(out, order)?;
    out.push(b',')?;
    put_cells(out, mark.values.as_slice(), labels)?;
    out.push(b',')?;
    put_number(out, mark.number)?;
    out.push(b']')?;
    Ok(())
}

/// The text of a row's cursor: the names of an order's cases, the row's mark in it, and the labels of the mark's enum
/// cases in their order.
pub fn write_cursor(
    alloc: Global,
    order: &[Text],
    mark: &Mark,
    labels: &[Text],
) -> Result<Text, Memory>
    requires values { length mark.now.values ≡ length order.now }
    requires labels { length labels.now ≡ spec.case_count mark.now.values }
    requires number { 0 < mark.now.number }
    ensures { IfOk result (λ text. IsCursor text
        (spec.cursor_of order.now mark.now labels.now)) }
{
    let mut json = Vec::new(alloc);
    put_cursor(&mut json, order, mark, labels)?;
    let text = STANDARD.encode(alloc, json.as_slice())?;
    Ok(Text::of_bytes(text.into_bytes()))
}
