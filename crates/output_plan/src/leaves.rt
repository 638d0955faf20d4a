//! The text of leaves, appended.

ghost use Rattle.std.specs.Prelude.{◌≡◌, ◌++◌, [], OnOk, option_map, unwrap_or};
ghost use Rattle.json_out.specs.JsonText.{json_int, json_text};
ghost use Rattle.place_tree.specs.declared.answer.Leaf.TheVariants as leaf_is;
ghost use Rattle.place_tree.specs.Exec as exec;
ghost use Rattle.place_tree.specs.Response.{leaf_text};
ghost use Rattle.plan_steps.specs.Denoted.{input_leaf};

use json_out::{put_int, put_text};
use list_execution::cases_at;
use pg_base::schema::INT;
use pg_base::{Cell, Memory, Schema, Text, TypeRef, Value};
use place_tree::Leaf;
use sqlite_items::at;

pub(crate) fn put_null(out: &mut Vec<u8>) -> Result<(), Memory>
    ensures { OnOk result (out.new.items ≡ out.old.items ++ leaf_text leaf_is.Null) }
{
    out.extend_from_slice(b"null")?;
    Ok(())
}

pub(crate) fn put_truth(out: &mut Vec<u8>, truth: bool) -> Result<(), Memory>
    ensures { OnOk result (out.new.items ≡ out.old.items ++ leaf_text (leaf_is.Truth truth)) }
{
    match truth {
        true => out.extend_from_slice(b"true")?,
        false => out.extend_from_slice(b"false")?,
    }
    Ok(())
}

fn put_number(out: &mut Vec<u8>, number: i64) -> Result<(), Memory>
    ensures { OnOk result (out.new.items ≡ out.old.items ++ leaf_text (leaf_is.Int number)) }
{
    put_int(out, number)?;
    Ok(())
}

/// Appends a number as a text.
fn put_digits(out: &mut Vec<u8>, number: i64) -> Result<(), Memory>
    ensures { OnOk result (out.new.items ≡ out.old.items ++ json_text (json_int number)) }
{
    let mut digits = itoa::Buffer::new();
    put_text(out, digits.format(number).as_bytes())?;
    Ok(())
}

fn put_text_leaf(out: &mut Vec<u8>, text: &Text) -> Result<(), Memory>
    ensures { OnOk result (out.new.items ≡ out.old.items ++ leaf_text (leaf_is.Text text.now)) }
{
    put_text(out, text.bytes())?;
    Ok(())
}

/// Appends an integer from 0 on, or null where it has more than 63 bits.
pub(crate) fn put_count(out: &mut Vec<u8>, count: u64) -> Result<(), Memory>
    ensures { OnOk result (out.new.items ≡ out.old.items ++ leaf_text (exec.number_leaf count)) }
{
    if count < 9_223_372_036_854_775_808 {
        put_number(out, count as i64)?;
    } else {
        put_null(out)?;
    }
    Ok(())
}

fn put_int_cell(out: &mut Vec<u8>, ty: TypeRef, number: i64) -> Result<(), Memory>
    ensures { OnOk result (out.new.items ≡ out.old.items ++ leaf_text (exec.int_leaf ty number)) }
{
    if ty.name == INT {
        put_number(out, number)?;
    } else {
        put_digits(out, number)?;
    }
    Ok(())
}

fn put_case(out: &mut Vec<u8>, case: Option<&Text>) -> Result<(), Memory>
    ensures { OnOk result (out.new.items ≡ out.old.items
        ++ json_text (unwrap_or (option_map (λ t. t.now) case.entry) [])) }
{
    match case {
        None => out.extend_from_slice(b"\"\"")?,
        Some(case) => put_text(out, case.bytes())?,
    }
    Ok(())
}

/// Appends what a cell shows at a field of a type.
pub(crate) fn put_cell(
    out: &mut Vec<u8>,
    schema: &Schema,
    ty: TypeRef,
    cell: &Cell,
) -> Result<(), Memory>
    ensures { OnOk result (out.new.items ≡ out.old.items
        ++ leaf_text (exec.leaf_of schema.now ty cell.now)) }
{
    match cell {
        Cell::Null => put_null(out)?,
        Cell::Int(number) => put_int_cell(out, ty, *number)?,
        Cell::Bool(truth) => put_truth(out, *truth)?,
        Cell::Text(text) => put_text_leaf(out, text)?,
        Cell::EnumCase(case) => put_case(out, at(cases_at(schema, ty.name), *case as usize))?,
    }
    Ok(())
}

/// Appends what an input value shows.
pub(crate) fn put_input(out: &mut Vec<u8>, value: &Value) -> Result<(), Memory>
    ensures { OnOk result (out.new.items ≡ out.old.items ++ leaf_text (input_leaf value.now)) }
{
    match value {
        Value::Null => put_null(out)?,
        Value::Int(number) => put_number(out, *number)?,
        Value::Bool(truth) => put_truth(out, *truth)?,
        Value::Text(text) => put_text_leaf(out, text)?,
        Value::Case(_) => put_null(out)?,
        Value::List(_) => put_null(out)?,
        Value::Object(_) => put_null(out)?,
    }
    Ok(())
}

/// Appends a leaf.
pub(crate) fn put_leaf(out: &mut Vec<u8>, leaf: &Leaf) -> Result<(), Memory>
    ensures { OnOk result (out.new.items ≡ out.old.items ++ leaf_text leaf.now) }
{
    match leaf {
        Leaf::Null => put_null(out)?,
        Leaf::Int(number) => put_number(out, *number)?,
        Leaf::Truth(truth) => put_truth(out, *truth)?,
        Leaf::Text(text) => put_text_leaf(out, text)?,
    }
    Ok(())
}
