//! The JSON of input values, appended.

ghost use Rattle.std.specs.Prelude.{◌≡◌, ◌++◌, ◌∷◌, [], false, OnOk};
ghost use Rattle.json_out.specs.JsonText.{json_int, json_key, json_text};
ghost use Rattle.explain_text.specs.Values as spec;

use crate::pieces::{put, put_before, put_truth};
use json_out::{put_int, put_key, put_text};
use pg_base::{Member, Memory, Text, Value};

fn put_quoted(out: &mut Vec<u8>, text: &Text) -> Result<(), Memory>
    ensures { OnOk result (out.new.items ≡ out.old.items ++ json_text text.now) }
{
    put_text(out, text.bytes())?;
    Ok(())
}

fn put_integer(out: &mut Vec<u8>, number: i64) -> Result<(), Memory>
    ensures { OnOk result (out.new.items ≡ out.old.items ++ json_int number) }
{
    put_int(out, number)?;
    Ok(())
}

fn put_name(out: &mut Vec<u8>, name: &Text) -> Result<(), Memory>
    ensures { OnOk result (out.new.items ≡ out.old.items ++ json_key name.now) }
{
    put_key(out, name.bytes())?;
    Ok(())
}

#[cycle(put)]
pub(crate) fn put_value(out: &mut Vec<u8>, value: &Value) -> Result<(), Memory>
    ensures { OnOk result (out.new.items ≡ out.old.items ++ spec.value_json value.now) }
{
    match value {
        Value::Null => put(out, b"null"),
        Value::Int(number) => put_integer(out, *number),
        Value::Bool(truth) => put_truth(out, *truth),
        Value::Text(text) => put_quoted(out, text),
        Value::Case(case) => put_quoted(out, case),
        Value::List(items) => put_list(out, items.as_slice()),
        Value::Object(members) => put_object(out, members.as_slice()),
    }
}

#[cycle(put)]
fn put_list(out: &mut Vec<u8>, items: &[Value]) -> Result<(), Memory>
    ensures { OnOk result (out.new.items ≡ out.old.items
        ++ 91 ∷ (spec.separated 44 spec.value_json false items.now ++ 93 ∷ [])) }
{
    put(out, b"[")?;
    put_items(out, items)?;
    put(out, b"]")?;
    Ok(())
}

#[cycle(put)]
fn put_items(out: &mut Vec<u8>, items: &[Value]) -> Result<(), Memory>
    ensures { OnOk result (out.new.items ≡ out.old.items
        ++ spec.separated 44 spec.value_json false items.now) }
{
    let mut due = false;
    for item in items {
        put_before(out, b',', due)?;
        put_value(out, item)?;
        due = true;
    }
    Ok(())
}

#[cycle(put)]
fn put_object(out: &mut Vec<u8>, members: &[Member]) -> Result<(), Memory>
    ensures { OnOk result (out.new.items ≡ out.old.items
        ++ 123 ∷ (spec.separated 44 spec.member_json false members.now ++ 125 ∷ [])) }
{
    put(out, b"{")?;
    put_members(out, members)?;
    put(out, b"}")?;
    Ok(())
}

#[cycle(put)]
fn put_members(out: &mut Vec<u8>, members: &[Member]) -> Result<(), Memory>
    ensures { OnOk result (out.new.items ≡ out.old.items
        ++ spec.separated 44 spec.member_json false members.now) }
{
    let mut due = false;
    for member in members {
        put_before(out, b',', due)?;
        put_member(out, member)?;
        due = true;
    }
    Ok(())
}

#[cycle(put)]
fn put_member(out: &mut Vec<u8>, member: &Member) -> Result<(), Memory>
    ensures { OnOk result (out.new.items ≡ out.old.items ++ spec.member_json member.now) }
{
    put_name(out, &member.name)?;
    put_value(out, &member.value)?;
    Ok(())
}
