//! Words, and lists of them that tell values and arguments apart.

ghost use Rattle.std.specs.Prelude.{◌≡◌, ◌∷◌, ◌++◌, [], OnOk};
ghost use Rattle.dedupe_steps.specs.declared.words.Word.TheVariants as word;
ghost use Rattle.dedupe_steps.specs.ArgWords as args;
ghost use Rattle.dedupe_steps.specs.Words as spec;

use gql_input::{ArgMember, ArgValue};
use pg_base::{Member, Memory, Text, Value};
use std::alloc::Global;

/// A word of a key.
#[derive(Drop, PartialEq, Eq, Hash)]
pub enum Word {
    Number(u32),
    Whole(i64),
    Letters(Text),
}

pub(crate) fn put_number(out: &mut Vec<Word>, number: u32) -> Result<(), Memory>
    ensures { OnOk result (out.new.items ≡ out.old.items ++ word.Number number ∷ []) }
{
    out.push(Word::Number(number))?;
    Ok(())
}

pub(crate) fn put_whole(out: &mut Vec<Word>, whole: i64) -> Result<(), Memory>
    ensures { OnOk result (out.new.items ≡ out.old.items ++ word.Whole whole ∷ []) }
{
    out.push(Word::Whole(whole))?;
    Ok(())
}

pub(crate) fn put_truth(out: &mut Vec<Word>, truth: bool) -> Result<(), Memory>
    ensures { OnOk result (out.new.items ≡ out.old.items ++ args.truth truth ∷ []) }
{
    if truth {
        return put_number(out, 1);
    }
    put_number(out, 0)
}

pub(crate) fn put_letters(alloc: Global, out: &mut Vec<Word>, letters: &Text) -> Result<(), Memory>
    ensures { OnOk result (out.new.items ≡ out.old.items ++ word.Letters letters.now ∷ []) }
{
    let copy = letters.copy(alloc)?;
    out.push(Word::Letters(copy))?;
    Ok(())
}

// ---- values

#[cycle(values)]
pub(crate) fn put_value(alloc: Global, out: &mut Vec<Word>, value: &Value) -> Result<(), Memory>
    ensures { OnOk result (out.new.items ≡ out.old.items ++ spec.value_words value.now) }
{
    match value {
        Value::Null => put_number(out, 0),
        Value::Int(number) => {
            put_number(out, 1)?;
            put_whole(out, *number)
        }
        Value::Bool(truth) => {
            put_number(out, 2)?;
            put_truth(out, *truth)
        }
        Value::Text(text) => {
            put_number(out, 3)?;
            put_letters(alloc, out, text)
        }
        Value::Case(name) => {
            put_number(out, 4)?;
            put_letters(alloc, out, name)
        }
        Value::List(items) => {
            put_number(out, 5)?;
            put_values(alloc, out, items.as_slice())?;
            Ok(())
        }
        Value::Object(members) => {
            put_number(out, 6)?;
            put_members(alloc, out, members.as_slice())?;
            Ok(())
        }
    }
}

#[cycle(values)]
fn put_values(alloc: Global, out: &mut Vec<Word>, items: &[Value]) -> Result<(), Memory>
    ensures { OnOk result (out.new.items ≡ out.old.items ++ spec.each_value items.now) }
{
    for item in items {
        put_number(out, 1)?;
        put_value(alloc, out, item)?;
    }
    put_number(out, 0)
}

#[cycle(values)]
fn put_members(alloc: Global, out: &mut Vec<Word>, members: &[Member]) -> Result<(), Memory>
    ensures { OnOk result (out.new.items ≡ out.old.items ++ spec.each_member members.now) }
{
    for member in members {
        put_number(out, 1)?;
        put_letters(alloc, out, &member.name)?;
        put_value(alloc, out, &member.value)?;
    }
    put_number(out, 0)
}

// ---- arguments

#[cycle(arguments)]
pub(crate) fn put_arg(alloc: Global, out: &mut Vec<Word>, arg: &ArgValue) -> Result<(), Memory>
    ensures { OnOk result (out.new.items ≡ out.old.items ++ args.arg_words arg.now) }
{
    match arg {
        ArgValue::Null => put_number(out, 0),
        ArgValue::Int(number) => {
            put_number(out, 1)?;
            put_whole(out, *number)
        }
        ArgValue::Bool(truth) => {
            put_number(out, 2)?;
            put_truth(out, *truth)
        }
        ArgValue::Text(text) => {
            put_number(out, 3)?;
            put_letters(alloc, out, text)
        }
        ArgValue::Case(name) => {
            put_number(out, 4)?;
            put_letters(alloc, out, name)
        }
        ArgValue::List(items) => {
            put_number(out, 5)?;
            put_args(alloc, out, items.as_slice())?;
            Ok(())
        }
        ArgValue::Object(members) => {
            put_number(out, 6)?;
            put_fields(alloc, out, members.as_slice())?;
            Ok(())
        }
        ArgValue::Variable(name) => {
            put_number(out, 7)?;
            put_letters(alloc, out, name)
        }
    }
}

#[cycle(arguments)]
fn put_args(alloc: Global, out: &mut Vec<Word>, items: &[ArgValue]) -> Result<(), Memory>
    ensures { OnOk result (out.new.items ≡ out.old.items ++ args.each_arg items.now) }
{
    for item in items {
        put_number(out, 1)?;
        put_arg(alloc, out, item)?;
    }
    put_number(out, 0)
}

#[cycle(arguments)]
fn put_fields(alloc: Global, out: &mut Vec<Word>, members: &[ArgMember]) -> Result<(), Memory>
    ensures { OnOk result (out.new.items ≡ out.old.items ++ args.each_field members.now) }
{
    for member in members {
        put_number(out, 1)?;
        put_letters(alloc, out, &member.name)?;
        put_arg(alloc, out, &member.value)?;
    }
    put_number(out, 0)
}
