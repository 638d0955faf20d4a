//! Words, and the lists of them that tell paths of row fields apart.

ghost use Rattle.std.specs.Prelude.{◌≡◌, ◌∷◌, ◌++◌, [], IfOk, OnOk};
ghost use Rattle.needed_count.specs.declared.words.Word.TheVariants as word;
ghost use Rattle.needed_count.specs.ArgWords as args;
ghost use Rattle.needed_count.specs.PathWords as spec;

use gql_input::{ArgMember, ArgValue};
use pg_base::{Memory, Sequence, Text};
use place_tree::{Place, PlaceArg};
use std::alloc::Global;

/// A word of a key.
#[derive(Drop, PartialEq, Eq, Hash)]
pub(crate) enum Word {
    Number(usize),
    Whole(i64),
    Letters(Text),
}

fn put_number(out: &mut Vec<Word>, number: usize) -> Result<(), Memory>
    ensures { OnOk result (out.new.items ≡ out.old.items ++ word.Number number ∷ []) }
{
    out.push(Word::Number(number))?;
    Ok(())
}

fn put_whole(out: &mut Vec<Word>, whole: i64) -> Result<(), Memory>
    ensures { OnOk result (out.new.items ≡ out.old.items ++ word.Whole whole ∷ []) }
{
    out.push(Word::Whole(whole))?;
    Ok(())
}

fn put_truth(out: &mut Vec<Word>, truth: bool) -> Result<(), Memory>
    ensures { OnOk result (out.new.items ≡ out.old.items ++ args.truth truth ∷ []) }
{
    if truth {
        return put_number(out, 1);
    }
    put_number(out, 0)
}

fn put_letters(alloc: Global, out: &mut Vec<Word>, letters: &Text) -> Result<(), Memory>
    ensures { OnOk result (out.new.items ≡ out.old.items ++ word.Letters letters.now ∷ []) }
{
    let copy = letters.copy(alloc)?;
    out.push(Word::Letters(copy))?;
    Ok(())
}

// ---- arguments

#[cycle(arguments)]
fn put_arg(alloc: Global, out: &mut Vec<Word>, arg: &ArgValue) -> Result<(), Memory>
    ensures { OnOk result (out.new.items ≡ out.old.items ++ args.arg_words arg.now) }
{
    match arg {
        ArgValue::Null => put_number(out, 0),
        ArgValue::Int(number) => {
            put_number(out, 1)?;
            put_whole(out, *number)
        }
        ArgValue::Bool(truth) => {
            put_number(out, 2)?;
            put_truth(out, *truth)
        }
        ArgValue::Text(text) => {
            put_number(out, 3)?;
            put_letters(alloc, out, text)
        }
        ArgValue::Case(name) => {
            put_number(out, 4)?;
            put_letters(alloc, out, name)
        }
        ArgValue::List(items) => {
            put_number(out, 5)?;
            put_args(alloc, out, items.as_slice())?;
            Ok(())
        }
        ArgValue::Object(members) => {
            put_number(out, 6)?;
            put_fields(alloc, out, members.as_slice())?;
            Ok(())
        }
        ArgValue::Variable(name) => {
            put_number(out, 7)?;
            put_letters(alloc, out, name)
        }
    }
}

#[cycle(arguments)]
fn put_args(alloc: Global, out: &mut Vec<Word>, items: &[ArgValue]) -> Result<(), Memory>
    ensures { OnOk result (out.new.items ≡ out.old.items ++ args.each_arg items.now) }
{
    for item in items {
        put_number(out, 1)?;
        put_arg(alloc, out, item)?;
    }
    put_number(out, 0)
}

#[cycle(arguments)]
fn put_fields(alloc: Global, out: &mut Vec<Word>, members: &[ArgMember]) -> Result<(), Memory>
    ensures { OnOk result (out.new.items ≡ out.old.items ++ args.each_field members.now) }
{
    for member in members {
        put_number(out, 1)?;
        put_letters(alloc, out, &member.name)?;
        put_arg(alloc, out, &member.value)?;
    }
    put_number(out, 0)
}

// ---- paths

fn put_written(alloc: Global, out: &mut Vec<Word>, written: &[PlaceArg]) -> Result<(), Memory>
    ensures { OnOk result (out.new.items ≡ out.old.items ++ spec.written_words written.now) }
{
    for arg in written {
        put_number(out, 1)?;
        put_number(out, arg.arg as usize)?;
        put_arg(alloc, out, &arg.value)?;
    }
    put_number(out, 0)
}

fn put_above(out: &mut Vec<Word>, above: Option<usize>) -> Result<(), Memory>
    ensures { OnOk result (out.new.items ≡ out.old.items ++ spec.above_words above) }
{
    let Some(number) = above else {
        return put_number(out, 0);
    };
    put_number(out, 1)?;
    put_number(out, number)
}

fn put_row(alloc: Global, out: &mut Vec<Word>, place: &Place) -> Result<(), Memory>
    ensures { OnOk result (out.new.items ≡ out.old.items
        ++ spec.row_words (spec.row_of place.now)) }
{
    put_number(out, place.ty as usize)?;
    put_number(out, place.field as usize)?;
    put_written(alloc, out, place.args.as_slice())
}

/// The words of the path that goes on to a place from the path with this number.
pub(crate) fn path_words(
    alloc: Global,
    above: Option<usize>,
    place: &Place,
) -> Result<Sequence<Word>, Memory>
    ensures { IfOk result (λ key. key ≡ spec.path_words above (spec.row_of place.now)) }
{
    let mut out = Vec::new(alloc);
    put_above(&mut out, above)?;
    put_row(alloc, &mut out, place)?;
    Ok(Sequence::of(out))
}
