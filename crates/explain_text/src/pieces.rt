//! Pieces of a text, appended.

ghost use Rattle.std.specs.Prelude.{◌≡◌, ◌++◌, OnOk, decimal};
ghost use Rattle.explain_text.specs.Explained as spec;
ghost use Rattle.explain_text.specs.Values.{before, truth_text};

use pg_base::Memory;

pub(crate) fn put(out: &mut Vec<u8>, bytes: &[u8]) -> Result<(), Memory>
    ensures { OnOk result (out.new.items ≡ out.old.items ++ bytes.now) }
{
    out.extend_from_slice(bytes)?;
    Ok(())
}

/// Appends a sign, where it is due.
pub(crate) fn put_before(out: &mut Vec<u8>, sign: u8, due: bool) -> Result<(), Memory>
    ensures { OnOk result (out.new.items ≡ out.old.items ++ before sign due) }
{
    if due {
        out.push(sign)?;
    }
    Ok(())
}

pub(crate) fn put_truth(out: &mut Vec<u8>, truth: bool) -> Result<(), Memory>
    ensures { OnOk result (out.new.items ≡ out.old.items ++ truth_text truth) }
{
    match truth {
        true => out.extend_from_slice(b"true")?,
        false => out.extend_from_slice(b"false")?,
    }
    Ok(())
}

pub(crate) fn put_number(out: &mut Vec<u8>, number: u64) -> Result<(), Memory>
    ensures { OnOk result (out.new.items ≡ out.old.items ++ decimal number) }
{
    let mut digits = itoa::Buffer::new();
    out.extend_from_slice(digits.format(number).as_bytes())?;
    Ok(())
}

/// Appends words and a number, as a line.
pub(crate) fn put_number_line(out: &mut Vec<u8>, words: &[u8], number: u64) -> Result<(), Memory>
    ensures { OnOk result (out.new.items ≡ out.old.items
        ++ spec.number_line words.now number) }
{
    put(out, words)?;
    put_number(out, number)?;
    put(out, b"\n")?;
    Ok(())
}
