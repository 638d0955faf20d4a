//! The line that tells why a catalog has no schema.

ghost use Rattle.std.specs.Prelude.{◌≡◌, ◌++◌, OnOk};
ghost use Rattle.schema_build.specs.FaultLine as told;

use pg_base::{BuildFault, Memory, Text};

/// Appends the line of a fault, without a line feed: its number, and the name that it is about, where it is about one.
/// The name of a field, an argument, an input field or a case that meets another stands after its type's. Out of memory
/// has no line.
pub fn put_fault_line(out: &mut Vec<u8>, fault: &BuildFault) -> Result<(), Memory>
    ensures line { OnOk result (out.new.items ≡ out.old.items ++ told.fault_line fault.now) }
{
    match fault {
        BuildFault::NamesMeet {
            owner,
            name,
            earlier: _,
            later: _,
        } => {
            put_owned(out, b"schema fault 1: ", owner, name)?;
            Ok(())
        }
        BuildFault::NotAName(name) => {
            put_named(out, b"schema fault 2: ", name)?;
            Ok(())
        }
        BuildFault::TooManyFields => {
            out.extend_from_slice(b"schema fault 3")?;
            Ok(())
        }
        BuildFault::NoFields(name) => {
            put_named(out, b"schema fault 4: ", name)?;
            Ok(())
        }
        BuildFault::Memory => Ok(()),
    }
}

fn put_named(out: &mut Vec<u8>, words: &[u8], name: &Text) -> Result<(), Memory>
    ensures { OnOk result (out.new.items ≡ out.old.items ++ (words.now ++ name.now)) }
{
    out.extend_from_slice(words)?;
    out.extend_from_slice(name.bytes())?;
    Ok(())
}

fn put_owned(
    out: &mut Vec<u8>,
    words: &[u8],
    owner: &Option<Text>,
    name: &Text,
) -> Result<(), Memory>
    ensures { OnOk result (out.new.items
        ≡ out.old.items ++ (words.now ++ told.owned_name owner.now name.now)) }
{
    match owner {
        None => {
            put_named(out, words, name)?;
            Ok(())
        }
        Some(owner) => {
            put_named(out, words, owner)?;
            put_named(out, b".", name)?;
            Ok(())
        }
    }
}
