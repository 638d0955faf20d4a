//! Names with their parts joined.

ghost use Rattle.std.specs.Prelude.{◌≡◌, ◌≢◌, ◌++◌, ◌<◌, length, slice_index, true, if◌then◌else◌, IfOk, OnOk};
ghost use Rattle.std.specs.Char.{to_ascii_uppercase};
ghost use Rattle.name_rules.specs.Joined.{joined, field_joined};

use std::alloc::{AllocError, Global};

pub(crate) fn type_bytes(alloc: Global, name: &[u8]) -> Result<Vec<u8>, AllocError>
    ensures { IfOk result (λ bytes. bytes.items ≡ joined true name.now) }
{
    let mut bytes = Vec::with_capacity(alloc, name.len())?;
    push_parts(&mut bytes, name, true)?;
    Ok(bytes)
}

pub(crate) fn field_bytes(alloc: Global, name: &[u8]) -> Result<Vec<u8>, AllocError>
    ensures { IfOk result (λ bytes. bytes.items ≡ field_joined name.now) }
{
    let mut bytes = Vec::with_capacity(alloc, name.len())?;
    if let Some((first, others)) = from_first_part(name).split_first() {
        bytes.push(first.to_ascii_lowercase())?;
        push_parts(&mut bytes, others, false)?;
    }
    Ok(bytes)
}

// Appends the parts of what is left of a name, where the next part begins, or has begun.
fn push_parts(bytes: &mut Vec<u8>, name: &[u8], mut begins: bool) -> Result<(), AllocError>
    ensures { OnOk result (bytes.new.items ≡ bytes.old.items ++ joined begins name.now) }
{
    for byte in name {
        if *byte == b'_' {
            begins = true;
        } else {
            bytes.push(part_byte(*byte, begins))?;
            begins = false;
        }
    }
    Ok(())
}

fn part_byte(byte: u8, begins: bool) -> u8
    ensures { result ≡ (if begins then to_ascii_uppercase byte else byte) }
{
    if begins {
        byte.to_ascii_uppercase()
    } else {
        byte
    }
}

// The name from its first part on.
fn from_first_part(name: &[u8]) -> &[u8]
    ensures same { field_joined result.now ≡ field_joined name.now }
    ensures part { 0 < length result.now → slice_index result.now 0 ≢ 95 }
{
    for (at, byte) in name.iter().enumerate() {
        if *byte != b'_' {
            return &name[at..];
        }
    }
    &[]
}
