//! A name's last part in the singular or the plural.

ghost use Rattle.std.specs.Prelude.{◌≡◌, IfOk};
ghost use Rattle.inflection.specs.Number.{name_of};

use crate::endings::ending_of;
use crate::last_part::last_part;
use std::alloc::{AllocError, Global};

/// Grammatical number.
#[derive(Clone, Copy)]
pub(crate) enum Number {
    Singular,
    Plural,
}

pub(crate) fn inflected(alloc: Global, name: &[u8], number: Number) -> Result<Vec<u8>, AllocError>
    ensures { IfOk result (λ bytes. bytes.items ≡ name_of number name.now) }
{
    let part = last_part(name);
    if part.start == part.end {
        return Vec::from_slice(alloc, name);
    }
    let word = name[part.start..part.end].to_ascii_lowercase(alloc)?;
    let ending = ending_of(word.as_slice(), number);
    let mut bytes = Vec::with_capacity(alloc, name.len() + ending.added.len())?;
    bytes.extend_from_slice(&name[..part.end - ending.cut])?;
    bytes.extend_from_slice(ending.added)?;
    bytes.extend_from_slice(&name[part.end..])?;
    Ok(bytes)
}
