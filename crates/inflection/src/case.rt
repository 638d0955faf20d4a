//! Cases of enums.

ghost use Rattle.std.specs.Prelude.{◌≡◌, ◌++◌, ◌∷◌, [], IfOk, OnOk, map};
ghost use Rattle.std.specs.Char.{to_ascii_uppercase};
ghost use Rattle.std.specs.Str.{chars};
ghost use Rattle.name_rules.specs.Names.{enum_case_of, name_character, separated, separated_after, begun, breaks};

use std::alloc::{AllocError, Global};

#[tactic(auto, unfolding(name_rules::specs::Names::enum_case_of))]
pub(crate) fn case_bytes(alloc: Global, label: &str) -> Result<Vec<u8>, AllocError>
    ensures { IfOk result (λ bytes. bytes.items ≡ enum_case_of label.now) }
{
    begun(separated(alloc, label)?)
}

// The label's characters in upper case, with `_` between words.
fn separated(alloc: Global, label: &str) -> Result<Vec<u8>, AllocError>
    ensures { IfOk result (λ bytes.
        bytes.items ≡ map to_ascii_uppercase (separated (map name_character (chars label.now)))) }
{
    let mut bytes = Vec::with_capacity(alloc, label.len())?;
    let mut before = b'_';
    for character in label.chars() {
        let next = name_byte(character);
        push_separated(&mut bytes, before, next)?;
        before = next;
    }
    Ok(bytes)
}

fn push_separated(bytes: &mut Vec<u8>, before: u8, next: u8) -> Result<(), AllocError>
    ensures { OnOk result (bytes.new.items
        ≡ bytes.old.items ++ map to_ascii_uppercase (separated_after before (next ∷ []))) }
{
    if breaks(before, next) {
        bytes.push(b'_')?;
    }
    bytes.push(next.to_ascii_uppercase())?;
    Ok(())
}

fn name_byte(character: char) -> u8
    ensures { result ≡ name_character character }
{
    if character.is_ascii_alphanumeric() {
        character as u8
    } else {
        b'_'
    }
}

fn breaks(before: u8, next: u8) -> bool
    ensures { result ≡ breaks before next }
{
    (before.is_ascii_lowercase() || before.is_ascii_digit()) && next.is_ascii_uppercase()
}

fn begun(mut bytes: Vec<u8>) -> Result<Vec<u8>, AllocError>
    ensures { IfOk result (λ begun_bytes. begun_bytes.items ≡ begun bytes.items) }
{
    match bytes.first() {
        None => bytes.extend_from_slice(b"_EMPTY_")?,
        Some(first) => {
            if first.is_ascii_digit() {
                bytes.insert(0, b'_')?;
            }
        }
    }
    Ok(bytes)
}
