//! The names of types, fields and enum cases, and the singular and plural of names.
//!
//! A name's parts are what stands between runs of `_`. Only ASCII letters change, and words are
//! compared without regard to case.
#![tactic(auto)]

ghost use Rattle.std.specs.Prelude.{◌≡◌, IfOk};
ghost use Rattle.name_rules.specs.Inflection.{singular_of, plural_of};
ghost use Rattle.name_rules.specs.Names.{type_name_of, field_name_of, enum_case_of};

mod case;
mod endings;
mod joined;
mod last_part;
mod number;

use number::Number;
use pg_base::{Memory, Text};
use std::alloc::Global;

/// The name with its last part in the singular.
pub fn singular(alloc: Global, word: &str) -> Result<Text, Memory>
    ensures { IfOk result (λ text. text ≡ singular_of word.now) }
{
    let bytes = number::inflected(alloc, word.as_bytes(), Number::Singular)?;
    Ok(Text::of_bytes(bytes))
}

/// The name with its last part in the plural. It takes each last part for a singular.
pub fn plural(alloc: Global, word: &str) -> Result<Text, Memory>
    ensures { IfOk result (λ text. text ≡ plural_of word.now) }
{
    let bytes = number::inflected(alloc, word.as_bytes(), Number::Plural)?;
    Ok(Text::of_bytes(bytes))
}

/// The name of a type: the parts, each with an upper-case letter first, joined.
pub fn type_name(alloc: Global, name: &str) -> Result<Text, Memory>
    ensures { IfOk result (λ text. text ≡ type_name_of name.now) }
{
    let bytes = joined::type_bytes(alloc, name.as_bytes())?;
    Ok(Text::of_bytes(bytes))
}

/// The name of a field: the parts joined, the first with a lower-case letter first, and each other
/// with an upper-case one.
pub fn field_name(alloc: Global, name: &str) -> Result<Text, Memory>
    ensures { IfOk result (λ text. text ≡ field_name_of name.now) }
{
    let bytes = joined::field_bytes(alloc, name.as_bytes())?;
    Ok(Text::of_bytes(bytes))
}

/// The case of an enum's label, in upper case: `_` stands for each character other than a letter, a
/// digit and `_`, between a lower-case letter or a digit and an upper-case letter directly after it,
/// and before a digit that would stand first. The empty label is `_EMPTY_`.
pub fn enum_case(alloc: Global, label: &str) -> Result<Text, Memory>
    ensures { IfOk result (λ text. text ≡ enum_case_of label.now) }
{
    let bytes = case::case_bytes(alloc, label)?;
    Ok(Text::of_bytes(bytes))
}

#[cfg(test)]
mod tests;
