//! What a selection set is collected from.

ghost use Rattle.std.specs.Prelude.{◌≡◌};
ghost use Rattle.gql_collect.specs.Collected.{applies_to};

use crate::asking::is_word;
use crate::fragments::Fragments;
use pg_base::{Schema, Text, Vars};

/// What a selection set is collected from.
#[derive(Drop)]
pub(crate) struct Request<'a> {
    pub schema: &'a Schema,
    pub fragments: Fragments<'a>,
    pub vars: &'a Vars,
}

/// Whether a condition on the type of the name holds for this type.
pub(crate) fn is_type(schema: &Schema, ty: u32, name: &Text) -> bool
    ensures { result ≡ applies_to schema.now ty name.now }
{
    match schema.types().get(ty as usize) {
        None => false,
        Some(def) => is_word(&def.name, name.bytes()),
    }
}
