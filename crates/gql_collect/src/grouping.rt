//! The fields of a selection set by their response keys (sections 6.3.2 and 6.4.3).

ghost use Rattle.std.specs.Prelude.{◌≡◌, ◌++◌, ◌∷◌, [], ℕ, List, IfOk, OnOk};
ghost use Rattle.gql_collect.specs.Growing as spec;
ghost use Rattle.gql_collect.specs.Kept.{fields_of, group_in};

use gql_reader::Field;
use indexmap::IndexSet;
use pg_base::{Memory, Text};
use sqlite_items::Items;
use std::alloc::Global;
use std::collections::HashMap;

/// The alias, or the name.
fn response_key(field: &Field) -> &Text
    ensures { result.now ≡ spec.response_key field.now }
{
    match &field.alias {
        None => &field.name,
        Some(alias) => alias,
    }
}

/// The response keys, in the order of their first appearance.
pub(crate) fn keys_of(alloc: Global, fields: &[&Field]) -> Result<IndexSet<Text>, Memory>
    ensures { IfOk result (λ keys. keys.keys ≡ spec.keys_of (fields_of fields.now)) }
{
    let mut keys = IndexSet::new(alloc);
    for field in fields {
        keys.insert_full(response_key(field).copy(alloc)?)?;
    }
    Ok(keys)
}

/// The fields of each response key, in their order.
pub(crate) type Groups<'a> = HashMap<Text, Items<&'a Field>>;

/// Appends a field to those of its response key.
fn add_to_group<'a>(alloc: Global, groups: &mut Groups<'a>, field: &'a Field) -> Result<(), Memory>
    ensures { OnOk result ((key : List ℕ) → group_in groups.new key
        ≡ group_in groups.old key ++ spec.fields_with key (field.now ∷ [])) }
{
    let key = response_key(field).copy(alloc)?;
    let group = groups.entry(key)?.or_insert(Items::new(alloc));
    group.push(field)?;
    Ok(())
}

pub(crate) fn groups_of<'a>(alloc: Global, fields: &[&'a Field]) -> Result<Groups<'a>, Memory>
    ensures { IfOk result (λ groups. (key : List ℕ) → group_in groups key
        ≡ spec.fields_with key (fields_of fields.now)) }
{
    let mut groups = HashMap::new(alloc);
    for field in fields {
        add_to_group(alloc, &mut groups, field)?;
    }
    Ok(groups)
}
