//! Keys and links from their parts.

ghost use Rattle.std.specs.Prelude.{◌≡◌, ◌<◌, ◌≤◌, ◌++◌, ◌==◌, ◌∷◌, find, slice_get, IfOk, OnOk};
ghost use Rattle.std.specs.List.{list_any};
ghost use Rattle.std.specs.Str.{IsUtf8};
ghost use Rattle.std.specs.Option.{option_copied};
ghost use Rattle.pg_base.specs.Kind.{family};
ghost use Rattle.pg_catalog.specs.Names.{joined};
ghost use Rattle.pg_catalog.specs.Constraints as spec;

use crate::{KeyPart, LinkPart};
use pg_base::{ColumnDef, KeyDef, Kind, Memory, TableDef, Text};
use sqlite_items::at;
use std::alloc::Global;

/// One more name after a `_`.
fn push_name(bytes: &mut Vec<u8>, name: &Text) -> Result<(), Memory>
    requires { IsUtf8 bytes.old.items }
    ensures made { OnOk result (bytes.new.items ≡ bytes.old.items ++ 95 ∷ name.now) }
    ensures text { OnOk result (IsUtf8 bytes.new.items) }
{
    bytes.push(b'_')?;
    bytes.extend_from_slice(name.bytes())?;
    Ok(())
}

/// A table's name, those of columns, each after a `_`, and an ending.
fn default_name(alloc: Global, table: &Text, columns: &[Text], ending: &str) -> Result<Text, Memory>
    ensures { IfOk result (λ name. name ≡ (table.now ++ joined columns.now) ++ ending.now) }
{
    let mut bytes = Vec::from_slice(alloc, table.bytes())?;
    for column in columns {
        push_name(&mut bytes, column)?;
    }
    bytes.extend_from_slice(ending.as_bytes())?;
    Ok(Text::of_bytes(bytes))
}

/// The name of a key: the one after CONSTRAINT, or the default name.
pub(crate) fn key_name(alloc: Global, part: &KeyPart) -> Result<Text, Memory>
    ensures { IfOk result (λ name. name ≡ spec.key_name part.now) }
{
    if let Some(name) = &part.name {
        return name.copy(alloc);
    }
    if part.primary {
        return default_name(alloc, &part.table, &[], "_pkey");
    }
    default_name(alloc, &part.table, part.columns.as_slice(), "_key")
}

/// The name of a link: the one after CONSTRAINT, or the default name.
pub(crate) fn link_name(alloc: Global, part: &LinkPart) -> Result<Text, Memory>
    ensures { IfOk result (λ name. name ≡ spec.link_name part.now) }
{
    if let Some(name) = &part.name {
        return name.copy(alloc);
    }
    default_name(alloc, &part.table, part.columns.as_slice(), "_fkey")
}

fn contains(places: &[u32], place: u32) -> bool
    ensures { result ≡ list_any (λ y. y == place) places.now }
{
    places.iter().any(|other| *other == place)
}

fn are_among(places: &[u32], others: &[u32]) -> bool
    ensures { result ≡ spec.are_among places.now others.now }
{
    places.iter().all(|place| contains(others, *place))
}

/// Whether the places are the same, in any order, where no list has one twice.
fn are_reordered(places: &[u32], others: &[u32]) -> bool
    ensures { result ≡ spec.are_reordered places.now others.now }
{
    if places.len() != others.len() {
        return false;
    }
    are_among(places, others)
}

/// Whether the columns are those of a key of the table.
pub(crate) fn are_key(table: &TableDef, places: &[u32]) -> bool
    ensures { result ≡ spec.are_key table.now places.now }
{
    table
        .keys
        .as_slice()
        .iter()
        .any(|key| are_reordered(key.columns.as_slice(), places))
}

fn same_family(kind: Kind, other: Kind) -> bool
    ensures { result ≡ spec.same_family (family kind) (family other) }
{
    match kind {
        Kind::Text => matches!(other, Kind::Text | Kind::Varchar(_)),
        Kind::Varchar(_) => matches!(other, Kind::Text | Kind::Varchar(_)),
        Kind::Int => matches!(other, Kind::Int | Kind::BigInt),
        Kind::BigInt => matches!(other, Kind::Int | Kind::BigInt),
        Kind::Bool => matches!(other, Kind::Bool),
        Kind::Enum(place) => match other {
            Kind::Enum(other) => place == other,
            _ => false,
        },
    }
}

fn comparable(columns: &[ColumnDef], place: u32, others: &[ColumnDef], other: u32) -> bool
    ensures { result
        ≡ spec.comparable (slice_get columns.now place) (slice_get others.now other) }
{
    let Some(column) = at(columns, place as usize) else {
        return false;
    };
    let Some(other) = at(others, other as usize) else {
        return false;
    };
    same_family(column.kind, other.kind)
}

/// Whether each column's kind is that of its target.
pub(crate) fn are_comparable(
    table: &TableDef,
    target: &TableDef,
    places: &[u32],
    targets: &[u32],
) -> bool
    ensures { result ≡ spec.are_comparable table.now target.now places.now targets.now }
{
    let columns = table.columns.as_slice();
    let others = target.columns.as_slice();
    places.iter().zip(targets).all(|(place, other)| comparable(columns, *place, others, *other))
}

/// The primary key of a table.
pub(crate) fn primary_key(table: &TableDef) -> Option<&KeyDef>
    ensures { option_copied result ≡ find (λ k. k.primary) table.now.keys }
{
    table.keys.as_slice().iter().find(|key| key.primary)
}
