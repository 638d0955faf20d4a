//! What is on by the tags, and what a table has for it.

ghost use Rattle.std.specs.Prelude.{◌≡◌, ◌||◌, ◌≤◌, Some, length};
ghost use Rattle.std.specs.List.{list_any, list_all};
ghost use Rattle.std.specs.Str.{bytes_eq};
ghost use Rattle.pg_base.specs.Behaviors as spec;
ghost use Rattle.pg_base.specs.Lookups as lookups;
ghost use Rattle.pg_base.specs.Roles as rolled;

use pg_base::{ColumnDef, KeyDef, LinkDef, TableDef, Tags};

pub(crate) const SELECTING: usize = 0;

pub(crate) const LISTING: usize = 1;

pub(crate) const CONNECTING: usize = 2;

pub(crate) const INSERTING: usize = 3;

pub(crate) const UPDATING: usize = 4;

pub(crate) const DELETING: usize = 5;

pub(crate) const ORDERING: usize = 6;

pub(crate) const FILTERING: usize = 7;

pub(crate) fn is_on(behavior: usize, tags: &Tags) -> bool
    ensures { result ≡ spec.is_on behavior tags.now }
{
    match tags.behavior.get(behavior) {
        None => true,
        Some(on) => *on,
    }
}

fn some_column(behavior: usize, columns: &[ColumnDef]) -> bool
    ensures { result ≡ list_any (λ c. spec.is_on behavior c.tags) columns.now }
{
    columns.iter().any(|c| is_on(behavior, &c.tags))
}

fn has_keys(t: &TableDef) -> bool
    ensures { result ≡ rolled.has_keys t.now }
{
    match t.keys.as_slice() {
        [] => false,
        [_first, ..] => true,
    }
}

// What a table has
pub(crate) fn has_condition(t: &TableDef) -> bool
    ensures { result ≡ rolled.has_condition t.now }
{
    if !is_on(FILTERING, &t.tags) {
        return false;
    }
    some_column(FILTERING, t.columns.as_slice())
}

pub(crate) fn has_create(t: &TableDef) -> bool
    ensures { result ≡ rolled.has_create t.now }
{
    if !is_on(INSERTING, &t.tags) {
        return false;
    }
    some_column(INSERTING, t.columns.as_slice())
}

pub(crate) fn has_update(t: &TableDef) -> bool
    ensures { result ≡ rolled.has_update t.now }
{
    if !is_on(UPDATING, &t.tags) {
        return false;
    }
    if !some_column(UPDATING, t.columns.as_slice()) {
        return false;
    }
    has_keys(t)
}

pub(crate) fn has_delete(t: &TableDef) -> bool
    ensures { result ≡ rolled.has_delete t.now }
{
    if !is_on(DELETING, &t.tags) {
        return false;
    }
    has_keys(t)
}

fn has_change(t: &TableDef) -> bool
    ensures { result
        ≡ ((rolled.has_create t.now || rolled.has_update t.now) || rolled.has_delete t.now) }
{
    if has_create(t) {
        return true;
    }
    if has_update(t) {
        return true;
    }
    has_delete(t)
}

// Some table has a mutation.
pub(crate) fn have_change(tables: &[TableDef]) -> bool
    ensures { result ≡ list_any
        (λ t. (rolled.has_create t || rolled.has_update t) || rolled.has_delete t) tables.now }
{
    tables.iter().any(|t| has_change(t))
}

// ---- keys and links

// Some key has these columns, in this order.
fn have_columns(keys: &[KeyDef], columns: &[u32]) -> bool
    ensures { result ≡ list_any (λ k. bytes_eq k.columns columns.now) keys.now }
{
    keys.iter().any(|k| k.columns.as_slice() == columns)
}

// No earlier key has the columns of the key at the place.
pub(crate) fn is_new_key(keys: &[KeyDef], place: usize, k: &KeyDef) -> bool
    requires { place ≤ length keys.now }
    ensures { result ≡ rolled.is_new_key keys.now place k.now }
{
    !have_columns(&keys[..place], k.columns.as_slice())
}

fn is_among(places: &[u32], place: u32) -> bool
    ensures { result ≡ lookups.is_among places.now place }
{
    places.iter().any(|other| *other == place)
}

fn are_among(places: &[u32], columns: &[u32]) -> bool
    ensures { result ≡ list_all (lookups.is_among places.now) columns.now }
{
    columns.iter().all(|column| is_among(places, *column))
}

// The columns of some key are among the places.
fn have_key_among(keys: &[KeyDef], places: &[u32]) -> bool
    ensures { result ≡ list_any (λ k. list_all (lookups.is_among places.now) k.columns) keys.now }
{
    keys.iter().any(|k| are_among(places, k.columns.as_slice()))
}

// At most one row of the table refers to a row by the link.
pub(crate) fn finds_one(t: &TableDef, link: &LinkDef) -> bool
    ensures { result ≡ lookups.finds_one (Some t.now) link.now }
{
    have_key_among(t.keys.as_slice(), link.columns.as_slice())
}
