//! Names, by their places in lists.

ghost use Rattle.std.specs.Prelude.{◌≡◌, ◌<◌, ◌^◌, IfOk, IfSome, length};
ghost use Rattle.pg_base.specs.Behaviors as behaving;
ghost use Rattle.place_tree.specs.Arguments as arguments;
ghost use Rattle.place_tree.specs.Fields as spec;

use pg_base::{ArgDef, ColumnDef, Memory, Tags, Text};
use rel_model::By;
use sqlite_items::Items;
use std::alloc::Global;

/// The behaviours of columns by which rows can be put in an order, and filtered.
pub(crate) const ORDERING: usize = 6;

pub(crate) const FILTERING: usize = 7;

/// The place of the first that has the name.
pub fn place_named(names: &[Text], name: &Text) -> Option<usize>
    ensures value { result ≡ spec.place_named names.now name.now }
    ensures bound { IfSome result (λ place. place < length names.now) }
{
    for i in 0..names.len() {
        if names[i] == *name {
            return Some(i);
        }
    }
    None
}

/// The place of the first argument that has the name.
pub(crate) fn arg_named(args: &[ArgDef], name: &Text) -> Option<usize>
    ensures { result ≡ spec.place_named (spec.arg_names args.now) name.now }
{
    for i in 0..args.len() {
        if args[i].name == *name {
            return Some(i);
        }
    }
    None
}

fn is_on(behavior: usize, tags: &Tags) -> bool
    ensures { result ≡ behaving.is_on behavior tags.now }
{
    match tags.behavior.get(behavior) {
        None => true,
        Some(on) => *on,
    }
}

/// The places of the columns with a behaviour.
pub(crate) fn columns_with(
    alloc: Global,
    behavior: usize,
    columns: &[ColumnDef],
) -> Result<Items<u32>, Memory>
    requires few { length columns.now < 2 ^ 32 }
    ensures { IfOk result (λ places. places ≡ behaving.columns_with behavior 0 columns.now) }
{
    let mut places = Items::new(alloc);
    for i in 0..columns.len() {
        if !is_on(behavior, &columns[i].tags) {
            continue;
        }
        places.push(i as u32)?;
    }
    Ok(places)
}

/// What a case of an order stands for, by its place: NATURAL for nothing, and then two for each column.
fn by_case(columns: &[u32], case: usize) -> Option<By>
    ensures { result ≡ spec.by_case columns.now case }
{
    if case == 0 {
        return None;
    }
    match columns.get((case - 1) / 2) {
        None => None,
        Some(column) => Some(By {
            column: *column,
            descending: (case - 1) % 2 == 1,
        }),
    }
}

/// What a case of an order stands for, by its name.
pub(crate) fn by_name(cases: &[Text], columns: &[u32], name: &Text) -> Option<By>
    ensures { result ≡ arguments.by_name cases.now columns.now name.now }
{
    match place_named(cases, name) {
        None => None,
        Some(case) => by_case(columns, case),
    }
}
