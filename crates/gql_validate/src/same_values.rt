//! Whether values and arguments are the same. Each of the one is compared with each of the other once a level, so deep
//! values cost no more than the product of their sizes.

ghost use Rattle.std.specs.Prelude.{◌≡◌, ◌||◌, OnOk, IfOk};
ghost use Rattle.std.specs.Cmp.Lexicographic.{pointwise};
ghost use Rattle.std.specs.List.{list_all};
ghost use Rattle.gql_validate.specs.SameValues as spec;
ghost use Rattle.gql_validate.specs.SameLists as lists;
ghost use Rattle.gql_validate.specs.Met as known;

use gql_reader::{Argument, ObjectField, Value, ValueKind};
use pg_base::Memory;
use std::alloc::Global;

/// Whether two values are the same.
#[cycle(same)]
fn is_same(alloc: Global, a: &ValueKind, b: &ValueKind) -> Result<bool, Memory>
    ensures { IfOk result (λ same. same ≡ spec.same_kind a.now b.now) }
{
    match a {
        ValueKind::Variable(x) => match b {
            ValueKind::Variable(y) => Ok(*x == *y),
            _ => Ok(false),
        },
        ValueKind::Int(x) => match b {
            ValueKind::Int(y) => Ok(*x == *y),
            _ => Ok(false),
        },
        ValueKind::Float(x) => match b {
            ValueKind::Float(y) => Ok(*x == *y),
            _ => Ok(false),
        },
        ValueKind::String(x) => match b {
            ValueKind::String(y) => Ok(*x == *y),
            _ => Ok(false),
        },
        ValueKind::Boolean(x) => match b {
            ValueKind::Boolean(y) => Ok(*x == *y),
            _ => Ok(false),
        },
        ValueKind::Null => match b {
            ValueKind::Null => Ok(true),
            _ => Ok(false),
        },
        ValueKind::Enum(x) => match b {
            ValueKind::Enum(y) => Ok(*x == *y),
            _ => Ok(false),
        },
        ValueKind::List(xs) => match b {
            ValueKind::List(ys) => {
                let same = are_same(alloc, xs.as_slice(), ys.as_slice())?;
                Ok(same)
            }
            _ => Ok(false),
        },
        ValueKind::Object(xs) => match b {
            ValueKind::Object(ys) => {
                let same = are_same_fields(alloc, xs.as_slice(), ys.as_slice())?;
                Ok(same)
            }
            _ => Ok(false),
        },
    }
}

#[cycle(same)]
fn are_same(alloc: Global, xs: &[Value], ys: &[Value]) -> Result<bool, Memory>
    ensures { IfOk result (λ same. same ≡ pointwise lists.same_value xs.now ys.now) }
{
    for i in 0..xs.len() {
        if i >= ys.len() {
            return Ok(false);
        }
        let same = is_same(alloc, &xs[i].kind, &ys[i].kind)?;
        if !same {
            return Ok(false);
        }
    }
    Ok(xs.len() == ys.len())
}

// ---- what is known of each item

fn either(a: bool, b: bool) -> bool
    ensures { result ≡ (a || b) }
{
    if a { true } else { b }
}

/// Notes that the item at the place is met, if it is the same.
fn put_met(met: &mut Vec<bool>, place: usize, same: bool)
    ensures { met.new.items ≡ known.put_met met.old.items place same }
{
    if !same {
        return;
    }
    if let Some(known) = met.get_mut(place) {
        *known = true;
    }
}

fn all_met(met: &[bool]) -> bool
    ensures { result ≡ list_all (λ known. known) met.now }
{
    met.iter().all(|known| *known)
}

// ---- fields of objects

/// Whether each field of either object is among the other's.
#[cycle(same)]
fn are_same_fields(alloc: Global, xs: &[ObjectField], ys: &[ObjectField]) -> Result<bool, Memory>
    ensures { IfOk result (λ same. same ≡ lists.same_fields xs.now ys.now) }
{
    let mut met = vec![in alloc; false; ys.len()]?;
    for x in xs {
        let found = meet_fields(alloc, x, ys, &mut met)?;
        if !found {
            return Ok(false);
        }
    }
    Ok(all_met(met.as_slice()))
}

/// Whether a field is among those of an object; notes which ones are met by it.
#[cycle(same)]
fn meet_fields(
    alloc: Global,
    x: &ObjectField,
    ys: &[ObjectField],
    met: &mut Vec<bool>,
) -> Result<bool, Memory>
    ensures found { IfOk result (λ found. found ≡ lists.is_among lists.same_field x.now ys.now) }
    ensures met { OnOk result (met.new.items
        ≡ known.with_met lists.same_field x.now met.old.items 0 ys.now) }
{
    let mut found = false;
    for (place, y) in ys.iter().enumerate() {
        let same = is_same_field(alloc, x, y)?;
        put_met(met, place, same);
        found = either(found, same);
    }
    Ok(found)
}

#[cycle(same)]
fn is_same_field(alloc: Global, x: &ObjectField, y: &ObjectField) -> Result<bool, Memory>
    ensures { IfOk result (λ same. same ≡ lists.same_field x.now y.now) }
{
    if x.name == y.name {
        let same = is_same(alloc, &x.value.kind, &y.value.kind)?;
        Ok(same)
    } else {
        Ok(false)
    }
}

// ---- arguments

fn is_same_argument(alloc: Global, x: &Argument, y: &Argument) -> Result<bool, Memory>
    ensures { IfOk result (λ same. same ≡ lists.same_argument x.now y.now) }
{
    if x.name == y.name {
        let same = is_same(alloc, &x.value.kind, &y.value.kind)?;
        Ok(same)
    } else {
        Ok(false)
    }
}

/// Whether an argument is among others; notes which ones are met by it.
fn meet_arguments(
    alloc: Global,
    x: &Argument,
    ys: &[Argument],
    met: &mut Vec<bool>,
) -> Result<bool, Memory>
    ensures found { IfOk result (λ found. found
        ≡ lists.is_among lists.same_argument x.now ys.now) }
    ensures met { OnOk result (met.new.items
        ≡ known.with_met lists.same_argument x.now met.old.items 0 ys.now) }
{
    let mut found = false;
    for (place, y) in ys.iter().enumerate() {
        let same = is_same_argument(alloc, x, y)?;
        put_met(met, place, same);
        found = either(found, same);
    }
    Ok(found)
}

fn are_same_lists(alloc: Global, xs: &[Argument], ys: &[Argument]) -> Result<bool, Memory>
    ensures { IfOk result (λ same. same ≡ lists.same_lists xs.now ys.now) }
{
    let mut met = vec![in alloc; false; ys.len()]?;
    for x in xs {
        let found = meet_arguments(alloc, x, ys, &mut met)?;
        if !found {
            return Ok(false);
        }
    }
    Ok(all_met(met.as_slice()))
}

/// Whether arguments are the same, in any order.
pub(crate) fn are_same_arguments(
    alloc: Global,
    xs: &[Argument],
    ys: &[Argument],
) -> Result<bool, Memory>
    ensures { IfOk result (λ same. same ≡ spec.same_arguments xs.now ys.now) }
{
    let same = are_same_lists(alloc, xs, ys)?;
    Ok(same)
}
