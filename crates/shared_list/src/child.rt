//! Shared parts of a list, each with its length.

ghost use Rattle.std.specs.Prelude.{◌≡◌, ◌≤◌, ◌<◌, ◌+◌, ◌^◌, ◌++◌, [], ◌∷◌, length, slice_get, slice_index_or, take, drop, vec_len, Some, IfOk, OnOk};
ghost use Rattle.std.specs.List.{prefix_len, flat_map};
ghost use Rattle.std.specs.Option.{option_to_list};
ghost use Rattle.shared_list.specs.Lists.{splice, Splits, IsSeat, IsBegun, IsRun, IsFirstMark, IsFirstBefore};
ghost use Rattle.shared_list.specs.Parts.{parts_list};

use crate::{Level, Marked, Parts, Probe, Shared, Slot};
use pg_base::Memory;
use std::alloc::Global;
use std::marker::{Model, PhantomData};
use std::sync::Arc;

/// A shared part of a list, with its length.
#[derive(Drop)]
pub struct Child<T: Marked, C: Level<T>> {
    len: usize,
    mark: u64,
    shared: Arc<C>,
    of: PhantomData<T>,
}

impl<T: Marked, C: Level<T>> Model for Child<T, C> {
    ghost use Rattle.std.specs.Prelude.{◌≡◌, ◌<◌, length};
    ghost use Rattle.std.specs.Arc.{arc_value};
    ghost use Rattle.shared_list.specs.Lists.{IsFirstMark};

    ghost Value = { C };

    ghost coded = { C.code };

    ghost view = { λ child. arc_value child.shared };

    ghost invariant = { λ child. (child.len ≡ length (C.items (arc_value child.shared)))
        × (0 < child.len)
        × IsFirstMark T.mark (C.items (arc_value child.shared)) child.mark };
}

impl<T: Marked, C: Level<T>> Child<T, C> {
    pub fn of(alloc: Global, part: C) -> Result<Child<T, C>, Memory>
        ensures { IfOk result (λ child. child ≡ part) }
    {
        let len = part.len();
        let mark = part.first_mark();
        let shared = Arc::new(alloc, part)?;
        Ok(Child {
            len,
            mark,
            shared,
            of: PhantomData,
        })
    }

    pub fn share(&self) -> Result<Child<T, C>, Memory>
        ensures { IfOk result (λ child. child ≡ self.now) }
    {
        let shared = Arc::try_clone(&self.shared)?;
        Ok(Child {
            len: self.len,
            mark: self.mark,
            shared,
            of: PhantomData,
        })
    }

    pub fn len(&self) -> usize
        ensures len { result ≡ length (C.items self.now) }
        ensures some { 0 < result }
    {
        self.len
    }

    pub fn mark(&self) -> u64
        ensures { IsFirstMark T.mark (C.items self.now) result }
    {
        self.mark
    }

    /// Whether the first item stands before what is looked for.
    pub fn begins_before<P: Probe<T>>(&self, probe: &P) -> bool
        ensures told { IsFirstBefore (P.before probe.now) (C.items self.now) result }
        ensures some { 0 < length (C.items self.now) }
    {
        match probe.by_mark(self.mark) {
            Some(told) => told,
            None => {
                let _len = self.len();
                probe.is_before(self.level().get(0))
            }
        }
    }

    pub fn level(&self) -> &C
        ensures { result.now ≡ self.now }
    {
        &self.shared
    }
}

/// Appends an owner of each child.
pub fn share_children<T: Marked, C: Level<T>>(
    out: &mut Vec<Child<T, C>>,
    children: &[Child<T, C>],
) -> Result<(), Memory>
    ensures { OnOk result (out.new.items ≡ out.old.items ++ children.now) }
{
    for child in children {
        out.push(child.share()?)?;
    }
    Ok(())
}

/// Appends what a part has become.
pub fn push_parts<T: Marked, C: Level<T>>(
    alloc: Global,
    out: &mut Vec<Child<T, C>>,
    parts: Parts<C>,
) -> Result<(), Memory>
    ensures { OnOk result (out.new.items ≡ out.old.items ++ parts_list parts) }
{
    match parts {
        Parts::Gone => {}
        Parts::One(part) => out.push(Child::of(alloc, part)?)?,
        Parts::Two(front, after) => {
            out.push(Child::of(alloc, front)?)?;
            out.push(Child::of(alloc, after)?)?;
        }
    }
    Ok(())
}

/// How many items the first children have.
pub fn passed<T: Marked, C: Level<T>>(children: &[Child<T, C>], count: usize) -> usize
    requires within { count ≤ length children.now }
    requires fits { length (flat_map C.items children.now) < 2 ^ 64 }
    ensures { result ≡ length (flat_map C.items (take count children.now)) }
{
    let mut sum = 0;
    for child in &children[..count] {
        sum += child.len();
    }
    sum
}

/// The child in which a place lies, and the place in it.
pub fn seat<T: Marked, C: Level<T>>(
    children: &[Child<T, C>],
    at: usize,
    gone: usize,
) -> (usize, usize)
    requires some { 0 < length children.now }
    requires few { gone ≤ 1 }
    requires within { at + gone ≤ length (flat_map C.items children.now) }
    ensures { IsSeat C.items children.now at gone result.0 result.1 }
{
    let mut left = at;
    for (k, child) in children.iter().enumerate() {
        if left <= child.len() - gone {
            return (k, left);
        }
        left -= child.len();
    }
    unreachable!()
}

pub fn get_in<T: Marked, C: Level<T>>(children: &[Child<T, C>], at: usize) -> &T
    requires { at < length (flat_map C.items children.now) }
    ensures { slice_get (flat_map C.items children.now) at ≡ Some result.now }
{
    let (k, rest) = seat(children, at, 1);
    children[k].level().get(rest)
}

/// How many children begin with an item that stands before what is looked for.
fn children_begun<T: Marked, C: Level<T>, P: Probe<T>>(children: &[Child<T, C>], probe: &P) -> usize
    requires { Splits (P.before probe.now) (flat_map C.items children.now) }
    ensures { IsBegun C.items children.now result
        (prefix_len (P.before probe.now) (flat_map C.items children.now)) }
{
    let mut low = 0;
    let mut high = children.len();
    while low < high {
        let middle = low + (high - low) / 2;
        if children[middle].begins_before(probe) {
            low = middle + 1;
        } else {
            high = middle;
        }
    }
    low
}

pub fn place_in<T: Marked, C: Level<T>, P: Probe<T>>(children: &[Child<T, C>], probe: &P) -> usize
    requires splits { Splits (P.before probe.now) (flat_map C.items children.now) }
    requires fits { length (flat_map C.items children.now) < 2 ^ 64 }
    ensures { result ≡ prefix_len (P.before probe.now) (flat_map C.items children.now) }
{
    let low = children_begun(children, probe);
    if low == 0 {
        return 0;
    }
    let last = low - 1;
    passed(children, last) + children[last].level().place(probe)
}

pub fn spliced_in<T: Marked, C: Level<T>>(
    alloc: Global,
    children: &[Child<T, C>],
    at: usize,
    gone: usize,
    item: Option<Shared<T>>,
) -> Result<Vec<Child<T, C>>, Memory>
    requires some { 0 < length children.now }
    requires few { gone ≤ 1 }
    requires within { at + gone ≤ length (flat_map C.items children.now) }
    requires fits { length (flat_map C.items children.now) < 2 ^ 63 }
    ensures made { IfOk result (λ made. flat_map C.items made.items ≡
        splice (flat_map C.items children.now) at gone (option_to_list item)) }
    ensures few { IfOk result (λ made. vec_len made ≤ length children.now + 1) }
{
    let (k, rest) = seat(children, at, gone);
    let parts = children[k].level().spliced(alloc, rest, gone, item)?;
    let mut made = Vec::with_capacity(alloc, children.len().saturating_add(1))?;
    share_children(&mut made, &children[..k])?;
    push_parts(alloc, &mut made, parts)?;
    share_children(&mut made, &children[k + 1..])?;
    Ok(made)
}

pub fn run_in<T: Marked, C: Level<T>>(children: &[Child<T, C>], at: usize) -> &[Slot<T>]
    requires { at < length (flat_map C.items children.now) }
    ensures some { 0 < length result.now }
    ensures run { IsRun (flat_map C.items children.now) at result.now }
{
    let (k, rest) = seat(children, at, 1);
    children[k].level().run_from(rest)
}
