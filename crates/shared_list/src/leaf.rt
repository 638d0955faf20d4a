//! The lowest level: a chunk of items.

ghost use Rattle.std.specs.Prelude.{◌≡◌, ◌≤◌, ◌<◌, ◌+◌, ◌^◌, [], ◌∷◌, length, slice_get, Some, IfOk};
ghost use Rattle.std.specs.List.{prefix_len, flat_map};
ghost use Rattle.std.specs.Option.{option_to_list};
ghost use Rattle.shared_list.specs.Lists.{splice, Splits, IsRun, IsFirstMark};
ghost use Rattle.shared_list.specs.Parts.{parts_list};

use crate::pieces::{cut_off, share_all};
use crate::{Level, Marked, Parts, Probe, Shared, Slot};
use pg_base::Memory;
use std::alloc::Global;
use std::marker::Model;

/// The most items of a chunk.
const CHUNK: usize = 32;

/// From 1 to 32 items.
#[derive(Drop)]
pub struct Leaf<T: Marked> {
    items: Vec<Slot<T>>,
}

impl<T: Marked> Model for Leaf<T> {
    ghost use Rattle.std.specs.Prelude.{◌<◌, ◌≤◌, List, length};
    ghost use Rattle.std.specs.Coded.{coded_list};

    ghost Value = { List T };

    ghost coded = { coded_list T.code };

    ghost view = { λ leaf. leaf.items.items };

    ghost invariant = { λ leaf. (0 < length leaf.items.items) × (length leaf.items.items ≤ 32) };
}

/// How many of the items stand before what is looked for.
pub fn count_before<T: Marked, P: Probe<T>>(items: &[Slot<T>], probe: &P) -> usize
    requires { Splits (P.before probe.now) items.now }
    ensures { result ≡ prefix_len (P.before probe.now) items.now }
{
    let mut low = 0;
    let mut high = items.len();
    while low < high {
        let middle = low + (high - low) / 2;
        if items[middle].is_before(probe) {
            low = middle + 1;
        } else {
            high = middle;
        }
    }
    low
}

/// The items with one or none taken out at a place, and one put there.
pub fn spliced_items<T: Marked + Drop>(
    alloc: Global,
    items: &[Slot<T>],
    at: usize,
    gone: usize,
    item: Option<Shared<T>>,
) -> Result<Vec<Slot<T>>, Memory>
    requires few { gone ≤ 1 }
    requires within { at + gone ≤ length items.now }
    requires short { length items.now ≤ 32 }
    ensures { IfOk result (λ made. made.items ≡ splice items.now at gone (option_to_list item)) }
{
    let mut made = Vec::with_capacity(alloc, items.len() + 1 - gone)?;
    share_all(&mut made, &items[..at])?;
    if let Some(item) = item {
        made.push(Slot::of(item))?;
    }
    share_all(&mut made, &items[at + gone..])?;
    Ok(made)
}

impl<T: Marked + Drop> Level<T> for Leaf<T> {
    ghost items = { λ leaf. leaf };

    fn single(alloc: Global, item: Shared<T>) -> Result<Leaf<T>, Memory>
        ensures { IfOk result (λ one. one ≡ item ∷ []) }
    {
        let mut items = Vec::with_capacity(alloc, 1)?;
        items.push(Slot::of(item))?;
        Ok(Leaf { items })
    }

    fn first_mark(&self) -> u64 {
        self.items[0].mark()
    }

    fn len(&self) -> usize {
        self.items.len()
    }

    fn get(&self, at: usize) -> &T {
        self.items[at].get()
    }

    fn run_from(&self, at: usize) -> &[Slot<T>] {
        &self.items[at..]
    }

    fn place<P: Probe<T>>(&self, probe: &P) -> usize {
        count_before(self.items.as_slice(), probe)
    }

    fn spliced(
        &self,
        alloc: Global,
        at: usize,
        gone: usize,
        item: Option<Shared<T>>,
    ) -> Result<Parts<Leaf<T>>, Memory>
        requires few { gone ≤ 1 }
        requires within { at + gone ≤ length self.now }
        requires fits { length self.now < 2 ^ 63 }
        ensures { IfOk result (λ parts. flat_map (λ part. part) (parts_list parts) ≡
            splice self.now at gone (option_to_list item)) }
    {
        let mut items = spliced_items(alloc, self.items.as_slice(), at, gone, item)?;
        if items.is_empty() {
            return Ok(Parts::Gone);
        }
        if items.len() <= CHUNK {
            return Ok(Parts::One(Leaf { items }));
        }
        let cut = if at == self.items.len() {
            CHUNK
        } else {
            CHUNK / 2
        };
        let rest = cut_off(alloc, &mut items, cut)?;
        Ok(Parts::Two(Leaf { items }, Leaf { items: rest }))
    }
}
