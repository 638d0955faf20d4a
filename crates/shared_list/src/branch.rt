//! An inner level: parts of one level.

ghost use Rattle.std.specs.Prelude.{◌≡◌, ◌≤◌, ◌<◌, ◌+◌, ◌^◌, [], ◌∷◌, length, slice_get, vec_len, Some, IfOk};
ghost use Rattle.std.specs.List.{prefix_len, flat_map};
ghost use Rattle.std.specs.Option.{option_to_list};
ghost use Rattle.shared_list.specs.Lists.{splice, Splits, IsRun, IsFirstMark};
ghost use Rattle.shared_list.specs.Parts.{parts_list};

use crate::child::{Child, get_in, passed, place_in, run_in, spliced_in};
use crate::pieces::cut_off;
use crate::{Level, Marked, Parts, Probe, Shared, Slot};
use pg_base::Memory;
use std::alloc::Global;
use std::marker::Model;

/// The most parts of a branch.
const FAN: usize = 32;

/// From 1 to 32 parts of a list.
#[derive(Drop)]
pub struct Branch<T: Marked, C: Level<T>> {
    len: usize,
    mark: u64,
    children: Vec<Child<T, C>>,
}

impl<T: Marked, C: Level<T>> Model for Branch<T, C> {
    ghost use Rattle.std.specs.Prelude.{◌≡◌, ◌<◌, ◌≤◌, ◌^◌, List, length};
    ghost use Rattle.std.specs.Coded.{coded_list};
    ghost use Rattle.std.specs.List.{flat_map};
    ghost use Rattle.shared_list.specs.Lists.{IsBranch, IsFirstMark};

    ghost Value = { List T };

    ghost coded = { coded_list T.code };

    ghost view = { λ branch. flat_map C.items branch.children.items };

    ghost invariant = { λ branch. IsBranch C.items branch.children.items branch.len
        × IsFirstMark T.mark (flat_map C.items branch.children.items) branch.mark };
}

impl<T: Marked, C: Level<T>> Branch<T, C> {
    fn of(children: Vec<Child<T, C>>) -> Branch<T, C>
        requires some { 0 < length children.items }
        requires few { length children.items ≤ 32 }
        requires fits { length (flat_map C.items children.items) < 2 ^ 64 }
        ensures { result ≡ flat_map C.items children.items }
    {
        let _first = children[0].len();
        let mark = children[0].mark();
        let len = passed(children.as_slice(), children.len());
        Branch {
            len,
            mark,
            children,
        }
    }
}

impl<T: Marked + Drop, C: Level<T>> Level<T> for Branch<T, C> {
    ghost items = { λ branch. branch };

    fn single(alloc: Global, item: Shared<T>) -> Result<Branch<T, C>, Memory>
        ensures { IfOk result (λ one. one ≡ item ∷ []) }
    {
        let part = C::single(alloc, item)?;
        let mut children = Vec::with_capacity(alloc, 1)?;
        children.push(Child::of(alloc, part)?)?;
        Ok(Branch::of(children))
    }

    fn first_mark(&self) -> u64 {
        self.mark
    }

    fn len(&self) -> usize {
        self.len
    }

    fn get(&self, at: usize) -> &T {
        get_in(self.children.as_slice(), at)
    }

    fn run_from(&self, at: usize) -> &[Slot<T>] {
        run_in(self.children.as_slice(), at)
    }

    fn place<P: Probe<T>>(&self, probe: &P) -> usize {
        place_in(self.children.as_slice(), probe)
    }

    fn spliced(
        &self,
        alloc: Global,
        at: usize,
        gone: usize,
        item: Option<Shared<T>>,
    ) -> Result<Parts<Branch<T, C>>, Memory>
        requires few { gone ≤ 1 }
        requires within { at + gone ≤ length self.now }
        requires fits { length self.now < 2 ^ 63 }
        ensures { IfOk result (λ parts. flat_map (λ part. part) (parts_list parts) ≡
            splice self.now at gone (option_to_list item)) }
    {
        let mut children = spliced_in(alloc, self.children.as_slice(), at, gone, item)?;
        if children.is_empty() {
            return Ok(Parts::Gone);
        }
        if children.len() <= FAN {
            return Ok(Parts::One(Branch::of(children)));
        }
        let cut = if at == self.len { FAN } else { FAN / 2 };
        let rest = cut_off(alloc, &mut children, cut)?;
        Ok(Parts::Two(Branch::of(children), Branch::of(rest)))
    }
}
