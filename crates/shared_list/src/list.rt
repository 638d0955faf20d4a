//! Lists in chunks.

ghost use Rattle.std.specs.Prelude.{◌≡◌, ◌≤◌, ◌<◌, ◌+◌, ◌^◌, [], ◌∷◌, List, length, slice_get, slice_set, insert, remove, Some, IfOk};
ghost use Rattle.std.specs.List.{prefix_len};
ghost use Rattle.shared_list.specs.Lists.{splice, Splits, IsRun};
ghost use Rattle.std.specs.Option.{option_to_list};

use crate::child::{Child, get_in, place_in, run_in, share_children, spliced_in};
use crate::{Branch, Leaf, Level, Marked, Probe, Shared, Slot};
use pg_base::Memory;
use std::alloc::{AllocError, Global};
use std::marker::Model;

/// No memory holds a list of this length.
const LIMIT: usize = 1 << 60;

/// A list in shared chunks.
#[derive(Drop)]
pub struct SharedList<T: Marked + Drop> {
    len: usize,
    children: Vec<Child<T, Branch<T, Branch<T, Leaf<T>>>>>,
}

impl<T: Marked + Drop> Model for SharedList<T> {
    ghost use Rattle.std.specs.Prelude.{◌≡◌, ◌<◌, ◌^◌, List, length};
    ghost use Rattle.std.specs.Coded.{coded_list};
    ghost use Rattle.std.specs.List.{flat_map};
    ghost use Rattle.shared_list.specs.Lists.{IsTop};

    ghost Value = { List T };

    ghost coded = { coded_list T.code };

    ghost view = { λ list. flat_map (λ part. part) list.children.items };

    ghost invariant = { λ list. IsTop (λ part. part) list.children.items list.len };
}

impl<T: Marked + Drop> SharedList<T> {
    pub fn new(alloc: Global) -> SharedList<T>
        ensures { result ≡ [] }
    {
        SharedList {
            len: 0,
            children: Vec::new(alloc),
        }
    }

    pub fn len(&self) -> usize
        ensures { result ≡ length self.now }
    {
        self.len
    }

    pub fn get(&self, at: usize) -> &T
        requires { at < length self.now }
        ensures { slice_get self.now at ≡ Some result.now }
    {
        get_in(self.children.as_slice(), at)
    }

    /// Items from a place on, at least one.
    pub fn run_from(&self, at: usize) -> &[Slot<T>]
        requires { at < length self.now }
        ensures some { 0 < length result.now }
        ensures run { IsRun self.now at result.now }
    {
        run_in(self.children.as_slice(), at)
    }

    /// How many items stand before what is looked for.
    pub fn place<P: Probe<T>>(&self, probe: &P) -> usize
        requires { Splits (P.before probe.now) self.now }
        ensures { result ≡ prefix_len (P.before probe.now) self.now }
    {
        place_in(self.children.as_slice(), probe)
    }

    /// Another owner of all the items.
    pub fn share(&self, alloc: Global) -> Result<SharedList<T>, Memory>
        ensures { IfOk result (λ list. list ≡ self.now) }
    {
        let mut children = Vec::with_capacity(alloc, self.children.len())?;
        share_children(&mut children, self.children.as_slice())?;
        Ok(SharedList {
            len: self.len,
            children,
        })
    }

    fn spliced(
        &self,
        alloc: Global,
        at: usize,
        gone: usize,
        item: Option<Shared<T>>,
    ) -> Result<SharedList<T>, Memory>
        requires few { gone ≤ 1 }
        requires within { at + gone ≤ length self.now }
        ensures { IfOk result (λ list. list ≡ splice self.now at gone (option_to_list item)) }
    {
        if self.len >= LIMIT {
            return Err(AllocError);
        }
        let more = item.is_some();
        if self.children.is_empty() {
            let mut children = Vec::new(alloc);
            if let Some(item) = item {
                let part = Branch::<T, Branch<T, Leaf<T>>>::single(alloc, item)?;
                children.push(Child::of(alloc, part)?)?;
            }
            return Ok(SharedList {
                len: more as usize,
                children,
            });
        }
        let children = spliced_in(alloc, self.children.as_slice(), at, gone, item)?;
        Ok(SharedList {
            len: self.len - gone + more as usize,
            children,
        })
    }

    pub fn with_set(
        &self,
        alloc: Global,
        at: usize,
        item: Shared<T>,
    ) -> Result<SharedList<T>, Memory>
        requires { at < length self.now }
        ensures { IfOk result (λ list. list ≡ slice_set self.now at item) }
    {
        let list = self.spliced(alloc, at, 1, Some(item))?;
        Ok(list)
    }

    pub fn with_insert(
        &self,
        alloc: Global,
        at: usize,
        item: Shared<T>,
    ) -> Result<SharedList<T>, Memory>
        requires { at ≤ length self.now }
        ensures { IfOk result (λ list. list ≡ insert self.now at item) }
    {
        let list = self.spliced(alloc, at, 0, Some(item))?;
        Ok(list)
    }

    pub fn with_removed(&self, alloc: Global, at: usize) -> Result<SharedList<T>, Memory>
        requires { at < length self.now }
        ensures { IfOk result (λ list. list ≡ remove self.now at) }
    {
        let list = self.spliced(alloc, at, 1, None)?;
        Ok(list)
    }
}
