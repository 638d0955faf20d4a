//! What each level of a list in chunks offers.

ghost use Rattle.std.specs.Prelude.{◌≡◌, ◌≤◌, ◌<◌, ◌+◌, ◌^◌, [], ◌∷◌, ℕ, List, Bool, length, slice_get, Some, IfOk};
ghost use Rattle.std.specs.List.{prefix_len, flat_map};
ghost use Rattle.std.specs.Option.{option_to_list};
ghost use Rattle.shared_list.specs.Lists.{splice, Splits, IsRun, Tells, IsFirstMark};
ghost use Rattle.shared_list.specs.Parts.{parts_list};

use crate::{Shared, Slot};
use pg_base::Memory;
use std::alloc::Global;

/// What has a number by which most searches can be decided.
pub trait Marked {
    ghost mark: { Self → ℕ };

    fn mark(&self) -> u64
        ensures { result ≡ mark self.now };
}

/// What stands before a place that is looked for.
pub trait Probe<T: Marked> {
    ghost before: { Self → T → Bool };

    /// Whether all items with a mark stand before the place, where the mark tells it.
    fn by_mark(&self, mark: u64) -> Option<bool>
        ensures { Tells T.mark (before self.now) mark result };

    fn is_before(&self, item: &T) -> bool
        ensures { result ≡ before self.now item.now };
}

/// What a changed part of a list has become.
#[derive(Drop)]
pub enum Parts<C> {
    Gone,
    One(C),
    Two(C, C),
}

/// A part of a list that holds one item at least.
pub trait Level<T: Marked>: Drop {
    ghost items: { Self → List T };

    fn single(alloc: Global, item: Shared<T>) -> Result<Self, Memory>
        ensures { IfOk result (λ one. items one ≡ item ∷ []) };

    /// The mark of the first item.
    fn first_mark(&self) -> u64
        ensures { IsFirstMark T.mark (items self.now) result };

    fn len(&self) -> usize
        ensures len { result ≡ length (items self.now) }
        ensures some { 0 < result };

    fn get(&self, at: usize) -> &T
        requires { at < length (items self.now) }
        ensures { slice_get (items self.now) at ≡ Some result.now };

    /// Items from a place on, at least one.
    fn run_from(&self, at: usize) -> &[Slot<T>]
        requires { at < length (items self.now) }
        ensures some { 0 < length result.now }
        ensures run { IsRun (items self.now) at result.now };

    /// How many items stand before what is looked for.
    fn place<P: Probe<T>>(&self, probe: &P) -> usize
        requires { Splits (P.before probe.now) (items self.now) }
        ensures { result ≡ prefix_len (P.before probe.now) (items self.now) };

    /// The parts that it becomes with one item or none taken out at a place, and one put there.
    fn spliced(
        &self,
        alloc: Global,
        at: usize,
        gone: usize,
        item: Option<Shared<T>>,
    ) -> Result<Parts<Self>, Memory>
        requires few { gone ≤ 1 }
        requires within { at + gone ≤ length (items self.now) }
        requires fits { length (items self.now) < 2 ^ 63 }
        ensures { IfOk result (λ parts. flat_map items (parts_list parts) ≡
            splice (items self.now) at gone (option_to_list item)) };
}
