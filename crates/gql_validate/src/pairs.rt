//! Pairs of places.

/// Two places in the list of nodes: two selection sets, or two fields of which the first stands earlier.
#[derive(Clone, Copy, PartialEq, Eq, Hash)]
pub(crate) struct Pair {
    pub first: usize,
    pub second: usize,
}

impl Pair {
    pub(crate) fn swapped(self) -> Pair {
        Pair {
            first: self.second,
            second: self.first,
        }
    }
}
