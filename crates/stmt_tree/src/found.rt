//! What a statement finds.

ghost use Rattle.std.specs.Prelude.{◌≡◌};
ghost use Rattle.stmt_tree.specs.declared.found.RunFault.TheVariants as fault;

use pg_base::{Cell, Memory};
use sqlite_items::Items;

#[derive(Drop)]
pub struct Key {
    pub cells: Items<Cell>,
}

/// A row, with what each child found for it.
#[cycle(found)]
#[derive(Drop)]
pub struct RowTree {
    pub number: u64,
    pub cells: Items<Cell>,
    pub children: Items<Found>,
}

/// The rows of one key: how many there are, and those from one place up to another.
#[cycle(found)]
#[derive(Drop)]
pub struct Found {
    pub total: u64,
    pub from: u64,
    pub to: u64,
    pub rows: Items<RowTree>,
}

/// What was found for each key, in the order of the keys.
#[derive(Drop)]
pub struct Batch {
    pub found: Items<Found>,
}

#[derive(Clone, Copy, Drop)]
pub enum RunFault {
    /// The store failed.
    Store,
    /// There are more rows than there was room for.
    TooMany,
    Memory,
}

impl From<Memory> for RunFault {
    ghost from_gives = { λ _ e. e ≡ fault.Memory };

    fn from(_memory: Memory) -> RunFault {
        RunFault::Memory
    }
}
