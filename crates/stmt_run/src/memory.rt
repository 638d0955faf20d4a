//! A store of rows in memory.

ghost use Rattle.std.specs.Prelude.{◌≡◌, ◌+◌, ◌-◌, ◌^◌, ◌≤◌, min, Some};
ghost use Rattle.stmt_run.specs.Store.{HoldsFor};

use crate::Snapshot;
use crate::batch::find_batch;
use sqlite_items::Items;
use std::alloc::Global;
use std::marker::Model;
use stmt_tree::{Batch, Key, Rows, RunFault, Stmt};

/// Runs statements over the tables of snapshots, and never fails. It counts the statements that it was sent and the rows
/// that they got.
#[derive(Drop)]
pub struct MemRows {
    alloc: Global,
    sent: u64,
    got: u64,
}

impl Model for MemRows {
    ghost use Rattle.stmt_run.specs.Store.{Counts};

    ghost Value = { Counts };

    ghost view = { λ s. record { sent = s.sent; got = s.got } };
}

impl MemRows {
    pub fn new(alloc: Global) -> MemRows
        ensures { result ≡ record { sent = 0; got = 0 } }
    {
        MemRows {
            alloc,
            sent: 0,
            got: 0,
        }
    }

    /// Counts a statement that was sent and is not run.
    pub(crate) fn count_sent(&mut self)
        ensures sent { self.new.sent ≡ min (self.old.sent + 1) (2 ^ 64 - 1) }
        ensures rises { self.old.sent ≤ self.new.sent }
        ensures got { self.new.got ≡ self.old.got }
    {
        self.sent = self.sent.saturating_add(1);
    }

    /// The number of row trees that they got.
    pub fn got(&self) -> u64
        ensures { result ≡ self.now.got }
    {
        self.got
    }
}

impl Rows for MemRows {
    type At = Snapshot;

    ghost serves = { λ _ at c. HoldsFor c at };

    ghost tables_of = { λ _ at. Some at.set.tables };

    ghost sent = { λ s. s.sent };

    ghost got = { λ s. s.got };

    ghost faults = { λ _. 0 };

    fn run(
        &mut self,
        at: &Snapshot,
        stmt: &Stmt,
        keys: &[Key],
        room: u64,
    ) -> Result<Batch, RunFault> {
        self.sent = self.sent.saturating_add(1);
        let mut left = room;
        let found = find_batch(self.alloc, at.tables(), stmt, keys, &mut left)?;
        self.got = self.got.saturating_add(room - left);
        Ok(Batch {
            found: Items::from_vec(found.into_vec()),
        })
    }

    fn sent(&self) -> u64 {
        self.sent
    }
}
