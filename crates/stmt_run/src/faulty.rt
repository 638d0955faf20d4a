//! A store whose calls fail where they are planned to.

ghost use Rattle.std.specs.Prelude.{◌≡◌, ◌==◌, drop, ◌+◌, ◌-◌, ◌^◌, ◌<◌, ◌≤◌, min, Some, length, IfOk};
ghost use Rattle.std.specs.List.{list_any};
ghost use Rattle.pg_base.specs.Catalog.{CatalogParts};
ghost use Rattle.pg_base.specs.Lists.{Each};
ghost use Rattle.rel_model.specs.declared.tables.Tables.{Tables};
ghost use Rattle.stmt_tree.specs.declared.stmt.Child.TheViews.{out-Stmt};
ghost use Rattle.stmt_tree.specs.Meaning.{meaning_of};
ghost use Rattle.stmt_tree.specs.Form.{IsStmtOf, HasForm, Answers, IsStoreFault, GotWithin, Rose};
ghost use Rattle.stmt_run.specs.Store.{SnapshotParts, HoldsFor, FailsAsPlanned};

use crate::{MemRows, Snapshot};
use sqlite_items::Items;
use std::marker::Model;
use stmt_tree::{Batch, Key, Rows, RunFault, Stmt};

/// Rows in memory, with a list of the calls that are to fail, by their numbers from 0.
#[derive(Drop)]
pub struct FaultyRows {
    rows: MemRows,
    failing: Items<u64>,
    calls: u64,
    faults: u64,
}

impl Model for FaultyRows {
    ghost use Rattle.stmt_run.specs.Store.{FaultyCounts};

    ghost Value = { FaultyCounts };

    ghost view = { λ s. record {
      sent = s.rows.sent;
      got = s.rows.got;
      failing = s.failing;
      calls = s.calls;
      faults = s.faults;
    } };
}

/// Whether a call is among those that are to fail.
fn is_planned(failing: &[u64], call: u64) -> bool
    ensures { result ≡ list_any (λ n. n == call) failing.now }
{
    for number in failing {
        if *number == call {
            return true;
        }
    }
    false
}

impl FaultyRows {
    pub fn new(rows: MemRows, failing: Items<u64>) -> FaultyRows
        ensures { result ≡ record {
          sent = rows.sent;
          got = rows.got;
          failing = failing;
          calls = 0;
          faults = 0;
        } }
    {
        FaultyRows {
            rows,
            failing,
            calls: 0,
            faults: 0,
        }
    }
}

impl Rows for FaultyRows {
    type At = Snapshot;

    ghost serves = { λ _ at c. HoldsFor c at };

    ghost tables_of = { λ _ at. Some at.set.tables };

    ghost sent = { λ s. s.sent };

    ghost got = { λ s. s.got };

    ghost faults = { λ s. s.faults };

    fn run(
        &mut self,
        at: &Snapshot,
        stmt: &Stmt,
        keys: &[Key],
        room: u64,
    ) -> Result<Batch, RunFault>
        requires served { (c : CatalogParts) × HoldsFor c at.now × IsStmtOf c stmt.now }
        requires keys { Each (λ k. length k.cells ≡ length (out-Stmt stmt.now).by) keys.now }
        ensures serves { (a : SnapshotParts) (c : CatalogParts) → HoldsFor c a → HoldsFor c a }
        ensures serves_no_more { (a : SnapshotParts) (c : CatalogParts)
            → HoldsFor c a → HoldsFor c a }
        ensures told { (a : SnapshotParts) → Some a.set.tables ≡ Some a.set.tables }
        ensures count { IfOk result (λ b. length b.found ≡ length keys.now) }
        ensures form { IfOk result (λ b. (c : CatalogParts) → HoldsFor c at.now →
            IsStmtOf c stmt.now → Each (HasForm c stmt.now) b.found) }
        ensures means { (tables : Tables) → Some at.now.set.tables ≡ Some tables →
            Answers room (meaning_of tables stmt.now keys.now) result }
        ensures sent { self.new.sent ≡ min (self.old.sent + 1) (2 ^ 64 - 1) }
        ensures rises { self.old.sent ≤ self.new.sent }
        ensures got { GotWithin self.old.got self.new.got result }
        ensures faults { self.old.faults ≤ self.new.faults }
        ensures cause { IsStoreFault result → Rose self.old.faults self.new.faults }
        ensures plan { self.new.failing ≡ self.old.failing }
        ensures calls { self.old.calls + 1 < 2 ^ 64 → self.new.calls ≡ self.old.calls + 1 }
        ensures planned { FailsAsPlanned (list_any (λ n. n == self.old.calls) self.old.failing)
            result }
    {
        let call = self.calls;
        self.calls = self.calls.saturating_add(1);
        if is_planned(self.failing.as_slice(), call) {
            self.rows.count_sent();
            self.faults = self.faults.saturating_add(1);
            return Err(RunFault::Store);
        }
        self.rows.run(at, stmt, keys, room)
    }

    fn sent(&self) -> u64 {
        self.rows.sent()
    }
}
