//! Entries whose plans are ready to be run.

ghost use Rattle.std.specs.Prelude.{◌≡◌};
ghost use Rattle.batch_execute.specs.Ready.{IsReadyFor};

use plan_steps::Entry;
use std::marker::Model;

/// An entry whose plan is ready, which stays so wherever it is kept.
#[derive(Drop)]
pub struct ReadyEntry {
    entry: Entry,
}

impl Model for ReadyEntry {
    ghost use Rattle.std.specs.Coded.{codes};
    ghost use Rattle.plan_steps.specs.contracts.entry.Entry as entry_type;
    ghost use Rattle.plan_steps.specs.View.{Planned};
    ghost use Rattle.batch_execute.specs.Ready.{IsReadyFor};

    ghost Value = { Planned };

    ghost coded = { Prim.hlevel (codes, entry_type.the_row.coded) };

    ghost view = { λ r. r.entry };

    ghost invariant = { λ r. IsReadyFor r.entry };
}

impl ReadyEntry {
    pub fn of(entry: Entry) -> ReadyEntry
        requires { IsReadyFor entry }
        ensures { result ≡ entry }
    {
        ReadyEntry { entry }
    }

    /// Tells what the type keeps, and does nothing.
    pub fn know(&self)
        ensures { IsReadyFor self.now }
    {
        let _ = &self.entry;
    }

    pub fn entry(&self) -> &Entry
        ensures { result.now ≡ self.now }
    {
        &self.entry
    }
}
