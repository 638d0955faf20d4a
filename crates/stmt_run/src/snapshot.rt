//! The tables at one moment.

ghost use Rattle.std.specs.Prelude.{◌≡◌};
ghost use Rattle.std.specs.Arc.{arc_value};

use row_tables::TableSet;
use std::marker::Model;
use std::sync::Arc;

/// A set of tables, shared, with the number of the moment at which it stood.
#[derive(Drop)]
pub struct Snapshot {
    number: u64,
    tables: Arc<TableSet>,
}

impl Model for Snapshot {
    ghost use Rattle.std.specs.Arc.{arc_value};
    ghost use Rattle.stmt_run.specs.Store.{SnapshotParts};

    ghost Value = { SnapshotParts };

    ghost view = { λ s. record { number = s.number; set = arc_value s.tables } };
}

impl Snapshot {
    pub fn of(number: u64, tables: Arc<TableSet>) -> Snapshot
        ensures { result ≡ record { number = number; set = arc_value tables } }
    {
        Snapshot { number, tables }
    }

    pub fn number(&self) -> u64
        ensures { result ≡ self.now.number }
    {
        self.number
    }

    pub(crate) fn tables(&self) -> &TableSet
        ensures { result.now ≡ self.now.set }
    {
        &self.tables
    }
}
