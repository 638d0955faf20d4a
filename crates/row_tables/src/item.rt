//! Rows in a shared list.

ghost use Rattle.std.specs.Prelude.{◌≡◌};
ghost use Rattle.std.specs.Bool.{nat_lt};

use rel_model::Row;
use shared_list::{Marked, Probe, Slot};
use std::marker::Model;

/// A row, which a list finds by its number. Contracts see it as the row.
#[derive(Drop)]
pub struct RowItem {
    row: Row,
}

/// A place of a shared list of rows.
pub type RowSlot = Slot<RowItem>;

impl Model for RowItem {
    ghost use Rattle.rel_model.specs.declared.tables.Row.{Row};

    ghost Value = { Row };

    ghost view = { λ item. item.row };
}

impl RowItem {
    pub(crate) fn of(row: Row) -> RowItem
        ensures { result ≡ row }
    {
        RowItem { row }
    }

    pub fn row(&self) -> &Row
        ensures { result.now ≡ self.now }
    {
        &self.row
    }
}

impl Marked for RowItem {
    ghost mark = { λ row. row.number };

    fn mark(&self) -> u64 {
        self.row.number
    }
}

/// The number of a row that is looked for.
#[derive(Drop)]
pub(crate) struct ByNumber {
    pub number: u64,
}

impl Probe<RowItem> for ByNumber {
    ghost before = { λ probe row. nat_lt row.number probe.number };

    fn by_mark(&self, mark: u64) -> Option<bool> {
        Some(mark < self.number)
    }

    fn is_before(&self, item: &RowItem) -> bool {
        item.row.number < self.number
    }
}
