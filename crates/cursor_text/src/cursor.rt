//! Cursors.

use pg_base::{Text, Value};
use sqlite_items::Items;

/// A row's place in an order, as a client names it.
#[derive(Drop)]
pub struct Cursor {
    /// The names of the order's cases, without `NATURAL`.
    pub order: Items<Text>,
    /// What the row is ordered by, a value for each name: a null, an integer, a truth or a text, which may be an
    /// enum's label.
    pub values: Items<Value>,
    /// The row's number, from 1.
    pub number: u64,
}
