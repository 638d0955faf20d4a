//! What a script gives: a catalog, and the rows that it puts into the catalog's tables.

use crate::columns::Columns;
use crate::compact_text::CompactText;
use pg_base::{Catalog, Pos, Sequence};
use sqlite_items::Items;

/// What a script gives.
#[derive(Drop)]
pub struct Script {
    pub catalog: Catalog,
    /// The rows of all INSERTs, in their order.
    pub rows: Sequence<RowText>,
}

/// A row of an INSERT as it is written, its names looked up in the whole catalog.
#[derive(Drop)]
pub struct RowText {
    /// Where its `(` stands.
    pub pos: Pos,
    /// The place of its table.
    pub table: u32,
    /// The places of its columns. Without a column list these are the table's first columns, as many as the row has
    /// values, or all where it has more: then a row with another number of values has too many or too few.
    pub columns: Columns,
    /// Its values.
    pub cells: Items<Literal>,
}

/// A value as it is written.
#[derive(Drop)]
pub enum Literal {
    /// Digits, with a `-` before them where one stands there.
    Number(CompactText),
    /// A string without its quotes and escapes.
    Str(CompactText),
    True,
    False,
    Null,
    /// The word DEFAULT in place of a value.
    Default,
}
