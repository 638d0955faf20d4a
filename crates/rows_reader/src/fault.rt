//! Faults of rows.

ghost use Rattle.std.specs.Prelude.{◌≡◌};
ghost use Rattle.rows_reader.specs.declared.fault.LoadError.TheVariants.{Memory};

use pg_base::{Pos, Text};
use std::alloc::AllocError;

/// A literal that the column doesn't take, or an omitted identity value past the last.
pub const BAD_LITERAL: u8 = 1;
/// More values than columns, or fewer.
pub const VALUE_COUNT: u8 = 2;
/// A null in a column that takes none.
pub const NOT_NULL: u8 = 3;
/// A row before it has the same cells in the columns of a key.
pub const UNIQUE: u8 = 4;
/// No row of the target has the cells of a reference.
pub const REFERENCE: u8 = 5;
/// The table has as many rows as it may have.
pub const LIMIT: u8 = 6;
/// A string that is no case of the column's enum.
pub const ENUM_CASE: u8 = 7;
/// A text that is too long for its column.
pub const TEXT_LENGTH: u8 = 8;

/// The fault of a row: its number, the position of the row's `(`, and the name of the column, of the table, or of the key
/// or link.
#[derive(Debug, Drop)]
pub struct RowsFault {
    pub which: u8,
    pub pos: Pos,
    pub name: Text,
}

/// Why no tables were loaded.
#[derive(Debug, Drop)]
pub enum LoadError {
    Fault(RowsFault),
    /// Memory ran out.
    Memory,
}

impl From<AllocError> for LoadError {
    ghost from_gives = { λ _ e. e ≡ Memory };

    fn from(_: AllocError) -> LoadError {
        LoadError::Memory
    }
}
