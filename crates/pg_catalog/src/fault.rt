//! Faults of parts.

ghost use Rattle.std.specs.Prelude.{◌≡◌};
ghost use Rattle.pg_catalog.specs.declared.fault.BuildError.TheVariants.{Memory};

use pg_base::{Pos, Text};
use std::alloc::AllocError;

/// A table or an enum has the name already.
pub const DOUBLE_NAME: u8 = 1;
/// A table has two columns of one name, or a key or a link names a column twice.
pub const DOUBLE_COLUMN: u8 = 2;
/// No table has the name.
pub const UNKNOWN_TABLE: u8 = 3;
/// The table has no column of the name.
pub const UNKNOWN_COLUMN: u8 = 4;
/// The table has a primary key already.
pub const TWO_PRIMARY_KEYS: u8 = 5;
/// The referenced columns are those of no key.
pub const NO_KEY: u8 = 6;
/// Kinds differ: a column's and its target's, or a DEFAULT's or identity's and its column's.
pub const TYPES_DIFFER: u8 = 7;
/// A key or a link of the table has the name already.
pub const DOUBLE_CONSTRAINT: u8 = 8;
/// The name is longer than 63 bytes.
pub const LONG_NAME: u8 = 9;
/// A limit is passed.
pub const LIMIT: u8 = 10;

/// The fault of a part: the least of its numbers, the part's position, and the name at fault.
#[derive(Debug, Drop)]
pub struct CatalogFault {
    pub which: u8,
    pub pos: Pos,
    pub name: Text,
}

/// Why no catalog was built.
#[derive(Debug, Drop)]
pub enum BuildError {
    Fault(CatalogFault),
    /// Memory ran out.
    Memory,
}

impl From<AllocError> for BuildError {
    ghost from_gives = { λ _ e. e ≡ Memory };

    fn from(_: AllocError) -> BuildError {
        BuildError::Memory
    }
}
