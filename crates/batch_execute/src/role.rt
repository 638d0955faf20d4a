//! What a place shows of what its step found.

use pg_base::Text;

/// What a place shows of what its step found.
#[derive(Drop)]
pub enum Role {
    /// The error in the arguments of a row field.
    Failed(Text),
    /// A list; whether rows of it are shown.
    OfList(bool),
    /// The first row, or null.
    OfRow,
    /// Its rows, one by one.
    Each,
    /// An object that stands where the one above it does.
    Same,
    /// A leaf.
    OfLeaf,
}
