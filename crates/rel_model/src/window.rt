//! Conditions, orders and windows.

use pg_base::{Cell, Mark};

/// A cell that a row must have at a column; a null is equal to a null.
#[derive(Drop)]
pub struct Equal {
    pub column: u32,
    pub cell: Cell,
}

/// A column that rows are ordered by.
#[derive(Clone, Copy, Drop)]
pub struct By {
    pub column: u32,
    pub descending: bool,
}

/// What part of an ordered list is asked for.
#[derive(Drop)]
pub struct Window {
    pub first: Option<u64>,
    pub last: Option<u64>,
    pub offset: u64,
    pub before: Option<Mark>,
    pub after: Option<Mark>,
}
