//! A plan with its key.

use crate::key::ShelfKey;
use std::sync::Arc;

/// A plan, and what it is kept under.
#[derive(Drop)]
pub(crate) struct Kept<E> {
    pub key: ShelfKey,
    pub entry: Arc<E>,
}
