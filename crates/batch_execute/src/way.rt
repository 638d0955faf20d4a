//! How the rows of a fetch are come by.

/// How the rows of a step are come by.
#[derive(Clone, Copy, Drop)]
pub enum Way {
    /// It is no fetch.
    Other,
    /// By a statement of its own, which is sent for one key at most.
    Once,
    /// By a statement of its own, which is sent for the rows of the fetch at this place.
    Sent(u32),
    /// They stand in the rows of the fetch at this place, as what its child at a place found.
    Read(u32, usize),
}
