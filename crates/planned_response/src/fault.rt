//! Why a query has no response.

/// Why a query has no response.
#[derive(Clone, Copy, Debug, PartialEq, Eq, Drop)]
pub enum RespondFault {
    /// The store failed.
    Store,
    /// It visits more than 200,000 rows, or its text has more than 64 MiB.
    TooLarge,
    /// Memory ran out.
    Memory,
}

/// Memory ran out while a plan was made.
#[derive(Clone, Copy, Debug, PartialEq, Eq, Drop)]
pub enum PlanFault {
    /// Before it was counted.
    Uncounted,
    /// After that: the plan was drafted, and dropped.
    Counted,
}
