//! Why a plan has no values.

use pg_base::Memory;

/// Why a plan has no values.
#[derive(Clone, Copy, Drop)]
pub enum ExecFault {
    /// The store failed.
    Store,
    /// More rows are visited than there was room for.
    TooManyRows,
    Memory,
}

impl From<Memory> for ExecFault {
    ghost use Rattle.std.specs.Prelude.{◌≡◌};
    ghost use Rattle.batch_execute.specs.declared.fault.ExecFault.TheVariants as fault;

    ghost from_gives = { λ _ e. e ≡ fault.Memory };

    fn from(_memory: Memory) -> ExecFault {
        ExecFault::Memory
    }
}
