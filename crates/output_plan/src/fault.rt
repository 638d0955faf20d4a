//! Why values have no text.

use pg_base::Memory;

/// Why values have no text.
#[derive(Clone, Copy, Debug, PartialEq, Eq, Drop)]
pub enum PrintFault {
    /// It has more than 64 MiB.
    TooLong,
    /// Memory ran out.
    Memory,
}

impl From<Memory> for PrintFault {
    ghost use Rattle.std.specs.Prelude.{◌≡◌};
    ghost use Rattle.output_plan.specs.declared.fault.PrintFault.TheVariants as fault;

    ghost from_gives = { λ _ e. e ≡ fault.Memory };

    fn from(_memory: Memory) -> PrintFault {
        PrintFault::Memory
    }
}
