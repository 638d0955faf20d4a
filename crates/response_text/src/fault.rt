//! Why a response has no text.

ghost use Rattle.std.specs.Prelude.{◌≡◌};
ghost use Rattle.response_text.specs.declared.fault.ResponseFault.TheVariants.{Memory as NoMemory};

use pg_base::Memory;

/// Why a response has no text.
#[derive(Clone, Copy, Debug, PartialEq, Eq, Drop)]
pub enum ResponseFault {
    /// It has more than 64 MiB.
    TooLarge,
    /// Memory ran out.
    Memory,
}

impl From<Memory> for ResponseFault {
    ghost from_gives = { λ _ e. e ≡ NoMemory };

    fn from(_: Memory) -> ResponseFault {
        ResponseFault::Memory
    }
}
