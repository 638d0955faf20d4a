//! Why a reader stops.

use std::alloc::AllocError;

/// Why a reader stops.
#[derive(Drop)]
pub(crate) enum ReadFault {
    /// No cursor has these bytes.
    NoCursor,
    Memory,
}

impl From<AllocError> for ReadFault {
    ghost use Rattle.std.specs.Prelude.{◌≡◌};
    ghost use Rattle.cursor_text.specs.declared.fault.ReadFault.TheVariants.{Memory};

    ghost from_gives = { λ _ e. e ≡ Memory };

    fn from(_: AllocError) -> ReadFault {
        ReadFault::Memory
    }
}
