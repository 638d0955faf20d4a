//! The rule that a document breaks.

ghost use Rattle.std.specs.Prelude.{◌≡◌};
ghost use Rattle.gql_nodes.specs.declared.fault.RuleError.TheVariants.{Memory};

use pg_base::Pos;
use std::alloc::AllocError;

/// The least rule that is broken, by its number from 1, and where the first node stands that breaks it.
#[derive(Clone, Copy, Debug, PartialEq, Eq, Drop)]
pub struct RuleFault {
    pub rule: u8,
    pub pos: Pos,
}

/// Why a document isn't known to keep the rules.
#[derive(Clone, Copy, Debug, PartialEq, Eq, Drop)]
pub enum RuleError {
    Fault(RuleFault),
    /// Memory ran out.
    Memory,
}

impl From<AllocError> for RuleError {
    ghost from_gives = { λ _ e. e ≡ Memory };

    fn from(_: AllocError) -> RuleError {
        RuleError::Memory
    }
}
