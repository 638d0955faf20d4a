//! Why a value isn't taken.

ghost use Rattle.std.specs.Prelude.{◌≡◌};
ghost use Rattle.gql_input.specs.declared.fault.InputError.TheVariants.{Memory as InputMemory};
ghost use Rattle.gql_input.specs.declared.fault.VarError.TheVariants.{Memory as VarMemory};

use pg_base::{Pos, Text};
use std::alloc::AllocError;

/// No value, where one is needed.
pub const MISSING: u8 = 1;
/// Null, where none may stand.
pub const NULL_GIVEN: u8 = 2;
/// A value that isn't one of the type.
pub const WRONG_KIND: u8 = 3;
/// An integer that the type doesn't have.
pub const OUT_OF_RANGE: u8 = 4;
/// A field that the input type doesn't have.
pub const UNKNOWN_FIELD: u8 = 5;

/// Why a value isn't one of a type: the number of its first fault.
#[derive(Clone, Copy, Debug, PartialEq, Eq, Drop)]
pub enum InputError {
    Fault(u8),
    /// Memory ran out.
    Memory,
}

impl From<AllocError> for InputError {
    ghost from_gives = { λ _ e. e ≡ InputMemory };

    fn from(_: AllocError) -> InputError {
        InputError::Memory
    }
}

/// The first fault of variables: its number, and the name and the position of the variable.
#[derive(Debug, Drop)]
pub struct VarFault {
    pub which: u8,
    pub name: Text,
    pub pos: Pos,
}

/// Why variables aren't taken.
#[derive(Debug, Drop)]
pub enum VarError {
    Fault(VarFault),
    /// Memory ran out.
    Memory,
}

impl From<AllocError> for VarError {
    ghost from_gives = { λ _ e. e ≡ VarMemory };

    fn from(_: AllocError) -> VarError {
        VarError::Memory
    }
}
