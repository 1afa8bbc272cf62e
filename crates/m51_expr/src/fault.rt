//! What may be wrong with an expression.
ghost use Rattle.std.specs.Prelude.{◌≡◌};

use m51_cells::NoMemory;
use std::alloc::{AllocError, AllocFailed};

/// What is wrong with an expression that is read.
///
/// Source: own choice ("Faults of a line").
#[derive(Clone, Copy, Debug, PartialEq, Eq)]
pub enum ReadError {
    /// The fault E`number`, which is `NO_EXPRESSION`: there is no expression.
    Fault { number: u8 },
    /// Out of memory.
    Memory,
}

impl From<NoMemory> for ReadError {
    ghost use Rattle.m51_expr.specs.declared.fault.ReadError.TheVariants.{Memory};

    ghost from_gives = { λ _ e. e ≡ Memory };

    fn from(_error: NoMemory) -> ReadError {
        ReadError::Memory
    }
}

impl From<AllocError> for ReadError {
    ghost use Rattle.m51_expr.specs.declared.fault.ReadError.TheVariants.{Memory};

    ghost from_gives = { λ _ e. e ≡ Memory };

    fn from(_error: AllocError) -> ReadError {
        ReadError::Memory
    }
}

impl<T: Drop> From<AllocFailed<T>> for ReadError {
    ghost use Rattle.m51_expr.specs.declared.fault.ReadError.TheVariants.{Memory};

    ghost from_gives = { λ _ e. e ≡ Memory };

    fn from(_error: AllocFailed<T>) -> ReadError {
        ReadError::Memory
    }
}

/// The fault E`number` of an expression that has no value: `UNKNOWN_NAME` for a name without a value,
/// `BASE_NOT_ALLOWED` for a base that is not allowed, `DIVISION_BY_ZERO`, and `NO_BIT` for a bit number over 7 or a
/// byte whose bits have no addresses.
///
/// Source: own choice ("Faults of a line").
#[derive(Clone, Copy, Debug, PartialEq, Eq)]
pub struct ExprError {
    pub number: u8,
}
