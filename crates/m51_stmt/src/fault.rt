//! What may be wrong with a line.
ghost use Rattle.std.specs.Prelude.{◌≡◌};

use m51_cells::{BAD_FORM, NoMemory};
use std::alloc::{AllocError, AllocFailed};

/// What is wrong with a line.
///
/// Source: own choice ("Faults of a line").
#[derive(Clone, Copy, Debug, PartialEq, Eq)]
pub enum StmtError {
    /// The fault E`number`: 1 to 5 as of tokens, 6 if an expression or an operand is missing, 11 for no instruction or
    /// a form that it has not, 12 for a first `%`, for a directive, definition or control line with a syntax error, or
    /// for a reserved word that is defined.
    Fault { number: u8 },
    /// Out of memory.
    Memory,
}

// A directive, a definition or a control has a syntax error, or a reserved word is defined.
pub(crate) const OUT_OF_FORM: StmtError = StmtError::Fault { number: BAD_FORM };

impl From<AllocError> for StmtError {
    ghost use Rattle.m51_stmt.specs.declared.fault.StmtError.TheVariants.{Memory};

    ghost from_gives = { λ _ e. e ≡ Memory };

    fn from(_error: AllocError) -> StmtError {
        StmtError::Memory
    }
}

impl<T: Drop> From<AllocFailed<T>> for StmtError {
    ghost use Rattle.m51_stmt.specs.declared.fault.StmtError.TheVariants.{Memory};

    ghost from_gives = { λ _ e. e ≡ Memory };

    fn from(_error: AllocFailed<T>) -> StmtError {
        StmtError::Memory
    }
}

impl From<NoMemory> for StmtError {
    ghost use Rattle.m51_stmt.specs.declared.fault.StmtError.TheVariants.{Memory};

    ghost from_gives = { λ _ e. e ≡ Memory };

    fn from(_error: NoMemory) -> StmtError {
        StmtError::Memory
    }
}
