//! Why a script is refused.
ghost use Rattle.std.specs.Prelude.{◌≡◌};

use m51_cells::NoMemory;
use std::alloc::{AllocError, AllocFailed};
use thiserror::Error;

/// Why a script is refused.
///
/// Source: own choice ("Scripts").
#[derive(Clone, Copy, Debug, PartialEq, Eq, Error)]
pub enum ScriptError {
    /// The first refused line, counted from 1, has no form of a script's line; or it is a FILL after another or after a
    /// timed line.
    #[error("line {line} is not a line of a script")]
    S1 { line: u32 },
    /// The first refused line has a cycle below that of an earlier line.
    #[error("the cycle of line {line} is less than an earlier one")]
    S2 { line: u32 },
    /// The first refused line has a number out of its range.
    #[error("a number of line {line} is out of its range")]
    S3 { line: u32 },
    /// There are over 65,536 lines.
    #[error("the script has too many lines")]
    Limit,
    /// Out of memory.
    #[error("out of memory")]
    Memory,
}

impl From<AllocError> for ScriptError {
    ghost use Rattle.m51_script.specs.declared.error.ScriptError.TheVariants.{Memory};

    ghost from_gives = { λ _ e. e ≡ Memory };

    fn from(_error: AllocError) -> ScriptError {
        ScriptError::Memory
    }
}

impl From<NoMemory> for ScriptError {
    ghost use Rattle.m51_script.specs.declared.error.ScriptError.TheVariants.{Memory};

    ghost from_gives = { λ _ e. e ≡ Memory };

    fn from(_error: NoMemory) -> ScriptError {
        ScriptError::Memory
    }
}

impl<T: Drop> From<AllocFailed<T>> for ScriptError {
    ghost use Rattle.m51_script.specs.declared.error.ScriptError.TheVariants.{Memory};

    ghost from_gives = { λ _ e. e ≡ Memory };

    fn from(_error: AllocFailed<T>) -> ScriptError {
        ScriptError::Memory
    }
}
