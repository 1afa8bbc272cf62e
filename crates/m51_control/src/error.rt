//! Why control lines are refused.
ghost use Rattle.std.specs.Prelude.{◌≡◌};

use m51_cells::NoMemory;
use std::alloc::{AllocError, AllocFailed};
use thiserror::Error;

/// Why a file of control lines is refused.
///
/// Source: own choice ("Control lines").
#[derive(Clone, Copy, Debug, PartialEq, Eq, Error)]
pub enum ControlError {
    /// The first line that is neither skipped nor a control, counted from 1 with the skipped lines.
    #[error("line {line} is not a control line")]
    C1 { line: u32 },
    /// There are over 1,000 lines.
    #[error("there are over 1,000 control lines")]
    Limit,
    /// Out of memory.
    #[error("out of memory")]
    Memory,
}

impl From<AllocError> for ControlError {
    ghost use Rattle.m51_control.specs.declared.error.ControlError.TheVariants.{Memory};

    ghost from_gives = { λ _ e. e ≡ Memory };

    fn from(_error: AllocError) -> ControlError {
        ControlError::Memory
    }
}

impl From<NoMemory> for ControlError {
    ghost use Rattle.m51_control.specs.declared.error.ControlError.TheVariants.{Memory};

    ghost from_gives = { λ _ e. e ≡ Memory };

    fn from(_error: NoMemory) -> ControlError {
        ControlError::Memory
    }
}

impl<T: Drop> From<AllocFailed<T>> for ControlError {
    ghost use Rattle.m51_control.specs.declared.error.ControlError.TheVariants.{Memory};

    ghost from_gives = { λ _ e. e ≡ Memory };

    fn from(_error: AllocFailed<T>) -> ControlError {
        ControlError::Memory
    }
}
