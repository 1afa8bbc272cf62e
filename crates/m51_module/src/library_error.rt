//! Why a library, or an edit of one, is refused.
use crate::ObjError;
use m51_cells::{Name, NoMemory};
use std::alloc::AllocFailed;
use thiserror::Error;

/// Why a library, or an edit of one, is refused.
///
/// Source: own choice ("Libraries").
#[derive(Clone, Copy, Debug, PartialEq, Eq, Error)]
pub enum LibError {
    /// A module of this name is held already.
    #[error("a module of that name is held already")]
    B1 { name: Name },
    /// No module of this name is held.
    #[error("no module of that name is held")]
    B2 { name: Name },
    /// Two modules would define this public: the first such public of the module that comes in.
    #[error("two modules would define one public")]
    B3 { name: Name },
    /// The library holds 255 modules.
    #[error("the library holds 255 modules")]
    Full,
    /// The bytes are no library. It is never out of memory.
    #[error("the bytes are no library")]
    Object(ObjError),
    /// Out of memory.
    #[error("out of memory")]
    Memory,
}

impl From<NoMemory> for LibError {
    ghost use Rattle.std.specs.Prelude.{◌≡◌};
    ghost use Rattle.m51_module.specs.declared.library_error.LibError.TheVariants.{Memory};

    ghost from_gives = { λ _ error. error ≡ Memory };

    fn from(_error: NoMemory) -> LibError {
        LibError::Memory
    }
}

impl<T: Drop> From<AllocFailed<T>> for LibError {
    ghost use Rattle.std.specs.Prelude.{◌≡◌};
    ghost use Rattle.m51_module.specs.declared.library_error.LibError.TheVariants.{Memory};

    ghost from_gives = { λ _ error. error ≡ Memory };

    fn from(_error: AllocFailed<T>) -> LibError {
        LibError::Memory
    }
}
