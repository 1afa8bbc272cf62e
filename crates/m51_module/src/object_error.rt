//! Why bytes are refused as an object or a library.
use m51_cells::NoMemory;
use std::alloc::AllocFailed;
use thiserror::Error;

/// Why bytes are refused as an object or a library: the first failing test, record by record. Offsets are counted from
/// the first byte, and records from 0.
///
/// Source: own choice ("Places in object files").
#[derive(Clone, Copy, Debug, PartialEq, Eq, Error)]
pub enum ObjError {
    /// The bytes end at this offset, inside a record or before one that must come.
    #[error("the bytes end inside a record or before it")]
    O1 {
        at: u32,
    },
    /// The checksum of the record of this number is wrong: the byte that was found, and the one that makes the sum 0.
    #[error("a checksum is wrong")]
    O2 {
        record_no: u32,
        found: u8,
        needed: u8,
    },
    /// The type of the record at this offset is not allowed there, or bytes follow the end.
    #[error("a record of this type can't stand here")]
    O3 {
        at: u32,
    },
    /// The field at this offset is cut off, has a value that it can't have, or breaks a rule.
    #[error("a field is cut off, out of range or against a rule")]
    O4 {
        at: u32,
    },
    /// The field at this offset names a segment or an external that does not exist.
    #[error("a segment or an external is not there")]
    O5 {
        at: u32,
    },
    /// Out of memory.
    #[error("out of memory")]
    Memory,
}

impl From<NoMemory> for ObjError {
    ghost use Rattle.std.specs.Prelude.{◌≡◌};
    ghost use Rattle.m51_module.specs.declared.object_error.ObjError.TheVariants.{Memory};

    ghost from_gives = { λ _ error. error ≡ Memory };

    fn from(_error: NoMemory) -> ObjError {
        ObjError::Memory
    }
}

impl<T: Drop> From<AllocFailed<T>> for ObjError {
    ghost use Rattle.std.specs.Prelude.{◌≡◌};
    ghost use Rattle.m51_module.specs.declared.object_error.ObjError.TheVariants.{Memory};

    ghost from_gives = { λ _ error. error ≡ Memory };

    fn from(_error: AllocFailed<T>) -> ObjError {
        ObjError::Memory
    }
}
