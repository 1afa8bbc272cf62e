//! Out of memory.
use std::alloc::{AllocError, AllocFailed};

/// Out of memory: the one answer that no clause ties to its cause.
///
/// Source: own choice ("Out of memory").
#[derive(Clone, Copy, Debug, PartialEq, Eq)]
pub struct NoMemory;

impl From<AllocError> for NoMemory {
    fn from(_error: AllocError) -> NoMemory {
        NoMemory
    }
}

impl<T: Drop> From<AllocFailed<T>> for NoMemory {
    fn from(_error: AllocFailed<T>) -> NoMemory {
        NoMemory
    }
}
