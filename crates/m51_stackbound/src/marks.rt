//! Marks of addresses.
ghost use Rattle.std.specs.Prelude.{◌≡◌, false, replicate, IfOk};

use std::alloc::{AllocError, Global};

/// How many addresses there are.
pub(crate) const ADDRESSES: usize = 65536;

/// Marks, of this number, that are all false.
pub(crate) fn no_marks(alloc: Global, count: usize) -> Result<Vec<bool>, AllocError>
    ensures { IfOk result (λ marks. marks.items ≡ replicate count false) }
{
    vec![in alloc; false; count]
}
