//! The total: the greatest value that SP may get.
ghost use Rattle.std.specs.Prelude.{◌≡◌, ◌≤◌, ◌<◌, ℕ, length, slice_index};
ghost use Rattle.m51_module.specs.Rising.{Rises};
ghost use Rattle.m51_stackbound.specs.Totals.{IsSum, with_bytes};

use crate::climbing::depth_in;
use m51_module::Start;

/// The two greatest of several numbers of bytes.
///
/// Source: own choice ("Stack bound").
#[derive(Clone, Copy, Debug, PartialEq, Eq)]
pub(crate) struct Greatest {
    pub first: u16,
    /// At most the first.
    pub second: u16,
}

// The two greatest, with one more number.
#[tactic(auto, unfolding(crate::specs::Totals::with_bytes))]
fn with_bytes(old: Greatest, bytes: u16) -> Greatest
    ensures { result ≡ with_bytes old bytes }
{
    if old.first < bytes {
        return Greatest {
            first: bytes,
            second: old.first,
        };
    }
    if old.second < bytes {
        return Greatest {
            first: old.first,
            second: bytes,
        };
    }
    old
}

/// The total, which SP does not pass before an event: the depth of the reset, and the two greatest depths of
/// interrupts, each with two bytes for its return address.
pub(crate) fn total_of(depths: &[u16], vectors: &[u16]) -> u16
    requires len { length depths.now ≡ 65537 }
    requires most { (i : ℕ) → i < length depths.now → slice_index depths.now i ≤ 256 }
    requires rising { Rises vectors.now }
    ensures { IsSum depths.now vectors.now result }
{
    let mut greatest = Greatest {
        first: 0,
        second: 0,
    };
    for vector in vectors {
        greatest = with_bytes(greatest, depth_in(depths, Start::At(*vector)) + 2);
    }
    depth_in(depths, Start::Reset) + greatest.first + greatest.second
}
