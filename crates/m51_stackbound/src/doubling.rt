//! ReachedAddresses that two points have.
ghost use Rattle.std.specs.Prelude.{◌≡◌, [], IfOk, length};
ghost use Rattle.m51_stackbound.specs.Rules.{IsLeast};
ghost use Rattle.m51_stackbound.specs.Twice.{HasTwo, NotesPlace};

use crate::judging::{lesser, reached_address};
use crate::point::{Point, ReachedAddress};
use indexmap::IndexSet;
use m51_cells::NoMemory;
use std::alloc::Global;
use std::marker::Model;

/// ReachedAddresses, each once, which contracts see as a list.
///
/// Source: own choice ("Stack bound").
#[derive(Drop)]
struct ReachedAddresses {
    addresses: IndexSet<ReachedAddress>,
}

impl Model for ReachedAddresses {
    ghost use Rattle.std.specs.Prelude.{List};
    ghost use Rattle.m51_stackbound.specs.declared.point.ReachedAddress.{ReachedAddress as AddressValue};

    ghost Value = { List AddressValue };

    ghost view = { λ p. p.addresses.keys };
}

impl ReachedAddresses {
    // No reached address yet.
    fn new(alloc: Global) -> ReachedAddresses
        ensures { result ≡ [] }
    {
        ReachedAddresses {
            addresses: IndexSet::new(alloc),
        }
    }

    // Adds a reached address, and says whether it was there. Out of memory is the only error.
    fn note(&mut self, reached: ReachedAddress) -> Result<bool, NoMemory>
        ensures { IfOk result (λ again. NotesPlace self.old reached self.new again) }
    {
        let (_, added) = self.addresses.insert_full(reached)?;
        Ok(!added)
    }
}

/// K5: the first reached address that two of the points have.
pub(crate) fn first_twice(
    alloc: Global,
    points: &[Point],
) -> Result<Option<ReachedAddress>, NoMemory>
    ensures { IfOk result (λ reached. IsLeast (HasTwo points.now (length points.now)) reached) }
{
    let mut addresses = ReachedAddresses::new(alloc);
    let mut least = None;
    for point in points {
        let reached = reached_address(point);
        if addresses.note(reached)? {
            least = Some(lesser(least, reached));
        }
    }
    Ok(least)
}
