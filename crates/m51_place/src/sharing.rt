//! Fixed extents that share a cell.
ghost use Rattle.std.specs.Prelude.{◌≡◌, ◌<◌, IfSome, Some, length, slice_get, take};
ghost use Rattle.m51_graph.specs.Graphs.{passed};
ghost use Rattle.m51_place.specs.Fixed.{first_met, shared_at, shared_extents};

use crate::Numbered;
use crate::bases::{cells, shares};
use m51_module::Refusal;

// The index of the first earlier extent that shares a cell with this one.
fn first_met(earlier: &[Numbered], extent: &Numbered) -> Option<usize>
    ensures index { result ≡ first_met earlier.now extent.now }
    ensures inside { IfSome result (λ index. index < length earlier.now) }
{
    let cells = cells(&extent.placed);
    earlier
        .iter()
        .position(|other| shares(&other.placed, &cells))
}

// Refuses an extent that meets an earlier one.
fn check_next(earlier: &[Numbered], extent: &Numbered) -> Result<(), Refusal>
    ensures { result ≡ passed (shared_at earlier.now extent.now (first_met earlier.now extent.now)) }
{
    match first_met(earlier, extent) {
        Some(index) => Err(Refusal::L9 {
            one: earlier[index].placed.title,
            two: extent.placed.title,
        }),
        None => Ok(()),
    }
}

/// Refuses, by L9, the first of these extents that meets an earlier one, and names the first that it meets.
///
/// Source: RL51 guide.
pub(crate) fn check_shared(fixed: &[Numbered]) -> Result<(), Refusal>
    ensures { result ≡ passed (shared_extents fixed.now) }
{
    for (index, extent) in fixed.iter().enumerate() {
        check_next(&fixed[..index], extent)?;
    }
    Ok(())
}
