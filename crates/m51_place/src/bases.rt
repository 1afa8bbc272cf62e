//! The least base that is free for a segment.
ghost use Rattle.std.specs.Prelude.{◌≡◌, ◌+◌, ◌<◌, ◌≤◌, ℕ, IfOk, IfSome};
ghost use Rattle.m51_cells.specs.Extent.{extent_of};
ghost use Rattle.m51_module.specs.Cells.{extent_at};
ghost use Rattle.std.specs.List.{All};
ghost use Rattle.m51_place.specs.Bases.{share};
ghost use Rattle.m51_place.specs.Placement.{base_for};
ghost use Rattle.m51_place.specs.Ready.{IsNumbered, IsPlaceable};

use crate::conflicts::in_the_way;
use crate::{Numbered, Ranked};
use m51_bases::{arrange, first_clear};
use m51_cells::{Extent, Kind, NoMemory, Space, cells_of, meets};
use m51_graph::Graph;
use m51_module::Placed;
use std::alloc::Global;

// Whether two extents share a cell.
fn share(a: &Extent, b: &Extent) -> bool
    ensures { result ≡ share a.now b.now }
{
    meets(a, b)
}

// The cells of a segment; what has no kind covers none.
#[tactic(auto, using(crate::proofs::Free::cells_end))]
fn cells_at(kind: Kind, base: u16, size: u16) -> Extent
    ensures cells { result ≡ extent_of kind base size }
    ensures end { result.first + result.len ≤ 1048576 }
{
    match kind {
        Kind::Number => Extent {
            space: Space::Code,
            first: u32::from(base),
            len: 0,
        },
        _ => cells_of(kind, u32::from(base), u32::from(size)),
    }
}

/// The cells that a placed extent covers; what has no kind covers none.
pub(crate) fn cells(placed: &Placed) -> Extent
    ensures cells { result ≡ extent_at placed.now }
    ensures end { result.first + result.len ≤ 1048576 }
{
    cells_at(placed.kind, placed.base, placed.size)
}

// Whether the placed extent shares a cell with these.
pub(crate) fn shares(placed: &Placed, other: &Extent) -> bool
    ensures { result ≡ share (extent_at placed.now) other.now }
{
    share(&cells(placed), other)
}

// The memory in which segments of the kind lie.
fn space_of(kind: Kind) -> Space
    ensures { (base size : ℕ) → result ≡ (extent_of kind base size).space }
{
    match kind {
        Kind::Direct | Kind::Idata | Kind::Bits => Space::Ram,
        Kind::Xdata => Space::Xram,
        Kind::Code | Kind::Number => Space::Code,
    }
}

// The base as it is placed.
fn as_base(base: Option<u32>) -> Option<u16>
    requires { IfSome base (λ b. b < 65536) }
    ensures { result ≡ base }
{
    match base {
        Some(base) => Some(base as u16),
        None => None,
    }
}

/// The least base at which the segment fits and no earlier extent in conflict covers one of its cells; `None` where
/// there is none. It goes over the extents in ascending order, and raises the base after each that it meets.
///
/// Source: RL51 guide.
pub(crate) fn base_for(
    alloc: Global,
    graph: &Graph,
    earlier: &[Numbered],
    ranked: &Ranked,
) -> Result<Option<u16>, NoMemory>
    requires ranked { IsPlaceable graph.now ranked.now }
    requires earlier { All (IsNumbered graph.now) earlier.now }
    ensures { IfOk result (λ base. base ≡ base_for graph.now earlier.now ranked.now) }
{
    let segment = &ranked.segment;
    let space = space_of(segment.kind);
    let mut extents = in_the_way(alloc, graph, ranked.number, space, earlier)?;
    arrange(&mut extents)?;
    let size = u32::from(segment.size);
    Ok(as_base(first_clear(&extents, segment.kind, segment.reloc, size)))
}
