//! Which extents cover a cell.
ghost use Rattle.std.specs.Prelude.{◌≡◌, ◌≢◌};
ghost use Rattle.m51_monitor.specs.Stores.{covers, is_data, is_same_space, is_over, is_overlaid_mark, is_segment};

use m51_cells::{Cell, Extent, Kind, Space};
use m51_module::{Mark, Placed};

// The same memory.
fn is_same_space(one: Space, other: Space) -> bool
    ensures { result ≡ is_same_space one other }
{
    matches!(
        (one, other),
        (Space::Ram, Space::Ram) | (Space::Xram, Space::Xram) | (Space::Code, Space::Code)
    )
}

// The extent covers the cell.
fn covers(extent: Extent, cell: Cell) -> bool
    ensures { result ≡ covers extent cell }
{
    is_same_space(cell.space, extent.space)
        && extent.first <= cell.at
        && cell.at - extent.first < extent.len
}

// It is a segment, and no bank or reserve.
fn is_segment(mark: Mark) -> bool
    ensures { result ≡ is_segment mark }
{
    match mark {
        Mark::Bank => false,
        Mark::Reserve => false,
        Mark::Absolute => true,
        Mark::Plain => true,
        Mark::Overlaid => true,
    }
}

/// It is an overlaid segment.
pub(crate) fn is_overlaid(mark: Mark) -> bool
    ensures { result ≡ is_overlaid_mark mark }
{
    match mark {
        Mark::Bank => false,
        Mark::Reserve => false,
        Mark::Absolute => false,
        Mark::Plain => false,
        Mark::Overlaid => true,
    }
}

/// It is a segment that covers the cell.
pub(crate) fn is_over(placed: &Placed, cell: Cell) -> bool
    requires { placed.now.kind ≢ Kind.Number }
    ensures { result ≡ is_over placed.now cell }
{
    is_segment(placed.mark) && covers(placed.cells(), cell)
}

/// It is a cell of data memory.
pub(crate) fn is_data(cell: Cell) -> bool
    ensures { result ≡ is_data cell }
{
    match cell.space {
        Space::Ram => cell.at < 2048,
        Space::Xram => cell.at < 65536,
        Space::Code => false,
    }
}
