//! What the trace of a run reports.
use crate::Cell;

/// Why a transfer of control is refused.
///
/// Source: own choice ("Events").
#[derive(Clone, Copy, Debug, PartialEq, Eq)]
pub enum Why {
    /// No unit covers the target.
    NoUnit,
    /// The target lies in another unit, to which there is no edge.
    NoEdge,
    /// A return where no call, or no interrupt, is on top.
    NotCalled,
    /// A return to another address than the recorded one.
    WrongAddress,
    /// A return with the stack pointer elsewhere than after its call.
    SpMoved,
    /// The stack pointer would fall below the recorded one.
    SpBelow,
    /// No root begins at the vector.
    NoHandler,
    /// The root of the vector is still running.
    RootBusy,
    /// The instruction, or the one after it, leaves the current unit.
    PastEnd,
}

/// What stops a run before a step, which is then not performed.
///
/// Source: own choice ("Events").
#[derive(Clone, Copy, Debug, PartialEq, Eq)]
pub enum Event {
    /// V1: an undeclared transfer of control between two program addresses.
    Transfer { why: Why, from: u16, to: u16 },
    /// V2: a read or a write of a cell that overlaid segments cover, none of which is live, by the instruction at this
    /// address.
    Outside { cell: Cell, at: u16 },
    /// V3: a read of a cell of a live overlaid segment that was not written since the segment became live. The segment
    /// is its index among the placed ones.
    Unwritten { cell: Cell, segment: u16, at: u16 },
    /// V4: the reserved opcode A5H.
    Reserved { at: u16 },
    /// V5: an instruction that would set the power-down bit of PCON.
    PowerDown { at: u16 },
}

/// One line of the trace.
///
/// Source: own choice ("The record").
#[derive(Clone, Copy, Debug, PartialEq, Eq)]
pub enum Entry {
    /// A write to the latch of port 0 to 3, with the machine cycle in which its instruction started.
    Port {
        cycle: u64,
        port: u8,
        value: u8,
    },
    /// A byte whose sending ended with this machine cycle, and its ninth bit in modes 2 and 3.
    Sent {
        cycle: u64,
        byte: u8,
        ninth: Option<bool>,
    },
}
