//! The RX lines of a script.
ghost use Rattle.std.specs.Prelude.{◌≡◌, ◌≤◌, [], ◌==◌, ◌↔◌, IsTrue, IfOk};
ghost use Rattle.m51_script.specs.Timing.{Ascends, latest_cycle, those, with_timed_line};

use crate::timing::{count_before, count_until};
use m51_cells::NoMemory;
use m51_timers_uart::Frame;
use std::alloc::Global;
use std::marker::Model;

// RX lines in their order, which contracts see as their cycles and frames.
#[derive(Drop)]
pub(crate) struct FrameLines {
    cycles: Vec<u32>,
    frames: Vec<Frame>,
}

impl Model for FrameLines {
    ghost use Rattle.m51_timers_uart.specs.declared.receiving.Frame.{Frame};
    ghost use Rattle.m51_script.specs.Timing.{IsTimed, Timed, latest_cycle};

    ghost Value = { Timed Frame };

    ghost view = { λ lines. record { cycles = lines.cycles.items; items = lines.frames.items } };

    ghost invariant = { λ lines. IsTimed latest_cycle lines.cycles.items lines.frames.items };
}

impl FrameLines {
    // There are none.
    #[inline(always)]
    pub(crate) fn is_empty(&self) -> bool
        ensures { IsTrue result ↔ self.now.cycles ≡ [] }
    {
        self.cycles.is_empty()
    }

    // No lines. It does not allocate.
    pub(crate) fn none(alloc: Global) -> FrameLines
        ensures { result ≡ record { cycles = []; items = [] } }
    {
        FrameLines {
            cycles: Vec::new(alloc),
            frames: Vec::new(alloc),
        }
    }

    // One more line, whose cycle is not below those before.
    //
    // Error: out of memory.
    pub(crate) fn with(self, cycle: u32, frame: Frame) -> Result<FrameLines, NoMemory>
        requires order { Ascends 0 cycle self.cycles }
        requires range { cycle ≤ latest_cycle }
        ensures { IfOk result (λ lines. lines ≡ with_timed_line cycle frame self) }
    {
        let FrameLines { cycles, frames } = self;
        let mut cycles = cycles;
        let mut frames = frames;
        cycles.push(cycle)?;
        frames.push(frame)?;
        Ok(FrameLines { cycles, frames })
    }

    // The same lines.
    //
    // Error: out of memory.
    pub(crate) fn copy(&self, alloc: Global) -> Result<FrameLines, NoMemory>
        ensures { IfOk result (λ lines. lines ≡ self.now) }
    {
        Ok(FrameLines {
            cycles: Vec::from_slice(alloc, self.cycles.as_slice())?,
            frames: Vec::from_slice(alloc, self.frames.as_slice())?,
        })
    }

    // The frames of this cycle, in order.
    pub(crate) fn at(&self, cycle: u64) -> &[Frame]
        ensures { result.now ≡ those (λ d. d == cycle) self.now.cycles self.now.items }
    {
        // Most scripts have no line.
        if self.cycles.is_empty() {
            return &[];
        }
        let start = count_before(self.cycles.as_slice(), cycle);
        let end = count_until(self.cycles.as_slice(), cycle);
        let from = &self.frames[start..];
        &from[..end.saturating_sub(start)]
    }
}
