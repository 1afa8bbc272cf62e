//! A board script.
ghost use Rattle.std.specs.Prelude.{◌≡◌, ◌==◌, ◌<◌, [], ℕ, ◌↔◌, IsTrue, IfOk, nat_le, slice_index};
ghost use Rattle.m51_script.specs.Timing.{those};
ghost use Rattle.m51_script.specs.Levels.{all_high, levels_after};
ghost use Rattle.m51_script.specs.Laws.{last_level};
ghost use Rattle.m51_script.specs.Reading.{plain_script};

use crate::frame_lines::FrameLines;
use crate::pin_lines::PinLines;
use m51_cells::NoMemory;
use m51_flat::Pins;
use m51_timers_uart::Frame;
use std::alloc::Global;

/// What a board script says: the fill of the memories, the levels of the pins and the frames that arrive.
///
/// Source: own choice ("Scripts").
#[derive(Drop)]
pub struct Script {
    pub(crate) fill: u8,
    pub(crate) pins: PinLines,
    pub(crate) frames: FrameLines,
}

impl Script {
    /// The script without lines: the fill is 00H, the levels are FFH, and no frame arrives.
    ///
    /// Error: out of memory.
    ///
    /// Source: own choice ("Scripts").
    pub fn plain(alloc: Global) -> Result<Script, NoMemory>
        ensures { IfOk result (λ script. script ≡ plain_script) }
    {
        Ok(Script {
            fill: 0,
            pins: PinLines::none(alloc),
            frames: FrameLines::none(alloc),
        })
    }

    /// A script that is equal to this one, for one more board; the only error is out of memory.
    ///
    /// Source: own choice ("Scripts").
    pub fn copy(&self, alloc: Global) -> Result<Script, NoMemory>
        ensures { IfOk result (λ script. script ≡ self.now) }
    {
        Ok(Script {
            fill: self.fill,
            pins: self.pins.copy(alloc)?,
            frames: self.frames.copy(alloc)?,
        })
    }

    /// The byte that each byte of memory holds at the start.
    ///
    /// Source: own choice ("Scripts").
    pub fn fill(&self) -> u8
        ensures { result ≡ self.now.fill }
    {
        self.fill
    }

    /// The levels that the outside gives the pins in this cycle: of each port those of its last PIN line up to the
    /// cycle, and FFH where there is none.
    ///
    /// Source: own choice ("Scripts").
    pub fn pins_at(&self, cycle: u64) -> Pins
        // The levels that the PIN lines up to the cycle leave, in their order.
        ensures levels { result
            ≡ levels_after all_high (those (λ d. nat_le d cycle) self.now.pins.cycles self.now.pins.items) }
        // Of each port those of the last of these lines.
        ensures last { (port : ℕ) → port < 4
            → slice_index result.p port
            ≡ last_level port 255 (those (λ d. nat_le d cycle) self.now.pins.cycles self.now.pins.items) }
    {
        self.pins.at(cycle)
    }

    /// Whether it has no PIN line and no frame: the levels are FFH in each cycle, and nothing arrives.
    ///
    /// Source: own choice ("Cycles in which nothing happens").
    #[inline(always)]
    pub fn is_silent(&self) -> bool
        ensures { IsTrue result ↔ (self.now.pins.cycles ≡ []) × (self.now.frames.cycles ≡ []) }
    {
        self.pins.is_empty() && self.frames.is_empty()
    }

    /// The frames that arrive in this cycle, in the order of their lines.
    ///
    /// Source: own choice ("Scripts").
    pub fn frames_at(&self, cycle: u64) -> &[Frame]
        ensures { result.now ≡ those (λ d. d == cycle) self.now.frames.cycles self.now.frames.items }
    {
        self.frames.at(cycle)
    }
}
