//! The PIN lines of a script.
ghost use Rattle.std.specs.Prelude.{◌≡◌, ◌≤◌, ◌<◌, [], ◌∷◌, ◌↔◌, IsTrue, IfOk, nat_le};
ghost use Rattle.m51_script.specs.Timing.{Ascends, latest_cycle, those, with_timed_line};
ghost use Rattle.m51_script.specs.Levels.{all_high, with_levels, levels_after};

use crate::timing::count_until;
use m51_cells::NoMemory;
use m51_flat::Pins;
use std::alloc::Global;
use std::marker::Model;

// The levels before the first PIN line.
const ALL_HIGH: Pins = Pins { p: [0xFF; 4] };

// A port gets these levels.
#[derive(Clone, Copy)]
pub(crate) struct Change {
    // The number of the port, 0 to 3.
    pub(crate) port: u8,
    // Its eight levels.
    pub(crate) level: u8,
}

// PIN lines in their order, which contracts see as their cycles and changes. Beside each are the levels of all ports
// from its cycle on.
#[derive(Drop)]
pub(crate) struct PinLines {
    cycles: Vec<u32>,
    changes: Vec<Change>,
    levels: Vec<Pins>,
    last: Pins,
}

impl Model for PinLines {
    ghost use Rattle.m51_script.specs.declared.pin_lines.Change.{Change};
    ghost use Rattle.m51_script.specs.Timing.{Timed};
    ghost use Rattle.m51_script.specs.Levels.{ArePinLines};

    ghost Value = { Timed Change };

    ghost view = { λ lines. record { cycles = lines.cycles.items; items = lines.changes.items } };

    ghost invariant = { λ lines. ArePinLines lines.cycles.items lines.changes.items lines.levels.items lines.last };
}

// The levels after a change.
fn with_levels(pins: Pins, change: Change) -> Pins
    requires port { change.port < 4 }
    ensures { result ≡ with_levels change pins }
{
    let mut pins = pins;
    pins.p[usize::from(change.port)] = change.level;
    pins
}

impl PinLines {
    // There are none.
    #[inline(always)]
    pub(crate) fn is_empty(&self) -> bool
        ensures { IsTrue result ↔ self.now.cycles ≡ [] }
    {
        self.cycles.is_empty()
    }

    // No lines. It does not allocate.
    pub(crate) fn none(alloc: Global) -> PinLines
        ensures { result ≡ record { cycles = []; items = [] } }
    {
        PinLines {
            cycles: Vec::new(alloc),
            changes: Vec::new(alloc),
            levels: Vec::new(alloc),
            last: ALL_HIGH,
        }
    }

    // One more line, whose cycle is not below those before.
    //
    // Error: out of memory.
    pub(crate) fn with(self, cycle: u32, change: Change) -> Result<PinLines, NoMemory>
        requires order { Ascends 0 cycle self.cycles }
        requires range { cycle ≤ latest_cycle }
        requires port { change.port < 4 }
        ensures { IfOk result (λ lines. lines ≡ with_timed_line cycle change self) }
    {
        let PinLines {
            cycles,
            changes,
            levels,
            last,
        } = self;
        let mut cycles = cycles;
        let mut changes = changes;
        let mut levels = levels;
        let last = with_levels(last, change);
        cycles.push(cycle)?;
        changes.push(change)?;
        levels.push(last)?;
        Ok(PinLines {
            cycles,
            changes,
            levels,
            last,
        })
    }

    // The same lines.
    //
    // Error: out of memory.
    pub(crate) fn copy(&self, alloc: Global) -> Result<PinLines, NoMemory>
        ensures { IfOk result (λ lines. lines ≡ self.now) }
    {
        Ok(PinLines {
            cycles: Vec::from_slice(alloc, self.cycles.as_slice())?,
            changes: Vec::from_slice(alloc, self.changes.as_slice())?,
            levels: Vec::from_slice(alloc, self.levels.as_slice())?,
            last: self.last,
        })
    }

    // The levels that the lines up to this cycle leave.
    pub(crate) fn at(&self, cycle: u64) -> Pins
        ensures { result ≡ levels_after all_high (those (λ d. nat_le d cycle) self.now.cycles self.now.items) }
    {
        // Most scripts have no line.
        if self.cycles.is_empty() {
            return ALL_HIGH;
        }
        let count = count_until(self.cycles.as_slice(), cycle);
        if count == 0 {
            ALL_HIGH
        } else {
            self.levels[count - 1]
        }
    }
}
