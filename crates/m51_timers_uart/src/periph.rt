//! The devices, and one machine cycle of them.
ghost use Rattle.std.specs.Prelude.{◌≡◌, ◌++◌, ◌↔◌, ◌&&◌, [], IsTrue, length, nat_le};
ghost use Rattle.m51_flat.specs.declared.state.Pins.{Pins as PinLevels};
ghost use Rattle.m51_timers_uart.specs.OnlyCounting.{AreCounting, OnlyCount, line_waits, low0_after};
ghost use Rattle.m51_timers_uart.specs.OnlyCounting.{low1_after, low2_after};
ghost use Rattle.m51_timers_uart.specs.Resting.{AreResting};
ghost use Rattle.m51_timers_uart.specs.Sending.{begun};
ghost use Rattle.m51_timers_uart.specs.Tick.{clocks_rest, clocks_ticked, reset_periph, ticked};

use crate::external::{externals_rest, none_asks, tick_externals};
use crate::levels::{Levels, read_levels};
use crate::only_counting::{
    all_fit, count_clocks, is_timer0_plain, is_timer1_plain, is_timer2_plain, waits,
};
use crate::receiving::{Frame, receive_both};
use crate::sending::{start, tick_sending};
use crate::timer2::{tick_timer2, timer2_rests};
use crate::timers::{tick_timers, timers_rest};
use m51_flat::{Cpu, Pins};

/// A byte that went out on the serial line.
///
/// Source: family manual.
#[derive(Clone, Copy, Debug, PartialEq, Eq)]
pub struct Sent {
    /// The eight data bits.
    pub byte: u8,
    /// The ninth data bit, in modes 2 and 3.
    pub ninth: Option<bool>,
}

/// What the devices keep besides the registers.
///
/// Source: family manual; own choice ("Bit times").
#[derive(Clone, Copy, Debug, PartialEq, Eq)]
pub struct Periph {
    /// The levels of ports 0 to 3 at the last tick.
    pub levels: [u8; 4],
    /// The bit times of the byte that is sent, 0 to 10; 0 where none is.
    pub left: u8,
    /// The serial mode that the byte began with, 0 to 3.
    pub mode: u8,
    /// The byte that is sent.
    pub byte: u8,
    /// Its ninth bit, in modes 2 and 3.
    pub ninth: Option<bool>,
    /// What has passed of a bit time: oscillator periods in mode 2, overflows of a timer in modes 1 and 3.
    pub count: u8,
}

/// No timer runs, and no byte is on its way.
#[tactic(auto, unfolding(crate::specs::Tick::clocks_rest))]
#[inline(always)]
fn clocks_rest(periph: &Periph, cpu: &Cpu) -> bool
    ensures { result ≡ clocks_rest cpu.now periph.now }
{
    let timers = timers_rest(cpu);
    let timer2 = timer2_rests(cpu);
    timers && timer2 && periph.left == 0
}

/// Timers 0 and 1, timer 2, and sending at the rate that they give.
#[tactic(auto, using(crate::proofs::Resting::clocks_stay))]
fn tick_clocks(periph: &mut Periph, cpu: &mut Cpu, levels: &Levels) -> Option<Sent>
    ensures { record { cpu = cpu.new; periph = periph.new; sent = result }
        ≡ clocks_ticked levels.now cpu.old periph.old }
{
    if clocks_rest(periph, cpu) {
        return None;
    }
    let timer1 = tick_timers(cpu, levels);
    let timer2 = tick_timer2(cpu, levels);
    tick_sending(periph, cpu, timer1, timer2)
}

/// All levels are those of the last tick.
#[inline(always)]
fn levels_stay(levels: &Levels) -> bool
    ensures { IsTrue result ↔ levels.now.present ≡ levels.now.before }
{
    levels.present == levels.before
}

/// In this number of cycles no timer that runs reaches the end of its low byte, and no byte moves on its way.
#[inline(always)]
fn last_for(periph: &Periph, cpu: &Cpu, count: u8) -> bool
    ensures { result ≡ (nat_le (low0_after count cpu.now) 255 && nat_le (low1_after count cpu.now) 255
        && nat_le (low2_after count cpu.now) 255 && line_waits cpu.now periph.now) }
{
    let fit = all_fit(count, cpu);
    fit && waits(periph, cpu)
}

/// Each timer that runs counts each cycle, no level is another than at the last tick, and no external interrupt asks.
#[inline(always)]
fn counts(periph: &Periph, cpu: &Cpu, ext: &Pins) -> bool
    ensures { IsTrue result ↔ AreCounting cpu.now ext.now periph.now }
{
    let levels = Levels {
        before: periph.levels,
        present: read_levels(cpu, ext),
    };
    is_timer0_plain(cpu)
        && is_timer1_plain(cpu)
        && is_timer2_plain(cpu)
        && levels_stay(&levels)
        && none_asks(cpu, &levels)
}

impl Periph {
    /// The devices after a reset, when all latches are 1: the levels are those outside, and nothing is sent.
    ///
    /// Source: family manual.
    pub fn reset(ext: &Pins) -> Periph
        ensures { result ≡ reset_periph ext.now }
    {
        Periph {
            levels: ext.p,
            left: 0,
            mode: 0,
            byte: 0,
            ninth: None,
            count: 0,
        }
    }

    /// A write to SBUF: the byte begins in the mode of SCON, in modes 2 and 3 with TB8, and one that is not finished is
    /// lost.
    ///
    /// Source: family manual.
    pub fn begin(&mut self, cpu: &Cpu, byte: u8)
        ensures { self.new ≡ begun cpu.now byte self.old }
    {
        start(self, cpu, byte);
    }

    /// The devices rest if these are the levels outside: no timer runs, no byte is on its way, no level is another than
    /// at the last tick, and the external requests are as they are to be. Then a machine cycle in which no frame
    /// arrives changes nothing.
    ///
    /// Source: own choice ("Cycles in which nothing happens").
    #[inline(always)]
    pub fn rests(&self, cpu: &Cpu, ext: &Pins) -> bool
        ensures { IsTrue result ↔ AreResting cpu.now ext.now self.now }
    {
        let levels = Levels {
            before: self.levels,
            present: read_levels(cpu, ext),
        };
        clocks_rest(self, cpu) && levels_stay(&levels) && externals_rest(cpu, &levels)
    }

    /// The devices count if these are the levels outside: each timer that runs counts each cycle, no level is another
    /// than at the last tick, the pins of the external interrupts are 1, and no request of them is kept.
    ///
    /// Source: own choice ("Cycles in which nothing happens").
    #[inline(always)]
    pub fn counts(&self, cpu: &Cpu, ext: &Pins) -> bool
        ensures { IsTrue result ↔ AreCounting cpu.now ext.now self.now }
    {
        counts(self, cpu, ext)
    }

    /// Where the devices count, they only count in this number of machine cycles in which no frame arrives: no timer
    /// reaches the end of its low byte, and no byte moves on its way.
    ///
    /// Source: own choice ("Cycles in which nothing happens").
    #[inline(always)]
    pub fn only_counts(&self, cpu: &Cpu, count: u8) -> bool
        ensures { (ext : PinLevels) → AreCounting cpu.now ext self.now
            → (IsTrue result ↔ OnlyCount count cpu.now ext self.now) }
    {
        last_for(self, cpu, count)
    }

    /// One machine cycle in which no frame arrives, where the devices count with these levels outside, as `tick` passes
    /// it; they count after it too. It answers the byte that was sent.
    ///
    /// Source: own choice ("Cycles in which nothing happens").
    #[tactic(auto, using(crate::proofs::CountsOn::counting_tick))]
    #[inline(always)]
    pub fn count_cycle(&mut self, cpu: &mut Cpu, ext: &Pins) -> Option<Sent>
        requires registers { length cpu.old.regs ≡ 128 }
        requires counting { AreCounting cpu.old ext.now self.old }
        ensures tick { record { cpu = cpu.new; periph = self.new; sent = result } ≡ ticked cpu.old ext.now [] self.old }
        ensures counting { AreCounting cpu.new ext.now self.new }
    {
        let same = self.levels;
        let levels = Levels {
            before: same,
            present: same,
        };
        let sent = count_clocks(self, cpu, &levels);
        self.levels = same;
        sent
    }

    /// One machine cycle: timers 0 and 1, timer 2, sending, receiving, the external interrupts. `ext` are the levels
    /// outside and `frames`, followed by `more`, the frames of the cycle that the tick ends at. It answers the byte
    /// that was sent.
    ///
    /// Source: family manual; own choice ("Devices").
    #[tactic(auto, unfolding(crate::specs::Tick::ticked))]
    #[inline(always)]
    pub fn tick(
        &mut self,
        cpu: &mut Cpu,
        ext: &Pins,
        frames: &[Frame],
        more: &[Frame],
    ) -> Option<Sent>
        ensures { record { cpu = cpu.new; periph = self.new; sent = result }
            ≡ ticked cpu.old ext.now (frames.now ++ more.now) self.old }
    {
        let levels = Levels {
            before: self.levels,
            present: read_levels(cpu, ext),
        };
        let sent = tick_clocks(self, cpu, &levels);
        receive_both(cpu, frames, more);
        tick_externals(cpu, &levels);
        self.levels = levels.present;
        sent
    }
}
