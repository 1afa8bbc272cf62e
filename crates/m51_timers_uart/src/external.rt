//! External interrupts.
ghost use Rattle.std.specs.Prelude.{◌≡◌, ◌<◌, ◌&&◌};
ghost use Rattle.m51_flat.specs.Flags.{ie0, ie1, it0, it1};
ghost use Rattle.m51_flat.specs.Sfr.{latch, tcon, with_bit};
ghost use Rattle.m51_timers_uart.specs.declared.levels.Input.TheVariants.{Int0, Int1};
ghost use Rattle.m51_timers_uart.specs.External.{externals_ticked, requested};
ghost use Rattle.m51_timers_uart.specs.OnlyCounting.{none_asks};
ghost use Rattle.m51_timers_uart.specs.Resting.{request_rests};

use crate::levels::{Input, Levels};
use m51_flat::Cpu;
use m51_sfr::addresses::TCON;
use m51_sfr::bits::{IE0, IE1, IT0, IT1};

/// With IT 1 a fall of the pin sets the flag; with IT 0 the flag is 1 exactly if the level is 0.
#[tactic(auto, unfolding(crate::specs::External::requested))]
fn request(cpu: &mut Cpu, levels: &Levels, pin: Input, it: u8, ask: u8)
    requires it { it < 8 }
    requires ask { ask < 8 }
    ensures { cpu.new ≡ requested levels.now pin it ask cpu.old }
{
    if !cpu.flag(TCON, it) {
        cpu.set_flag(TCON, ask, !levels.is_high(pin));
    } else if levels.falls(pin) {
        cpu.set_flag(TCON, ask, true);
    }
}

/// Both external interrupts.
pub(crate) fn tick_externals(cpu: &mut Cpu, levels: &Levels)
    ensures { cpu.new ≡ externals_ticked levels.now cpu.old }
{
    request(cpu, levels, Input::Int0, IT0, IE0);
    request(cpu, levels, Input::Int1, IT1, IE1);
}

/// A byte with one bit replaced.
#[tactic(auto, unfolding(m51_flat::specs::Sfr::with_bit))]
#[inline(always)]
fn replace_bit(byte: u8, number: u8, bit: bool) -> u8
    requires { number < 8 }
    ensures { result ≡ with_bit byte number bit }
{
    if bit {
        byte | 1 << number
    } else {
        byte & !(1 << number)
    }
}

/// The request of a pin is as it is to be where TCON is this byte, so that `request` changes nothing.
#[tactic(auto, unfolding(crate::specs::Resting::request_rests))]
#[inline(always)]
fn request_rests(levels: &Levels, byte: u8, pin: Input, it: u8, ask: u8) -> bool
    requires it { it < 8 }
    requires ask { ask < 8 }
    ensures { result ≡ request_rests levels.now pin it ask byte }
{
    if byte >> it & 1 == 1 {
        !levels.falls(pin)
    } else {
        replace_bit(byte, ask, !levels.is_high(pin)) == byte
    }
}

/// Both are as they are to be, so that `tick_externals` changes nothing.
#[inline(always)]
pub(crate) fn externals_rest(cpu: &Cpu, levels: &Levels) -> bool
    ensures { result ≡ (request_rests levels.now Int0 it0 ie0 (latch cpu.now tcon)
        && request_rests levels.now Int1 it1 ie1 (latch cpu.now tcon)) }
{
    let byte = cpu.latch(TCON);
    let zero = request_rests(levels, byte, Input::Int0, IT0, IE0);
    let one = request_rests(levels, byte, Input::Int1, IT1, IE1);
    zero && one
}

/// Both pins are 1, and no request is kept, so that `tick_externals` changes nothing while the levels stay.
#[tactic(auto, unfolding(crate::specs::OnlyCounting::none_asks))]
#[inline(always)]
pub(crate) fn none_asks(cpu: &Cpu, levels: &Levels) -> bool
    ensures { result ≡ none_asks levels.now.present (latch cpu.now tcon) }
{
    let byte = cpu.latch(TCON);
    let high0 = levels.is_high(Input::Int0);
    let high1 = levels.is_high(Input::Int1);
    let clear0 = replace_bit(byte, IE0, false) == byte;
    let clear1 = replace_bit(byte, IE1, false) == byte;
    high0 && high1 && clear0 && clear1
}
