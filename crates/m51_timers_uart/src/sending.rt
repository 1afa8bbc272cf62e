//! Sending on the serial line.
ghost use Rattle.std.specs.Prelude.{◌≡◌, ◌≤◌, ◌<◌, IsTrue};
ghost use Rattle.m51_timers_uart.specs.Sending.{begun, bit_time, bit_times, clocked, growth, has_ninth, moved};
ghost use Rattle.m51_timers_uart.specs.Sending.{sending_ticked, serial_mode};

use crate::periph::{Periph, Sent};
use m51_flat::Cpu;
use m51_sfr::addresses::{PCON, SCON, T2CON};
use m51_sfr::bits::{SM0, SM1, SMOD, TB8, TCLK, TI};

/// The mode of the serial line, 0 to 3.
#[tactic(auto, unfolding(crate::specs::Sending::serial_mode))]
pub(crate) fn read_mode(cpu: &Cpu) -> u8
    ensures value { result ≡ serial_mode cpu.now }
    ensures most { result ≤ 3 }
{
    2 * u8::from(cpu.flag(SCON, SM0)) + u8::from(cpu.flag(SCON, SM1))
}

/// In modes 2 and 3 a ninth bit goes with the byte.
fn sends_ninth(mode: u8) -> bool
    ensures { result ≡ has_ninth mode }
{
    mode == 2 || mode == 3
}

/// The bit times of a byte.
fn count_bits(mode: u8) -> u8
    ensures { result ≡ bit_times mode }
{
    match mode {
        0 => 8,
        1 => 9,
        _ => 10,
    }
}

/// A byte begins.
#[tactic(auto, unfolding(crate::specs::Sending::begun))]
pub(crate) fn start(periph: &mut Periph, cpu: &Cpu, byte: u8)
    ensures { periph.new ≡ begun cpu.now byte periph.old }
{
    let mode = read_mode(cpu);
    let ninth = if sends_ninth(mode) {
        Some(cpu.flag(SCON, TB8))
    } else {
        None
    };
    periph.mode = mode;
    periph.byte = byte;
    periph.ninth = ninth;
    periph.left = count_bits(mode);
    periph.count = 0;
}

/// What `count` grows by in modes 1 to 3: oscillator periods in mode 2, else overflows of the timer that gives the
/// rate.
#[tactic(auto, unfolding(crate::specs::Sending::growth))]
fn grow(cpu: &Cpu, mode: u8, timer1: bool, timer2: u8) -> u8
    requires { timer2 ≤ 6 }
    ensures value { result ≡ growth cpu.now mode timer1 timer2 }
    ensures most { result ≤ 12 }
{
    if mode == 2 {
        return 12;
    }
    if cpu.flag(T2CON, TCLK) {
        timer2
    } else {
        u8::from(timer1)
    }
}

/// What a bit time takes in modes 1 to 3.
#[tactic(auto, unfolding(crate::specs::Sending::bit_time))]
pub(crate) fn last(cpu: &Cpu, mode: u8) -> u8
    ensures value { result ≡ bit_time cpu.now mode }
    ensures least { 16 ≤ result }
    ensures most { result ≤ 64 }
{
    let twice = cpu.flag(PCON, SMOD);
    if mode == 2 {
        return if twice { 32 } else { 64 };
    }
    if cpu.flag(T2CON, TCLK) || twice {
        16
    } else {
        32
    }
}

/// Where `count` reaches what a bit time takes, one bit time passes.
#[tactic(auto, unfolding(crate::specs::Sending::clocked))]
fn clock(periph: &mut Periph, grown: u8, takes: u8)
    requires left { 0 < periph.old.left }
    requires grown { grown ≤ 12 }
    requires least { 16 ≤ takes }
    requires most { takes ≤ 64 }
    ensures { periph.new ≡ clocked grown takes periph.old }
{
    let count = u16::from(periph.count) + u16::from(grown);
    if count >= u16::from(takes) {
        periph.left -= 1;
        periph.count = (count - u16::from(takes)) as u8;
    } else {
        periph.count = count as u8;
    }
}

/// A tick of a byte on its way.
#[tactic(auto, unfolding(crate::specs::Sending::moved))]
fn pass(periph: &mut Periph, cpu: &Cpu, timer1: bool, timer2: u8)
    requires left { 0 < periph.old.left }
    requires most { timer2 ≤ 6 }
    ensures { periph.new ≡ moved cpu.now timer1 timer2 periph.old }
{
    if periph.mode == 0 {
        periph.left -= 1;
    } else {
        let grown = grow(cpu, periph.mode, timer1, timer2);
        let takes = last(cpu, periph.mode);
        clock(periph, grown, takes);
    }
}

/// Sending, and the byte that was sent: when no bit time is left, TI is set.
#[tactic(auto, unfolding(crate::specs::Sending::sending_ticked))]
pub(crate) fn tick_sending(
    periph: &mut Periph,
    cpu: &mut Cpu,
    timer1: bool,
    timer2: u8,
) -> Option<Sent>
    requires { timer2 ≤ 6 }
    ensures { record { cpu = cpu.new; periph = periph.new; sent = result }
        ≡ sending_ticked timer1 timer2 cpu.old periph.old }
{
    if periph.left == 0 {
        return None;
    }
    pass(periph, cpu, timer1, timer2);
    if periph.left > 0 {
        return None;
    }
    cpu.set_flag(SCON, TI, true);
    Some(Sent {
        byte: periph.byte,
        ninth: periph.ninth,
    })
}
