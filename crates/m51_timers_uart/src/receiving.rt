//! Receiving on the serial line.
ghost use Rattle.std.specs.Prelude.{◌≡◌, ◌++◌};
ghost use Rattle.m51_timers_uart.specs.Receiving.{frame_met, received, taken, takes_frame, with_ninth};

use crate::sending::read_mode;
use m51_flat::Cpu;
use m51_sfr::addresses::{SBUF, SCON};
use m51_sfr::bits::{RB8, REN, RI, SM2};

/// A frame that comes in on the serial line.
///
/// Source: family manual.
#[derive(Clone, Copy, Debug, PartialEq, Eq)]
pub struct Frame {
    /// The eight data bits.
    pub byte: u8,
    /// The ninth data bit in modes 2 and 3, the stop bit in mode 1.
    pub ninth: bool,
}

/// A frame is taken where REN is 1, RI is 0 and, in modes 1 to 3, SM2 is 0 or its ninth bit is 1.
#[tactic(auto, unfolding(crate::specs::Receiving::takes_frame))]
fn accepts(cpu: &Cpu, frame: Frame) -> bool
    ensures { result ≡ takes_frame cpu.now frame }
{
    let ready = cpu.flag(SCON, REN) && !cpu.flag(SCON, RI);
    let heard = read_mode(cpu) == 0 || !cpu.flag(SCON, SM2) || frame.ninth;
    ready && heard
}

/// In modes 1 to 3 RB8 is the ninth bit.
#[tactic(auto, unfolding(crate::specs::Receiving::with_ninth))]
fn keep_ninth(cpu: &mut Cpu, bit: bool)
    ensures { cpu.new ≡ with_ninth bit cpu.old }
{
    if read_mode(cpu) != 0 {
        cpu.set_flag(SCON, RB8, bit);
    }
}

/// SBUF reads as the byte and RI is set.
fn take(cpu: &mut Cpu, frame: Frame)
    ensures { cpu.new ≡ taken frame cpu.old }
{
    cpu.set_latch(SBUF, frame.byte);
    cpu.set_flag(SCON, RI, true);
    keep_ninth(cpu, frame.ninth);
}

/// A frame is taken, or it is lost.
#[tactic(auto, unfolding(crate::specs::Receiving::frame_met))]
fn meet(cpu: &mut Cpu, frame: Frame)
    ensures { cpu.new ≡ frame_met frame cpu.old }
{
    if accepts(cpu, frame) {
        take(cpu, frame);
    }
}

/// Frames, one after another.
fn receive(cpu: &mut Cpu, frames: &[Frame])
    ensures { cpu.new ≡ received frames.now cpu.old }
{
    for frame in frames {
        meet(cpu, *frame);
    }
}

/// The frames of a cycle, and then more of them.
#[tactic(auto, using(crate::proofs::Kept::received_both))]
pub(crate) fn receive_both(cpu: &mut Cpu, frames: &[Frame], more: &[Frame])
    ensures { cpu.new ≡ received (frames.now ++ more.now) cpu.old }
{
    receive(cpu, frames);
    receive(cpu, more);
}
