//! A monitor and the moves that it is put through.
ghost use Rattle.std.specs.Prelude.{◌≡◌, ◌<◌, ◌≤◌, ℕ, true};
ghost use Rattle.m51_monitor.specs.Monitored.{HasAddress, HasLevel, Monitored, WasJudged};
ghost use Rattle.m51_monitor.specs.Rising.{interrupts};
ghost use Rattle.m51_monitor.specs.Transfers.{moved};
ghost use Rattle.m51_cases.specs.Taken.{taken_by};

use crate::monitor_layout::monitor;
use m51_cells::{Cell, Event, NoMemory, Space};
use m51_flat::{CellStore, Cpu, Effect, Put, Seen, Source, Transfer, reset};
use m51_monitor::{Monitor, Move};
use std::alloc::Global;

/// What a step does, but for where it leads.
#[derive(Clone, Copy)]
pub(crate) enum Act {
    /// To the next instruction.
    Next,
    /// To the next instruction, after this byte was stored at this address.
    Store(u8, u8),
    /// To the next instruction, after the bit of this address was stored.
    Bit(u8, bool),
    Jump,
    /// A call that stores the address from which it is made.
    Call,
    Ret,
    Reti,
    /// A vectoring that stores the address at which it comes.
    Vector(Source),
}

/// An address, and SP there.
#[derive(Clone, Copy)]
pub(crate) struct PcAndSp {
    pub pc: u8,
    pub sp: u8,
}

impl PcAndSp {
    /// The processor there.
    pub(crate) fn cpu(self) -> Cpu {
        let mut cpu = reset();
        cpu.pc = u16::from(self.pc);
        cpu.regs[1] = self.sp;
        cpu
    }
}

impl Act {
    // The transfer of control.
    fn transfer(self) -> Transfer {
        match self {
            Act::Next | Act::Store(_, _) | Act::Bit(_, _) => Transfer::Next,
            Act::Jump => Transfer::Jump,
            Act::Call => Transfer::Call,
            Act::Ret => Transfer::Ret,
            Act::Reti => Transfer::Reti,
            Act::Vector(source) => Transfer::Vector(source),
        }
    }

    // The two writes.
    fn puts(self, from: u8, sp: u8) -> (Put, Put) {
        match self {
            Act::Store(address, value) => (Put::Byte { address, value }, Put::Nothing),
            Act::Bit(address, value) => (Put::Bit { address, value }, Put::Nothing),
            Act::Call | Act::Vector(_) => (
                Put::Byte {
                    address: sp.wrapping_sub(1),
                    value: from,
                },
                Put::Byte {
                    address: sp,
                    value: 0,
                },
            ),
            _ => (Put::Nothing, Put::Nothing),
        }
    }

    // The effect that leads there.
    fn effect(self, from: PcAndSp, to: PcAndSp) -> Effect {
        let (first, second) = self.puts(from.pc, to.sp);
        Effect {
            cpu: to.cpu(),
            first,
            second,
            transfer: self.transfer(),
            port: None,
            sbuf: None,
            cycles: 2,
        }
    }
}

// Whether the move may be made with this number of interrupts in progress.
fn has_level(taken: u8, step: Move) -> bool
    ensures { (m : Monitored) → interrupts m.records.returns ≡ taken → result ≡ true → HasLevel m step }
{
    match step {
        Move::Interrupt(_, _) => taken < 2,
        _ => true,
    }
}

// The writes of a move that makes a record are bytes.
fn has_address(effect: &Effect, step: Move) -> bool
    ensures { result ≡ true → HasAddress effect.now step }
{
    match step {
        Move::Stay | Move::Jump(_) | Move::Return => true,
        _ => matches!(
            (&effect.first, &effect.second),
            (Put::Byte { .. }, Put::Byte { .. })
        ),
    }
}

// The interrupts in progress after the transfer.
fn taken_by(transfer: Transfer, taken: u8) -> u8
    requires { taken ≤ 2 }
    ensures { result ≡ taken_by transfer taken }
{
    match transfer {
        Transfer::Vector(_) => taken + 1,
        Transfer::Reti => taken.saturating_sub(1),
        _ => taken,
    }
}

// The interrupts in progress after the move that was judged.
fn taken_after(monitor: &Monitor, taken: u8, effect: &Effect, step: Move) -> u8
    requires judged { WasJudged monitor.now effect.now step }
    requires counted { interrupts monitor.now.records.returns ≡ taken }
    ensures { result ≡ interrupts (moved monitor.now.records effect.now step).returns }
{
    let _depth = monitor.depth();
    taken_by(effect.transfer, taken)
}

// What a read answers, as one byte.
fn mark(seen: Seen) -> u8 {
    match seen {
        Seen::Outside(_) => b'.',
        Seen::Unset(_) => b'?',
        Seen::Value(value) => b'0'.wrapping_add(value),
    }
}

/// A monitor, and how many interrupts are in progress.
#[derive(Drop)]
pub(crate) struct MonitorRun {
    monitor: Monitor,
    taken: u8,
    ghost counted: { interrupts monitor.records.returns ≡ taken },
}

impl MonitorRun {
    /// At the reset.
    pub(crate) fn start(alloc: Global) -> Result<MonitorRun, NoMemory> {
        let monitor = monitor(alloc)?;
        Ok(MonitorRun { monitor, taken: 0 })
    }

    /// What the table says.
    pub(crate) fn judge(&self, from: PcAndSp, act: Act, to: PcAndSp) -> Result<Move, Event> {
        self.monitor.judge(&from.cpu(), &act.effect(from, to))
    }

    // Makes the move that was judged, where its writes are open.
    fn make(&mut self, from: PcAndSp, effect: &Effect) -> Option<Move> {
        let Ok(step) = self.monitor.judge(&from.cpu(), effect) else {
            return None;
        };
        if !has_level(self.taken, step)
            || !has_address(effect, step)
            || self.monitor.store().shut(&effect.first).is_some()
            || self.monitor.store().shut(&effect.second).is_some()
        {
            return None;
        }
        let taken = taken_after(&self.monitor, self.taken, effect, step);
        self.monitor.commit(effect, step);
        self.taken = taken;
        Some(step)
    }

    /// The move, where it is allowed and its writes are open.
    pub(crate) fn go(&mut self, from: PcAndSp, act: Act, to: PcAndSp) -> Option<Move> {
        self.make(from, &act.effect(from, to))
    }

    // What a byte of internal RAM holds, as a mark.
    fn byte_mark(&self, address: u8) -> u8 {
        mark(self.monitor.store().byte(address))
    }

    // What a bit of internal RAM holds, as a mark.
    fn bit_mark(&self, address: u8) -> u8
        requires { address < 128 }
    {
        mark(self.monitor.store().bit(address))
    }

    /// What the bytes 08H to 0DH, the bits 0 to 2 and the byte 20H hold: `.` is outside, `?` unset, and a digit a
    /// value.
    pub(crate) fn marks(&self) -> [u8; 10] {
        [
            self.byte_mark(0x08),
            self.byte_mark(0x09),
            self.byte_mark(0x0A),
            self.byte_mark(0x0B),
            self.byte_mark(0x0C),
            self.byte_mark(0x0D),
            self.bit_mark(0),
            self.bit_mark(1),
            self.bit_mark(2),
            self.byte_mark(0x20),
        ]
    }

    /// How many return records there are, and how many name each unit.
    pub(crate) fn depth_and_named(&self) -> (u8, [u8; 8]) {
        let mut named = [0; 8];
        for (index, count) in self.monitor.named().iter().take(8).enumerate() {
            named[index] = *count;
        }
        (self.monitor.depth(), named)
    }

    /// The live segment over a cell of internal RAM.
    pub(crate) fn segment_at(&self, at: u32) -> Option<u16> {
        self.monitor.segment_at(Cell {
            space: Space::Ram,
            at,
        })
    }
}
