//! A reset, and one instruction.
ghost use Rattle.std.specs.Prelude.{◌≡◌, length, IfSome, IsTrue};
ghost use Rattle.m51_isa.specs.Table.{flow_of};
ghost use Rattle.m51_flat.specs.Outcome.{Done, outcome_by};
ghost use Rattle.m51_flat.specs.Causes.{IsBarred, IsCause, IsWhole, unless_down};
ghost use Rattle.m51_flat.specs.Laws.{Follows, HasParity, IfDone, next_address};
ghost use Rattle.m51_flat.specs.LevelLaws.{LevelsFollow, writes_ie_or_ip};
ghost use Rattle.m51_flat.specs.Meaning.{allowed, instruction_outcome, outcome_over, plan_of, started, still};
ghost use Rattle.m51_flat.specs.Meaning.{unless_barred};
ghost use Rattle.m51_flat.specs.Reads.{Agrees, CellMap, result_over};
ghost use Rattle.m51_flat.specs.Reset.{reset_cpu, reset_values};
ghost use Rattle.m51_flat.specs.Sfr.{latch, sp};
ghost use Rattle.m51_flat.specs.States.{shut_of};

use crate::action_table::action_for;
use crate::performing::perform;
use crate::state::{Cpu, Effect, NoEffect, Outcome, Pins, Put, Transfer};
use crate::store::CellStore;
use m51_cells::Cell;
use m51_isa::{Instr, cycles, length};
use m51_sfr::addresses::{P0, P1, P2, P3, PCON, SP};
use m51_sfr::bits::PD;

/// The registers after a reset: SP is 07H, the latches of the ports are FFH, and all else is 0.
fn reset_registers() -> [u8; 128]
    ensures { result ≡ reset_values 128 0x80 }
{
    let mut regs = [0; 128];
    regs[usize::from(SP - 0x80)] = 0x07;
    regs[usize::from(P0 - 0x80)] = 0xFF;
    regs[usize::from(P1 - 0x80)] = 0xFF;
    regs[usize::from(P2 - 0x80)] = 0xFF;
    regs[usize::from(P3 - 0x80)] = 0xFF;
    regs
}

/// The processor after a reset: PC is 0, SP is 07H, the latches of the ports are FFH, and all else is 0.
///
/// Source: family manual.
pub fn reset() -> Cpu
    ensures value { result ≡ reset_cpu }
    ensures parity { HasParity result }
{
    Cpu {
        pc: 0,
        regs: reset_registers(),
        low: false,
        high: false,
        held: false,
    }
}

/// Makes a processor the same as another, part by part: a copy of the whole is a call.
///
/// Source: own choice ("Effects").
#[inline(always)]
pub fn copy_cpu(cpu: &mut Cpu, other: &Cpu)
    ensures { cpu.new ≡ other.now }
{
    cpu.regs = other.regs;
    cpu.pc = other.pc;
    cpu.low = other.low;
    cpu.high = other.high;
    cpu.held = other.held;
}

/// Makes an effect that of a step of `cycles` machine cycles that leaves its processor as it is, and after which
/// interrupts are not held off.
///
/// Source: own choice ("Effects").
#[inline(always)]
pub fn clear(effect: &mut Effect, cycles: u8)
    ensures { effect.new ≡ still effect.old.cpu cycles }
{
    effect.cpu.held = false;
    effect.first = Put::Nothing;
    effect.second = Put::Nothing;
    effect.transfer = Transfer::Next;
    effect.port = None;
    effect.sbuf = None;
    effect.cycles = cycles;
}

/// Makes an effect that of a step of `cycles` machine cycles that changes nothing, and after which interrupts are not
/// held off.
///
/// Source: own choice ("Effects").
#[inline(always)]
pub fn begin(effect: &mut Effect, cpu: &Cpu, cycles: u8)
    ensures { effect.new ≡ still cpu.now cycles }
{
    copy_cpu(&mut effect.cpu, cpu);
    clear(effect, cycles);
}

/// Makes an effect that of an instruction that only continues with the next, where `same` says that its processor is
/// known to be this one.
#[inline(always)]
fn start(effect: &mut Effect, cpu: &Cpu, instr: &Instr, same: bool)
    requires { IsTrue same → effect.old.cpu ≡ cpu.now }
    ensures { effect.new ≡ started cpu.now instr.now }
{
    if !same {
        copy_cpu(&mut effect.cpu, cpu);
    }
    clear(effect, cycles(instr));
    effect.cpu.pc = cpu.pc.wrapping_add(u16::from(length(instr)));
}

/// The lowest cell of a put that may not be written. It exists.
///
/// Source: own choice ("Stores of cells").
#[tactic(auto, using(crate::proofs::Causes::shut_barred))]
#[inline(always)]
pub fn shut_cell<M: CellStore>(store: &M, put: Put) -> Option<Cell>
    ensures value { result ≡ shut_of (M.barred store.now) put }
    ensures barred { IfSome result (IsBarred (M.barred store.now)) }
{
    store.shut(&put)
}

/// An answer, where both puts of an effect may be written; else the lowest cell of the first that may not be written,
/// then of the second.
#[inline(always)]
fn unless_shut<M: CellStore>(
    store: &M,
    effect: &Effect,
    answer: Result<(), NoEffect>,
) -> Result<(), NoEffect>
    requires { IsCause (M.cells store.now) (M.barred store.now) (outcome_by answer effect.now) }
    ensures value { outcome_by result effect.now
        ≡ unless_barred (M.barred store.now) effect.now (outcome_by answer effect.now) }
    ensures cause { IsCause (M.cells store.now) (M.barred store.now) (outcome_by result effect.now) }
{
    if let Some(cell) = shut_cell(store, effect.first) {
        return Err(NoEffect::Outside(cell));
    }
    if let Some(cell) = shut_cell(store, effect.second) {
        return Err(NoEffect::Outside(cell));
    }
    answer
}

/// Whether an effect that is no instruction's may be performed over a store: `Outside` with the lowest cell of the
/// first put, then of the second, that may not be written. PCON is not examined.
///
/// Source: own choice ("Effects").
#[inline(always)]
pub fn conclude<M: CellStore>(store: &M, effect: &Effect) -> Result<(), NoEffect>
    ensures value { outcome_by result effect.now ≡ unless_barred (M.barred store.now) effect.now (Done effect.now) }
    ensures cause { IsCause (M.cells store.now) (M.barred store.now) (outcome_by result effect.now) }
{
    unless_shut(store, effect, Ok(()))
}

/// Whether the effect of an instruction may be performed: its puts may be written, and it does not power down.
#[inline(always)]
fn allow<M: CellStore>(store: &M, effect: &Effect) -> Result<(), NoEffect>
    ensures value { outcome_by result effect.now ≡ allowed (M.barred store.now) effect.now }
    ensures cause { IsCause (M.cells store.now) (M.barred store.now) (outcome_by result effect.now) }
{
    if effect.cpu.flag(PCON, PD) {
        unless_shut(store, effect, Err(NoEffect::PowerDown))
    } else {
        unless_shut(store, effect, Ok(()))
    }
}

// The outcome of an instruction over a store.
#[tactic(auto, unfolding(crate::specs::Meaning::instruction_outcome))]
#[inline(always)]
fn run<M: CellStore>(
    cpu: &Cpu,
    store: &M,
    instr: &Instr,
    image: &[u8],
    ext: &Pins,
    effect: &mut Effect,
    same: bool,
) -> Result<(), NoEffect>
    requires image { length image.now ≡ 65536 }
    requires same { IsTrue same → effect.old.cpu ≡ cpu.now }
    ensures value { outcome_by result effect.new
        ≡ instruction_outcome cpu.now (M.cells store.now) (M.barred store.now) instr.now image.now ext.now }
    ensures cause { IsCause (M.cells store.now) (M.barred store.now) (outcome_by result effect.new) }
{
    start(effect, cpu, instr, same);
    perform(store, image, ext, effect, action_for(instr))?;
    allow(store, effect)
}

/// The outcome of an instruction over a store, where `image` has 65,536 bytes. It changes nothing: the caller puts
/// `first` and then `second`.
///
/// - `Outside` and `Unset`: the first read that the store does not answer, in the order of the operands.
/// - `Outside`, else: the lowest cell of the first put, then of the second, that may not be written.
/// - `PowerDown`, else: PCON bit 1 would be set.
///
/// Source: family manual; own choice ("Effects").
pub fn exec<M: CellStore>(cpu: &Cpu, store: &M, instr: &Instr, image: &[u8], ext: &Pins) -> Outcome
    requires { length image.now ≡ 65536 }
    ensures outcome { result
        ≡ instruction_outcome cpu.now (M.cells store.now) (M.barred store.now) instr.now image.now ext.now }

    // Over any map that agrees with the store: its reads up to the first that fails, or else its effect.
    ensures over_map { (m : CellMap) → Agrees (M.cells store.now) m → result
        ≡ outcome_over m cpu.now (M.cells store.now) (M.barred store.now) instr.now image.now ext.now }

    // A cell that it names exists, and is outside or barred, or was never written.
    ensures missing { IsCause (M.cells store.now) (M.barred store.now) result }

    // Over a store that holds a map, and of which no cell is barred: the effect over the map, or power-down.
    ensures whole { (m : CellMap) → IsWhole (M.cells store.now) (M.barred store.now) m
        → result ≡ unless_down (result_over m (plan_of cpu.now instr.now image.now ext.now)) }

    // PSW bit 0 stays the parity of ACC.
    ensures parity { HasParity cpu.now → IfDone result (λ e. HasParity e.cpu) }

    // Control continues by the flow of the instruction: PC of the next, a call's two bytes, SP after a call or a
    // return.
    ensures control { IfDone result (λ e.
        Follows (flow_of instr.now) (next_address cpu.now instr.now) (latch cpu.now sp) e) }

    // RETI ends the higher level in progress, and all others keep both. Interrupts are held off exactly after RETI and
    // after a write of IE, IP or a bit of them.
    ensures levels { IfDone result (λ e.
        LevelsFollow (flow_of instr.now) (writes_ie_or_ip cpu.now instr.now) cpu.now e) }
{
    let mut effect = Effect::none(cpu);
    let answer = exec_into(cpu, store, instr, image, ext, &mut effect, false);
    Outcome::of(answer, &effect)
}

/// The outcome of an instruction over a store, as `exec` answers it, with its effect in a variable of the caller. It
/// changes only the effect, which has no meaning after an error. Where `same` says that the processor of this variable
/// is `cpu` already, it isn't copied.
///
/// Source: own choice ("Effects").
#[inline(always)]
pub fn exec_into<M: CellStore>(
    cpu: &Cpu,
    store: &M,
    instr: &Instr,
    image: &[u8],
    ext: &Pins,
    effect: &mut Effect,
    same: bool,
) -> Result<(), NoEffect>
    requires image { length image.now ≡ 65536 }
    requires same { IsTrue same → effect.old.cpu ≡ cpu.now }
    ensures outcome { outcome_by result effect.new
        ≡ instruction_outcome cpu.now (M.cells store.now) (M.barred store.now) instr.now image.now ext.now }

    // Over any map that agrees with the store: its reads up to the first that fails, or else its effect.
    ensures over_map { (m : CellMap) → Agrees (M.cells store.now) m → outcome_by result effect.new
        ≡ outcome_over m cpu.now (M.cells store.now) (M.barred store.now) instr.now image.now ext.now }

    // A cell that it names exists, and is outside or barred, or was never written.
    ensures missing { IsCause (M.cells store.now) (M.barred store.now) (outcome_by result effect.new) }

    // Over a store that holds a map, and of which no cell is barred: the effect over the map, or power-down.
    ensures whole { (m : CellMap) → IsWhole (M.cells store.now) (M.barred store.now) m
        → outcome_by result effect.new
        ≡ unless_down (result_over m (plan_of cpu.now instr.now image.now ext.now)) }

    // PSW bit 0 stays the parity of ACC.
    ensures parity { HasParity cpu.now → IfDone (outcome_by result effect.new) (λ e. HasParity e.cpu) }

    // Control continues by the flow of the instruction: PC of the next, a call's two bytes, SP after a call or a
    // return.
    ensures control { IfDone (outcome_by result effect.new) (λ e.
        Follows (flow_of instr.now) (next_address cpu.now instr.now) (latch cpu.now sp) e) }

    // RETI ends the higher level in progress, and all others keep both. Interrupts are held off exactly after RETI and
    // after a write of IE, IP or a bit of them.
    ensures levels { IfDone (outcome_by result effect.new) (λ e.
        LevelsFollow (flow_of instr.now) (writes_ie_or_ip cpu.now instr.now) cpu.now e) }
{
    run(cpu, store, instr, image, ext, effect, same)
}
