//! The result of a step over the memories of a monitor, and the change of these.
ghost use Rattle.std.specs.Prelude.{◌≡◌, ◌+◌, ◌%◌, ℕ, Some, Err, IfErr, IfOk, IsTrue, length, true};
ghost use Rattle.m51_isa.specs.Table.{length_of};
ghost use Rattle.m51_cells.specs.declared.event.Event.TheVariants.{Reserved, Transfer as EventTransfer};
ghost use Rattle.m51_cells.specs.declared.event.Why.TheVariants.{PastEnd};
ghost use Rattle.m51_cells.specs.Cells.{IsDataCell};
ghost use Rattle.m51_flat.specs.Outcome.{outcome_by};
ghost use Rattle.m51_irq.specs.Choice.{chosen};
ghost use Rattle.m51_irq.specs.Vectoring.{vectored};
ghost use Rattle.m51_module.specs.Plan.{IsUnitAt};
ghost use Rattle.m51_module.specs.Sound.{IsSound};
ghost use Rattle.m51_monitor.specs.Found.{unit_found};
ghost use Rattle.m51_monitor.specs.Judgement.{judge_of};
ghost use Rattle.m51_monitor.specs.Monitored.{AreActivations, HasAddress, HasLevel, MonitorStandsFor, WasJudged};
ghost use Rattle.m51_monitor.specs.Monitored.{live_in};
ghost use Rattle.m51_monitor.specs.Records.{current};
ghost use Rattle.m51_monitor.specs.Resolved.{outside_of, segment_over};
ghost use Rattle.m51_monitor.specs.Shared.{shared_barred};
ghost use Rattle.m51_monitor.specs.Transfers.{IsMoveOrEvent, is_at};
ghost use Rattle.m51_print.specs.Lines.{HasText};
ghost use Rattle.m51_sim.specs.Boards.{IsDraftOf, IsInOrder, held_memory, stores_read};
ghost use Rattle.m51_sim.specs.Cycles.{inputs_of};
ghost use Rattle.m51_sim.specs.Effects.{attempt_of, idle_effect};
ghost use Rattle.m51_sim.specs.Plain.{is_plain_step};
ghost use Rattle.m51_sim.specs.Ready.{AreOpen, IsOutcomePrepared, MayCommit};
ghost use Rattle.m51_sim.specs.SeparateMachine.{cells_of, concludes, instr_outcome, lie_inside, memory_after};
ghost use Rattle.m51_sim.specs.SeparateMachine.{separate_effect, unless_past_end, unwritten_in, with_move};
ghost use Rattle.m51_monitor.specs.declared.step.Move.TheVariants.{Stay};

use crate::attempt::Attempt;
use crate::chip::{Chip, Draft, idle};
use m51_cells::{Cell, Event, Why, cite};
use m51_flat::{Cpu, Effect, NoEffect, Put, Source, Transfer, exec_into};
use m51_irq::vector_into;
use m51_isa::{Instr, length};
use m51_module::Layout;
use m51_monitor::{Monitor, Move};

// Cites what holds of a monitor: its memory represents the stores that are read off it, its records are activations,
// and its layout is sound.
pub(crate) fn cite_stores(monitor: &Monitor)
    ensures stores { MonitorStandsFor monitor.now (stores_read monitor.now) }
    ensures records { AreActivations monitor.now.layout monitor.now.records }
    ensures sound { IsSound monitor.now.layout }
{
    cite(monitor.store());
    cite(monitor.depth());
    cite(monitor.layout().placed());
}

// Whether `count` bytes from the program counter on lie in the current unit.
#[inline(always)]
fn lie_inside(monitor: &Monitor, pc: u16, count: u8) -> bool
    requires { IsUnitAt monitor.now.layout pc (current monitor.now.records) }
    ensures { result ≡ lie_inside monitor.now.layout (current monitor.now.records) pc count }
{
    cite_stores(monitor);
    monitor.holds(pc, count)
}

// The event of an instruction whose bytes do not all lie in the current unit.
fn past_end(pc: u16, count: u8) -> Event
    ensures { result ≡ EventTransfer PastEnd pc ((pc + count) % 65536) }
{
    Event::Transfer {
        why: Why::PastEnd,
        from: pc,
        to: pc.wrapping_add(u16::from(count)),
    }
}

// The event of a cell that holds no value.
fn unwritten(monitor: &Monitor, cell: Cell, at: u16) -> Event
    requires { IsDataCell cell }
    ensures value { result ≡ unwritten_in cell at
        (segment_over monitor.now.layout (live_in monitor.now.layout monitor.now.records) cell) }
    ensures text { HasText (length monitor.now.layout.placed) result }
{
    match monitor.segment_at(cell) {
        Some(segment) => Event::Unwritten { cell, segment, at },
        None => Event::Outside { cell, at },
    }
}

// What the table of transfers says of an effect.
#[inline(always)]
fn judge_any(monitor: &Monitor, cpu: &Cpu, effect: &Effect) -> Result<Move, Event>
    ensures value { result ≡ judge_of monitor.now.layout monitor.now.records cpu.now effect.now }
    ensures answers { IsMoveOrEvent monitor.now.layout monitor.now.records cpu.now effect.now result }
{
    monitor.judge(cpu, effect)
}

// The same. To continue with the next instruction has machine code of its own; two arms with the same call would be
// made one.
#[inline(always)]
fn judge_move(monitor: &Monitor, cpu: &Cpu, effect: &Effect) -> Result<Move, Event>
    ensures value { result ≡ judge_of monitor.now.layout monitor.now.records cpu.now effect.now }
    ensures answers { IsMoveOrEvent monitor.now.layout monitor.now.records cpu.now effect.now result }
{
    match effect.transfer {
        Transfer::Next => monitor.judge(cpu, effect),
        _ => judge_any(monitor, cpu, effect),
    }
}

// The result of a step that has this effect and whose reads and puts had this answer.
#[inline(always)]
fn conclude(
    monitor: &Monitor,
    cpu: &Cpu,
    effect: &Effect,
    answer: Result<(), NoEffect>,
) -> Result<Move, Event>
    requires { IsOutcomePrepared monitor.now cpu.now (outcome_by answer effect.now) }
    ensures value { with_move effect.now result
        ≡ concludes monitor.now.layout (held_memory monitor.now) cpu.now (outcome_by answer effect.now) }
    ensures may { IfOk (with_move effect.now result) (MayCommit monitor.now cpu.now) }
    ensures text { IfErr result (HasText (length monitor.now.layout.placed)) }
{
    match answer {
        Ok(()) => judge_move(monitor, cpu, effect),
        Err(NoEffect::Outside(cell)) => Err(Event::Outside { cell, at: cpu.pc }),
        Err(NoEffect::Unset(cell)) => Err(unwritten(monitor, cell, cpu.pc)),
        Err(NoEffect::PowerDown) => Err(Event::PowerDown { at: cpu.pc }),
    }
}

// The outcome of an instruction over the memory.
#[inline(always)]
fn instr_outcome(
    monitor: &Monitor,
    chip: &Chip,
    instr: &Instr,
    draft: &mut Draft,
) -> Result<(), NoEffect>
    requires { IsDraftOf draft.old chip.now.cpu }
    ensures value { outcome_by result draft.new.effect
        ≡ instr_outcome monitor.now.layout (held_memory monitor.now) chip.now.cpu instr.now
        chip.now.image ((inputs_of chip.now.script).pins chip.now.cycle) }
    ensures ready { IsOutcomePrepared monitor.now chip.now.cpu (outcome_by result draft.new.effect) }
{
    cite_stores(monitor);
    exec_into(
        chip.cpu(),
        monitor.store(),
        instr,
        chip.bytes(),
        &chip.pins(),
        &mut draft.effect,
        draft.same,
    )
}

// One instruction.
#[inline(always)]
fn execute(monitor: &Monitor, chip: &Chip, instr: &Instr, draft: &mut Draft) -> Result<Move, Event>
    requires order { IsInOrder monitor.now chip.now.cpu }
    requires draft { IsDraftOf draft.old chip.now.cpu }
    ensures value { with_move draft.new.effect result
        ≡ unless_past_end monitor.now.layout (held_memory monitor.now) chip.now.cpu.pc
        (length_of instr.now) (concludes monitor.now.layout (held_memory monitor.now) chip.now.cpu
        (instr_outcome monitor.now.layout (held_memory monitor.now) chip.now.cpu instr.now chip.now.image
        ((inputs_of chip.now.script).pins chip.now.cycle))) }
    ensures may { IfOk (with_move draft.new.effect result) (MayCommit monitor.now chip.now.cpu) }
    ensures text { IfErr result (HasText (length monitor.now.layout.placed)) }
{
    let pc = chip.pc();
    if !lie_inside(monitor, pc, length(instr)) {
        return Err(past_end(pc, length(instr)));
    }
    let answer = instr_outcome(monitor, chip, instr, draft);
    conclude(monitor, chip.cpu(), &draft.effect, answer)
}

// The outcome of a vectoring over the memory.
#[inline(always)]
fn vector_outcome(
    monitor: &Monitor,
    cpu: &Cpu,
    source: Source,
    effect: &mut Effect,
) -> Result<(), NoEffect>
    requires order { IsInOrder monitor.now cpu.now }
    requires taken { chosen cpu.now ≡ Some source }
    ensures value { outcome_by result effect.new
        ≡ vectored cpu.now (outside_of (cells_of monitor.now.layout (held_memory monitor.now))) source }
    ensures ready { IsOutcomePrepared monitor.now cpu.now (outcome_by result effect.new) }
{
    cite_stores(monitor);
    vector_into(cpu, monitor.store(), source, effect)
}

// The vectoring of an interrupt.
#[inline(always)]
fn vectoring(
    monitor: &Monitor,
    cpu: &Cpu,
    source: Source,
    effect: &mut Effect,
) -> Result<Move, Event>
    requires order { IsInOrder monitor.now cpu.now }
    requires taken { chosen cpu.now ≡ Some source }
    ensures value { with_move effect.new result ≡ concludes monitor.now.layout (held_memory monitor.now) cpu.now
        (vectored cpu.now (outside_of (cells_of monitor.now.layout (held_memory monitor.now))) source) }
    ensures may { IfOk (with_move effect.new result) (MayCommit monitor.now cpu.now) }
    ensures text { IfErr result (HasText (length monitor.now.layout.placed)) }
{
    let answer = vector_outcome(monitor, cpu, source, effect);
    conclude(monitor, cpu, effect, answer)
}

// The reserved opcode.
fn refuse(monitor: &Monitor, pc: u16) -> Event
    requires { IsUnitAt monitor.now.layout pc (current monitor.now.records) }
    ensures value { Err result ≡ unless_past_end monitor.now.layout (held_memory monitor.now) pc 1 (Err (Reserved pc)) }
    ensures text { HasText (length monitor.now.layout.placed) result }
{
    if lie_inside(monitor, pc, 1) {
        Event::Reserved { at: pc }
    } else {
        past_end(pc, 1)
    }
}

// A machine cycle without an instruction, which changes no record.
fn idle_step(monitor: &Monitor, cpu: &Cpu, effect: &mut Effect) -> Move
    requires { IsInOrder monitor.now cpu.now }
    ensures effect { effect.new ≡ idle_effect cpu.now }
    ensures step { result ≡ Stay }
    ensures may { MayCommit monitor.now cpu.now (record { effect = effect.new; step = result }) }
{
    cite(monitor);
    idle(effect, cpu);
    Move::Stay
}

// The effect of the next step and how it changes the records, or the event that stops it.
#[tactic(auto, unfolding(crate::specs::SeparateMachine::separate_effect))]
#[inline(always)]
pub(crate) fn judge(monitor: &Monitor, chip: &Chip, draft: &mut Draft) -> Result<Move, Event>
    requires order { IsInOrder monitor.now chip.now.cpu }
    requires draft { IsDraftOf draft.old chip.now.cpu }
    ensures value { with_move draft.new.effect result ≡ separate_effect monitor.now.layout chip.now.image chip.now.cpu
        (held_memory monitor.now) ((inputs_of chip.now.script).pins chip.now.cycle)
        (attempt_of chip.now.image chip.now.cpu) }
    ensures may { IfOk (with_move draft.new.effect result) (MayCommit monitor.now chip.now.cpu) }
    ensures plain { IsTrue draft.new.plain → is_plain_step (attempt_of chip.now.image chip.now.cpu) ≡ true }
    ensures text { IfErr result (HasText (length monitor.now.layout.placed)) }
{
    match chip.attempt() {
        Attempt::Vectoring(source) => {
            draft.plain = true;
            vectoring(monitor, chip.cpu(), source, &mut draft.effect)
        }
        Attempt::Idling => {
            draft.plain = false;
            Ok(idle_step(monitor, chip.cpu(), &mut draft.effect))
        }
        Attempt::Executing(instr) => {
            let plain = chip.is_plain();
            let answer = execute(monitor, chip, &instr, draft);
            draft.plain = plain;
            answer
        }
        Attempt::Refusing => {
            draft.plain = false;
            Err(refuse(monitor, chip.pc()))
        }
    }
}

// Makes the puts of an effect that is allowed, and changes the records. What most steps do, a put of one byte or none
// and nothing else, has machine code of its own, without the tests of all that there may be.
#[inline(always)]
pub(crate) fn commit(monitor: &mut Monitor, effect: &Effect, step: Move)
    requires judged { WasJudged monitor.old effect.now step }
    requires opened { AreOpen (shared_barred monitor.old.store) effect.now }
    requires address { HasAddress effect.now step }
    requires level { HasLevel monitor.old step }
    ensures layout { monitor.new.layout ≡ monitor.old.layout }
    ensures memory { held_memory monitor.new
        ≡ memory_after monitor.old.layout (held_memory monitor.old) (record { effect = effect.now; step = step }) }
{
    match (effect.first, effect.second, step) {
        (Put::Byte { .. }, Put::Nothing, Move::Stay) => commit_any(monitor, effect, step),
        (Put::Nothing, Put::Nothing, Move::Stay) => commit_any(monitor, effect, step),
        _ => commit_rare(monitor, effect, step),
    }
}

// The same, by another name: two arms with the same call would be made one.
#[inline(always)]
fn commit_rare(monitor: &mut Monitor, effect: &Effect, step: Move)
    requires judged { WasJudged monitor.old effect.now step }
    requires opened { AreOpen (shared_barred monitor.old.store) effect.now }
    requires address { HasAddress effect.now step }
    requires level { HasLevel monitor.old step }
    ensures layout { monitor.new.layout ≡ monitor.old.layout }
    ensures memory { held_memory monitor.new
        ≡ memory_after monitor.old.layout (held_memory monitor.old) (record { effect = effect.now; step = step }) }
{
    commit_any(monitor, effect, step);
}

// The same, whatever it is.
#[inline(always)]
fn commit_any(monitor: &mut Monitor, effect: &Effect, step: Move)
    requires judged { WasJudged monitor.old effect.now step }
    requires opened { AreOpen (shared_barred monitor.old.store) effect.now }
    requires address { HasAddress effect.now step }
    requires level { HasLevel monitor.old step }
    ensures layout { monitor.new.layout ≡ monitor.old.layout }
    ensures memory { held_memory monitor.new
        ≡ memory_after monitor.old.layout (held_memory monitor.old) (record { effect = effect.now; step = step }) }
{
    cite_stores(monitor);
    monitor.commit(effect, step);
    cite_stores(monitor);
}
