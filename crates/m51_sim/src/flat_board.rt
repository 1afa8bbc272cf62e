//! A board with one memory for all.
ghost use Rattle.std.specs.Prelude.{◌≡◌, ◌≤◌, ℕ, [], List, IfErr, IfOk, IsTrue, true};
ghost use Rattle.m51_cells.specs.declared.limits.TheConstants.{MOST_STEPS};
ghost use Rattle.m51_cells.specs.Outside.{Rose};
ghost use Rattle.m51_print.specs.Lines.{HasText};
ghost use Rattle.m51_script.specs.declared.script.Script.{Script as ScriptState};
ghost use Rattle.m51_sim.specs.Boards.{IsDraftOf, IsFlatStarted, flat_of, map_of, state_with};
ghost use Rattle.m51_sim.specs.Cycles.{inputs_of};
ghost use Rattle.m51_sim.specs.Effects.{attempt_of};
ghost use Rattle.m51_sim.specs.FlatMachine.{flat_effect, flat_machine, instr_effect, left_in, map_after};
ghost use Rattle.m51_sim.specs.Plain.{is_plain_step};
ghost use Rattle.m51_sim.specs.Report.{IsFlatReport};
ghost use Rattle.m51_sim.specs.Run.{Ended, IsAdvance};
ghost use Rattle.m51_irq.specs.Vectoring.{vectoring};

use crate::attempt::Attempt;
use crate::chip::{Chip, Draft, blank_draft, idle};
use crate::runs::{Entries, NO_ENTRIES, RunEnd, Runnable, run};
use m51_cells::{Event, NoMemory};
use m51_flat::{CellStore, Cpu, Effect, FlatRam, NoEffect, Put, Source, exec_into};
use m51_irq::vector_into;
use m51_isa::Instr;
use m51_module::{Image, Placed};
use m51_script::Script;
use m51_shelf::Sink;
use std::alloc::Global;
use std::marker::Model;

/// A board that runs an image over one map from all cells to values. It stops at the reserved opcode and at power-down
/// only.
///
/// Source: own choice ("Boards").
#[derive(Drop)]
pub struct FlatBoard {
    chip: Chip,
    memory: FlatRam,
    draft: Draft,
}

impl Model for FlatBoard {
    ghost use Rattle.m51_sim.specs.Boards.{FlatState, IsDraftOf};

    ghost Value = { FlatState };

    ghost view = { λ b. record { chip = b.chip; memory = b.memory } };

    ghost invariant = { λ b. IsDraftOf b.draft b.chip.cpu };
}

impl FlatBoard {
    /// A board with this image and this script, after a reset, with the script's fill everywhere. Out of memory is the
    /// one refusal.
    ///
    /// Source: own choice ("Boards").
    pub fn make(alloc: Global, image: Image, script: Script) -> Result<FlatBoard, NoMemory>
        ensures { IfOk result (IsFlatStarted image script) }
    {
        let memory = FlatRam::filled(alloc, script.fill())?;
        let chip = Chip::make(alloc, image, script)?;
        Ok(FlatBoard {
            chip,
            memory,
            draft: blank_draft(),
        })
    }

    /// At most `n` steps, 1 to 10,000,000, with a line for each entry and the last line.
    ///
    /// WriteFault: the sink has failed. If its text is visible to contracts, the board is after the step whose line is
    /// not whole, or after the last step where that line is the last; else after any of the steps. It may be run on.
    ///
    /// Source: own choice ("Runs").
    pub fn run<S: Sink>(&mut self, n: u32, out: &mut S) -> RunEnd
        requires { (1 ≤ n) × (n ≤ MOST_STEPS) }
        ensures ended { Ended (S.state out.old).text (S.state out.new).text []
            (flat_machine self.old.chip.image (inputs_of self.old.chip.script)) n
            (flat_of self.old) (flat_of self.new) result }
        ensures report { (image : List ℕ) (script : ScriptState) → IsFlatStarted image script self.old
            → IsFlatReport image script n (S.state out.old).text (S.state out.new).text result }
        ensures image { self.new.chip.image ≡ self.old.chip.image }
        ensures script { self.new.chip.script ≡ self.old.chip.script }
        ensures later { (S.state out.old).faults ≤ (S.state out.new).faults }
        ensures fault { result ≡ RunEnd.WriteFault → Rose (S.state out.old).faults (S.state out.new).faults }
    {
        run(self, n, out)
    }
}

// The outcome of an instruction: its effect, or power-down.
#[inline(always)]
fn execute(chip: &Chip, memory: &FlatRam, instr: &Instr, draft: &mut Draft) -> Result<(), Event>
    requires { IsDraftOf draft.old chip.now.cpu }
    ensures value { left_in result draft.new.effect ≡ instr_effect chip.now.image chip.now.cpu (map_of memory.now)
        ((inputs_of chip.now.script).pins chip.now.cycle) instr.now }
    ensures text { IfErr result (HasText 0) }
{
    match exec_into(
        chip.cpu(),
        memory,
        instr,
        chip.bytes(),
        &chip.pins(),
        &mut draft.effect,
        draft.same,
    ) {
        Ok(()) => Ok(()),
        Err(NoEffect::PowerDown) => Err(Event::PowerDown { at: chip.pc() }),
        // Each cell holds a value, and may be written.
        Err(NoEffect::Outside(_) | NoEffect::Unset(_)) => unreachable!(),
    }
}

// Makes an effect the vectoring of an interrupt.
fn take(effect: &mut Effect, cpu: &Cpu, memory: &FlatRam, source: Source)
    ensures { effect.new ≡ vectoring cpu.now source }
{
    match vector_into(cpu, memory, source, effect) {
        Ok(()) => {}
        // Each cell may be written.
        Err(NoEffect::Outside(_) | NoEffect::Unset(_) | NoEffect::PowerDown) => unreachable!(),
    }
}

// The effect of the next step, or the event that stops it.
#[tactic(auto, unfolding(crate::specs::FlatMachine::flat_effect))]
#[inline(always)]
fn judge(chip: &Chip, memory: &FlatRam, draft: &mut Draft) -> Result<(), Event>
    requires { IsDraftOf draft.old chip.now.cpu }
    ensures value { left_in result draft.new.effect ≡ flat_effect chip.now.image chip.now.cpu (map_of memory.now)
        ((inputs_of chip.now.script).pins chip.now.cycle) (attempt_of chip.now.image chip.now.cpu) }
    ensures plain { IsTrue draft.new.plain → is_plain_step (attempt_of chip.now.image chip.now.cpu) ≡ true }
    ensures text { IfErr result (HasText 0) }
{
    match chip.attempt() {
        Attempt::Vectoring(source) => {
            draft.plain = true;
            take(&mut draft.effect, chip.cpu(), memory, source);
            Ok(())
        }
        Attempt::Idling => {
            draft.plain = false;
            idle(&mut draft.effect, chip.cpu());
            Ok(())
        }
        Attempt::Executing(instr) => {
            let plain = chip.is_plain();
            let answer = execute(chip, memory, &instr, draft);
            draft.plain = plain;
            answer
        }
        Attempt::Refusing => {
            draft.plain = false;
            Err(Event::Reserved { at: chip.pc() })
        }
    }
}

// Writes the cells of a put.
#[inline(always)]
fn put_any(memory: &mut FlatRam, put: &Put)
    ensures { map_of memory.new ≡ map_after put.now (map_of memory.old) }
{
    memory.put(put);
}

// The same in a place of its own, for the puts that few steps have.
#[inline(never)]
fn put_apart(memory: &mut FlatRam, put: &Put)
    ensures { map_of memory.new ≡ map_after put.now (map_of memory.old) }
{
    put_any(memory, put);
}

// Writes the cells of a put, where a byte or none, as most are, has machine code of its own.
#[inline(always)]
fn put(memory: &mut FlatRam, put: &Put)
    ensures { map_of memory.new ≡ map_after put.now (map_of memory.old) }
{
    match *put {
        Put::Byte { .. } => put_any(memory, put),
        Put::Nothing => put_any(memory, put),
        _ => put_apart(memory, put),
    }
}

// Writes the cells of both puts of an effect, those of the first one first.
fn put_both(memory: &mut FlatRam, effect: &Effect)
    ensures { map_of memory.new ≡ map_after effect.now.second (map_after effect.now.first (map_of memory.old)) }
{
    put(memory, &effect.first);
    put(memory, &effect.second);
}

// Performs a step and gives what it reports, or gives the event that stops it.
#[inline(always)]
fn advance(chip: &mut Chip, memory: &mut FlatRam, draft: &mut Draft) -> Result<Entries, Event>
    requires { IsDraftOf draft.old chip.old.cpu }
    ensures draft { IsDraftOf draft.new chip.new.cpu }
    ensures image { chip.new.image ≡ chip.old.image }
    ensures script { chip.new.script ≡ chip.old.script }
    ensures step { IsAdvance (flat_machine chip.old.image (inputs_of chip.old.script)
        (state_with chip.old (map_of memory.old))) result
        (state_with chip.old (map_of memory.old)) (state_with chip.new (map_of memory.new)) }
    ensures text { IfErr result (HasText 0) }
{
    match judge(chip, memory, draft) {
        Ok(()) => {
            put_both(memory, &draft.effect);
            match chip.pace_on(draft, &[]) {
                Some(pace) => {
                    chip.keep_pace(draft, pace);
                    Ok(NO_ENTRIES)
                }
                None => Ok(chip.pass(draft, &[])),
            }
        }
        Err(event) => {
            draft.same = false;
            Err(event)
        }
    }
}

impl Runnable for FlatBoard {
    ghost use Rattle.std.specs.Prelude.{ℕ, List, []};
    ghost use Rattle.m51_flat.specs.Reads.{CellMap};
    ghost use Rattle.m51_sim.specs.Boards.{FlatLoaded, flat_of};
    ghost use Rattle.m51_sim.specs.Cycles.{inputs_of};
    ghost use Rattle.m51_sim.specs.FlatMachine.{flat_machine};

    ghost Memory = { CellMap };

    ghost Fixed = { FlatLoaded };

    ghost fixed = { λ b. record { image = b.chip.image; script = b.chip.script } };

    ghost machine = { λ loaded. flat_machine loaded.image (inputs_of loaded.script) };

    ghost state = { flat_of };

    ghost extents = { λ loaded. [] };

    fn advance(&mut self) -> Result<Entries, Event> {
        advance(&mut self.chip, &mut self.memory, &mut self.draft)
    }

    fn cycle(&self) -> u64 {
        self.chip.cycle()
    }

    fn placed(&self) -> &[Placed] {
        &[]
    }
}
