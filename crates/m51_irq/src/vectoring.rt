//! Taking an interrupt.
ghost use Rattle.std.specs.Prelude.{◌≡◌, ◌<◌, false, length};
ghost use Rattle.m51_cells.specs.declared.cell.Cell.{Cell};
ghost use Rattle.m51_flat.specs.declared.state.Outcome.TheVariants.{Done};
ghost use Rattle.m51_flat.specs.Outcome.{outcome_by};
ghost use Rattle.m51_flat.specs.Causes.{IsCause};
ghost use Rattle.m51_flat.specs.Laws.{HasParity, IfDone};
ghost use Rattle.m51_irq.specs.Vectoring.{IsVectoring, acknowledged, cleared, edge_cleared, entered, interrupted};
ghost use Rattle.m51_irq.specs.Vectoring.{vectored, vectoring};

use crate::sources::level_of;
use m51_flat::{
    CellStore, Cpu, Effect, Level, NoEffect, Outcome, Source, Transfer, clear as clear_effect,
    conclude, copy_cpu, stack_pc,
};
use m51_sfr::addresses::{PCON, TCON};
use m51_sfr::bits::{IDL, IE0, IE1, IT0, IT1, TF0, TF1};

// Clears a flag of TCON where the bit that makes it an edge's is 1.
fn clear_edge(cpu: &mut Cpu, flag: u8, edge: u8)
    requires flag { flag < 8 }
    requires edge { edge < 8 }
    ensures { cpu.new ≡ edge_cleared flag edge cpu.old }
{
    if cpu.flag(TCON, edge) {
        cpu.set_flag(TCON, flag, false);
    }
}

// Clears the flag of a source where the hardware does.
#[tactic(auto, unfolding(crate::specs::Vectoring::cleared))]
fn clear(cpu: &mut Cpu, source: Source)
    ensures { cpu.new ≡ cleared source cpu.old }
{
    match source {
        Source::Ie0 => clear_edge(cpu, IE0, IT0),
        Source::Tf0 => cpu.set_flag(TCON, TF0, false),
        Source::Ie1 => clear_edge(cpu, IE1, IT1),
        Source::Tf1 => cpu.set_flag(TCON, TF1, false),
        Source::Serial | Source::Timer2 => {}
    }
}

// Sets a level in progress.
fn enter(cpu: &mut Cpu, level: Level)
    ensures { cpu.new ≡ entered level cpu.old }
{
    match level {
        Level::Low => cpu.low = true,
        Level::High => cpu.high = true,
    }
}

/// Acknowledges an interrupt: its level is in progress, TF0 or TF1 is cleared, and IE0 or IE1 where an edge set it, and
/// the processor is no longer idle.
///
/// Source: family manual.
pub fn acknowledge(cpu: &mut Cpu, source: Source)
    ensures { cpu.new ≡ acknowledged source cpu.old }
{
    let level = level_of(cpu, source);
    clear(cpu, source);
    cpu.set_flag(PCON, IDL, false);
    enter(cpu, level);
}

// Makes an effect that of an interrupt that is acknowledged, before the call of its vector.
fn interrupt(effect: &mut Effect, cpu: &Cpu, source: Source)
    ensures { effect.new ≡ interrupted cpu.now source }
{
    copy_cpu(&mut effect.cpu, cpu);
    acknowledge(&mut effect.cpu, source);
    clear_effect(effect, 2);
}

// Makes an effect all that taking an interrupt changes.
#[tactic(auto, unfolding(crate::specs::Vectoring::vectoring))]
fn vector_effect(effect: &mut Effect, cpu: &Cpu, source: Source)
    ensures value { effect.new ≡ vectoring cpu.now source }
    ensures registers { length (interrupted cpu.now source).cpu.regs ≡ 128 }
{
    interrupt(effect, cpu, source);
    stack_pc(effect);
    effect.cpu.pc = source.vector();
    effect.transfer = Transfer::Vector(source);
}

/// The outcome of taking an interrupt over a store. It changes nothing: the caller puts `first` and then `second`.
///
/// - `Outside`: the lowest cell of the first put, then of the second, that may not be written.
/// - `Done`, else: the interrupt is acknowledged, and its vector called, in two cycles.
///
/// Source: family manual; own choice ("Effects").
pub fn vector<M: CellStore>(cpu: &Cpu, store: &M, source: Source) -> Outcome
    ensures outcome { result ≡ vectored cpu.now (M.barred store.now) source }

    // A cell that it names exists and is barred.
    ensures missing { IsCause (M.cells store.now) (M.barred store.now) result }

    // Over a store of which no cell is barred: the effect.
    ensures whole { ((c : Cell) → M.barred store.now c ≡ false)
        → result ≡ Done (vectoring cpu.now source) }

    // PSW bit 0 stays the parity of ACC.
    ensures parity { HasParity cpu.now → IfDone result (λ e. HasParity e.cpu) }

    // PC is the vector; its old value is stored above the stack, low byte first, and SP is raised by two.
    ensures control { IfDone result (IsVectoring cpu.now source) }
{
    let mut effect = Effect::none(cpu);
    let answer = vector_into(cpu, store, source, &mut effect);
    Outcome::of(answer, &effect)
}

/// The outcome of taking an interrupt, as `vector` answers it, with its effect in a variable of the caller. It changes
/// only the effect, which has no meaning after an error.
///
/// Source: own choice ("Effects").
pub fn vector_into<M: CellStore>(
    cpu: &Cpu,
    store: &M,
    source: Source,
    effect: &mut Effect,
) -> Result<(), NoEffect>
    ensures outcome { outcome_by result effect.new ≡ vectored cpu.now (M.barred store.now) source }

    // A cell that it names exists and is barred.
    ensures missing { IsCause (M.cells store.now) (M.barred store.now) (outcome_by result effect.new) }

    // Over a store of which no cell is barred: the effect.
    ensures whole { ((c : Cell) → M.barred store.now c ≡ false)
        → outcome_by result effect.new ≡ Done (vectoring cpu.now source) }

    // PSW bit 0 stays the parity of ACC.
    ensures parity { HasParity cpu.now → IfDone (outcome_by result effect.new) (λ e. HasParity e.cpu) }

    // PC is the vector; its old value is stored above the stack, low byte first, and SP is raised by two.
    ensures control { IfDone (outcome_by result effect.new) (IsVectoring cpu.now source) }
{
    vector_effect(effect, cpu, source);
    conclude(store, effect)
}
