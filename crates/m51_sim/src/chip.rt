//! An image, a script, the processor, the devices, and the number of the machine cycle.
ghost use Rattle.std.specs.Prelude.{◌≡◌, ◌≤◌, ◌+◌, ◌-◌, ◌^◌, List, length, min, IfOk, IfSome, IsTrue};
ghost use Rattle.m51_flat.specs.Reset.{reset_cpu};
ghost use Rattle.m51_flat.specs.declared.state.Cpu.{Cpu};
ghost use Rattle.m51_timers_uart.specs.LineLaws.{written_to};
ghost use Rattle.m51_timers_uart.specs.Tick.{reset_periph};
ghost use Rattle.m51_sim.specs.Boards.{IsDraftOf};
ghost use Rattle.m51_sim.specs.Cycles.{AreFew, Counts, cycles_passed, inputs_of, with_extra};
ghost use Rattle.m51_sim.specs.Effects.{attempt_by, attempt_of, changed_by, executing, idle_effect};
ghost use Rattle.m51_sim.specs.Effects.{instr_at, latch_address, port_entry};
ghost use Rattle.m51_sim.specs.Plain.{DevicesAre, DevicesGo, KeepsDevices, KeepsPace, is_plain, paced_cpu};
ghost use Rattle.m51_sim.specs.declared.cycles.Timed.{Timed as TimedFrame};
ghost use Rattle.m51_timers_uart.specs.declared.periph.Periph.{Periph as PeriphState};

use crate::attempt::Attempt;
use crate::cycles::{Pace, Passing, Timed, cite_registers, pass_cycles};
use crate::program::Program;
use crate::runs::{Entries, NO_ENTRIES};
use m51_cells::{Entry, Event, NoMemory};
use m51_flat::{Cpu, Effect, Pins, Put, Source, Transfer, begin, copy_cpu, reset};
use m51_irq::choose;
use m51_module::Image;
use m51_script::Script;
use m51_sfr::addresses::{P0, P1, P2, P3, PCON};
use m51_sfr::bits::IDL;
use m51_timers_uart::{Periph, count_on};
use std::alloc::Global;
use std::marker::Model;

// Room for the effect of a step, which is made before it is read; `same` says that its processor is known to be that of
// the chip, and `plain` that it is known to change nothing that decides how the devices go. `told` is what a step
// reports, where it reports anything.
#[derive(Drop)]
pub(crate) struct Draft {
    pub(crate) effect: Effect,
    pub(crate) same: bool,
    pub(crate) plain: bool,
    pub(crate) told: Result<Entries, Event>,
}

/// What both boards have besides their memories.
#[derive(Drop)]
pub(crate) struct Chip {
    program: Program,
    script: Script,
    passing: Passing,
    // How the devices go, where that is known.
    pace: Option<Pace>,
}

impl Model for Chip {
    ghost use Rattle.m51_sim.specs.Boards.{ChipState};
    ghost use Rattle.std.specs.Prelude.{IfSome};
    ghost use Rattle.m51_sim.specs.Cycles.{IsPaced};

    ghost Value = { ChipState };

    ghost view = { λ c. record {
      image = c.program;
      script = c.script;
      cpu = c.passing.cpu;
      periph = c.passing.periph;
      cycle = c.passing.cycle;
    } };

    ghost invariant = { λ c. IfSome c.pace (λ pace. IsPaced pace c.script c.passing) };
}

impl Chip {
    // With this image and script, after a reset. Error: out of memory.
    pub(crate) fn make(alloc: Global, image: Image, script: Script) -> Result<Chip, NoMemory>
        ensures { IfOk result (λ chip. chip ≡ record {
          image = image;
          script = script;
          cpu = reset_cpu;
          periph = reset_periph ((inputs_of script).pins 0);
          cycle = 0;
        }) }
    {
        let program = Program::make(alloc, image)?;
        let periph = Periph::reset(&script.pins_at(0));
        Ok(Chip {
            program,
            script,
            passing: Passing {
                cpu: reset(),
                periph,
                cycle: 0,
                sent: None,
            },
            pace: None,
        })
    }

    // The processor.
    pub(crate) fn cpu(&self) -> &Cpu
        ensures { result.now ≡ self.now.cpu }
    {
        &self.passing.cpu
    }

    // The address of the next instruction.
    pub(crate) fn pc(&self) -> u16
        ensures { result ≡ self.now.cpu.pc }
    {
        self.passing.cpu.pc
    }

    // The number of the machine cycle.
    pub(crate) fn cycle(&self) -> u64
        ensures { result ≡ self.now.cycle }
    {
        self.passing.cycle
    }

    // The bytes of the image.
    pub(crate) fn bytes(&self) -> &[u8]
        ensures list { result.now ≡ self.now.image }
        ensures whole { length result.now ≡ 65536 }
    {
        self.program.bytes()
    }

    // The levels that the outside gives the pins.
    pub(crate) fn pins(&self) -> Pins
        ensures { result ≡ (inputs_of self.now.script).pins self.now.cycle }
    {
        self.script.pins_at(self.passing.cycle)
    }

    // What the next step is.
    #[tactic(auto, unfolding(crate::specs::Effects::attempt_of))]
    #[inline(always)]
    pub(crate) fn attempt(&self) -> Attempt
        ensures { result ≡ attempt_of self.now.image self.now.cpu }
    {
        self.attempt_by(choose(&self.passing.cpu))
    }

    // The same, where it is known which interrupt is to be taken.
    #[inline(always)]
    fn attempt_by(&self, taken: Option<Source>) -> Attempt
        ensures { result ≡ attempt_by self.now.image self.now.cpu taken }
    {
        match taken {
            Some(source) => Attempt::Vectoring(source),
            None => {
                if self.passing.cpu.flag(PCON, IDL) {
                    Attempt::Idling
                } else {
                    self.fetch()
                }
            }
        }
    }

    // Whether the instruction at the program counter is plain.
    #[inline(always)]
    pub(crate) fn is_plain(&self) -> bool
        ensures { result ≡ is_plain (instr_at self.now.image self.now.cpu.pc) }
    {
        self.program.is_plain(self.passing.cpu.pc)
    }

    // The instruction at the program counter, or the reserved opcode.
    #[inline(always)]
    fn fetch(&self) -> Attempt
        ensures { result ≡ executing (instr_at self.now.image self.now.cpu.pc) }
    {
        match self.program.instr(self.passing.cpu.pc) {
            None => Attempt::Refusing,
            Some(instr) => Attempt::Executing(instr),
        }
    }

    // How the devices go in the cycles of a plain step, where that is known and no further frame comes.
    #[inline(always)]
    pub(crate) fn pace_on(&self, draft: &Draft, extra: &[Timed]) -> Option<Pace>
        requires { IsTrue draft.now.plain → KeepsDevices self.now.cpu draft.now.effect }
        ensures { IfSome result (λ pace. KeepsPace pace self.now extra.now draft.now.effect) }
    {
        if !draft.plain || !extra.is_empty() {
            return None;
        }
        match self.pace {
            None => None,
            Some(pace) => {
                cite_registers(&self.passing.cpu);
                cite_registers(&draft.effect.cpu);
                if keeps_pace(pace, &self.passing.periph, &draft.effect) {
                    Some(pace)
                } else {
                    None
                }
            }
        }
    }

    // Whether it is known that the devices count in the cycles of a plain step, and no further frame comes.
    #[inline(always)]
    fn is_counted(&self, draft: &Draft, extra: &[Timed]) -> bool
        requires { IsTrue draft.now.plain → KeepsDevices self.now.cpu draft.now.effect }
        ensures alone { IsTrue result → length extra.now ≡ 0 }
        ensures counts { IsTrue result → Counts self.now.script
            (changed_by self.now.cycle self.now.periph draft.now.effect) }
    {
        if !extra.is_empty() || !draft.plain {
            return false;
        }
        cite_registers(&self.passing.cpu);
        match self.pace {
            None => false,
            Some(pace) => is_counting(pace),
        }
    }

    // Performs the step of an effect, but for its puts, where the devices keep this pace: its cycles pass at once.
    #[inline(always)]
    pub(crate) fn keep_pace(&mut self, draft: &mut Draft, pace: Pace)
        requires { (extra : List TimedFrame) × KeepsPace pace self.old extra draft.old.effect }
        ensures draft { IsDraftOf draft.new self.new.cpu }
        ensures before { self.old.cycle ≤ 2 ^ 64 - 1 }
        ensures chip { self.new ≡ record self.old {
          cpu = paced_cpu pace draft.old.effect;
          cycle = min (self.old.cycle + draft.old.effect.cycles) (2 ^ 64 - 1);
        } }
    {
        pass_on(pace, &mut draft.effect);
        self.passing.cycle = later(self.passing.cycle, draft.effect.cycles);
        copy_cpu(&mut self.passing.cpu, &draft.effect.cpu);
        draft.same = true;
        self.pace = Some(pace);
    }

    // Performs the step of an effect, but for its puts: its changes, and then its cycles.
    #[inline(always)]
    pub(crate) fn pass(&mut self, draft: &mut Draft, extra: &[Timed]) -> Entries
        requires few { AreFew extra.now }
        requires plain { IsTrue draft.old.plain → KeepsDevices self.old.cpu draft.old.effect }
        ensures image { self.new.image ≡ self.old.image }
        ensures script { self.new.script ≡ self.old.script }
        ensures draft { IsDraftOf draft.new self.new.cpu }
        ensures port { result.port ≡ port_entry self.old.cycle draft.old.effect }
        ensures passed { record {
          cpu = self.new.cpu;
          periph = self.new.periph;
          cycle = self.new.cycle;
          sent = result.sent;
        } ≡ cycles_passed (with_extra extra.now (inputs_of self.old.script)) draft.old.effect.cycles
            (changed_by self.old.cycle self.old.periph draft.old.effect) }
    {
        let start = self.passing.cycle;
        let counted = self.is_counted(draft, extra);
        copy_cpu(&mut self.passing.cpu, &draft.effect.cpu);
        draft.same = false;
        begin_sending(&mut self.passing.periph, &draft.effect);
        self.passing.sent = None;
        self.pace = pass_cycles(
            &self.script,
            extra,
            draft.effect.cycles,
            &mut self.passing,
            counted,
        );
        Entries {
            port: port_entry(start, &draft.effect),
            sent: self.passing.sent,
        }
    }
}

// Whether a pace is that of devices that count.
#[inline(always)]
fn is_counting(pace: Pace) -> bool
    ensures { IsTrue result → pace ≡ Pace.Counting }
{
    match pace {
        Pace::Resting => false,
        Pace::Counting => true,
    }
}

// Whether the devices keep their pace in the cycles of an effect.
#[inline(always)]
fn keeps_pace(pace: Pace, periph: &Periph, effect: &Effect) -> bool
    requires { DevicesAre pace effect.now.cpu periph.now }
    ensures { IsTrue result → DevicesGo pace periph.now effect.now }
{
    match pace {
        Pace::Resting => true,
        Pace::Counting => periph.only_counts(&effect.cpu, effect.cycles),
    }
}

// Passes the cycles of an effect at once.
#[inline(always)]
fn pass_on(pace: Pace, effect: &mut Effect)
    requires { (p : PeriphState) × DevicesGo pace p effect.old }
    ensures { effect.new ≡ record effect.old { cpu = paced_cpu pace effect.old } }
{
    match pace {
        Pace::Resting => {}
        Pace::Counting => count_on(effect.cycles, &mut effect.cpu),
    }
}

// The number of the cycle after this number of cycles.
#[inline(always)]
fn later(cycle: u64, count: u8) -> u64
    ensures later { result ≡ min (cycle + count) (2 ^ 64 - 1) }
    ensures before { cycle ≤ 2 ^ 64 - 1 }
{
    cycle.saturating_add(u64::from(count))
}

// Makes an effect that of a machine cycle without an instruction.
pub(crate) fn idle(effect: &mut Effect, cpu: &Cpu)
    ensures { effect.new ≡ idle_effect cpu.now }
{
    begin(effect, cpu, 1);
}

// Room for the effects of steps, each of which is made before it is read.
pub(crate) fn blank_draft() -> Draft
    ensures { (cpu : Cpu) → IsDraftOf result cpu }
{
    Draft {
        effect: Effect {
            cpu: reset(),
            first: Put::Nothing,
            second: Put::Nothing,
            transfer: Transfer::Next,
            port: None,
            sbuf: None,
            cycles: 1,
        },
        same: false,
        plain: false,
        told: Ok(NO_ENTRIES),
    }
}

// Begins to send the byte that was written to SBUF, if one was.
#[inline(always)]
fn begin_sending(periph: &mut Periph, effect: &Effect)
    ensures { periph.new ≡ written_to effect.now.cpu effect.now.sbuf periph.old }
{
    if let Some(byte) = effect.sbuf {
        periph.begin(&effect.cpu, byte);
    }
}

// The address of the latch of a port.
fn latch_address(port: u8) -> u8
    ensures { result ≡ latch_address port }
{
    match port {
        0 => P0,
        1 => P1,
        2 => P2,
        _ => P3,
    }
}

// The entry of a step that starts in this cycle, if it wrote the latch of a port.
fn port_entry(cycle: u64, effect: &Effect) -> Option<Entry>
    ensures { result ≡ port_entry cycle effect.now }
{
    match effect.port {
        None => None,
        Some(port) => Some(Entry::Port {
            cycle,
            port,
            value: effect.cpu.latch(latch_address(port)),
        }),
    }
}
