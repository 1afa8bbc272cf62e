//! A board whose program keeps to its units, and whose segments have stores of their own.
ghost use Rattle.std.specs.Option.{ForSome};
ghost use Rattle.std.specs.Prelude.{◌≡◌, ◌≤◌, ℕ, IfErr, IfOk, IsTrue, List, Ok, length};
ghost use Rattle.m51_cells.specs.declared.limits.TheConstants.{MOST_STEPS};
ghost use Rattle.m51_cells.specs.Outside.{Rose};
ghost use Rattle.m51_module.specs.Plan.{IsRootAt};
ghost use Rattle.m51_module.specs.declared.parts.LayoutParts.{LayoutParts};
ghost use Rattle.m51_monitor.specs.Monitored.{live_in};
ghost use Rattle.m51_monitor.specs.Related.{OneLive};
ghost use Rattle.m51_print.specs.Lines.{HasText, titles_of};
ghost use Rattle.m51_script.specs.declared.script.Script.{Script as ScriptState};
ghost use Rattle.m51_sim.specs.Boards.{IsDraftOf, IsInOrder, IsPassed, IsStarted, StandsForState, held_memory};
ghost use Rattle.m51_sim.specs.Boards.{separate_of};
ghost use Rattle.m51_sim.specs.Boards.{state_with, told_in};
ghost use Rattle.m51_sim.specs.Cycles.{AreFew, inputs_of, with_extra};
ghost use Rattle.m51_sim.specs.Effects.{attempt_of};
ghost use Rattle.m51_sim.specs.Plain.{KeepsDevices};
ghost use Rattle.m51_sim.specs.Report.{IsReport};
ghost use Rattle.m51_sim.specs.Run.{Ended, IsAdvance, IsStep, IsToldStep, step_told, stopped_by, tally_of, told_by};
ghost use Rattle.m51_sim.specs.Runs.{record_of};
ghost use Rattle.m51_sim.specs.SeparateMachine.{separate_machine};
ghost use Rattle.m51_sim.specs.declared.runs.Entries.{Entries as EntriesTold};

use crate::attempt::Attempt;
use crate::chip::{Chip, Draft, blank_draft};
use crate::cycles::Timed;
use crate::judging::{cite_stores, commit, judge};
use crate::runs::{Entries, NO_ENTRIES, RunEnd, Runnable, Step, Told, count_run, run};
use m51_cells::{Event, NoMemory};
use m51_flat::Cpu;
use m51_module::{Image, Layout, Placed, Tally};
use m51_monitor::Monitor;
use m51_script::Script;
use m51_shelf::Sink;
use std::alloc::Global;
use std::marker::Model;

/// A board that runs a linked program: each segment of data memory has a store of its own, and control keeps to the
/// units and edges of the layout. Only `make` allocates.
///
/// Source: own choice ("Boards").
#[derive(Drop)]
pub struct Board {
    chip: Chip,
    monitor: Monitor,
    draft: Draft,
}

impl Model for Board {
    ghost use Rattle.m51_sim.specs.Boards.{BoardState, IsReady};

    ghost Value = { BoardState };

    ghost view = { λ b. record { chip = b.chip; monitor = b.monitor } };

    ghost invariant = { λ b. IsReady b.monitor b.chip.cpu b.draft };
}

impl Board {
    /// A board with this layout, which has a root at 0000H, this image and this script, after a reset: plain segments
    /// and the common store have the script's fill, and overlaid segments are unset. Out of memory is the only error.
    ///
    /// Source: own choice ("Boards").
    pub fn make(
        alloc: Global,
        layout: Layout,
        image: Image,
        script: Script,
    ) -> Result<Board, NoMemory>
        requires { (unit : ℕ) × IsRootAt layout 0 unit }
        ensures { IfOk result (IsStarted layout image script) }
    {
        let monitor = Monitor::start(alloc, layout, script.fill())?;
        cite_stores(&monitor);
        let chip = Chip::make(alloc, image, script)?;
        Ok(Board {
            chip,
            monitor,
            draft: blank_draft(),
        })
    }

    /// One step. One that is stopped changes nothing, and the next step answers the same.
    ///
    /// Source: own choice ("Runs").
    pub fn step(&mut self) -> Step
        ensures step { IsStep (separate_machine self.old.monitor.layout self.old.chip.image
            (inputs_of self.old.chip.script) (separate_of self.old)) result
            (separate_of self.old) (separate_of self.new) }
        ensures layout { self.new.monitor.layout ≡ self.old.monitor.layout }
        ensures image { self.new.chip.image ≡ self.old.chip.image }
        ensures script { self.new.chip.script ≡ self.old.chip.script }
    {
        let answer = advance_alone(&mut self.monitor, &mut self.chip, &mut self.draft);
        step_told(answer)
    }

    /// One step with further frames, which come after the script's of their cycle, and its entries. Of one cycle there
    /// are at most seven.
    ///
    /// Source: own choice ("Frames of other boards").
    pub fn step_on(&mut self, extra: &[Timed]) -> Told
        requires { AreFew extra.now }
        ensures step { IsToldStep (separate_machine self.old.monitor.layout self.old.chip.image
            (with_extra extra.now (inputs_of self.old.chip.script)) (separate_of self.old)) result
            (separate_of self.old) (separate_of self.new) }
        // The segment of an event is one of the placed extents, and its cell one of RAM or of external data memory.
        ensures text { ForSome (stopped_by result.step) (HasText (length self.old.monitor.layout.placed)) }
        ensures layout { self.new.monitor.layout ≡ self.old.monitor.layout }
        ensures image { self.new.chip.image ≡ self.old.chip.image }
        ensures script { self.new.chip.script ≡ self.old.chip.script }
    {
        let is_told = advance(&mut self.monitor, &mut self.chip, &mut self.draft, extra);
        told_by(told_in(is_told, &self.draft))
    }

    /// At most `n` steps, 1 to 10,000,000, with a line for each entry and the last line.
    ///
    /// WriteFault: the sink has failed. If its text is visible to contracts, the board is after the step whose line is
    /// not whole, or after the last step where that line is the last; else after any of the steps. It may be run on.
    ///
    /// Source: own choice ("Runs").
    pub fn run<S: Sink>(&mut self, n: u32, out: &mut S) -> RunEnd
        requires { (1 ≤ n) × (n ≤ MOST_STEPS) }
        ensures ended { Ended (S.state out.old).text (S.state out.new).text (titles_of self.old.monitor.layout.placed)
            (separate_machine self.old.monitor.layout self.old.chip.image (inputs_of self.old.chip.script)) n
            (separate_of self.old) (separate_of self.new) result }
        ensures report { (l : LayoutParts) (image : List ℕ) (script : ScriptState) → IsStarted l image script self.old
            → IsReport l image script n (S.state out.old).text (S.state out.new).text result }
        ensures layout { self.new.monitor.layout ≡ self.old.monitor.layout }
        ensures image { self.new.chip.image ≡ self.old.chip.image }
        ensures script { self.new.chip.script ≡ self.old.chip.script }
        ensures later { (S.state out.old).faults ≤ (S.state out.new).faults }
        ensures fault { result ≡ RunEnd.WriteFault → Rose (S.state out.old).faults (S.state out.new).faults }
    {
        run(self, n, out)
    }

    /// The numbers of at most `n` steps, 1 to 10,000,000, which are performed as `run` performs them.
    ///
    /// Source: own choice ("Runs").
    pub fn tally(&mut self, n: u32) -> Tally
        requires { (1 ≤ n) × (n ≤ MOST_STEPS) }
        ensures tally { result ≡ tally_of (record_of (separate_machine self.old.monitor.layout self.old.chip.image
            (inputs_of self.old.chip.script)) n (separate_of self.old)) }
        ensures last { separate_of self.new ≡ (record_of (separate_machine self.old.monitor.layout self.old.chip.image
            (inputs_of self.old.chip.script)) n (separate_of self.old)).last }
        // The segment of an event is one of the placed extents, and its cell one of RAM or of external data memory.
        ensures text { ForSome result.event (HasText (length self.old.monitor.layout.placed)) }
        ensures layout { self.new.monitor.layout ≡ self.old.monitor.layout }
        ensures image { self.new.chip.image ≡ self.old.chip.image }
        ensures script { self.new.chip.script ≡ self.old.chip.script }
    {
        count_run(self, n)
    }

    /// The layout that `make` was given.
    ///
    /// Source: own choice ("Boards").
    pub fn layout(&self) -> &Layout
        ensures { result.now ≡ self.now.monitor.layout }
    {
        self.monitor.layout()
    }

    /// The processor.
    ///
    /// Source: own choice ("Boards").
    pub fn cpu(&self) -> &Cpu
        ensures { result.now ≡ self.now.chip.cpu }
    {
        self.chip.cpu()
    }

    /// The records of what is active, and the memory.
    ///
    /// Source: own choice ("Boards").
    pub fn monitor(&self) -> &Monitor
        ensures { result.now ≡ self.now.monitor }
    {
        &self.monitor
    }

    /// The bytes of the image.
    ///
    /// Source: own choice ("Boards").
    pub fn bytes(&self) -> &[u8]
        ensures list { result.now ≡ self.now.chip.image }
        ensures whole { length result.now ≡ 65536 }
    {
        self.chip.bytes()
    }

    /// What the next step is, unless an event stops it.
    ///
    /// Source: own choice ("Runs").
    pub fn attempt(&self) -> Attempt
        ensures { result ≡ attempt_of self.now.chip.image self.now.chip.cpu }
    {
        self.chip.attempt()
    }

    /// The number of the machine cycle in which the next step starts.
    ///
    /// Source: own choice ("Runs").
    pub fn cycle(&self) -> u64
        ensures { result ≡ self.now.chip.cycle }
    {
        self.chip.cycle()
    }

    /// Nothing: what holds of a board at every moment. Its memory represents the separate stores that contracts see,
    /// the units of its records form walks from roots of which none runs twice, PC lies in the current unit, SP is not
    /// below that of the topmost record, the interrupts that have records were taken at the levels in progress, and at
    /// most one live segment covers a cell.
    ///
    /// Source: own choice ("Boards").
    pub fn stands(&self)
        ensures state { StandsForState self.now }
        ensures one { OneLive self.now.monitor.layout (live_in self.now.monitor.layout self.now.monitor.records) }
    {
        cite_stores(&self.monitor);
    }
}

// What an advance reports of its step.
fn step_told(answer: Result<Entries, Event>) -> Step
    ensures { result ≡ step_told answer }
{
    match answer {
        Ok(_) => Step::Done,
        Err(event) => Step::Stopped(event),
    }
}

// The same, with the entries of a step that is performed.
fn told_by(answer: Result<Entries, Event>) -> Told
    ensures { result ≡ told_by answer }
{
    match answer {
        Ok(Entries { port, sent }) => Told {
            step: Step::Done,
            port,
            sent,
        },
        Err(event) => Told {
            step: Step::Stopped(event),
            port: None,
            sent: None,
        },
    }
}

// Performs a step, or finds the event that stops it. It answers whether there is anything to report, which the draft
// then has: three functions perform steps, which is more than a step is repeated for, and a whole answer in memory
// would cost each step a fifth of its machine instructions.
#[inline(never)]
fn advance(monitor: &mut Monitor, chip: &mut Chip, draft: &mut Draft, extra: &[Timed]) -> bool
    requires order { IsInOrder monitor.old chip.old.cpu }
    requires draft { IsDraftOf draft.old chip.old.cpu }
    requires few { AreFew extra.now }
    ensures order { IsInOrder monitor.new chip.new.cpu }
    ensures draft { IsDraftOf draft.new chip.new.cpu }
    ensures layout { monitor.new.layout ≡ monitor.old.layout }
    ensures image { chip.new.image ≡ chip.old.image }
    ensures script { chip.new.script ≡ chip.old.script }
    ensures step { IsAdvance (separate_machine monitor.old.layout chip.old.image
        (with_extra extra.now (inputs_of chip.old.script)) (state_with chip.old (held_memory monitor.old)))
        (told_in result draft.new) (state_with chip.old (held_memory monitor.old))
        (state_with chip.new (held_memory monitor.new)) }
    ensures text { IfErr (told_in result draft.new) (HasText (length monitor.old.layout.placed)) }
{
    cite_stores(monitor);
    match judge(monitor, chip, draft) {
        Ok(step) => {
            commit(monitor, &draft.effect, step);
            match chip.pace_on(draft, extra) {
                Some(pace) => {
                    chip.keep_pace(draft, pace);
                    false
                }
                None => pass_slowly(chip, draft, extra),
            }
        }
        Err(event) => {
            draft.same = false;
            draft.told = Err(event);
            true
        }
    }
}

// Performs the step of an effect, but for its puts, whatever its cycles are. It answers whether there is anything to
// report. As a part of `advance` it would cost each step nine machine instructions.
#[inline(never)]
fn pass_slowly(chip: &mut Chip, draft: &mut Draft, extra: &[Timed]) -> bool
    requires few { AreFew extra.now }
    requires plain { IsTrue draft.old.plain → KeepsDevices chip.old.cpu draft.old.effect }
    ensures image { chip.new.image ≡ chip.old.image }
    ensures script { chip.new.script ≡ chip.old.script }
    ensures draft { IsDraftOf draft.new chip.new.cpu }
    ensures passed { (told : EntriesTold) × (told_in result draft.new ≡ Ok told)
        × IsPassed (with_extra extra.now (inputs_of chip.old.script)) chip.old chip.new draft.old.effect told }
{
    let told = chip.pass(draft, extra);
    keep_entries(draft, told)
}

// Leaves the entries of a step in the draft, and answers whether there are any.
#[inline(always)]
fn keep_entries(draft: &mut Draft, told: Entries) -> bool
    ensures told { told_in result draft.new ≡ Ok told }
    ensures draft { draft.new ≡ record draft.old { told = draft.new.told } }
{
    if told.port.is_none() && told.sent.is_none() {
        return false;
    }
    draft.told = Ok(told);
    true
}

// What a step reports, where `advance` has answered whether there is anything.
#[inline(always)]
fn told_in(is_told: bool, draft: &Draft) -> Result<Entries, Event>
    ensures { result ≡ told_in is_told draft.now }
{
    if is_told { draft.told } else { Ok(NO_ENTRIES) }
}

// Performs a step with the script's frames only.
#[inline(always)]
fn advance_alone(
    monitor: &mut Monitor,
    chip: &mut Chip,
    draft: &mut Draft,
) -> Result<Entries, Event>
    requires order { IsInOrder monitor.old chip.old.cpu }
    requires draft { IsDraftOf draft.old chip.old.cpu }
    ensures order { IsInOrder monitor.new chip.new.cpu }
    ensures draft { IsDraftOf draft.new chip.new.cpu }
    ensures layout { monitor.new.layout ≡ monitor.old.layout }
    ensures image { chip.new.image ≡ chip.old.image }
    ensures script { chip.new.script ≡ chip.old.script }
    ensures step { IsAdvance (separate_machine monitor.old.layout chip.old.image (inputs_of chip.old.script)
        (state_with chip.old (held_memory monitor.old))) result
        (state_with chip.old (held_memory monitor.old)) (state_with chip.new (held_memory monitor.new)) }
    ensures text { IfErr result (HasText (length monitor.old.layout.placed)) }
{
    let is_told = advance(monitor, chip, draft, &[]);
    told_in(is_told, draft)
}

impl Runnable for Board {
    ghost use Rattle.std.specs.Prelude.{ℕ, List};
    ghost use Rattle.m51_sim.specs.Boards.{Loaded, separate_of};
    ghost use Rattle.m51_sim.specs.Cycles.{inputs_of};
    ghost use Rattle.m51_sim.specs.SeparateMachine.{Separate, separate_machine};

    ghost Memory = { Separate };

    ghost Fixed = { Loaded };

    ghost fixed = { λ b. record { layout = b.monitor.layout; image = b.chip.image; script = b.chip.script } };

    ghost machine = { λ loaded. separate_machine loaded.layout loaded.image (inputs_of loaded.script) };

    ghost state = { separate_of };

    ghost extents = { λ loaded. loaded.layout.placed };

    #[inline(always)]
    fn advance(&mut self) -> Result<Entries, Event> {
        advance_alone(&mut self.monitor, &mut self.chip, &mut self.draft)
    }

    fn cycle(&self) -> u64 {
        self.chip.cycle()
    }

    fn placed(&self) -> &[Placed] {
        self.monitor.layout().placed()
    }
}
