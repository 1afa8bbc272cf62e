//! How steps and runs end, the machines that are run, and the lines that a run writes.
ghost use Rattle.std.specs.Prelude.{◌≡◌, ◌≤◌, length, List, IfErr, OnOk, OnErr, option_to_list, option_copied};
ghost use Rattle.std.specs.Prelude.{flat_map};
ghost use Rattle.std.specs.Option.{ForSome};
ghost use Rattle.std.specs.Io.KnownBytes.{Appends};
ghost use Rattle.m51_cells.specs.Outside.{HasCause, Rose};
ghost use Rattle.m51_module.specs.declared.placed.Placed.{Placed as Extent};
ghost use Rattle.m51_print.specs.Lines.{entry_line, last_line, titles_of, HasText};
ghost use Rattle.m51_sim.specs.Run.{Ended, IsAdvance, tally_of};
ghost use Rattle.m51_sim.specs.Runs.{Machine, State, entries_of, record_of};
ghost use Rattle.m51_shelf.specs.Writing.{StopsWithin};

use m51_cells::{Entry, Event};
use m51_module::{Placed, Tally};
use m51_print::{end_line, trace_line};
use m51_shelf::{Failed, Sink, write_whole};

/// What a step does.
///
/// Source: own choice ("Runs").
#[derive(Clone, Copy, Debug, PartialEq, Eq)]
pub enum Step {
    /// It is performed.
    Done,
    /// It is stopped by this event and changes nothing.
    Stopped(Event),
}

/// How a run ends.
///
/// Source: own choice ("Runs").
#[derive(Clone, Copy, Debug, PartialEq, Eq)]
pub enum RunEnd {
    /// All its steps are performed, and its trace is written.
    Finished,
    /// This event has stopped it, and its trace is written.
    Stopped(Event),
    /// The sink has failed, and a prefix of the trace is written.
    WriteFault,
}

/// What a step does, with what it reports.
///
/// Source: own choice ("Frames of other boards").
#[derive(Clone, Copy, Debug, PartialEq, Eq)]
pub struct Told {
    /// What the step does.
    pub step: Step,
    /// The latch of a port that it wrote.
    pub port: Option<Entry>,
    /// The byte whose sending ended in it.
    pub sent: Option<Entry>,
}

// The entries of a step that is performed: at most one port and one byte, the port first.
#[derive(Clone, Copy)]
pub(crate) struct Entries {
    // The latch of a port that it wrote.
    pub(crate) port: Option<Entry>,
    // The byte whose sending ended in it.
    pub(crate) sent: Option<Entry>,
}

// Those of most steps.
pub(crate) const NO_ENTRIES: Entries = Entries {
    port: None,
    sent: None,
};

// What is run: a machine over some memory, of which the state is at hand.
pub(crate) trait Runnable {
    // The memory of its states.
    ghost Memory: { Type 0 };

    // What a step leaves as it is.
    ghost Fixed: { Type 0 };

    ghost fixed: { Self → Fixed };

    ghost machine: { Fixed → Machine Memory };

    ghost state: { Self → State Memory };

    // What is placed, of which an event names a cell or a segment.
    ghost extents: { Fixed → List Extent };

    // Performs a step and gives what it reports, or gives the event that stops it.
    fn advance(&mut self) -> Result<Entries, Event>
        ensures step { IsAdvance (machine (fixed self.old) (state self.old)) result (state self.old) (state self.new) }
        ensures fixed { fixed self.new ≡ fixed self.old }
        ensures text { IfErr result (HasText (length (extents (fixed self.old)))) };

    // The number of the machine cycle.
    fn cycle(&self) -> u64
        ensures { result ≡ (state self.now).cycle };

    fn placed(&self) -> &[Placed]
        ensures { result.now ≡ extents (fixed self.now) };
}

// At most `n` steps, with the lines of what they report and the last line.
pub(crate) fn run<B: Runnable, S: Sink>(board: &mut B, n: u32, out: &mut S) -> RunEnd
    ensures ended { Ended (S.state out.old).text (S.state out.new).text (titles_of (B.extents (B.fixed board.old)))
        (B.machine (B.fixed board.old)) n (B.state board.old) (B.state board.new) result }
    ensures fixed { B.fixed board.new ≡ B.fixed board.old }
    ensures later { (S.state out.old).faults ≤ (S.state out.new).faults }
    ensures fault { result ≡ RunEnd.WriteFault → Rose (S.state out.old).faults (S.state out.new).faults }
{
    for done in 0..n {
        match board.advance() {
            Ok(told) => {
                match write_told(out, told) {
                    Ok(()) => {}
                    Err(Failed) => return RunEnd::WriteFault,
                }
            }
            Err(event) => {
                match write_end(out, Some(&event), board.placed(), done, board.cycle()) {
                    Ok(()) => {}
                    Err(Failed) => return RunEnd::WriteFault,
                }
                return RunEnd::Stopped(event);
            }
        }
    }
    match write_end(out, None, board.placed(), n, board.cycle()) {
        Ok(()) => {}
        Err(Failed) => return RunEnd::WriteFault,
    }
    RunEnd::Finished
}

// How many entries a step reports.
fn count_of(told: Entries) -> u64
    ensures value { result ≡ length (entries_of told) }
    ensures few { result ≤ 2 }
{
    match (told.port, told.sent) {
        (None, None) => 0,
        (Some(_), Some(_)) => 2,
        _ => 1,
    }
}

// The numbers of at most `n` steps.
pub(crate) fn count_run<B: Runnable>(board: &mut B, n: u32) -> Tally
    ensures tally { result ≡ tally_of (record_of (B.machine (B.fixed board.old)) n (B.state board.old)) }
    ensures last { B.state board.new ≡ (record_of (B.machine (B.fixed board.old)) n (B.state board.old)).last }
    ensures fixed { B.fixed board.new ≡ B.fixed board.old }
    ensures text { ForSome result.event (HasText (length (B.extents (B.fixed board.old)))) }
{
    let mut entries = 0;
    for done in 0..n {
        match board.advance() {
            Ok(told) => entries += count_of(told),
            Err(event) => {
                return Tally {
                    entries,
                    steps: done,
                    cycle: board.cycle(),
                    event: Some(event),
                };
            }
        }
    }
    Tally {
        entries,
        steps: n,
        cycle: board.cycle(),
        event: None,
    }
}

// Writes the lines of what a step reports.
#[tactic(auto, using(crate::proofs::Tellings::tellings))]
#[inline(always)]
fn write_told<S: Sink>(out: &mut S, told: Entries) -> Result<(), Failed>
    ensures whole { OnOk result
        (Appends (S.state out.old).text (S.state out.new).text (flat_map entry_line (entries_of told))) }
    ensures short { OnErr result
        (StopsWithin (S.state out.old).text (S.state out.new).text (flat_map entry_line (entries_of told))) }
    ensures cause { HasCause (S.state out.old).faults (S.state out.new).faults result }
{
    write_entry(out, told.port)?;
    write_entry(out, told.sent)
}

// Writes the line of an entry, if there is one.
#[inline(always)]
fn write_entry<S: Sink>(out: &mut S, entry: Option<Entry>) -> Result<(), Failed>
    ensures whole { OnOk result
        (Appends (S.state out.old).text (S.state out.new).text (flat_map entry_line (option_to_list entry))) }
    ensures short { OnErr result
        (StopsWithin (S.state out.old).text (S.state out.new).text (flat_map entry_line (option_to_list entry))) }
    ensures cause { HasCause (S.state out.old).faults (S.state out.new).faults result }
{
    match entry {
        None => Ok(()),
        Some(entry) => write_line(out, &entry),
    }
}

// Writes the line of an entry.
fn write_line<S: Sink>(out: &mut S, entry: &Entry) -> Result<(), Failed>
    ensures whole { OnOk result (Appends (S.state out.old).text (S.state out.new).text (entry_line entry.now)) }
    ensures short { OnErr result (StopsWithin (S.state out.old).text (S.state out.new).text (entry_line entry.now)) }
    ensures cause { HasCause (S.state out.old).faults (S.state out.new).faults result }
{
    let mut line = [0u8; 128];
    let len = trace_line(entry, &mut line);
    write_whole(out, &line[..len])
}

// Writes the last line.
fn write_end<S: Sink>(
    out: &mut S,
    event: Option<&Event>,
    placed: &[Placed],
    steps: u32,
    cycle: u64,
) -> Result<(), Failed>
    requires { ForSome (option_copied event) (HasText (length placed.now)) }
    ensures whole { OnOk result (Appends (S.state out.old).text (S.state out.new).text
        (last_line (titles_of placed.now) (option_copied event.entry) steps cycle)) }
    ensures short { OnErr result (StopsWithin (S.state out.old).text (S.state out.new).text
        (last_line (titles_of placed.now) (option_copied event.entry) steps cycle)) }
    ensures cause { HasCause (S.state out.old).faults (S.state out.new).faults result }
{
    let mut line = [0u8; 128];
    let len = end_line(event, placed, steps, cycle, &mut line);
    write_whole(out, &line[..len])
}
