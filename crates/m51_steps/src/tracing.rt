//! The trace of a run: titles and a line for each state, or the table of counts after it.
ghost use Rattle.std.specs.Prelude.{◌≡◌, ◌≤◌, ◌++◌, OnErr, OnOk};
ghost use Rattle.std.specs.Io.KnownBytes.{Appends};
ghost use Rattle.m51_cells.specs.Outside.{AppendsFront, HasCause};
ghost use Rattle.m51_cells.specs.declared.limits.TheConstants.{MOST_STEPS};
ghost use Rattle.m51_sim.specs.Boards.{separate_of};
ghost use Rattle.m51_sim.specs.Runs.{record_of};
ghost use Rattle.m51_steps.specs.Counts.{IsBlank, table_in};
ghost use Rattle.m51_steps.specs.Noted.{IsNoted};
ghost use Rattle.m51_steps.specs.Totals.{AddsUp};
ghost use Rattle.m51_steps.specs.Traced.{ending_by, heading, machine_of, noted_run, run_table, traced_text};

use crate::counting::Counts;
use crate::shape::Shape;
use crate::stepping::run_noted;
use crate::table::write_counts;
use crate::writing::write_front;
use m51_cells::Event;
use m51_shelf::{Failed, Sink};
use m51_sim::Board;

// The titles of the columns: those of each state, and those of the active units and of internal RAM too.
const TITLES: &[u8] = b"STEP\tCYCLE\tPC\tNEXT\tA\tB\tPSW\tSP\tDPTR\tUNIT\n";

const RAM_TITLES: &[u8] = b"STEP\tCYCLE\tPC\tNEXT\tA\tB\tPSW\tSP\tDPTR\tUNIT\tACTIVE\tRAM\n";

// The titles of the columns, if there are some.
fn heading(shape: &Shape) -> &'static [u8]
    ensures { result.now ≡ heading shape.now }
{
    match shape {
        Shape::Lines(_) => TITLES,
        Shape::Ram(_) => RAM_TITLES,
        Shape::Counts => &[],
    }
}

// Writes what comes after the run.
fn write_ending<S: Sink>(
    out: &mut S,
    board: &Board,
    shape: &Shape,
    counts: &Counts,
) -> Result<(), Failed>
    ensures whole { OnOk result (Appends (S.state out.old).text (S.state out.new).text
        (ending_by shape.now board.now.chip.image (table_in counts.now))) }
    ensures front { OnErr result (AppendsFront (S.state out.old).text (S.state out.new).text
        (ending_by shape.now board.now.chip.image (table_in counts.now))) }
    ensures cause { HasCause (S.state out.old).faults (S.state out.new).faults result }
{
    match shape {
        Shape::Lines(_) => Ok(()),
        Shape::Ram(_) => Ok(()),
        Shape::Counts => write_counts(out, board, counts),
    }
}

// The run with its notes, and what comes after it.
fn run_and_end<S: Sink>(
    out: &mut S,
    board: &mut Board,
    n: u32,
    shape: &Shape,
    counts: &mut Counts,
) -> Result<Option<Event>, Failed>
    requires blank { IsBlank counts.old }
    requires few { n ≤ MOST_STEPS }
    ensures traced { IsNoted (S.state out.old).text (S.state out.new).text
        (noted_run shape.now board.old n ++ ending_by shape.now board.old.chip.image (run_table board.old n))
        (record_of (machine_of board.old) n (separate_of board.old)) (separate_of board.new) result }
    ensures totals { OnOk result (AddsUp (run_table board.old n) (separate_of board.old)
        (record_of (machine_of board.old) n (separate_of board.old))) }
    ensures cause { HasCause (S.state out.old).faults (S.state out.new).faults result }
{
    match run_noted(out, board, n, shape, counts) {
        Ok(event) => match write_ending(out, board, shape, counts) {
            Ok(()) => Ok(event),
            Err(Failed) => Err(Failed),
        },
        Err(Failed) => Err(Failed),
    }
}

// Titles, and then those.
fn run_titled<S: Sink>(
    out: &mut S,
    titles: &[u8],
    board: &mut Board,
    n: u32,
    shape: &Shape,
    counts: &mut Counts,
) -> Result<Option<Event>, Failed>
    requires blank { IsBlank counts.old }
    requires few { n ≤ MOST_STEPS }
    ensures traced { IsNoted (S.state out.old).text (S.state out.new).text
        (titles.now ++ (noted_run shape.now board.old n
        ++ ending_by shape.now board.old.chip.image (run_table board.old n)))
        (record_of (machine_of board.old) n (separate_of board.old)) (separate_of board.new) result }
    ensures totals { OnOk result (AddsUp (run_table board.old n) (separate_of board.old)
        (record_of (machine_of board.old) n (separate_of board.old))) }
    ensures cause { HasCause (S.state out.old).faults (S.state out.new).faults result }
{
    match write_front(out, titles) {
        Ok(()) => run_and_end(out, board, n, shape, counts),
        Err(Failed) => Err(Failed),
    }
}

/// The trace of at most `n` steps, 1 to 10,000,000, which are performed as `Board::run` performs them. Nothing must
/// have been counted before. It answers the event that ended them.
///
/// Failed: the sink has failed, and a prefix of the text is written.
///
/// Source: own choice ("The trace of a run").
pub fn trace_run<S: Sink>(
    out: &mut S,
    board: &mut Board,
    n: u32,
    shape: &Shape,
    counts: &mut Counts,
) -> Result<Option<Event>, Failed>
    requires blank { IsBlank counts.old }
    requires few { n ≤ MOST_STEPS }
    ensures traced { IsNoted (S.state out.old).text (S.state out.new).text (traced_text shape.now board.old n)
        (record_of (machine_of board.old) n (separate_of board.old)) (separate_of board.new) result }
    ensures totals { OnOk result (AddsUp (run_table board.old n) (separate_of board.old)
        (record_of (machine_of board.old) n (separate_of board.old))) }
    ensures cause { HasCause (S.state out.old).faults (S.state out.new).faults result }
{
    run_titled(out, heading(shape), board, n, shape, counts)
}
