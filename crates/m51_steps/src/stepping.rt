//! The run of a board, with what is written of its steps.
ghost use Rattle.std.specs.Prelude.{◌≡◌, ◌≤◌, ◌-◌, ◌^◌, IfOk, OnErr, OnOk, length, option_copied, slice_index};
ghost use Rattle.std.specs.Option.{ForSome};
ghost use Rattle.std.specs.Io.KnownBytes.{Appends};
ghost use Rattle.m51_cells.specs.Outside.{AppendsFront, HasCause};
ghost use Rattle.m51_cells.specs.declared.limits.TheConstants.{MOST_STEPS};
ghost use Rattle.m51_print.specs.Lines.{HasText, last_line, titles_of};
ghost use Rattle.m51_sim.specs.Boards.{separate_of};
ghost use Rattle.m51_sim.specs.Cycles.{inputs_of};
ghost use Rattle.m51_sim.specs.Runs.{record_of};
ghost use Rattle.m51_sim.specs.SeparateMachine.{separate_machine};
ghost use Rattle.m51_steps.specs.Counts.{AgreesWith, IsBlank};
ghost use Rattle.m51_steps.specs.Noted.{IsNoted, IsStepWritten};
ghost use Rattle.m51_steps.specs.Shapes.{IsShown, note_by};
ghost use Rattle.m51_steps.specs.Totals.{AddsUp};
ghost use Rattle.m51_steps.specs.Traced.{machine_of, noted_run, run_table};

use crate::active::write_ram_line;
use crate::counting::{Counts, place_of};
use crate::lines::write_state_line;
use crate::ram::NOTHING;
use crate::shape::{Shape, is_in_window};
use crate::writing::{write_end, write_told};
use m51_cells::Event;
use m51_shelf::{Failed, Sink};
use m51_sim::{Board, Step, steps_are_short};

// Writes the note of the state after this number of steps, where this was shown of each byte of internal RAM.
fn write_note<S: Sink>(
    out: &mut S,
    board: &Board,
    steps: u32,
    shape: &Shape,
    shown: &mut [u32; 256],
) -> Result<(), Failed>
    ensures whole { OnOk result (Appends (S.state out.old).text (S.state out.new).text
        (note_by shape.now board.now.monitor.layout board.now.chip.image (slice_index shown.old) steps
        (separate_of board.now))) }
    ensures shown { OnOk result (IsShown shape.now board.now.monitor.layout steps (separate_of board.now)
        (slice_index shown.old) (slice_index shown.new)) }
    ensures front { OnErr result (AppendsFront (S.state out.old).text (S.state out.new).text
        (note_by shape.now board.now.monitor.layout board.now.chip.image (slice_index shown.old) steps
        (separate_of board.now))) }
    ensures cause { HasCause (S.state out.old).faults (S.state out.new).faults result }
{
    match shape {
        Shape::Lines(window) => {
            if is_in_window(window, steps) {
                write_state_line(out, board, steps)
            } else {
                Ok(())
            }
        }
        Shape::Ram(window) => {
            if is_in_window(window, steps) {
                write_ram_line(out, board, steps, shown)
            } else {
                Ok(())
            }
        }
        Shape::Counts => Ok(()),
    }
}

// One step, with the lines of what it reports; or the event that stops it.
fn step_written<S: Sink>(out: &mut S, board: &mut Board) -> Result<Option<Event>, Failed>
    ensures step { IsStepWritten (separate_machine board.old.monitor.layout board.old.chip.image
        (inputs_of board.old.chip.script) (separate_of board.old))
        (S.state out.old).text (S.state out.new).text result (separate_of board.old) (separate_of board.new) }
    ensures text { IfOk result (λ event. ForSome event (HasText (length board.old.monitor.layout.placed))) }
    ensures layout { board.new.monitor.layout ≡ board.old.monitor.layout }
    ensures image { board.new.chip.image ≡ board.old.chip.image }
    ensures script { board.new.chip.script ≡ board.old.chip.script }
    ensures cause { HasCause (S.state out.old).faults (S.state out.new).faults result }
{
    let told = board.step_on(&[]);
    match told.step {
        Step::Done => match write_told(out, &told) {
            Ok(()) => Ok(None),
            Err(Failed) => Err(Failed),
        },
        Step::Stopped(event) => Ok(Some(event)),
    }
}

// The number of the machine cycle, which is one of 64 bits.
fn cycle_of(board: &Board) -> u64
    ensures value { result ≡ board.now.chip.cycle }
    ensures bound { result ≤ 2 ^ 64 - 1 }
{
    board.cycle()
}

// How many cycles have passed since this one.
fn passed_since(board: &Board, start: u64) -> u64
    ensures { result ≡ board.now.chip.cycle - start }
{
    board.cycle().saturating_sub(start)
}

// Writes the last line.
fn end<S: Sink>(out: &mut S, event: Option<&Event>, board: &Board, steps: u32) -> Result<(), Failed>
    requires { ForSome (option_copied event) (HasText (length board.now.monitor.layout.placed)) }
    ensures whole { OnOk result (Appends (S.state out.old).text (S.state out.new).text
        (last_line (titles_of board.now.monitor.layout.placed) (option_copied event.entry) steps
        board.now.chip.cycle)) }
    ensures front { OnErr result (AppendsFront (S.state out.old).text (S.state out.new).text
        (last_line (titles_of board.now.monitor.layout.placed) (option_copied event.entry) steps
        board.now.chip.cycle)) }
    ensures cause { HasCause (S.state out.old).faults (S.state out.new).faults result }
{
    write_end(out, event, board.layout().placed(), steps, board.cycle())
}

/// At most `n` steps, 1 to 10,000,000, as `Board::run` performs them: the lines that it writes, and before each step,
/// and after the last one, the note of the state. The steps are counted; nothing must have been counted before. It
/// answers the event that ended them.
///
/// Failed: the sink has failed, and a prefix of the text is written.
///
/// Source: own choice ("The trace of a run").
pub fn run_noted<S: Sink>(
    out: &mut S,
    board: &mut Board,
    n: u32,
    shape: &Shape,
    counts: &mut Counts,
) -> Result<Option<Event>, Failed>
    requires blank { IsBlank counts.old }
    requires few { n ≤ MOST_STEPS }
    ensures noted { IsNoted (S.state out.old).text (S.state out.new).text (noted_run shape.now board.old n)
        (record_of (machine_of board.old) n (separate_of board.old)) (separate_of board.new) result }
    ensures counted { OnOk result (AgreesWith counts.new (run_table board.old n)) }
    ensures totals { OnOk result (AddsUp (run_table board.old n) (separate_of board.old)
        (record_of (machine_of board.old) n (separate_of board.old))) }
    ensures layout { board.new.monitor.layout ≡ board.old.monitor.layout }
    ensures image { board.new.chip.image ≡ board.old.chip.image }
    ensures script { board.new.chip.script ≡ board.old.chip.script }
    ensures cause { HasCause (S.state out.old).faults (S.state out.new).faults result }
{
    steps_are_short();
    let mut shown = [NOTHING; 256];
    for done in 0..n {
        match write_note(out, board, done, shape, &mut shown) {
            Ok(()) => {}
            Err(Failed) => return Err(Failed),
        }
        let place = place_of(board);
        let start = cycle_of(board);
        match step_written(out, board) {
            Ok(None) => counts.add(place, passed_since(board, start)),
            Ok(Some(event)) => {
                match end(out, Some(&event), board, done) {
                    Ok(()) => return Ok(Some(event)),
                    Err(Failed) => return Err(Failed),
                }
            }
            Err(Failed) => return Err(Failed),
        }
    }
    match write_note(out, board, n, shape, &mut shown) {
        Ok(()) => {}
        Err(Failed) => return Err(Failed),
    }
    match end(out, None, board, n) {
        Ok(()) => Ok(None),
        Err(Failed) => Err(Failed),
    }
}
