//! The line of a state with the active units and with internal RAM.
ghost use Rattle.std.specs.Prelude.{◌≡◌, ◌<◌, ◌++◌, ℕ, codes, length, OnOk, OnErr, slice_index};
ghost use Rattle.std.specs.Io.KnownBytes.{Appends};
ghost use Rattle.m51_cells.specs.Outside.{AppendsFront, HasCause};
ghost use Rattle.m51_sim.specs.Boards.{held_memory, separate_of};
ghost use Rattle.m51_sim.specs.SeparateMachine.{cells_of};
ghost use Rattle.m51_steps.specs.Lines.{state_text};
ghost use Rattle.m51_steps.specs.Ram.{active_text, active_title, byte_code, bytes_text, ram_line};

use crate::lines::write_state;
use crate::ram::{mark_after, write_ram};
use crate::writing::{write_front, write_marked};
use m51_monitor::Monitor;
use m51_print::unit_title;
use m51_shelf::{Failed, Sink};
use m51_sim::Board;

// The title of a unit, if it is active.
fn active_title(monitor: &Monitor, unit: u16) -> &[u8]
    requires { unit < length monitor.now.layout.units }
    ensures { result.now ≡ active_title monitor.now.layout monitor.now.records unit }
{
    if monitor.named()[usize::from(unit)] == 0 {
        &[]
    } else {
        unit_title(monitor.layout(), unit).bytes()
    }
}

// Writes the titles of the active units, in their order.
fn write_active<S: Sink>(out: &mut S, monitor: &Monitor) -> Result<(), Failed>
    ensures whole { OnOk result (Appends (S.state out.old).text (S.state out.new).text
        (active_text monitor.now.layout monitor.now.records)) }
    ensures front { OnErr result (AppendsFront (S.state out.old).text (S.state out.new).text
        (active_text monitor.now.layout monitor.now.records)) }
    ensures cause { HasCause (S.state out.old).faults (S.state out.new).faults result }
{
    let mut mark: &[u8] = b"\t";
    let count = monitor.layout().units().len();
    for unit in 0..count {
        let title = active_title(monitor, unit as u16);
        match write_marked(out, mark, title) {
            Ok(()) => {}
            Err(Failed) => return Err(Failed),
        }
        mark = mark_after(mark, b",", title);
    }
    Ok(())
}

// Writes the bytes that are not as they were shown, and keeps what is shown now.
fn write_bytes<S: Sink>(out: &mut S, board: &Board, shown: &mut [u32; 256]) -> Result<(), Failed>
    ensures whole { OnOk result (Appends (S.state out.old).text (S.state out.new).text
        (bytes_text board.now.monitor.layout (slice_index shown.old) (separate_of board.now))) }
    ensures front { OnErr result (AppendsFront (S.state out.old).text (S.state out.new).text
        (bytes_text board.now.monitor.layout (slice_index shown.old) (separate_of board.now))) }
    ensures codes { (a : ℕ) → a < 256 → slice_index shown.new a
        ≡ byte_code (cells_of board.now.monitor.layout (held_memory board.now.monitor)) a }
    ensures cause { HasCause (S.state out.old).faults (S.state out.new).faults result }
{
    board.stands();
    write_ram(out, board.monitor().store(), shown)
}

// Writes them, and the end of the line.
#[tactic(auto, using(crate::proofs::Pieces::pieces))]
fn write_ram_end<S: Sink>(out: &mut S, board: &Board, shown: &mut [u32; 256]) -> Result<(), Failed>
    ensures whole { OnOk result (Appends (S.state out.old).text (S.state out.new).text
        (bytes_text board.now.monitor.layout (slice_index shown.old) (separate_of board.now) ++ codes "\n")) }
    ensures front { OnErr result (AppendsFront (S.state out.old).text (S.state out.new).text
        (bytes_text board.now.monitor.layout (slice_index shown.old) (separate_of board.now) ++ codes "\n")) }
    ensures codes { (a : ℕ) → a < 256 → slice_index shown.new a
        ≡ byte_code (cells_of board.now.monitor.layout (held_memory board.now.monitor)) a }
    ensures cause { HasCause (S.state out.old).faults (S.state out.new).faults result }
{
    write_bytes(out, board, shown)?;
    write_front(out, b"\n")
}

// Writes the active units, and then those.
#[tactic(auto, using(crate::proofs::Pieces::pieces))]
fn write_more<S: Sink>(out: &mut S, board: &Board, shown: &mut [u32; 256]) -> Result<(), Failed>
    ensures whole { OnOk result (Appends (S.state out.old).text (S.state out.new).text
        (active_text board.now.monitor.layout board.now.monitor.records
        ++ (bytes_text board.now.monitor.layout (slice_index shown.old) (separate_of board.now) ++ codes "\n"))) }
    ensures front { OnErr result (AppendsFront (S.state out.old).text (S.state out.new).text
        (active_text board.now.monitor.layout board.now.monitor.records
        ++ (bytes_text board.now.monitor.layout (slice_index shown.old) (separate_of board.now) ++ codes "\n"))) }
    ensures codes { OnOk result ((a : ℕ) → a < 256 → slice_index shown.new a
        ≡ byte_code (cells_of board.now.monitor.layout (held_memory board.now.monitor)) a) }
    ensures cause { HasCause (S.state out.old).faults (S.state out.new).faults result }
{
    write_active(out, board.monitor())?;
    write_ram_end(out, board, shown)
}

// Writes the state after this number of steps, and then those.
#[tactic(auto, using(crate::proofs::Pieces::pieces))]
fn write_parts<S: Sink>(
    out: &mut S,
    board: &Board,
    steps: u32,
    shown: &mut [u32; 256],
) -> Result<(), Failed>
    ensures whole { OnOk result (Appends (S.state out.old).text (S.state out.new).text
        (state_text board.now.monitor.layout board.now.chip.image steps (separate_of board.now)
        ++ (active_text board.now.monitor.layout board.now.monitor.records
        ++ (bytes_text board.now.monitor.layout (slice_index shown.old) (separate_of board.now) ++ codes "\n")))) }
    ensures front { OnErr result (AppendsFront (S.state out.old).text (S.state out.new).text
        (state_text board.now.monitor.layout board.now.chip.image steps (separate_of board.now)
        ++ (active_text board.now.monitor.layout board.now.monitor.records
        ++ (bytes_text board.now.monitor.layout (slice_index shown.old) (separate_of board.now) ++ codes "\n")))) }
    ensures codes { OnOk result ((a : ℕ) → a < 256 → slice_index shown.new a
        ≡ byte_code (cells_of board.now.monitor.layout (held_memory board.now.monitor)) a) }
    ensures cause { HasCause (S.state out.old).faults (S.state out.new).faults result }
{
    write_state(out, board, steps)?;
    write_more(out, board, shown)
}

// Writes the line of the state after this number of steps, with the active units and with the bytes of internal RAM
// that are not as they were shown, and keeps what is shown now.
#[tactic(auto, unfolding(crate::specs::Ram::ram_line))]
pub(crate) fn write_ram_line<S: Sink>(
    out: &mut S,
    board: &Board,
    steps: u32,
    shown: &mut [u32; 256],
) -> Result<(), Failed>
    ensures whole { OnOk result (Appends (S.state out.old).text (S.state out.new).text
        (ram_line board.now.monitor.layout board.now.chip.image steps (slice_index shown.old)
        (separate_of board.now))) }
    ensures front { OnErr result (AppendsFront (S.state out.old).text (S.state out.new).text
        (ram_line board.now.monitor.layout board.now.chip.image steps (slice_index shown.old)
        (separate_of board.now))) }
    ensures codes { OnOk result ((a : ℕ) → a < 256 → slice_index shown.new a
        ≡ byte_code (cells_of board.now.monitor.layout (held_memory board.now.monitor)) a) }
    ensures cause { HasCause (S.state out.old).faults (S.state out.new).faults result }
{
    write_parts(out, board, steps, shown)
}
