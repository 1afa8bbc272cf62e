//! The calls of a board that no verb makes: single steps, a run after an event or a failed write, frames of others.
ghost use Rattle.std.specs.Prelude.{◌≤◌};

use crate::boards::board;
use m51_cells::{Event, NoMemory, Why};
use m51_script::Script;
use m51_sim::{Board, MemSink, RunEnd, Step, Timed};
use m51_timers_uart::Frame;
use std::alloc::Global;

// The calls of a board, whose long clauses the other functions do not want to see.
fn one_step(board: &mut Board) -> Step {
    board.step()
}

fn run_on(board: &mut Board, n: u32, sink: &mut MemSink) -> RunEnd
    requires { (1 ≤ n) × (n ≤ 100) }
{
    board.run(n, sink)
}

// How this number of steps of a board ends, and whether they write this.
fn run_writes(
    alloc: Global,
    board: &mut Board,
    n: u32,
    want: &[u8],
) -> Result<(RunEnd, bool), NoMemory>
    requires { (1 ≤ n) × (n ≤ 100) }
{
    let mut sink = MemSink::make(alloc, Vec::new(alloc), 200)?;
    let end = run_on(board, n, &mut sink);
    Ok((end, sink.text() == want))
}

const STORES_AND_LOADS: [u8; 9] = [0x75, 0x08, 0x05, 0xE5, 0x08, 0xF5, 0x90, 0x80, 0xFE];

// What the first two steps of a unit that ends within them do, how a run after them ends, and whether it writes this.
fn past_end_run(alloc: Global, want: &[u8]) -> Result<([Step; 2], (RunEnd, bool)), NoMemory> {
    let mut board = board(alloc, 5, &STORES_AND_LOADS, Script::plain(alloc)?)?;
    let steps = [one_step(&mut board), one_step(&mut board)];
    Ok((steps, run_writes(alloc, &mut board, 9, want)?))
}

#[test]
fn the_end_of_the_unit_stops_a_run(rt: HostRuntime) {
    let past_end = Event::Transfer {
        why: Why::PastEnd,
        from: 3,
        to: 5,
    };
    let steps = [Step::Done, Step::Stopped(past_end)];
    let text = b"EVENT V1 PASTEND FROM 0003 TO 0005 AFTER 0 STEPS 2 CYCLES\n";
    let want = Ok((steps, (RunEnd::Stopped(past_end), true)));
    assert!(rt; past_end_run(rt.alloc(), text) == want);
}

// How a run whose second write fails ends, and then one step more, and whether this is written in all.
fn failing_run(alloc: Global, want: &[u8]) -> Result<([RunEnd; 2], bool), NoMemory> {
    let mut board = board(alloc, 9, &STORES_AND_LOADS, Script::plain(alloc)?)?;
    let mut sink = MemSink::make(alloc, vec![in alloc; 2u32]?, 200)?;
    let ends = [
        run_on(&mut board, 4, &mut sink),
        run_on(&mut board, 1, &mut sink),
    ];
    Ok((ends, sink.text() == want))
}

#[test]
fn a_board_is_run_on_after_a_failed_write(rt: HostRuntime) {
    let text = b"3 P1 05\nEND 1 STEPS 8 CYCLES\n";
    let want = Ok(([RunEnd::WriteFault, RunEnd::Finished], true));
    assert!(rt; failing_run(rt.alloc(), text) == want);
}

// The entries, steps and cycle of seven steps, after two of which the second has a frame in this cycle.
fn counts_after(board: &mut Board, cycle: u64) -> (u64, u32, u64) {
    board.step();
    let frame = Frame {
        byte: 0x41,
        ninth: true,
    };
    board.step_on(&[Timed { cycle, frame }]);
    let tally = board.tally(7);
    (tally.entries, tally.steps, tally.cycle)
}

// Waits for a byte with a ninth bit and writes it to port 1.
const RECEIVES: [u8; 11] = [
    0x75, 0x98, 0xB0, 0x30, 0x98, 0xFD, 0x85, 0x99, 0x90, 0x80, 0xFE,
];

// Those of a board that receives, with the frame in the cycle 4.
fn received_counts(alloc: Global) -> Result<(u64, u32, u64), NoMemory> {
    let mut board = board(alloc, 11, &RECEIVES, Script::plain(alloc)?)?;
    Ok(counts_after(&mut board, 4))
}

#[test]
fn frames_of_others_are_received_and_counted(rt: HostRuntime) {
    assert!(rt; received_counts(rt.alloc()) == Ok((1, 7, 18)));
}
