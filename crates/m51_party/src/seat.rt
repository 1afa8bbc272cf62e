//! A board on the line, with what is kept of it.
ghost use Rattle.std.specs.Prelude.{◌≡◌, ◌<◌};
ghost use Rattle.m51_cells.specs.declared.limits.TheConstants.{MOST_STEPS};
ghost use Rattle.m51_sim.specs.Cycles.{AreFew};
ghost use Rattle.m51_sim.specs.Run.{stopped_by};
ghost use Rattle.m51_party.specs.Seats.{IsSeatStep, count_of, is_going, last_sent, new_seat, start_of};

use m51_cells::{Entry, Event};
use m51_sim::{Board, Step, Timed, Told};
use m51_timers_uart::Frame;

// A board, how many steps it performed, the event that stopped it, if one did, and the last byte with a ninth bit that
// it sent, with the cycle in which it arrives at the others.
#[derive(Drop)]
pub(crate) struct Seat {
    pub(crate) board: Board,
    pub(crate) steps: u32,
    pub(crate) event: Option<Event>,
    pub(crate) sent: Option<Timed>,
}

// How many cycles after it was sent a byte arrives.
const DELAY: u64 = 4;

impl Seat {
    // A board that was not stepped.
    pub(crate) fn of(board: Board) -> Seat
        ensures { result ≡ new_seat board }
    {
        Seat {
            board,
            steps: 0,
            event: None,
            sent: None,
        }
    }

    // Fewer than `n` steps were performed, and none was stopped.
    fn is_going(&self, n: u32) -> bool
        ensures { result ≡ is_going n self.now }
    {
        self.steps < n && self.event.is_none()
    }

    // The cycle in which the next step starts, if there is one.
    pub(crate) fn start(&self, n: u32) -> Option<u64>
        ensures { result ≡ start_of n self.now }
    {
        if self.is_going(n) {
            Some(self.board.cycle())
        } else {
            None
        }
    }

    // One step, with these frames from the others, and what it reports.
    pub(crate) fn step(&mut self, extra: &[Timed]) -> Told
        requires few { AreFew extra.now }
        requires steps { self.old.steps < MOST_STEPS }
        ensures { IsSeatStep extra.now result self.old self.new }
    {
        let told = self.board.step_on(extra);
        self.steps += count_of(&told.step);
        self.event = stopped_by(&told.step);
        self.sent = last_sent(self.sent, told.sent);
        told
    }
}

// The event of a step that is stopped.
fn stopped_by(step: &Step) -> Option<Event>
    ensures { result ≡ stopped_by step.now }
{
    match step {
        Step::Done => None,
        Step::Stopped(event) => Some(*event),
    }
}

// How many steps were performed.
fn count_of(step: &Step) -> u32
    ensures { result ≡ count_of step.now }
{
    match step {
        Step::Done => 1,
        Step::Stopped(_) => 0,
    }
}

// The frame of the byte that was sent, if it has a ninth bit, else the one before.
fn last_sent(kept: Option<Timed>, sent: Option<Entry>) -> Option<Timed>
    ensures { result ≡ last_sent kept sent }
{
    match sent {
        Some(
            Entry::Sent {
                cycle,
                byte,
                ninth: Some(ninth),
            },
        ) => Some(Timed {
            cycle: cycle.saturating_add(DELAY),
            frame: Frame { byte, ninth },
        }),
        _ => kept,
    }
}
