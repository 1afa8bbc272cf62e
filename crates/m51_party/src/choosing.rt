//! Which board is stepped next.
ghost use Rattle.std.specs.Prelude.{◌≡◌};
ghost use Rattle.m51_party.specs.Seats.{next_from, sooner};

use crate::seat::Seat;

// The board that is stepped next, and the cycle in which its step starts.
#[derive(Clone, Copy)]
pub(crate) struct NextStep {
    pub(crate) index: usize,
    pub(crate) cycle: u64,
}

// The board with the least cycle, and of these the least index, among those that have a next step.
pub(crate) fn next(seats: &[Seat], n: u32) -> Option<NextStep>
    ensures { result ≡ next_from n 0 seats.now }
{
    let mut found = None;
    for index in (0..seats.len()).rev() {
        found = sooner(index, seats[index].start(n), found);
    }
    found
}

// This board, unless a later one starts before it.
fn sooner(index: usize, start: Option<u64>, later: Option<NextStep>) -> Option<NextStep>
    ensures { result ≡ sooner index start later }
{
    match (start, later) {
        (None, later) => later,
        (Some(cycle), None) => Some(NextStep { index, cycle }),
        (Some(cycle), Some(later)) => {
            if later.cycle < cycle {
                Some(later)
            } else {
                Some(NextStep { index, cycle })
            }
        }
    }
}
