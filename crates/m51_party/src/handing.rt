//! The frames that the other boards send to one.
ghost use Rattle.std.specs.Prelude.{◌≡◌, ◌+◌, ◌<◌, ◌≤◌, ◌++◌, length, option_to_list, take};
ghost use Rattle.m51_party.specs.Seats.{kept_for, sent_to};

use crate::seat::Seat;
use m51_sim::Timed;
use m51_timers_uart::Frame;

// The most boards on a line.
pub(crate) const MOST_BOARDS: usize = 8;

// Frames: the first `count` of these.
#[derive(Drop)]
pub(crate) struct Further {
    pub(crate) frames: [Timed; MOST_BOARDS],
    pub(crate) count: usize,
}

// One more, if there is one.
fn add(further: &mut Further, sent: Option<Timed>)
    requires { further.old.count < 8 }
    ensures frames { take further.new.count further.new.frames
        ≡ take further.old.count further.old.frames ++ option_to_list sent }
    ensures count { further.new.count ≡ further.old.count + length (option_to_list sent) }
{
    if let Some(timed) = sent {
        further.frames[further.count] = timed;
        further.count += 1;
    }
}

// Those that were sent last, but for that of the board at this index.
pub(crate) fn kept_for(seats: &[Seat], index: usize) -> Further
    requires { length seats.now ≤ 8 }
    ensures within { result.count ≤ 8 }
    ensures frames { take result.count result.frames ≡ kept_for index seats.now }
{
    let none = Timed {
        cycle: 0,
        frame: Frame {
            byte: 0,
            ninth: false,
        },
    };
    let mut further = Further {
        frames: [none; MOST_BOARDS],
        count: 0,
    };
    for at in 0..seats.len() {
        add(&mut further, sent_to(&seats[at], at, index));
    }
    further
}

// What one board sent last to another; to itself it sends nothing.
fn sent_to(seat: &Seat, at: usize, index: usize) -> Option<Timed>
    ensures { result ≡ sent_to at index seat.now }
{
    if at == index { None } else { seat.sent }
}
