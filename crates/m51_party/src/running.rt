//! The steps of the boards on a line, in order, with their lines.
ghost use Rattle.std.specs.Prelude.{◌≡◌, ◌<◌, ◌≤◌, All, length, List, OnErr, OnOk, slice_get, Some};
ghost use Rattle.m51_cells.specs.Outside.{HasCause};
ghost use Rattle.m51_cells.specs.declared.limits.TheConstants.{MOST_STEPS};
ghost use Rattle.m51_sim.specs.Boards.{BoardState};
ghost use Rattle.m51_party.specs.declared.seat.Seat.{Seat as SeatState};
ghost use Rattle.m51_party.specs.Report.{IsPartyOf};
ghost use Rattle.m51_party.specs.Seats.{HasEventText, IsStepAt};
ghost use Rattle.m51_party.specs.Steps.{AllCut, AllFront, AllStepped, AllWritten, some_event};

use crate::choosing::next;
use crate::handing::kept_for;
use crate::lines::{write_ends, write_head, write_told};
use crate::seat::Seat;
use m51_shelf::{Failed, Sink};
use m51_sim::Told;

// One step of the board at this index, with what the others sent last.
fn step_at(seats: &mut [Seat], index: usize) -> Told
    requires few { length seats.old ≤ 8 }
    requires within { index < length seats.old }
    requires steps { (s : SeatState) → slice_get seats.old index ≡ Some s → s.steps < MOST_STEPS }
    ensures { IsStepAt index result seats.old seats.new }
{
    let further = kept_for(seats, index);
    seats[index].step(&further.frames[..further.count])
}

// All steps, of which each board performs at most `n`, with the lines of what they report.
fn write_steps<S: Sink>(seats: &mut [Seat], n: u32, out: &mut S) -> Result<(), Failed>
    requires party { (boards : List BoardState) × IsPartyOf boards seats.old }
    requires few { n ≤ MOST_STEPS }
    ensures whole { OnOk result (AllStepped seats.old n (S.state out.old).text (S.state out.new).text seats.new) }
    ensures texts { OnOk result (All HasEventText seats.new) }
    ensures count { length seats.new ≡ length seats.old }
    ensures front { OnErr result (AllCut seats.old n (S.state out.old).text (S.state out.new).text) }
    ensures cause { HasCause (S.state out.old).faults (S.state out.new).faults result }
{
    while let Some(chosen) = next(seats, n) {
        let told = step_at(seats, chosen.index);
        write_told(out, chosen.index, &told)?;
    }
    Ok(())
}

// The whole text.
pub(crate) fn write_all<S: Sink>(seats: &mut [Seat], n: u32, out: &mut S) -> Result<(), Failed>
    requires party { (boards : List BoardState) × IsPartyOf boards seats.old }
    requires few { n ≤ MOST_STEPS }
    ensures whole { OnOk result (AllWritten seats.old n (S.state out.old).text (S.state out.new).text seats.new) }
    ensures front { OnErr result (AllFront seats.old n (S.state out.old).text (S.state out.new).text) }
    ensures cause { HasCause (S.state out.old).faults (S.state out.new).faults result }
{
    write_head(out, seats.len())?;
    write_steps(seats, n, out)?;
    write_ends(out, seats)
}

// Whether some board was stopped.
pub(crate) fn some_event(seats: &[Seat]) -> bool
    ensures { result ≡ some_event seats.now }
{
    seats.iter().any(|seat| seat.event.is_some())
}
