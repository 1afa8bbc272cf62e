//! Boards on one serial line.
ghost use Rattle.std.specs.Prelude.{◌≡◌, ◌≤◌, All, IfOk, length, map, List};
ghost use Rattle.m51_cells.specs.Outside.{Rose};
ghost use Rattle.m51_cells.specs.declared.limits.TheConstants.{MOST_STEPS};
ghost use Rattle.m51_sim.specs.Boards.{BoardState};
ghost use Rattle.m51_party.specs.Family.{Family, IsFamily, IsFresh};
ghost use Rattle.m51_party.specs.Report.{IsPartyOf, IsPartyReport};
ghost use Rattle.m51_party.specs.Seats.{new_seat};

use crate::running::{some_event, write_all};
use crate::seat::Seat;
use m51_cells::NoMemory;
use m51_shelf::{Failed, Sink};
use m51_sim::Board;
use std::alloc::{AllocError, Global};
use std::marker::Model;

/// How the run of a party ends.
///
/// Source: own choice ("Party line").
#[derive(Clone, Copy, Debug, PartialEq, Eq)]
pub enum PartyEnd {
    /// Each board has performed all its steps, and the text is written.
    Finished,
    /// An event has stopped at least one board, and the text is written.
    Stopped,
    /// The sink has failed, and a prefix of the text is written.
    WriteFault,
}

/// Boards on one serial line: a byte that one sends with a ninth bit arrives at the others four cycles later. Only
/// `make` allocates.
///
/// Source: own choice ("Party line").
#[derive(Drop)]
pub struct Party {
    seats: Vec<Seat>,
}

impl Model for Party {
    ghost use Rattle.std.specs.Prelude.{List};
    ghost use Rattle.m51_party.specs.declared.seat.Seat.{Seat as SeatState};

    ghost Value = { List SeatState };

    ghost view = { λ p. p.seats.items };
}

impl Party {
    /// A party of these boards, 2 to 8, of which none was stepped; they are numbered from 1 in this order.
    ///
    /// NoMemory: there is no memory for what is kept of them. This is the one refusal.
    ///
    /// Source: own choice ("Party line").
    pub fn make(alloc: Global, boards: Vec<Board>) -> Result<Party, NoMemory>
        requires least { 2 ≤ length boards.items }
        requires most { length boards.items ≤ 8 }
        requires fresh { All IsFresh boards.items }
        ensures { IfOk result (IsPartyOf boards.items) }
    {
        Ok(Party {
            seats: seats_of(alloc, boards)?,
        })
    }

    /// At most `n` steps of each board, 1 to 10,000,000, with a line for each entry and a last line for each board. A
    /// party is run once.
    ///
    /// WriteFault: the sink has failed.
    ///
    /// Source: own choice ("Party line").
    pub fn run<S: Sink>(&mut self, n: u32, out: &mut S) -> PartyEnd
        requires party { (boards : List BoardState) × IsPartyOf boards self.old }
        requires steps { (1 ≤ n) × (n ≤ MOST_STEPS) }
        ensures report { (boards : List BoardState) (family : Family) → IsPartyOf boards self.old
            → IsFamily boards n family
            → IsPartyReport boards n family (S.state out.old).text (S.state out.new).text result }
        ensures later { (S.state out.old).faults ≤ (S.state out.new).faults }
        ensures fault { result ≡ PartyEnd.WriteFault → Rose (S.state out.old).faults (S.state out.new).faults }
    {
        match write_all(&mut self.seats, n, out) {
            Err(Failed) => PartyEnd::WriteFault,
            Ok(()) => {
                if some_event(&self.seats) {
                    PartyEnd::Stopped
                } else {
                    PartyEnd::Finished
                }
            }
        }
    }
}

// These boards, none of which was stepped.
fn seats_of(alloc: Global, boards: Vec<Board>) -> Result<Vec<Seat>, AllocError>
    ensures { IfOk result (λ seats. seats.items ≡ map new_seat boards.items) }
{
    boards
        .into_iter()
        .map(|board| Seat::of(board))
        .collect(alloc)
}
