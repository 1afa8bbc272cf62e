//! A party that was not run.
ghost use Rattle.std.specs.Prelude.{◌≡◌, ◌≤◌, All, IfOk, length};
ghost use Rattle.m51_cells.specs.Outside.{Rose};
ghost use Rattle.m51_cells.specs.declared.limits.TheConstants.{MOST_STEPS};
ghost use Rattle.m51_party.specs.Family.{IsFresh};
ghost use Rattle.m51_party.specs.Report.{IsPartyReport};
ghost use Rattle.m51_party.specs.Rounds.{family_of};
ghost use Rattle.m51_jobs.specs.declared.endings.TheConstants.{LEAST_BOARDS, MOST_BOARDS};

use m51_cells::NoMemory;
use m51_party::{Party, PartyEnd};
use m51_shelf::Sink;
use m51_sim::Board;
use std::alloc::Global;
use std::marker::Model;

/// A party that was not run, which contracts see as its boards.
///
/// Source: own choice ("Party line").
#[derive(Drop)]
pub struct UnrunParty {
    party: Party,
}

impl Model for UnrunParty {
    ghost use Rattle.std.specs.Prelude.{List};
    ghost use Rattle.m51_sim.specs.Boards.{BoardState};
    ghost use Rattle.m51_party.specs.Report.{IsPartyOf, boards_of};

    ghost Value = { List BoardState };

    ghost view = { λ p. boards_of p.party };

    ghost invariant = { λ p. IsPartyOf (boards_of p.party) p.party };
}

impl UnrunParty {
    // A party of these boards.
    pub(crate) fn make(alloc: Global, boards: Vec<Board>) -> Result<UnrunParty, NoMemory>
        requires least { LEAST_BOARDS ≤ length boards.items }
        requires most { length boards.items ≤ MOST_BOARDS }
        requires fresh { All IsFresh boards.items }
        ensures { IfOk result (λ party. party ≡ boards.items) }
    {
        Ok(UnrunParty {
            party: Party::make(alloc, boards)?,
        })
    }

    // Runs it, at most `steps` steps of each board.
    pub(crate) fn run<S: Sink>(self, steps: u32, out: &mut S) -> PartyEnd
        requires { (1 ≤ steps) × (steps ≤ MOST_STEPS) }
        ensures report { IsPartyReport self steps (family_of self steps) (S.state out.old).text (S.state out.new).text
            result }
        ensures later { (S.state out.old).faults ≤ (S.state out.new).faults }
        ensures fault { result ≡ PartyEnd.WriteFault → Rose (S.state out.old).faults (S.state out.new).faults }
    {
        let UnrunParty { mut party } = self;
        party.run(steps, out)
    }
}
