//! The verb `party`.
ghost use Rattle.std.specs.Prelude.{◌≡◌, ◌≤◌, All, IfOk, length, true};
ghost use Rattle.m51_party.specs.Family.{IsFresh};
ghost use Rattle.m51_jobs.specs.declared.endings.TheConstants.{LEAST_BOARDS, MOST_BOARDS};
ghost use Rattle.m51_jobs.specs.Endings.{are_boards};
ghost use Rattle.m51_chain.specs.Outcome.{Comes, outcome_of};
ghost use Rattle.m51_chain.specs.Parties.{AreBoardsOr, AreJoinedOr, IsBoardOr, IsPartyOutcome, party_files};
ghost use Rattle.m51_chain.specs.Parties.{party_outcome};
ghost use Rattle.m51_chain.specs.ProgramFiles.{HasParts};

use crate::linking::{board_of, inputs_in, link_alone};
use crate::unrun::UnrunParty;
use crate::work::{Finish, Finished, Stop};
use m51_args::{PartyJob, Steps};
use m51_cells::{Bytes, ListOf, NoMemory};
use m51_inputs::Inputs;
use m51_module::Module;
use m51_script::Script;
use m51_sim::Board;
use std::alloc::Global;
use std::collections::VecDeque;

// The board of a module that is linked by itself, with a copy of the script.
fn board_alone(alloc: Global, parts: Module, script: &Script) -> Result<Board, Stop>
    ensures { IsBoardOr script.now parts result }
{
    let linked = link_alone(alloc, parts)?;
    let script = script.copy(alloc)?;
    Ok(board_of(alloc, linked, script)?)
}

// The boards of modules, each linked by itself, in order.
fn boards_alone(alloc: Global, modules: Vec<Module>, script: &Script) -> Result<Vec<Board>, Stop>
    ensures { AreBoardsOr script.now modules.items result }
{
    let mut left = VecDeque::from(modules);
    let mut boards = ListOf::new(alloc);
    while let Some(parts) = left.pop_front() {
        let board = board_alone(alloc, parts, script)?;
        boards.push(board)?;
    }
    Ok(boards.into_vec())
}

// The run of boards on one line.
#[tactic(auto, unfolding(crate::specs::Outcome::status_at, crate::specs::Outcome::text_at))]
fn together(alloc: Global, boards: Vec<Board>, steps: Steps) -> Result<Finished, NoMemory>
    requires least { LEAST_BOARDS ≤ length boards.items }
    requires most { length boards.items ≤ MOST_BOARDS }
    requires fresh { All IsFresh boards.items }
    ensures { IfOk result (λ work. outcome_of work ≡ party_outcome boards.items steps) }
{
    let party = UnrunParty::make(alloc, boards)?;
    Ok(Finished {
        keeps: None,
        text: Bytes::new(alloc),
        ending: Finish::Party { party, steps },
    })
}

// The boards of a party: each program is built by itself.
fn party_boards(alloc: Global, job: &PartyJob, contents: &[Bytes]) -> Result<Vec<Board>, Stop>
    requires fit { are_boards job.now.files ≡ true }
    requires contents { HasParts (party_files job.now) contents.now }
    ensures { AreJoinedOr job.now contents.now result }
{
    let Inputs {
        modules,
        script,
        ..
    } = inputs_in(alloc, job.files.as_slice(), &None, &job.script, contents)?;
    boards_alone(alloc, modules, &script)
}

// Builds each program by itself, and joins their boards on one line. The party is the last allocation.
pub(crate) fn join_files(
    alloc: Global,
    job: &PartyJob,
    contents: &[Bytes],
) -> Result<Finished, Stop>
    requires fit { are_boards job.now.files ≡ true }
    requires contents { HasParts (party_files job.now) contents.now }
    ensures { Comes (IsPartyOutcome job.now contents.now) result }
{
    let boards = party_boards(alloc, job, contents)?;
    Ok(together(alloc, boards, job.steps)?)
}
