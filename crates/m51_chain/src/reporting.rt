//! The report of a linked program: its map is made, and then its board.
ghost use Rattle.std.specs.Prelude.{◌≡◌, ◌≤◌, IfOk};
ghost use Rattle.m51_linker.specs.Link.{IsReady};
ghost use Rattle.m51_chain.specs.BuildPlans.{EndsInRun};
ghost use Rattle.m51_chain.specs.Programs.{IsMap, IsReport, filled_by, hex_kept};
ghost use Rattle.m51_chain.specs.Outcome.{outcome_of};

use crate::linking::{LinkedFiles, board_of};
use crate::work::{Finish, Finished};
use m51_args::BuildJob;
use m51_cells::{Bytes, NoMemory, cite};
use m51_hex::write_hex;
use m51_linker::Linked;
use m51_module::Run;
use m51_place::heaviest;
use m51_print::map_text;
use std::alloc::Global;

// How many bytes the runs have.
fn filled(runs: &[Run]) -> u32
    requires { filled_by runs.now ≤ 65536 }
    ensures { result ≡ filled_by runs.now }
{
    let mut bytes = 0;
    for run in runs {
        bytes += run.len;
    }
    bytes
}

// The map of a linked program, with the heaviest chains of its layout, and RUN.
fn map_and_run(alloc: Global, linked: &Linked) -> Result<Bytes, NoMemory>
    requires { IsReady linked.now }
    ensures { IfOk result (IsMap linked.now) }
{
    // For the proof only: reading the units exposes the layout's invariant.
    cite(linked.layout.units());
    let chains = heaviest(alloc, &linked.layout)?;
    let bytes = filled(linked.written.as_slice());
    let mut text = map_text(
        alloc,
        &linked.layout,
        linked.roots.as_slice(),
        &chains,
        bytes,
    )?;
    text.extend_from_slice(b"RUN\n")?;
    Ok(Bytes::of(text))
}

// The HEX of a linked program, where a file is named for it.
fn hex_kept(alloc: Global, job: &BuildJob, linked: &Linked) -> Result<Option<Bytes>, NoMemory>
    requires { IsReady linked.now }
    ensures { IfOk result (λ kept. kept ≡ hex_kept job.now.hex linked.now) }
{
    match job.hex {
        Some(_) => {
            let text = write_hex(alloc, &linked.image, &linked.written)?;
            Ok(Some(Bytes::of(text)))
        }
        None => Ok(None),
    }
}

// The report of a linked program. The board is the last allocation.
pub(crate) fn report(
    alloc: Global,
    job: &BuildJob,
    found: LinkedFiles,
) -> Result<Finished, NoMemory>
    requires { IsReady found.linked }
    ensures report { IfOk result (λ work.
        IsReport found.linked job.now.hex found.script job.now.steps (outcome_of work)) }
    ensures run { IfOk result (λ work. EndsInRun found.linked found.script job.now.steps work.text work.ending) }
{
    let LinkedFiles { linked, script } = found;
    let keeps = hex_kept(alloc, job, &linked)?;
    let text = map_and_run(alloc, &linked)?;
    let board = board_of(alloc, linked, script)?;
    Ok(Finished {
        keeps,
        text,
        ending: Finish::Run {
            board,
            steps: job.steps,
        },
    })
}
