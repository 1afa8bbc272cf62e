//! The verb `gen`: a source is made, and the run of its program is counted.
ghost use Rattle.std.specs.Prelude.{◌≡◌, ◌≤◌, ℕ, [], IfOk, length};
ghost use Rattle.m51_jobs.specs.declared.numbers.TheConstants.{MOST_GENERATED_UNITS};
ghost use Rattle.m51_module.specs.Plan.{IsRootAt};
ghost use Rattle.m51_chain.specs.Generates.{overlaid_size, overlaid_sizes, summary_outcome};
ghost use Rattle.m51_chain.specs.Generates.{IsCounted, IsGenOutcome};
ghost use Rattle.m51_chain.specs.Linking.{IsProgramOutcome, sole_program};
ghost use Rattle.m51_chain.specs.Outcome.{Comes, outcome_of, status_at, status_by, text_at};

use crate::faulting::refuse_source;
use crate::linking::link_alone;
use crate::work::{Finish, Finished, Stop};
use m51_args::{GenJob, Steps};
use m51_asm::{Assembled, assemble};
use m51_cells::{Bytes, NoMemory};
use m51_generator::generate;
use m51_module::{Image, Layout, Mark, Module, Placed, Tally};
use m51_print::{overlaid_below, summary_text};
use m51_script::Script;
use m51_sim::Board;
use std::alloc::Global;

// The size of an overlaid segment, and 0 of another.
fn overlaid_size(mark: Mark, size: u16) -> u16
    ensures value { result ≡ overlaid_size mark size }
{
    match mark {
        Mark::Overlaid => size,
        _ => 0,
    }
}

// The sizes of all overlaid segments, added up.
fn overlaid_sizes(placed: &[Placed]) -> u32
    requires { length placed.now ≤ 65535 }
    ensures { result ≡ overlaid_sizes placed.now }
{
    let mut sizes = 0;
    for extent in placed {
        sizes += u32::from(overlaid_size(extent.mark, extent.size));
    }
    sizes
}

// How a run that was counted ends.
#[tactic(auto, unfolding(crate::specs::Outcome::status_at, crate::specs::Outcome::text_at))]
fn ending_of(tally: &Tally) -> Finish
    ensures status { status_at result ≡ status_by tally.now.event }
    ensures text { text_at result ≡ [] }
{
    match tally.event {
        Some(_) => Finish::Event,
        None => Finish::Ran,
    }
}

// The summary of the run of a linked program, which is made after it: at most `steps` steps. The program has a root at
// the reset vector. The board and its text are the last allocations.
fn summary(alloc: Global, steps: Steps, layout: Layout, image: Image) -> Result<Finished, NoMemory>
    requires { (unit : ℕ) × IsRootAt layout 0 unit }
    ensures { IfOk result (λ work. outcome_of work ≡ summary_outcome layout image steps) }
{
    let units = layout.units().len() as u16;
    let overlaid = overlaid_below(layout.placed(), 256);
    let sizes = overlaid_sizes(layout.placed());
    let mut board = Board::make(alloc, layout, image, Script::plain(alloc)?)?;
    let tally = board.tally(steps.number());
    let text = summary_text(alloc, units, overlaid, sizes, &tally, board.layout())?;
    Ok(Finished {
        keeps: None,
        text: Bytes::of(text),
        ending: ending_of(&tally),
    })
}

// Links a module, runs it, and counts.
fn count_program(alloc: Global, steps: Steps, parts: Module) -> Result<Finished, Stop>
    ensures { Comes (IsProgramOutcome (sole_program parts) (IsCounted steps)) result }
{
    let linked = link_alone(alloc, parts)?;
    Ok(summary(alloc, steps, linked.layout, linked.image)?)
}

// Makes a source, assembles, links and runs it, and counts.
pub(crate) fn count(alloc: Global, job: &GenJob) -> Result<Finished, Stop>
    requires { (1 ≤ job.now.units) × (job.now.units ≤ MOST_GENERATED_UNITS) }
    ensures { Comes (IsGenOutcome job.now) result }
{
    let source = generate(alloc, job.units, job.start)?;
    match assemble(alloc, &source, &[])? {
        Assembled::Faults(faults) => Err(refuse_source(alloc, &[], &source, faults.as_slice())?),
        Assembled::Module(parts, _) => count_program(alloc, job.steps, parts),
    }
}
