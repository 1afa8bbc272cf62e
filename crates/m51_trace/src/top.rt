//! The top call: what the arguments ask for.
ghost use Rattle.std.specs.Prelude.{◌≡◌, ◌≤◌, ◌++◌, IfOk, None, OnErr, Some};
ghost use Rattle.m51_cells.specs.declared.limits.TheConstants.{MOST_STEPS};
ghost use Rattle.m51_chain.specs.BuildPlans.{IsRunPlan};
ghost use Rattle.m51_jobs.specs.Texts.{texts};
ghost use Rattle.m51_shelf.specs.States.{OnlyReads};
ghost use Rattle.m51_steps.specs.Counts.{IsBlank};
ghost use Rattle.m51_steps.specs.Traced.{traced_text};
ghost use Rattle.m51_trace.specs.Requests.{choice_of, request_of};
ghost use Rattle.m51_trace.specs.Traces.{IsRun, IsTraced, OfEnding, OfPlan, usage_answer};
ghost use Rattle.m51_chain.specs.Carried.{IsTextWritten};
ghost use Rattle.m51_chain.specs.Outcome.{run_of, status_by};

use crate::requests::{Chosen, choice_of};
use crate::words::{build_words, is_run};
use m51_cells::{Event, NoMemory};
use m51_chain::{Finish, Plan, Status, plan, status_told};
use m51_shelf::{Failed, Shelf, Sink, write_whole};
use m51_sim::Board;
use m51_steps::{Counts, Shape, trace_run};
use std::alloc::Global;

// What is written where the arguments are faulty.
const USAGE: &[u8] =
    b"usage: m51-trace [--ram] [--from A] [--to B] [--control F] [--script F] --steps N FILE..
       m51-trace --counts [--control F] [--script F] --steps N FILE..\n";

// Writes a text, and ends with the status.
fn write_text<S: Sink>(out: &mut S, status: Status, text: &[u8]) -> Result<Status, Failed>
    ensures written { IsTextWritten status text.now (S.state out.old) (S.state out.new) result }
    ensures later { (S.state out.old).faults ≤ (S.state out.new).faults }
{
    match write_whole(out, text) {
        Ok(()) => Ok(status),
        Err(Failed) => Err(Failed),
    }
}

// Writes how the program is called.
fn refuse<S: Sink>(out: &mut S) -> Result<Status, Failed>
    ensures written { IsTextWritten usage_answer.status usage_answer.text (S.state out.old) (S.state out.new) result }
    ensures later { (S.state out.old).faults ≤ (S.state out.new).faults }
{
    write_text(out, Status::Usage, USAGE)
}

// The status after a run, by its event.
fn status_by(event: Option<Event>) -> Status
    ensures { result ≡ status_by event }
{
    match event {
        None => Status::Ran,
        Some(_) => Status::Event,
    }
}

// Runs a board, and writes its trace.
fn write_trace<S: Sink>(
    out: &mut S,
    board: &mut Board,
    steps: u32,
    shape: &Shape,
    counts: &mut Counts,
) -> Result<Status, Failed>
    requires blank { IsBlank counts.old }
    requires few { steps ≤ MOST_STEPS }
    ensures written { IsTextWritten (status_by (run_of board.old steps).event) (traced_text shape.now board.old steps)
        (S.state out.old) (S.state out.new) result }
    ensures later { (S.state out.old).faults ≤ (S.state out.new).faults }
{
    match trace_run(out, board, steps, shape, counts) {
        Ok(event) => Ok(status_by(event)),
        Err(Failed) => Err(Failed),
    }
}

// Writes a text, and then runs a board and writes its trace.
fn write_both<S: Sink>(
    out: &mut S,
    text: &[u8],
    board: &mut Board,
    steps: u32,
    shape: &Shape,
    counts: &mut Counts,
) -> Result<Status, Failed>
    requires blank { IsBlank counts.old }
    requires few { steps ≤ MOST_STEPS }
    ensures written { IsTextWritten (status_by (run_of board.old steps).event)
        (text.now ++ traced_text shape.now board.old steps) (S.state out.old) (S.state out.new) result }
    ensures later { (S.state out.old).faults ≤ (S.state out.new).faults }
{
    match write_whole(out, text) {
        Ok(()) => write_trace(out, board, steps, shape, counts),
        Err(Failed) => Err(Failed),
    }
}

// Runs the board of a build, and writes its trace.
fn write_run<S: Sink>(
    out: &mut S,
    text: &[u8],
    ending: Finish,
    shape: &Shape,
    counts: &mut Counts,
) -> Result<Status, Failed>
    requires blank { IsBlank counts.old }
    requires run { IsRun ending }
    ensures written { OfEnding shape.now text.now ending (λ answer.
        IsTextWritten answer.status answer.text (S.state out.old) (S.state out.new) result) }
    ensures later { (S.state out.old).faults ≤ (S.state out.new).faults }
{
    match ending {
        Finish::Run { mut board, steps } => {
            write_both(out, text, &mut board, steps.number(), shape, counts)
        }
        _ => unreachable!(),
    }
}

// Does what the plan of a build says that keeps no HEX: a refusal is written as `build` writes it.
fn perform<S: Sink>(
    out: &mut S,
    plan: Plan,
    shape: &Shape,
    counts: &mut Counts,
) -> Result<Status, Failed>
    requires blank { IsBlank counts.old }
    requires run { IsRunPlan (λ text end. IsRun end) plan }
    ensures written { OfPlan shape.now plan (λ answer.
        IsTextWritten answer.status answer.text (S.state out.old) (S.state out.new) result) }
    ensures later { (S.state out.old).faults ≤ (S.state out.new).faults }
{
    match plan {
        Plan::Refused { status, text } => write_text(out, status, text.as_slice()),
        Plan::Accepted {
            keeps,
            text,
            ending,
        } => match keeps {
            Some(_) => unreachable!(),
            None => write_run(out, text.as_slice(), ending, shape, counts),
        },
    }
}

// The trace of what is chosen, where out of memory is an error.
fn trace_chosen<F: Shelf, S: Sink>(
    alloc: Global,
    words: &[String],
    chosen: &Chosen,
    files: &mut F,
    out: &mut S,
) -> Result<Status, NoMemory>
    requires { choice_of (texts words.now) ≡ Some chosen.now }
    ensures traced { IfOk result (IsTraced (texts words.now) (F.state files.old).holds
        (F.state files.old).reads (F.state files.new).reads (S.state out.old) (S.state out.new)) }
    ensures frame { OnlyReads (F.state files.old) (F.state files.new) }
    ensures usage { request_of (texts words.now) ≡ None → files.new ≡ files.old }
    ensures quiet { OnErr result (S.state out.new ≡ S.state out.old) }
    ensures later { (S.state out.old).faults ≤ (S.state out.new).faults }
{
    let all = build_words(alloc, words, chosen.count)?;
    let asked = all.as_slice();
    let has_run = is_run(alloc, asked)?;
    if has_run {
        let mut counts = Counts::make(alloc)?;
        let plan = plan(alloc, asked, files)?;
        Ok(status_told(perform(out, plan, &chosen.shape, &mut counts)))
    } else {
        Ok(status_told(refuse(out)))
    }
}

/// Links the program of the files as `build` does, runs its board as `build` does, and writes what happens inside the
/// run. The arguments are those after the program's name.
///
/// Source: own choice ("The trace of a run").
pub(crate) fn trace<F: Shelf, S: Sink>(
    alloc: Global,
    words: &[String],
    files: &mut F,
    out: &mut S,
) -> Status
    // What is written is the answer for a plan that is due for the words of `build`, the files and what the shelf did,
    // and this is a refusal of `build` or the trace of its run; or the usage, where the arguments are faulty; or
    // nothing, where memory runs out.
    ensures traced { IsTraced (texts words.now) (F.state files.old).holds (F.state files.old).reads
        (F.state files.new).reads (S.state out.old) (S.state out.new) result }

    // Files are only read.
    ensures frame { OnlyReads (F.state files.old) (F.state files.new) }

    // Faulty arguments are refused before a file is touched.
    ensures usage { request_of (texts words.now) ≡ None → files.new ≡ files.old }

    // The failure counter never decreases.
    ensures later { (S.state out.old).faults ≤ (S.state out.new).faults }
{
    match choice_of(words) {
        Some(chosen) => match trace_chosen(alloc, words, &chosen, files, out) {
            Ok(status) => status,
            Err(NoMemory) => Status::Memory,
        },
        None => status_told(refuse(out)),
    }
}
