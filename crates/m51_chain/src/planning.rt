//! Planning: from arguments to what is to be kept, written and run.
ghost use Rattle.std.specs.Prelude.{◌≡◌, ◌⊎◌, ◌≤◌, IfOk, IfSome, None};
ghost use Rattle.m51_cells.specs.declared.limits.TheConstants.{MOST_FILES};
ghost use Rattle.m51_shelf.specs.States.{OnlyReads};
ghost use Rattle.m51_jobs.specs.Files.{file_count, name_kept, names_read};
ghost use Rattle.m51_args.specs.Jobs.{job_of};
ghost use Rattle.m51_jobs.specs.Texts.{texts};
ghost use Rattle.m51_chain.specs.Asked.{IsFit};
ghost use Rattle.m51_chain.specs.BuildPlans.{IsBuildPlanned, IsBuildPlan, IsBuildWork, IsPlannedAlike};
ghost use Rattle.m51_chain.specs.Due.{IsDue, IsDueFor, IsPlanned, ReadsOnly};
ghost use Rattle.m51_chain.specs.Expected.{HasOutcome};
ghost use Rattle.m51_chain.specs.Verbs.{IsOutcome};
ghost use Rattle.m51_chain.specs.Contents.{AreContentsOf};
ghost use Rattle.m51_chain.specs.Outcome.{Comes, answer_of};
ghost use Rattle.m51_chain.specs.Reading.{ReadsSome};

use crate::analysing::{bound_files, disassemble_files};
use crate::assembling::assemble;
use crate::building::build;
use crate::flat::run_flat;
use crate::generating::count;
use crate::joining::join_files;
use crate::library::operate;
use crate::reading::{FileContents, read_all};
use crate::refusing::{refuse_long_file, refuse_many_files, refuse_unread_file, refuse_words};
use crate::target::KeptName;
use crate::work::{Finished, Plan, Stop, accepted, refused};
use m51_args::{Job, WordsError, file_count, job_of, name_kept, names_read};
use m51_cells::{Bytes, MOST_FILES, NoMemory};
use m51_shelf::{FileReadError, Shelf};
use std::alloc::Global;

// What the verb makes of the contents of its files.
fn work(alloc: Global, job: &Job, contents: &[Bytes]) -> Result<Finished, Stop>
    requires fit { IsFit job.now }
    requires contents { AreContentsOf job.now contents.now }
    ensures outcome { Comes (IsOutcome job.now contents.now) result }
    ensures run { IfOk result (IsBuildWork job.now contents.now) }
{
    match job {
        Job::Build(job) => build(alloc, job, contents),
        Job::Asm(job) => assemble(alloc, job, contents),
        Job::Gen(job) => count(alloc, job),
        Job::Library(job) => operate(alloc, job, contents),
        Job::Flat(job) => run_flat(alloc, job, contents),
        Job::Dis(job) => disassemble_files(alloc, job, contents),
        Job::Stack(job) => bound_files(alloc, job, contents),
        Job::Party(job) => join_files(alloc, job, contents),
    }
}

// What is to be done for the outcome of the work, if the file that is kept has this name.
fn planned(target: Option<KeptName>, work: Result<Finished, Stop>) -> Result<Plan, NoMemory>
    ensures answer { IsPlanned target work result }
    ensures plain { target ≡ None → IsPlannedAlike work result }
{
    match work {
        Ok(work) => Ok(accepted(target, work)),
        Err(Stop::Refused { why, text }) => Ok(refused(why, text)),
        Err(Stop::Memory) => Err(NoMemory),
    }
}

// The file that a job keeps, with the text where it could not be kept.
fn target_of(alloc: Global, job: &Job) -> Result<Option<KeptName>, NoMemory>
    ensures { IfOk result (λ target. target ≡ name_kept job.now) }
{
    match name_kept(alloc, job)? {
        Some(name) => Ok(Some(KeptName::of(alloc, name)?)),
        None => Ok(None),
    }
}

// The plan for a job whose files were read whole. What is to be written if the file could not be kept is made before
// the work, of which the board is the last allocation.
fn work_planned(alloc: Global, job: &Job, contents: &[Bytes]) -> Result<Plan, NoMemory>
    requires fit { IsFit job.now }
    requires contents { AreContentsOf job.now contents.now }
    ensures outcome { IfOk result (λ plan. HasOutcome job.now contents.now (answer_of plan)) }
    ensures run { IfOk result (IsBuildPlanned job.now contents.now) }
{
    let target = target_of(alloc, job)?;
    planned(target, work(alloc, job, contents))
}

// The plan for a job.
fn plan_job<F: Shelf>(alloc: Global, job: &Job, files: &mut F) -> Result<Plan, NoMemory>
    requires fit { IsFit job.now }
    ensures due { IfOk result (λ plan. IsDueFor job.now (F.state files.old).holds
        (F.state files.old).reads (F.state files.new).reads (answer_of plan)) }
    ensures run { IfOk result (IsBuildPlan job.now (F.state files.old).holds
        (F.state files.old).reads (F.state files.new).reads) }
    ensures frame { OnlyReads (F.state files.old) (F.state files.new) }
    ensures reads { ((F.state files.new).reads ≡ (F.state files.old).reads)
        ⊎ ((file_count job.now ≤ MOST_FILES)
        × ReadsSome (names_read job.now) (F.state files.old).reads (F.state files.new).reads) }
{
    if file_count(job) > MOST_FILES {
        return refuse_many_files(alloc);
    }
    plan_few(alloc, job, files)
}

// The plan for a job whose number of file arguments is within the limit.
fn plan_few<F: Shelf>(alloc: Global, job: &Job, files: &mut F) -> Result<Plan, NoMemory>
    requires fit { IsFit job.now }
    requires few { file_count job.now ≤ MOST_FILES }
    ensures due { IfOk result (λ plan. IsDueFor job.now (F.state files.old).holds
        (F.state files.old).reads (F.state files.new).reads (answer_of plan)) }
    ensures run { IfOk result (IsBuildPlan job.now (F.state files.old).holds
        (F.state files.old).reads (F.state files.new).reads) }
    ensures frame { OnlyReads (F.state files.old) (F.state files.new) }
    ensures reads { ((F.state files.new).reads ≡ (F.state files.old).reads)
        ⊎ ReadsSome (names_read job.now) (F.state files.old).reads (F.state files.new).reads }
{
    let names = names_read(alloc, job)?;
    let mut contents = FileContents::new(alloc);
    match read_all(alloc, names.as_slice(), files, &mut contents) {
        Ok(()) => work_planned(alloc, job, contents.as_slice()),
        Err(FileReadError::TooLong) => refuse_long_file(alloc),
        Err(FileReadError::Failed) => {
            let unread = names.as_slice()[contents.len()].as_str();
            refuse_unread_file(alloc, unread)
        }
        Err(FileReadError::Memory) => Err(NoMemory),
    }
}

/// What is to be kept and written for these arguments: the arguments are read, then their files, and then the verb does
/// its work. Out of memory is the only error.
///
/// Source: own choice ("The top call").
pub fn plan<F: Shelf>(alloc: Global, words: &[String], files: &mut F) -> Result<Plan, NoMemory>
    ensures due { IfOk result (λ plan. IsDue (texts words.now) (F.state files.old).holds
        (F.state files.old).reads (F.state files.new).reads (answer_of plan)) }
    ensures run { IfOk result (λ plan. IfSome (job_of (texts words.now)) (λ job. IsBuildPlan job
        (F.state files.old).holds (F.state files.old).reads (F.state files.new).reads plan)) }
    ensures usage { job_of (texts words.now) ≡ None → files.new ≡ files.old }
    ensures frame { OnlyReads (F.state files.old) (F.state files.new) }
    ensures reads { ((F.state files.new).reads ≡ (F.state files.old).reads)
        ⊎ ReadsOnly (texts words.now) (F.state files.old).reads (F.state files.new).reads }
{
    match job_of(alloc, words) {
        Ok(job) => plan_job(alloc, &job, files),
        Err(WordsError::Usage) => refuse_words(alloc),
        Err(WordsError::Memory) => Err(NoMemory),
    }
}
