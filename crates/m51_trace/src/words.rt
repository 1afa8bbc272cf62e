//! The words of `build`, and whether they ask for a run.
ghost use Rattle.std.specs.Prelude.{◌≡◌, IfOk, is_none};
ghost use Rattle.m51_args.specs.Jobs.{job_of};
ghost use Rattle.m51_jobs.specs.Texts.{texts};
ghost use Rattle.m51_trace.specs.Requests.{build_words, is_run};

use m51_args::{BuildJob, Job, WordsError, job_of};
use m51_cells::NoMemory;
use std::alloc::Global;

// The words from this number on, after `build`.
pub(crate) fn build_words(
    alloc: Global,
    words: &[String],
    count: usize,
) -> Result<Vec<String>, NoMemory>
    ensures { IfOk result (λ all. texts all.items ≡ build_words (texts words.now) count) }
{
    let mut all = Vec::new(alloc);
    all.push(String::from_str(alloc, "build")?)?;
    let start = count.min(words.len());
    let rest = &words[start..];
    for word in rest {
        all.push(word.clone()?)?;
    }
    Ok(all)
}

// The build keeps no HEX.
fn keeps_no_hex(job: &BuildJob) -> bool
    ensures { result ≡ is_none job.now.hex }
{
    match &job.hex {
        None => true,
        Some(_) => false,
    }
}

// The job is a build that keeps no HEX.
fn is_run_of(job: &Job) -> bool
    ensures { result ≡ is_run (Some job.now) }
{
    match job {
        Job::Build(job) => keeps_no_hex(job),
        _ => false,
    }
}

// Whether these are the words of a build that keeps no HEX.
pub(crate) fn is_run(alloc: Global, words: &[String]) -> Result<bool, NoMemory>
    ensures { IfOk result (λ is. is ≡ is_run (job_of (texts words.now))) }
{
    match job_of(alloc, words) {
        Ok(job) => Ok(is_run_of(&job)),
        Err(WordsError::Usage) => Ok(false),
        Err(WordsError::Memory) => Err(NoMemory),
    }
}
