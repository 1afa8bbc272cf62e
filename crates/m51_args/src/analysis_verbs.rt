//! The verbs that link a program and look at it.
ghost use Rattle.std.specs.Prelude.{◌≡◌};
ghost use Rattle.clap.specs.Words.{found_of, rows_of};
ghost use Rattle.m51_args.specs.Asks.{AsksFor};
ghost use Rattle.m51_args.specs.Commands.{dis_app, stack_app};
ghost use Rattle.m51_args.specs.Jobs.{link_of, asked};
ghost use Rattle.m51_jobs.specs.Texts.{texts};

use crate::commands::{matches_in, verb};
use crate::error::WordsError;
use crate::library_words::file_names;
use crate::reading::{file_of, words_of};
use clap::ArgMatches;
use m51_jobs::{Job, LinkJob, are_built};
use std::alloc::Global;

// What the matches of `dis` or `stack` ask for.
#[tactic(auto, unfolding(crate::specs::Jobs::link_of))]
fn link_of(alloc: Global, matches: &ArgMatches<'_>) -> Result<LinkJob, WordsError>
    ensures { AsksFor (λ job. job) result (link_of (rows_of (found_of matches.now))) }
{
    let Some(words) = words_of(matches) else {
        return Err(WordsError::Usage);
    };
    if !are_built(words) {
        return Err(WordsError::Usage);
    }
    let control = file_of(alloc, matches, "control")?;
    let files = file_names(alloc, words)?;
    Ok(LinkJob { control, files })
}

/// `dis` with its arguments.
pub(crate) fn dis_job(alloc: Global, words: &[String]) -> Result<Job, WordsError>
    ensures { AsksFor (λ job. job) result (asked dis_app link_of Job.Dis (texts words.now)) }
{
    let command = verb(alloc, "dis", &["control"])?;
    let matches = matches_in(command, words)?;
    Ok(Job::Dis(link_of(alloc, &matches)?))
}

/// `stack` with its arguments.
pub(crate) fn stack_job(alloc: Global, words: &[String]) -> Result<Job, WordsError>
    ensures { AsksFor (λ job. job) result (asked stack_app link_of Job.Stack (texts words.now)) }
{
    let command = verb(alloc, "stack", &["control"])?;
    let matches = matches_in(command, words)?;
    Ok(Job::Stack(link_of(alloc, &matches)?))
}
