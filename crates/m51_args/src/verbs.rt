//! The verbs.
ghost use Rattle.std.specs.Prelude.{◌≡◌};
ghost use Rattle.clap.specs.Words.{found_of, rows_of};
ghost use Rattle.m51_args.specs.Asks.{AsksFor};
ghost use Rattle.m51_args.specs.Commands.{build_app, asm_app, lib_app, flat_app, gen_app, party_app};
ghost use Rattle.m51_args.specs.Jobs.{build_of, asm_of, lib_of, flat_of, gen_of, party_of, asked, job_by, job_of};
ghost use Rattle.m51_jobs.specs.Texts.{texts};

use crate::analysis_verbs::{dis_job, stack_job};
use crate::commands::{bare_verb, matches_in, verb};
use crate::error::WordsError;
use crate::library_words::{file_names, library_job};
use crate::reading::{file_of, option_value, steps_in, words_of};
use clap::ArgMatches;
use m51_jobs::{
    AsmJob, BuildJob, FileName, FlatJob, GenJob, Job, LibraryJob, PartyJob, are_assembled,
    are_boards, are_built, start_of, units_of,
};
use std::alloc::Global;

// What the matches of `build` ask for.
#[tactic(auto, unfolding(crate::specs::Jobs::build_of))]
fn build_of(alloc: Global, matches: &ArgMatches<'_>) -> Result<BuildJob, WordsError>
    ensures { AsksFor (λ job. job) result (build_of (rows_of (found_of matches.now))) }
{
    let Some(words) = words_of(matches) else {
        return Err(WordsError::Usage);
    };
    if !are_built(words) {
        return Err(WordsError::Usage);
    }
    let Some(steps) = steps_in(matches) else {
        return Err(WordsError::Usage);
    };
    let control = file_of(alloc, matches, "control")?;
    let script = file_of(alloc, matches, "script")?;
    let hex = file_of(alloc, matches, "hex")?;
    let files = file_names(alloc, words)?;
    Ok(BuildJob {
        control,
        script,
        hex,
        steps,
        files,
    })
}

// What the matches of `asm` ask for.
#[tactic(auto, unfolding(crate::specs::Jobs::asm_of))]
fn asm_of(alloc: Global, matches: &ArgMatches<'_>) -> Result<AsmJob, WordsError>
    ensures { AsksFor (λ job. job) result (asm_of (rows_of (found_of matches.now))) }
{
    let Some(words) = words_of(matches) else {
        return Err(WordsError::Usage);
    };
    if !are_assembled(words) {
        return Err(WordsError::Usage);
    }
    let Some(text) = option_value(matches, "out") else {
        return Err(WordsError::Usage);
    };
    let out = FileName::copy_of(alloc, text)?;
    let files = file_names(alloc, words)?;
    Ok(AsmJob { out, files })
}

// What the matches of `lib` ask for.
fn lib_of(alloc: Global, matches: &ArgMatches<'_>) -> Result<LibraryJob, WordsError>
    ensures { AsksFor (λ job. job) result (lib_of (rows_of (found_of matches.now))) }
{
    match words_of(matches) {
        Some(words) => library_job(alloc, words),
        None => Err(WordsError::Usage),
    }
}

// What `flat` is to do with this file.
#[tactic(auto, unfolding(crate::specs::Jobs::flat_of))]
fn flat_of(alloc: Global, matches: &ArgMatches<'_>) -> Result<FlatJob, WordsError>
    ensures { AsksFor (λ job. job) result (flat_of (rows_of (found_of matches.now))) }
{
    let Some([word]) = words_of(matches) else {
        return Err(WordsError::Usage);
    };
    if *word == "" {
        return Err(WordsError::Usage);
    }
    let Some(steps) = steps_in(matches) else {
        return Err(WordsError::Usage);
    };
    let script = file_of(alloc, matches, "script")?;
    let file = FileName::copy_of(alloc, word)?;
    Ok(FlatJob {
        script,
        steps,
        file,
    })
}

// What the matches of `gen` ask for.
#[tactic(auto, unfolding(crate::specs::Jobs::gen_of))]
fn gen_of(matches: &ArgMatches<'_>) -> Option<GenJob>
    ensures { result ≡ gen_of (rows_of (found_of matches.now)) }
{
    let units = units_of(option_value(matches, "units")?)?;
    let start = start_of(option_value(matches, "start")?)?;
    let steps = steps_in(matches)?;
    Some(GenJob {
        units: units as u8,
        start,
        steps,
    })
}

// What the matches of `party` ask for.
#[tactic(auto, unfolding(crate::specs::Jobs::party_of))]
fn party_of(alloc: Global, matches: &ArgMatches<'_>) -> Result<PartyJob, WordsError>
    ensures { AsksFor (λ job. job) result (party_of (rows_of (found_of matches.now))) }
{
    let Some(words) = words_of(matches) else {
        return Err(WordsError::Usage);
    };
    if !are_boards(words) {
        return Err(WordsError::Usage);
    }
    let Some(steps) = steps_in(matches) else {
        return Err(WordsError::Usage);
    };
    let script = file_of(alloc, matches, "script")?;
    let files = file_names(alloc, words)?;
    Ok(PartyJob {
        script,
        steps,
        files,
    })
}

// `build` with its words.
fn build_job(alloc: Global, words: &[String]) -> Result<Job, WordsError>
    ensures { AsksFor (λ job. job) result (asked build_app build_of Job.Build (texts words.now)) }
{
    let command = verb(alloc, "build", &["control", "script", "hex", "steps"])?;
    let matches = matches_in(command, words)?;
    Ok(Job::Build(build_of(alloc, &matches)?))
}

// `asm` with its words.
fn asm_job(alloc: Global, words: &[String]) -> Result<Job, WordsError>
    ensures { AsksFor (λ job. job) result (asked asm_app asm_of Job.Asm (texts words.now)) }
{
    let command = verb(alloc, "asm", &["out"])?;
    let matches = matches_in(command, words)?;
    Ok(Job::Asm(asm_of(alloc, &matches)?))
}

// `lib` with its words.
fn lib_job(alloc: Global, words: &[String]) -> Result<Job, WordsError>
    ensures { AsksFor (λ job. job) result (asked lib_app lib_of Job.Library (texts words.now)) }
{
    let command = verb(alloc, "lib", &[])?;
    let matches = matches_in(command, words)?;
    Ok(Job::Library(lib_of(alloc, &matches)?))
}

// `flat` with its words.
fn flat_job(alloc: Global, words: &[String]) -> Result<Job, WordsError>
    ensures { AsksFor (λ job. job) result (asked flat_app flat_of Job.Flat (texts words.now)) }
{
    let command = verb(alloc, "flat", &["script", "steps"])?;
    let matches = matches_in(command, words)?;
    Ok(Job::Flat(flat_of(alloc, &matches)?))
}

// `gen` with its words.
fn gen_job(alloc: Global, words: &[String]) -> Result<Job, WordsError>
    ensures { AsksFor (λ job. job) result (asked gen_app gen_of Job.Gen (texts words.now)) }
{
    let command = bare_verb(alloc, "gen", &["units", "start", "steps"])?;
    let matches = matches_in(command, words)?;
    match gen_of(&matches) {
        Some(job) => Ok(Job::Gen(job)),
        None => Err(WordsError::Usage),
    }
}

// `party` with its words.
fn party_job(alloc: Global, words: &[String]) -> Result<Job, WordsError>
    ensures { AsksFor (λ job. job) result (asked party_app party_of Job.Party (texts words.now)) }
{
    let command = verb(alloc, "party", &["script", "steps"])?;
    let matches = matches_in(command, words)?;
    Ok(Job::Party(party_of(alloc, &matches)?))
}

// The job that the arguments ask for, the first of which is this verb.
#[tactic(auto, unfolding(crate::specs::Jobs::job_by))]
fn job_by(alloc: Global, verb: &str, words: &[String]) -> Result<Job, WordsError>
    ensures { AsksFor (λ job. job) result (job_by verb.now (texts words.now)) }
{
    if verb == "build" {
        build_job(alloc, words)
    } else if verb == "asm" {
        asm_job(alloc, words)
    } else if verb == "lib" {
        lib_job(alloc, words)
    } else if verb == "flat" {
        flat_job(alloc, words)
    } else if verb == "gen" {
        gen_job(alloc, words)
    } else if verb == "dis" {
        dis_job(alloc, words)
    } else if verb == "stack" {
        stack_job(alloc, words)
    } else if verb == "party" {
        party_job(alloc, words)
    } else {
        Err(WordsError::Usage)
    }
}

/// What the arguments after the program's name ask for.
///
/// Errors: `Usage` where the first argument is no verb, its simple command refuses the arguments, or a number, an
/// ending or an argument of `lib` is none that the verb takes; out of memory.
///
/// Source: own choice ("Words").
pub fn job_of(alloc: Global, words: &[String]) -> Result<Job, WordsError>
    ensures { AsksFor (λ job. job) result (job_of (texts words.now)) }
{
    match words.first() {
        Some(verb) => job_by(alloc, verb.as_str(), words),
        None => Err(WordsError::Usage),
    }
}
