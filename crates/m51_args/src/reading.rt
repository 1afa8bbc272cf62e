//! Values of options, and the other arguments.
ghost use Rattle.std.specs.Prelude.{◌≡◌, IfOk, OnOk};
ghost use Rattle.clap.specs.Words.{found_of, rows_of};
ghost use Rattle.m51_args.specs.Asks.{AsksFor};
ghost use Rattle.m51_args.specs.Commands.{option_value, words_of};
ghost use Rattle.m51_args.specs.Jobs.{steps_in};
ghost use Rattle.m51_jobs.specs.Texts.{lent};
ghost use Rattle.std.specs.Prelude.{option_map, codes};

use crate::error::WordsError;
use clap::ArgMatches;
use m51_cells::NoMemory;
use m51_jobs::{FileName, Steps, steps_of};
use std::alloc::Global;

// The value of an option.
pub(crate) fn option_value<'a>(matches: &ArgMatches<'a>, name: &str) -> Option<&'a str>
    ensures { option_map (λ text. text.now) result ≡ option_value name.now (rows_of (found_of matches.now)) }
{
    matches.get_str(name)
}

// The words that are no options, if there are any.
pub(crate) fn words_of<'m, 'a>(matches: &'m ArgMatches<'a>) -> Option<&'m [&'a str]>
    ensures { option_map (λ words. lent words.now) result ≡ words_of (rows_of (found_of matches.entry.now)) }
{
    matches.get_raw("word")
}

// The file that an option names.
pub(crate) fn file_of(
    alloc: Global,
    matches: &ArgMatches<'_>,
    name: &str,
) -> Result<Option<FileName>, NoMemory>
    ensures { IfOk result (λ file. file ≡ option_value name.now (rows_of (found_of matches.now))) }
{
    match option_value(matches, name) {
        Some(text) => Ok(Some(FileName::copy_of(alloc, text)?)),
        None => Ok(None),
    }
}

// The number of steps.
pub(crate) fn steps_in(matches: &ArgMatches<'_>) -> Option<Steps>
    ensures { result ≡ steps_in (rows_of (found_of matches.now)) }
{
    steps_of(option_value(matches, "steps")?)
}
