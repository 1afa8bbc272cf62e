//! The verbs as simple commands.
ghost use Rattle.std.specs.Prelude.{◌≡◌, IfOk, true, false};
ghost use Rattle.clap.specs.Words.{app_of, found_of, is_simple, is_simple_and_free, new_app, rows_of, rule_of};
ghost use Rattle.clap.specs.Words.{with_rule};
ghost use Rattle.m51_args.specs.Asks.{AsksFor, refused_by};
ghost use Rattle.m51_args.specs.Commands.{option_rule, words_rule, with_options, bare_app, verb_app, rows_in};
ghost use Rattle.m51_jobs.specs.Texts.{lent, texts};

use crate::error::WordsError;
use clap::error::ErrorKind;
use clap::{Arg, ArgAction, ArgMatches, Command};
use std::alloc::{AllocError, Global};

// An option `--name` of one value.
fn option<'a>(alloc: Global, name: &'a str) -> Arg<'a>
    ensures rule { rule_of result ≡ option_rule name.entry.now }
    ensures own { result.global ≡ false }
{
    Arg::new(alloc, name).long(name).action(ArgAction::Set)
}

// The positional that takes all other words.
fn other_words<'a>(alloc: Global) -> Arg<'a>
    ensures rule { rule_of result ≡ words_rule }
    ensures own { result.global ≡ false }
{
    Arg::new(alloc, "word").action(ArgAction::Append)
}

// A verb with these options, which takes no other words.
pub(crate) fn bare_verb<'a>(
    alloc: Global,
    verb: &'a str,
    options: &[&'a str],
) -> Result<Command<'a>, AllocError>
    ensures { IfOk result (λ command. app_of command ≡ bare_app verb.entry.now (lent options.now)) }
{
    let mut command = Command::new(alloc, verb);
    for name in options {
        command = command.arg(option(alloc, name))?;
    }
    Ok(command)
}

// A verb with these options, which takes other words too.
pub(crate) fn verb<'a>(
    alloc: Global,
    name: &'a str,
    options: &[&'a str],
) -> Result<Command<'a>, AllocError>
    ensures { IfOk result (λ command. app_of command ≡ verb_app name.entry.now (lent options.now)) }
{
    bare_verb(alloc, name, options)?.arg(other_words(alloc))
}

// What the command makes of the words, the first of which is the verb.
#[tactic(auto, unfolding(crate::specs::Commands::rows_in))]
pub(crate) fn matches_in<'a>(
    command: Command<'a>,
    words: &'a [String],
) -> Result<ArgMatches<'a>, WordsError>
    requires simple { is_simple (app_of command) ≡ true }
    requires free { is_simple_and_free (app_of command) ≡ true }
    ensures { AsksFor (λ matches. rows_of (found_of matches)) result
        (rows_in (app_of command.entry) (texts words.entry.now)) }
{
    match command.try_get_matches_from(words) {
        Ok(matches) => Ok(matches),
        Err(error) => Err(refused(error.kind())),
    }
}

// What an error of that kind refuses.
fn refused(kind: ErrorKind) -> WordsError
    ensures { result ≡ refused_by kind }
{
    match kind {
        ErrorKind::OutOfMemory => WordsError::Memory,
        _ => WordsError::Usage,
    }
}
