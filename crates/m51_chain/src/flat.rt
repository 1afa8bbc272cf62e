//! The verb `flat`.
ghost use Rattle.std.specs.Prelude.{◌≡◌, ◌≤◌, IfOk, length, option_map};
ghost use Rattle.std.specs.Option.{option_copied};
ghost use Rattle.m51_cells.specs.Outcome.{Gives};
ghost use Rattle.m51_cells.specs.declared.limits.TheConstants.{MOST_FILE_BYTES};
ghost use Rattle.m51_hex.specs.Reading.{image_refusal as hex_refusal};
ghost use Rattle.m51_script.specs.Reading.{script_refusal};
ghost use Rattle.m51_jobs.specs.declared.job.Job.TheVariants.{Flat};
ghost use Rattle.m51_chain.specs.Contents.{AreContentsOf};
ghost use Rattle.m51_chain.specs.Outcome.{Comes, outcome_of, stopped};
ghost use Rattle.m51_chain.specs.FlatRuns.{IsFlatOutcome, IsFlatWork, IsScripted, flat_report, script_in};
ghost use Rattle.m51_chain.specs.Refusals.{hex_outcome, hex_words};
ghost use Rattle.m51_chain.specs.ScriptRefusals.{script_outcome};

use crate::object_refusing::{numbered, refuse_file};
use crate::optional::content_if;
use crate::refusing::bytes_of;
use crate::script_refusing::refuse_script;
use crate::work::{Finish, Finished, Stop};
use m51_args::FlatJob;
use m51_cells::{Bytes, NoMemory, cite};
use m51_hex::{HexError, read_hex};
use m51_module::Image;
use m51_script::{Script, ScriptError, read_script};
use m51_sim::FlatBoard;
use std::alloc::Global;

// What is wrong with a HEX file, and in which line.
fn hex_words(alloc: Global, error: &HexError) -> Result<Bytes, NoMemory>
    ensures { IfOk result (λ words. words ≡ hex_words error.now) }
{
    match error {
        HexError::H1 { line } => numbered(alloc, "H1 LINE ", *line),
        HexError::H2 { line } => numbered(alloc, "H2 LINE ", *line),
        HexError::H3 { line } => numbered(alloc, "H3 LINE ", *line),
        HexError::H4 { line } => numbered(alloc, "H4 LINE ", *line),
        HexError::H5 => bytes_of(alloc, b"H5"),
        HexError::Memory => Ok(Bytes::new(alloc)),
    }
}

// The HEX file of this name is refused.
fn refuse_hex(alloc: Global, file: &str, error: &HexError) -> Result<Stop, NoMemory>
    ensures { IfOk result (λ stop. stopped stop ≡ option_map (hex_outcome file.now) (hex_refusal error.now)) }
{
    match error {
        HexError::Memory => Ok(Stop::Memory),
        _ => {
            let words = hex_words(alloc, error)?;
            refuse_file(alloc, file, words.as_slice())
        }
    }
}

// The run of an image with a script.
fn run(alloc: Global, job: &FlatJob, image: Image, script: Script) -> Result<Finished, NoMemory>
    ensures { IfOk result (λ done. outcome_of done ≡ flat_report image script job.now.steps) }
{
    let text = bytes_of(alloc, b"RUN\n")?;
    let board = FlatBoard::make(alloc, image, script)?;
    Ok(Finished {
        keeps: None,
        text,
        ending: Finish::FlatRun {
            board,
            steps: job.steps,
        },
    })
}

// The script of a file, or the one without lines.
pub(crate) fn script_in(alloc: Global, file: Option<&Bytes>) -> Result<Script, ScriptError>
    ensures { Gives (λ script. script) script_refusal result (script_in (option_copied file.entry)) }
{
    match file {
        Some(bytes) => read_script(alloc, bytes.as_slice()),
        None => Ok(Script::plain(alloc)?),
    }
}

// The script is refused; out of memory is no refusal.
fn refuse_read_script(alloc: Global, error: &ScriptError) -> Result<Stop, NoMemory>
    ensures { IfOk result (λ stop. stopped stop ≡ option_map script_outcome (script_refusal error.now)) }
{
    match error {
        ScriptError::Memory => Ok(Stop::Memory),
        _ => refuse_script(alloc, error),
    }
}

// Reads the script, and runs the image with it.
fn run_image(
    alloc: Global,
    job: &FlatJob,
    image: Image,
    script: Option<&Bytes>,
) -> Result<Finished, Stop>
    ensures { Comes (IsScripted job.now image (option_copied script.entry)) result }
{
    match script_in(alloc, script) {
        Ok(script) => Ok(run(alloc, job, image, script)?),
        Err(error) => Err(refuse_read_script(alloc, &error)?),
    }
}

// Reads a HEX file and a script, and runs its image.
fn run_file(
    alloc: Global,
    job: &FlatJob,
    file: &Bytes,
    script: Option<&Bytes>,
) -> Result<Finished, Stop>
    requires { length file.now ≤ MOST_FILE_BYTES }
    ensures { Comes (IsFlatWork job.now file.now (option_copied script.entry)) result }
{
    match read_hex(alloc, file.as_slice()) {
        Ok(image) => {
            // For the proof only: reading the bytes exposes the image's invariant.
            cite(image.bytes());
            run_image(alloc, job, image, script)
        }
        Err(error) => Err(refuse_hex(alloc, job.file.as_str(), &error)?),
    }
}

// Runs a HEX file on one memory, with the contents of its files.
pub(crate) fn run_flat(alloc: Global, job: &FlatJob, contents: &[Bytes]) -> Result<Finished, Stop>
    requires { AreContentsOf (Flat job.now) contents.now }
    ensures { Comes (IsFlatOutcome job.now contents.now) result }
{
    let [file, others @ ..] = contents else {
        unreachable!()
    };
    run_file(alloc, job, file, content_if(&job.script, others))
}
