//! Refusals of the files of a program, with their texts.
ghost use Rattle.std.specs.Prelude.{◌≡◌, ◌≢◌, ◌++◌, IfOk, Some};
ghost use Rattle.m51_chain.specs.InputRefusals.{faults_text, faulty_lines, input_outcome};
ghost use Rattle.m51_chain.specs.Outcome.{stopped};

use crate::faulting::{push_faults, word_at};
use crate::object_refusing::{library_refused, object_refused};
use crate::script_refusing::{refuse_control, refuse_script};
use crate::work::{Reason, Stop};
use m51_args::FileName;
use m51_cells::{Bytes, NoMemory};
use m51_inputs::{InputError, SourceFaults};
use std::alloc::Global;

// The lines of the faults of the sources of these file arguments.
fn faults_text(alloc: Global, files: &[FileName], all: &[SourceFaults]) -> Result<Vec<u8>, NoMemory>
    ensures { IfOk result (λ text. text.items ≡ faults_text files.now all.now) }
{
    let mut text = Vec::new(alloc);
    for faulty in all {
        let source = word_at(files, faulty.file).as_bytes();
        push_faults(alloc, &mut text, source, files, faulty.faults.as_slice())?;
    }
    Ok(text)
}

// Sources have faults.
fn refuse_sources(
    alloc: Global,
    files: &[FileName],
    faulty: &[SourceFaults],
) -> Result<Stop, NoMemory>
    ensures { IfOk result (λ stop. stopped stop ≡ Some (input_outcome files.now (InputError.Sources faulty.now))) }
{
    let text = faults_text(alloc, files, faulty)?;
    Ok(Stop::Refused {
        why: Reason::Source,
        text: Bytes::of(text),
    })
}

// The files of a program are refused. Clause `error` repeats the condition for the caller's proof.
pub(crate) fn refuse_inputs(
    alloc: Global,
    files: &[FileName],
    error: &InputError,
) -> Result<Stop, NoMemory>
    requires { error.now ≢ InputError.Memory }
    ensures error { error.now ≢ InputError.Memory }
    ensures stop { IfOk result (λ stop. stopped stop ≡ Some (input_outcome files.now error.now)) }
{
    match error {
        InputError::Sources(faulty) => refuse_sources(alloc, files, faulty.as_slice()),
        InputError::Object { file, error } => object_refused(alloc, word_at(files, *file), error),
        InputError::Library { file, error } => library_refused(alloc, word_at(files, *file), error),
        InputError::Control(error) => refuse_control(alloc, error),
        InputError::Script(error) => refuse_script(alloc, error),
        InputError::Memory => unreachable!(),
    }
}
