//! Reads the files of a program.
ghost use Rattle.std.specs.Prelude.{◌≡◌, ◌≤◌, length, All};
ghost use Rattle.std.specs.Option.{option_copied};
ghost use Rattle.m51_cells.specs.declared.limits.TheConstants.{MOST_FILE_BYTES};
ghost use Rattle.m51_cells.specs.Outcome.{Gives};
ghost use Rattle.m51_inputs.specs.Answered.{answers_of, words_of};
ghost use Rattle.m51_inputs.specs.Inputs.{IsInputsResult, inputs_tree, input_refusal, controls_in, script_in};
ghost use Rattle.m51_inputs.specs.Steps.{inputs_by};

use crate::error::InputError;
use crate::inputs::Inputs;
use crate::objects::linked_files;
use crate::sorting::{Sorted, sort};
use crate::sources::{Answered, assemble_sources, modules_of};
use m51_cells::{Bytes, ListOf};
use m51_control::{ControlError, Controls, read_controls};
use m51_jobs::FileName;
use m51_script::{Script, ScriptError, read_script};
use std::alloc::Global;

// The control lines of a file, if there is one.
fn controls_in(alloc: Global, file: Option<&Bytes>) -> Result<Controls, InputError>
    ensures { Gives (λ controls. controls) input_refusal result (controls_in (option_copied file.entry)) }
{
    let Some(bytes) = file else {
        return Ok(Controls::none(alloc));
    };
    match read_controls(alloc, bytes.as_slice()) {
        Ok(controls) => Ok(controls),
        Err(ControlError::Memory) => Err(InputError::Memory),
        Err(error) => Err(InputError::Control(error)),
    }
}

// The script of a file, or the one without lines.
fn script_in(alloc: Global, file: Option<&Bytes>) -> Result<Script, InputError>
    ensures { Gives (λ script. script) input_refusal result (script_in (option_copied file.entry)) }
{
    let Some(bytes) = file else {
        return Ok(Script::plain(alloc)?);
    };
    match read_script(alloc, bytes.as_slice()) {
        Ok(script) => Ok(script),
        Err(ScriptError::Memory) => Err(InputError::Memory),
        Err(error) => Err(InputError::Script(error)),
    }
}

// What is linked and run, where the files have these endings and the sources give this.
#[tactic(auto, unfolding(crate::specs::Steps::inputs_by))]
fn inputs_with(
    alloc: Global,
    sorted: &Sorted,
    contents: &[Bytes],
    control: Option<&Bytes>,
    script: Option<&Bytes>,
    answers: ListOf<Answered>,
) -> Result<Inputs, InputError>
    requires count { length contents.now ≡ length sorted.now.endings }
    requires within { All (λ bytes. length bytes ≤ MOST_FILE_BYTES) contents.now }
    ensures { Gives inputs_tree input_refusal result
        (inputs_by sorted.now.endings contents.now (option_copied control.entry)
        (option_copied script.entry) (words_of answers) (answers_of answers)) }
{
    let sources = modules_of(alloc, answers)?;
    let linked = linked_files(alloc, sorted.endings.as_slice(), contents, sources)?;
    let controls = controls_in(alloc, control)?;
    let script = script_in(alloc, script)?;
    Ok(Inputs {
        modules: linked.modules.into_vec(),
        libraries: linked.libraries.into_vec(),
        controls,
        script,
    })
}

/// Reads the files of a program: those of its file arguments, in the order given, of which each has at most 1,048,576
/// bytes; the control file and the script, if there are any. There are at most 65,535 file arguments, and as many
/// contents. A file argument without one of the four endings gives nothing.
///
/// Every source is assembled with all includes, each under its argument. Sources and objects are the given modules, in
/// the order of the arguments.
///
/// Errors, the first of these:
///
/// - `Sources` with the faults of all sources that have some;
/// - `Object` or `Library` with the first object or library that is refused, in the order given; bytes after its end
///   are O3;
/// - `Control` with the refusal of the control file;
/// - `Script` with the refusal of the script.
///
/// `Memory` is the only other error.
///
/// Source: own choice ("Inputs").
pub fn read_inputs(
    alloc: Global,
    files: &[FileName],
    contents: &[Bytes],
    control: Option<&Bytes>,
    script: Option<&Bytes>,
) -> Result<Inputs, InputError>
    requires count { length contents.now ≡ length files.now }
    requires few { length files.now ≤ 65535 }
    requires within { All (λ bytes. length bytes ≤ MOST_FILE_BYTES) contents.now }
    ensures { IsInputsResult files.now contents.now (option_copied control.entry) (option_copied script.entry) result }
{
    let sorted = sort(alloc, files, contents)?;
    let answers = assemble_sources(alloc, &sorted)?;
    inputs_with(alloc, &sorted, contents, control, script, answers)
}
