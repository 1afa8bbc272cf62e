//! From the files of a program to the program as it is linked.
ghost use Rattle.std.specs.Prelude.{◌≡◌, ◌≤◌, IfOk, length, option_to_list};
ghost use Rattle.m51_linker.specs.Link.{IsReady, program_of};
ghost use Rattle.m51_sim.specs.Boards.{IsStarted};
ghost use Rattle.m51_chain.specs.Linking.{AreLinkedOr, IsLinkedOr, sole_program};
ghost use Rattle.m51_chain.specs.ProgramFiles.{AreAnsweredOr, HasParts, program_files};

use crate::input_refusing::refuse_inputs;
use crate::link_refusing::refuse_link;
use crate::optional::content_if;
use crate::work::Stop;
use m51_args::FileName;
use m51_cells::{Bytes, ListOf, NoMemory};
use m51_control::Controls;
use m51_inputs::{InputError, Inputs, read_inputs};
use m51_linker::{Linked, link};
use m51_module::{Library, Module};
use m51_script::Script;
use m51_sim::Board;
use std::alloc::Global;

// A linked program, and the script of its files.
#[derive(Drop)]
pub(crate) struct LinkedFiles {
    pub linked: Linked,
    pub script: Script,
}

// How many files an option names.
fn count_of(name: &Option<FileName>) -> usize
    ensures value { result ≡ length (option_to_list name.now) }
    ensures few { result ≤ 1 }
{
    match name {
        Some(_) => 1,
        None => 0,
    }
}

// What the files give.
pub(crate) fn inputs_in(
    alloc: Global,
    files: &[FileName],
    control: &Option<FileName>,
    script: &Option<FileName>,
    contents: &[Bytes],
) -> Result<Inputs, Stop>
    requires { HasParts (program_files files.now control.now script.now) contents.now }
    ensures { AreAnsweredOr (program_files files.now control.now script.now) contents.now result }
{
    let words = &contents[..files.len()];
    let control_content = content_if(control, &contents[files.len()..]);
    let script_content = content_if(script, &contents[files.len() + count_of(control)..]);
    match read_inputs(alloc, files, words, control_content, script_content) {
        Ok(inputs) => Ok(inputs),
        Err(InputError::Memory) => Err(Stop::Memory),
        Err(error) => Err(refuse_inputs(alloc, files, &error)?),
    }
}

// Links modules and libraries by control lines.
pub(crate) fn link_modules(
    alloc: Global,
    modules: Vec<Module>,
    libraries: &[Library],
    controls: &Controls,
) -> Result<Linked, Stop>
    ensures answer { IsLinkedOr (program_of modules.items libraries.now controls.now) result }
    ensures ready { IfOk result IsReady }
{
    match link(alloc, modules, libraries, controls) {
        Ok(linked) => Ok(linked),
        Err(refusal) => Err(refuse_link(alloc, &refusal)?),
    }
}

// Links a module by itself: there are no libraries and no control lines.
pub(crate) fn link_alone(alloc: Global, parts: Module) -> Result<Linked, Stop>
    ensures answer { IsLinkedOr (sole_program parts) result }
    ensures ready { IfOk result IsReady }
{
    let mut modules = ListOf::new(alloc);
    modules.push(parts)?;
    let controls = Controls::none(alloc);
    link_modules(alloc, modules.into_vec(), &[], &controls)
}

// Links what the files give.
pub(crate) fn link_files(
    alloc: Global,
    files: &[FileName],
    control: &Option<FileName>,
    script: &Option<FileName>,
    contents: &[Bytes],
) -> Result<LinkedFiles, Stop>
    requires { HasParts (program_files files.now control.now script.now) contents.now }
    ensures answer { AreLinkedOr (program_files files.now control.now script.now) contents.now result }
    ensures ready { IfOk result (λ found. IsReady found.linked) }
{
    let Inputs {
        modules,
        libraries,
        controls,
        script,
    } = inputs_in(alloc, files, control, script, contents)?;
    let linked = link_modules(alloc, modules, &libraries, &controls)?;
    Ok(LinkedFiles { linked, script })
}

// The board of a linked program with this script, after a reset.
pub(crate) fn board_of(alloc: Global, linked: Linked, script: Script) -> Result<Board, NoMemory>
    requires { IsReady linked }
    ensures { IfOk result (IsStarted linked.layout linked.image script) }
{
    Board::make(alloc, linked.layout, linked.image, script)
}
