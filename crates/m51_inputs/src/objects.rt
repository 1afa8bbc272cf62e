//! Objects and libraries of a program.
ghost use Rattle.std.specs.Prelude.{◌≡◌, ◌≤◌, List, Result, length, All};
ghost use Rattle.m51_cells.specs.declared.limits.TheConstants.{MOST_FILE_BYTES};
ghost use Rattle.m51_cells.specs.Outcome.{Gives};
ghost use Rattle.m51_library.specs.Reading.{library_of, module_in};
ghost use Rattle.m51_inputs.specs.Inputs.{input_refusal};
ghost use Rattle.m51_inputs.specs.declared.error.InputError.{InputError as Error};
ghost use Rattle.m51_inputs.specs.Objects.{Linked, or_object, or_library, linked_by, linked};
ghost use Rattle.m51_inputs.specs.Objects.{with_source, with_object, with_archive};
ghost use Rattle.m51_inputs.specs.Steps.{Steps, linked_kinds};
ghost use Rattle.m51_module.specs.declared.parts.ModuleParts.{ModuleParts};

use crate::error::InputError;
use m51_cells::{Bytes, ListOf};
use m51_jobs::Ending;
use m51_library::{read_library, read_object};
use m51_module::{LibError, Library, Module, ObjError};
use std::alloc::Global;
use std::collections::VecDeque;

// The module of the object of this argument.
fn object_at(alloc: Global, file: usize, bytes: &Bytes) -> Result<Module, InputError>
    requires { length bytes.now ≤ MOST_FILE_BYTES }
    ensures { Gives (λ m. m) input_refusal result (or_object file (module_in bytes.now)) }
{
    match read_object(alloc, bytes.as_slice()) {
        Ok(module) => Ok(module),
        Err(ObjError::Memory) => Err(InputError::Memory),
        Err(error) => Err(InputError::Object { file, error }),
    }
}

// The library of this argument.
fn library_at(alloc: Global, file: usize, bytes: &Bytes) -> Result<Library, InputError>
    requires { length bytes.now ≤ MOST_FILE_BYTES }
    ensures { Gives (λ l. l) input_refusal result (or_library file (library_of bytes.now)) }
{
    match read_library(alloc, bytes.as_slice()) {
        Ok(library) => Ok(library),
        Err(LibError::Memory) => Err(InputError::Memory),
        Err(error) => Err(InputError::Library { file, error }),
    }
}

// The given modules and the libraries, in the order of the arguments.
#[derive(Drop)]
pub(crate) struct LinkInputs {
    pub(crate) modules: ListOf<Module>,
    pub(crate) libraries: ListOf<Library>,
}

// Adds the first of the sources' modules.
fn add_source(sources: &mut VecDeque<Module>, linked: &mut LinkInputs) -> Result<(), InputError>
    ensures { (after : List ModuleParts → Result Linked Error) →
        Steps linked.old linked.new result (after sources.new.items) (with_source sources.old.items after) }
{
    let Some(module) = sources.pop_front() else {
        return Ok(());
    };
    linked.modules.push(module)?;
    Ok(())
}

// Adds the module of the object of this argument.
fn add_object(
    alloc: Global,
    word: usize,
    bytes: &Bytes,
    linked: &mut LinkInputs,
) -> Result<(), InputError>
    requires { length bytes.now ≤ MOST_FILE_BYTES }
    ensures { (after : Result Linked Error) →
        Steps linked.old linked.new result after (with_object word bytes.now after) }
{
    let parts = object_at(alloc, word, bytes)?;
    linked.modules.push(parts)?;
    Ok(())
}

// Adds the library of this argument.
fn add_library(
    alloc: Global,
    word: usize,
    bytes: &Bytes,
    linked: &mut LinkInputs,
) -> Result<(), InputError>
    requires { length bytes.now ≤ MOST_FILE_BYTES }
    ensures { (after : Result Linked Error) →
        Steps linked.old linked.new result after (with_archive word bytes.now after) }
{
    let library = library_at(alloc, word, bytes)?;
    linked.libraries.push(library)?;
    Ok(())
}

// Adds what the file of this argument gives.
fn add_word(
    alloc: Global,
    word: usize,
    ending: Option<Ending>,
    bytes: &Bytes,
    sources: &mut VecDeque<Module>,
    linked: &mut LinkInputs,
) -> Result<(), InputError>
    requires { length bytes.now ≤ MOST_FILE_BYTES }
    ensures { (after : List ModuleParts → Result Linked Error) →
        Steps linked.old linked.new result (after sources.new.items)
        (linked_by ending word bytes.now sources.old.items after) }
{
    match ending {
        Some(Ending::Source) => add_source(sources, linked),
        Some(Ending::Object) => add_object(alloc, word, bytes, linked),
        Some(Ending::Library) => add_library(alloc, word, bytes, linked),
        _ => Ok(()),
    }
}

// The given modules and the libraries of files with these endings, where the sources give these modules.
pub(crate) fn linked_files(
    alloc: Global,
    endings: &[Option<Ending>],
    contents: &[Bytes],
    mut sources: VecDeque<Module>,
) -> Result<LinkInputs, InputError>
    requires count { length contents.now ≡ length endings.now }
    requires within { All (λ bytes. length bytes ≤ MOST_FILE_BYTES) contents.now }
    ensures { Gives linked input_refusal result (linked_kinds 0 endings.now contents.now sources.items) }
{
    let mut linked = LinkInputs {
        modules: ListOf::new(alloc),
        libraries: ListOf::new(alloc),
    };
    for (word, bytes) in contents.iter().enumerate() {
        add_word(alloc, word, endings[word], bytes, &mut sources, &mut linked)?;
    }
    Ok(linked)
}
