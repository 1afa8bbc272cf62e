//! The verb `lib`.
ghost use Rattle.std.specs.Prelude.{◌≡◌, ◌≤◌, ◌++◌, IfOk, OnOk, List, Result, Ok, codes, flat_map, length};
ghost use Rattle.std.specs.List.{All};
ghost use Rattle.m51_cells.specs.declared.limits.TheConstants.{MOST_FILE_BYTES};
ghost use Rattle.m51_cells.specs.Outcome.{Gives};
ghost use Rattle.m51_module.specs.declared.library_error.LibError.{LibError as Error};
ghost use Rattle.m51_module.specs.declared.parts.ModuleParts.{ModuleParts};
ghost use Rattle.m51_module.specs.Library.{extracted, refusal_of};
ghost use Rattle.m51_jobs.specs.declared.job.Job.TheVariants.{Library as Lib};
ghost use Rattle.m51_jobs.specs.Files.{operation_reads};
ghost use Rattle.m51_chain.specs.Contents.{AreContentsOf};
ghost use Rattle.m51_chain.specs.Edits.{HasFiles};
ghost use Rattle.m51_chain.specs.Libraries.{IsNoBuild, edited_library, keeping, kept_library, kept_module, library_in};
ghost use Rattle.m51_chain.specs.Libraries.{library_outcome_of, library_work, name_line, operated, with_library};
ghost use Rattle.m51_chain.specs.Libraries.{writing};
ghost use Rattle.m51_chain.specs.Outcome.{Comes, outcome_of, stopped};

use crate::editing::{edits_of, make_edits};
use crate::object_refusing::{refuse_edit, refuse_library};
use crate::work::{Finish, Finished, Stop, text_alone};
use m51_args::{FileName, LibraryJob, Operation};
use m51_cells::{Bytes, Name, NoMemory};
use m51_library::{read_library, write_library};
use m51_module::{LibError, Library, Module};
use m51_records::write_module;
use std::alloc::Global;

// The library of this name.
fn library_in(alloc: Global, name: &FileName, bytes: &Bytes) -> Result<Library, Stop>
    requires { length bytes.now ≤ MOST_FILE_BYTES }
    ensures { Gives (λ l. l) stopped result (library_in name.now bytes.now) }
{
    match read_library(alloc, bytes.as_slice()) {
        Ok(library) => Ok(library),
        Err(error) => Err(refuse_library(alloc, name.as_str(), &error)?),
    }
}

// Nothing is written, and these bytes are kept.
#[tactic(auto, unfolding(crate::specs::Outcome::status_at, crate::specs::Outcome::text_at))]
fn keep(alloc: Global, bytes: Vec<u8>) -> Finished
    ensures { keeping bytes.items ≡ Ok (outcome_of result) }
{
    Finished {
        keeps: Some(Bytes::of(bytes)),
        text: Bytes::new(alloc),
        ending: Finish::Ran,
    }
}

// The library is kept after its edits, where all were accepted.
fn keep_edited(
    alloc: Global,
    library: &Library,
    edited: Result<(), LibError>,
) -> Result<Finished, Stop>
    ensures { (answer : Result (List ModuleParts) Error) → Gives (λ _. library.now) refusal_of edited answer
        → Gives outcome_of stopped result (kept_library answer) }
{
    match edited {
        Ok(()) => Ok(keep(alloc, write_library(alloc, library)?)),
        Err(error) => Err(refuse_edit(alloc, &error)?),
    }
}

// The edits of the operation are made, and the library is kept.
fn edit_library(
    alloc: Global,
    mut library: Library,
    operation: &Operation,
    files: &[Bytes],
) -> Result<Finished, Stop>
    requires count { HasFiles operation.now files.now }
    requires within { All (λ bytes. length bytes ≤ MOST_FILE_BYTES) files.now }
    ensures { Gives outcome_of stopped result (edited_library operation.now files.now library) }
{
    let edits = edits_of(alloc, operation, files)?;
    let edited = make_edits(&mut library, edits);
    keep_edited(alloc, &library, edited)
}

// The module of that name is kept.
fn extract(alloc: Global, library: &Library, name: &Name) -> Result<Finished, Stop>
    ensures { Gives outcome_of stopped result (kept_module (extracted library.now name.now)) }
{
    match library.extract(alloc, name) {
        Ok(module) => Ok(keep(alloc, write_module(alloc, &module)?)),
        Err(error) => Err(refuse_edit(alloc, &error)?),
    }
}

// Appends the line of a name.
fn put_line(text: &mut Vec<u8>, name: &Name) -> Result<(), NoMemory>
    ensures { OnOk result (text.new.items ≡ text.old.items ++ (name.now ++ codes "\n")) }
{
    text.extend_from_slice(name.bytes())?;
    text.push(b'\n')?;
    Ok(())
}

// A line for each module: its name.
fn lines_of(alloc: Global, modules: &[Module]) -> Result<Vec<u8>, NoMemory>
    ensures { IfOk result (λ text. text.items ≡ flat_map name_line modules.now) }
{
    let mut text = Vec::new(alloc);
    for module in modules {
        put_line(&mut text, &module.name())?;
    }
    Ok(text)
}

// The names of the modules are written.
fn list(alloc: Global, library: &Library) -> Result<Finished, Stop>
    ensures { Gives outcome_of stopped result (writing (flat_map name_line library.now)) }
{
    let text = lines_of(alloc, library.list())?;
    Ok(text_alone(text))
}

// Does what is asked with a library that was read.
#[tactic(auto, unfolding(crate::specs::Libraries::operated))]
fn operated(
    alloc: Global,
    library: Library,
    operation: &Operation,
    files: &[Bytes],
) -> Result<Finished, Stop>
    requires count { HasFiles operation.now files.now }
    requires within { All (λ bytes. length bytes ≤ MOST_FILE_BYTES) files.now }
    ensures { Gives outcome_of stopped result (operated operation.now files.now library) }
{
    match operation {
        Operation::Extract { name, .. } => extract(alloc, &library, name),
        Operation::List => list(alloc, &library),
        _ => edit_library(alloc, library, operation, files),
    }
}

// Reads the library, and does what is asked with it.
fn with_library(
    alloc: Global,
    name: &FileName,
    operation: &Operation,
    files: &[Bytes],
) -> Result<Finished, Stop>
    requires count { length files.now ≡ length (operation_reads name.now operation.now) }
    requires other { IsNoBuild operation.now }
    requires within { All (λ bytes. length bytes ≤ MOST_FILE_BYTES) files.now }
    ensures { Gives outcome_of stopped result (with_library name.now operation.now files.now) }
{
    let [file, rest @ ..] = files else {
        unreachable!()
    };
    let library = library_in(alloc, name, file)?;
    operated(alloc, library, operation, rest)
}

// Does what is asked with the contents of the files.
#[tactic(auto, unfolding(crate::specs::Libraries::library_work))]
fn library_work(
    alloc: Global,
    name: &FileName,
    operation: &Operation,
    files: &[Bytes],
) -> Result<Finished, Stop>
    requires count { length files.now ≡ length (operation_reads name.now operation.now) }
    requires within { All (λ bytes. length bytes ≤ MOST_FILE_BYTES) files.now }
    ensures { Gives outcome_of stopped result (library_work name.now operation.now files.now) }
{
    match operation {
        Operation::Build(_) => edit_library(alloc, Library::empty(alloc), operation, files),
        _ => with_library(alloc, name, operation, files),
    }
}

// Does what is asked with a library, with the contents of its files.
pub(crate) fn operate(alloc: Global, job: &LibraryJob, contents: &[Bytes]) -> Result<Finished, Stop>
    requires { AreContentsOf (Lib job.now) contents.now }
    ensures { Comes (λ outcome. outcome ≡ library_outcome_of job.now contents.now) result }
{
    library_work(alloc, &job.library, &job.operation, contents)
}
