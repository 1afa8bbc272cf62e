//! The edits of a library.
ghost use Rattle.std.specs.Prelude.{◌≡◌, ◌≤◌, IfOk, Some, length, map};
ghost use Rattle.std.specs.List.{All};
ghost use Rattle.m51_cells.specs.declared.limits.TheConstants.{MOST_FILE_BYTES};
ghost use Rattle.m51_cells.specs.Outcome.{Gives};
ghost use Rattle.m51_module.specs.Library.{refusal_of};
ghost use Rattle.m51_chain.specs.Edits.{HasFiles, edited, edited_each, edits_of, name_edit, object_edit, object_edits};
ghost use Rattle.m51_chain.specs.Edits.{object_in};
ghost use Rattle.m51_chain.specs.Outcome.{stopped};

use crate::object_refusing::refuse_object;
use crate::work::Stop;
use m51_args::{FileName, Operation};
use m51_cells::{Bytes, ListOf, Name, NoMemory};
use m51_library::read_object;
use m51_module::{LibError, Library, Module};
use std::alloc::Global;
use std::collections::VecDeque;

// An edit of a library.
#[derive(Drop)]
pub(crate) enum LibraryEdit {
    // The module is added.
    Add(Module),
    // The module is put in the place of the one of its name.
    Replace(Module),
    // The module of this name is deleted.
    Delete(Name),
    // The module of this name is raised to version 2.
    Raise(Name),
}

// Edits, which contracts see as a list.
pub(crate) type Edits = ListOf<LibraryEdit>;

// What the operation does with one of its objects.
fn object_edit(operation: &Operation, object: Module) -> LibraryEdit
    ensures { result ≡ object_edit operation.now object }
{
    match operation {
        Operation::Replace(_) => LibraryEdit::Replace(object),
        _ => LibraryEdit::Add(object),
    }
}

// What the operation does with the module of one of its names.
fn name_edit(operation: &Operation, name: Name) -> LibraryEdit
    ensures { result ≡ name_edit operation.now name }
{
    match operation {
        Operation::Raise(_) => LibraryEdit::Raise(name),
        _ => LibraryEdit::Delete(name),
    }
}

// The object of this name.
fn object_in(alloc: Global, name: &FileName, bytes: &Bytes) -> Result<Module, Stop>
    requires { length bytes.now ≤ MOST_FILE_BYTES }
    ensures { Gives (λ m. m) stopped result (object_in name.now bytes.now) }
{
    match read_object(alloc, bytes.as_slice()) {
        Ok(object) => Ok(object),
        Err(error) => Err(refuse_object(alloc, name.as_str(), &error)?),
    }
}

// What the operation does with the objects of these names, in order.
fn object_edits(
    alloc: Global,
    operation: &Operation,
    names: &[FileName],
    files: &[Bytes],
) -> Result<Edits, Stop>
    requires count { length files.now ≡ length names.now }
    requires within { All (λ bytes. length bytes ≤ MOST_FILE_BYTES) files.now }
    ensures { Gives (λ edits. edits) stopped result (object_edits operation.now names.now files.now) }
{
    let mut edits = Edits::new(alloc);
    for (at, name) in names.iter().enumerate() {
        let object = object_in(alloc, name, &files[at])?;
        edits.push(object_edit(operation, object))?;
    }
    Ok(edits)
}

// What the operation does with the modules of these names, in order.
fn name_edits(alloc: Global, operation: &Operation, names: &[Name]) -> Result<Edits, NoMemory>
    ensures { IfOk result (λ edits. edits ≡ map (name_edit operation.now) names.now) }
{
    let mut edits = Edits::new(alloc);
    for name in names {
        edits.push(name_edit(operation, *name))?;
    }
    Ok(edits)
}

// The edits of an operation, in order. All its objects are read here, before the first edit is made.
#[tactic(auto, unfolding(crate::specs::Edits::edits_of))]
pub(crate) fn edits_of(alloc: Global, operation: &Operation, files: &[Bytes]) -> Result<Edits, Stop>
    requires count { HasFiles operation.now files.now }
    requires within { All (λ bytes. length bytes ≤ MOST_FILE_BYTES) files.now }
    ensures { Gives (λ edits. edits) stopped result (edits_of operation.now files.now) }
{
    match operation {
        Operation::Build(names) => object_edits(alloc, operation, names.as_slice(), files),
        Operation::Add(names) => object_edits(alloc, operation, names.as_slice(), files),
        Operation::Replace(names) => object_edits(alloc, operation, names.as_slice(), files),
        Operation::Delete(names) => Ok(name_edits(alloc, operation, names.as_slice())?),
        Operation::Raise(names) => Ok(name_edits(alloc, operation, names.as_slice())?),
        Operation::Extract { .. } => Ok(Edits::new(alloc)),
        Operation::List => Ok(Edits::new(alloc)),
    }
}

// Deletes the module of this name.
fn delete(library: &mut Library, name: &Name) -> Result<(), LibError>
    ensures { Gives (λ _. library.new) Some result (edited library.old (LibraryEdit.Delete name.now)) }
{
    library.delete(name)?;
    Ok(())
}

// Makes an edit.
#[tactic(auto, using(crate::proofs::Edits::with_memory))]
fn make_edit(library: &mut Library, edit: LibraryEdit) -> Result<(), LibError>
    ensures { Gives (λ _. library.new) refusal_of result (edited library.old edit) }
{
    match edit {
        LibraryEdit::Add(object) => library.add(object),
        LibraryEdit::Replace(object) => library.replace(object),
        LibraryEdit::Delete(name) => delete(library, &name),
        LibraryEdit::Raise(name) => library.raise(&name),
    }
}

// Makes these edits, in order, up to the first that is refused.
#[tactic(auto, using(crate::proofs::Edits::next_refused))]
pub(crate) fn make_edits(library: &mut Library, edits: Edits) -> Result<(), LibError>
    ensures { Gives (λ _. library.new) refusal_of result (edited_each library.old edits) }
{
    let mut left = VecDeque::from(edits.into_vec());
    while let Some(edit) = left.pop_front() {
        match make_edit(library, edit) {
            Ok(()) => {}
            Err(error) => return Err(error),
        }
    }
    Ok(())
}
