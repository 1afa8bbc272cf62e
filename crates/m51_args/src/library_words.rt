//! The arguments of `lib`.
ghost use Rattle.std.specs.Prelude.{◌≡◌, [], ◌∷◌, ◌++◌, codes, map, IfOk};
ghost use Rattle.std.specs.Char.{to_ascii_uppercase};
ghost use Rattle.m51_args.specs.Asks.{AsksFor};
ghost use Rattle.m51_args.specs.Operations.{objects_of, names_of_words, names_of, extract_of, list_of, operation_of};
ghost use Rattle.m51_args.specs.Operations.{library_job};
ghost use Rattle.m51_jobs.specs.Texts.{lent};

use crate::error::WordsError;
use m51_cells::{Name, Names, NoMemory};
use m51_jobs::{FileName, FileNames, LibraryJob, Operation, are_objects};
use std::alloc::Global;

// Copies of names of files.
pub(crate) fn file_names(alloc: Global, words: &[&str]) -> Result<FileNames, NoMemory>
    ensures { IfOk result (λ names. names ≡ lent words.now) }
{
    let mut names = Vec::new(alloc);
    for word in words {
        names.push(FileName::copy_of(alloc, word)?)?;
    }
    Ok(FileNames::of(names))
}

// One or more objects.
fn objects_of(alloc: Global, words: &[&str]) -> Result<FileNames, WordsError>
    ensures { AsksFor (λ names. names) result (objects_of (lent words.now)) }
{
    if !are_objects(words) {
        return Err(WordsError::Usage);
    }
    Ok(file_names(alloc, words)?)
}

// Words, each of which is a name.
fn names_of_words(alloc: Global, words: &[&str]) -> Result<Names, WordsError>
    ensures { AsksFor (λ names. names) result (names_of_words (lent words.now)) }
{
    let mut names = Vec::new(alloc);
    for word in words {
        match Name::of(word.as_bytes()) {
            Some(name) => names.push(name)?,
            None => return Err(WordsError::Usage),
        }
    }
    Ok(Names::of(names))
}

// One or more names.
fn names_of(alloc: Global, words: &[&str]) -> Result<Names, WordsError>
    ensures { AsksFor (λ names. names) result (names_of (lent words.now)) }
{
    match words {
        [] => Err(WordsError::Usage),
        _ => names_of_words(alloc, words),
    }
}

// The text in upper case, and `.obj`.
fn object_name(alloc: Global, word: &str) -> Result<FileName, NoMemory>
    ensures { IfOk result (λ name. name ≡ map to_ascii_uppercase word.now ++ codes ".obj") }
{
    let mut text = word.to_ascii_uppercase(alloc)?;
    text.push_str(".obj")?;
    Ok(FileName::of(text))
}

// A module by its name, and the file that it is kept in.
fn extracted(alloc: Global, word: &str) -> Result<Operation, WordsError>
    ensures { AsksFor (λ operation. operation) result (extract_of (word.now ∷ [])) }
{
    match Name::of(word.as_bytes()) {
        Some(name) => {
            let file = object_name(alloc, word)?;
            Ok(Operation::Extract { name, file })
        }
        None => Err(WordsError::Usage),
    }
}

// Exactly one name.
fn extract_of(alloc: Global, words: &[&str]) -> Result<Operation, WordsError>
    ensures { AsksFor (λ operation. operation) result (extract_of (lent words.now)) }
{
    match words {
        [word] => extracted(alloc, word),
        _ => Err(WordsError::Usage),
    }
}

// No more words.
fn list_of(words: &[&str]) -> Result<Operation, WordsError>
    ensures { AsksFor (λ operation. operation) result (list_of (lent words.now)) }
{
    match words {
        [] => Ok(Operation::List),
        _ => Err(WordsError::Usage),
    }
}

// The operation of this word, with the words after the library.
#[tactic(auto, unfolding(crate::specs::Operations::operation_of))]
fn operation_of(alloc: Global, word: &str, words: &[&str]) -> Result<Operation, WordsError>
    ensures { AsksFor (λ operation. operation) result (operation_of word.now (lent words.now)) }
{
    if word == "build" {
        Ok(Operation::Build(objects_of(alloc, words)?))
    } else if word == "add" {
        Ok(Operation::Add(objects_of(alloc, words)?))
    } else if word == "replace" {
        Ok(Operation::Replace(objects_of(alloc, words)?))
    } else if word == "delete" {
        Ok(Operation::Delete(names_of(alloc, words)?))
    } else if word == "raise" {
        Ok(Operation::Raise(names_of(alloc, words)?))
    } else if word == "extract" {
        extract_of(alloc, words)
    } else if word == "list" {
        list_of(words)
    } else {
        Err(WordsError::Usage)
    }
}

// What these arguments of `lib` ask for: the operation, the library, and the rest.
#[tactic(auto, unfolding(crate::specs::Operations::library_job))]
pub(crate) fn library_job(alloc: Global, words: &[&str]) -> Result<LibraryJob, WordsError>
    ensures { AsksFor (λ job. job) result (library_job (lent words.now)) }
{
    match words {
        [word, library, rest @ ..] => {
            let operation = operation_of(alloc, word, rest)?;
            let library = FileName::copy_of(alloc, library)?;
            Ok(LibraryJob { library, operation })
        }
        _ => Err(WordsError::Usage),
    }
}
