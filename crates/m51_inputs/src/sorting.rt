//! The files of a program by kind.
ghost use Rattle.std.specs.Prelude.{◌≡◌, length, IfOk, OnOk};
ghost use Rattle.m51_inputs.specs.Sorting.{IsSorted, with_file};
ghost use Rattle.m51_jobs.specs.Endings.{ending_of};

use m51_cells::{Bytes, ListOf, NoMemory, copy_of};
use m51_jobs::{Ending, FileName, ending_of};
use m51_module::SourceFile;
use std::alloc::Global;

// A source, and the index of its argument, counted from 0.
#[derive(Drop)]
pub(crate) struct SourceArgument {
    pub(crate) word: usize,
    pub(crate) file: SourceFile,
}

// The files of a program by kind, each kind in the order of the arguments.
#[derive(Drop)]
pub(crate) struct Sorted {
    // What each of the files is.
    pub(crate) endings: ListOf<Option<Ending>>,
    pub(crate) sources: ListOf<SourceArgument>,
    pub(crate) includes: ListOf<SourceFile>,
}

// The file of this name, with a copy of its bytes.
fn file_of(alloc: Global, name: &FileName, bytes: &Bytes) -> Result<SourceFile, NoMemory>
    ensures { IfOk result (λ file. file ≡ record { name = name.now; bytes = bytes.now }) }
{
    Ok(SourceFile {
        name: copy_of(alloc, name.as_str().as_bytes())?,
        bytes: copy_of(alloc, bytes.as_slice())?,
    })
}

// Adds the file of this argument to those that were sorted before.
fn put_file(
    alloc: Global,
    word: usize,
    name: &FileName,
    bytes: &Bytes,
    sorted: &mut Sorted,
) -> Result<(), NoMemory>
    ensures { OnOk result (sorted.new ≡ with_file (ending_of name.now) word
        (record { name = name.now; bytes = bytes.now }) sorted.old) }
{
    let ending = ending_of(name.as_str());
    sorted.endings.push(ending)?;
    match ending {
        Some(Ending::Source) => {
            let file = file_of(alloc, name, bytes)?;
            sorted.sources.push(SourceArgument { word, file })?;
        }
        Some(Ending::Include) => sorted.includes.push(file_of(alloc, name, bytes)?)?,
        _ => {}
    }
    Ok(())
}

// The files by kind: each source and each include under its argument as it is given, with a copy of its bytes. There
// are as many contents as arguments.
pub(crate) fn sort(
    alloc: Global,
    files: &[FileName],
    contents: &[Bytes],
) -> Result<Sorted, NoMemory>
    requires { length contents.now ≡ length files.now }
    ensures { IfOk result (IsSorted files.now contents.now) }
{
    let mut sorted = Sorted {
        endings: ListOf::new(alloc),
        sources: ListOf::new(alloc),
        includes: ListOf::new(alloc),
    };
    for (word, name) in files.iter().enumerate() {
        put_file(alloc, word, name, &contents[word], &mut sorted)?;
    }
    Ok(sorted)
}
