//! Reading the files of a job, one after another.
ghost use Rattle.std.specs.Prelude.{◌≡◌, ◌⊎◌, [], OnOk};
ghost use Rattle.m51_shelf.specs.States.{OnlyReads};
ghost use Rattle.m51_chain.specs.Reading.{AreGiven, AreReadOr, ReadsSome};

use m51_args::FileName;
use m51_cells::{Bytes, ListOf};
use m51_shelf::{FileReadError, Shelf, read_file};
use std::alloc::Global;

// The contents of files, in order, which contracts see as a list.
pub(crate) type FileContents = ListOf<Bytes>;

// Reads the files of these names into the contents, which must be empty, one after another, up to the first that can't
// be read whole.
//
// Errors: `TooLong` where that file has more than 1,048,576 bytes, `Failed` where a call on the shelf failed on it,
// `Memory`. After `Failed` there are as many contents as files before it.
pub(crate) fn read_all<F: Shelf>(
    alloc: Global,
    names: &[FileName],
    files: &mut F,
    contents: &mut FileContents,
) -> Result<(), FileReadError>
    requires none { contents.old ≡ [] }
    ensures frame { OnlyReads (F.state files.old) (F.state files.new) }
    ensures reads { ((F.state files.new).reads ≡ (F.state files.old).reads)
        ⊎ ReadsSome names.now (F.state files.old).reads (F.state files.new).reads }
    ensures read { AreReadOr (F.state files.old).holds names.now contents.new
        (F.state files.old).reads (F.state files.new).reads result }
    ensures given { OnOk result
        (AreGiven names.now (F.state files.old).reads (F.state files.new).reads contents.new) }
{
    for name in names {
        let copy = name.copy(alloc)?;
        match read_file(alloc, copy.into_string(), files) {
            Ok(bytes) => contents.push(bytes)?,
            Err(error) => return Err(error),
        }
    }
    Ok(())
}
