//! Reading a whole file, in pieces.
ghost use Rattle.std.specs.Prelude.{◌≡◌, ◌≤◌, ◌+◌, ◌++◌, IfOk, OnOk, length, string_bytes};
ghost use Rattle.m51_cells.specs.declared.limits.TheConstants.{MOST_FILE_BYTES};
ghost use Rattle.m51_shelf.specs.Reading.{GivesOn, HandsOver, HasTaken, IsGiven, IsOpened, IsPieceError, IsRead};
ghost use Rattle.m51_shelf.specs.Reading.{TakesOn};
ghost use Rattle.m51_shelf.specs.States.{OnlyReads, ReadsOn};

use crate::shelf::Shelf;
use crate::sink::Failed;
use m51_cells::{Bytes, MOST_FILE_BYTES, NoMemory};
use std::alloc::Global;

// The most bytes that are asked for at once.
const PIECE: usize = 4096;

/// Why a file was not read.
///
/// Source: own choice ("The outside").
#[derive(Clone, Copy, Debug, PartialEq, Eq)]
pub enum FileReadError {
    /// It has more than `MOST_FILE_BYTES` bytes.
    TooLong,
    /// A call on the shelf failed.
    Failed,
    /// Out of memory.
    Memory,
}

impl From<Failed> for FileReadError {
    ghost use Rattle.std.specs.Prelude.{◌≡◌};
    ghost use Rattle.m51_shelf.specs.declared.reading.FileReadError.TheVariants.{Failed as ReadFailed};

    ghost from_gives = { λ _ error. error ≡ ReadFailed };

    fn from(_error: Failed) -> FileReadError {
        FileReadError::Failed
    }
}

impl From<NoMemory> for FileReadError {
    ghost use Rattle.std.specs.Prelude.{◌≡◌};
    ghost use Rattle.m51_shelf.specs.declared.reading.FileReadError.TheVariants.{Memory};

    ghost from_gives = { λ _ error. error ≡ Memory };

    fn from(_error: NoMemory) -> FileReadError {
        FileReadError::Memory
    }
}

// Appends a piece.
fn append(bytes: &mut Vec<u8>, piece: &[u8]) -> Result<(), NoMemory>
    ensures { OnOk result (bytes.new.items ≡ bytes.old.items ++ piece.now) }
{
    bytes.extend_from_slice(piece)?;
    Ok(())
}

// Reads the next piece of the open file, and appends it. It may read one byte past MOST_FILE_BYTES, to detect a longer
// file.
fn read_piece<F: Shelf>(files: &mut F, bytes: &mut Vec<u8>) -> Result<usize, FileReadError>
    requires few { length bytes.old.items ≤ MOST_FILE_BYTES }
    requires taken { HasTaken (F.state files.old).reads bytes.old.items }
    ensures frame { ReadsOn (F.state files.old) (F.state files.new) }
    ensures most { (F.state files.new).reads.taken ≤ MOST_FILE_BYTES + 1 }
    ensures taken { IfOk result (λ count. TakesOn (F.state files.new).reads bytes.old.items bytes.new.items count) }
    ensures given { GivesOn (F.state files.old).reads (F.state files.new).reads bytes.old.items bytes.new.items result }
    ensures failed { IsPieceError (F.state files.old).reads (F.state files.new).reads result }
{
    let mut piece = [0u8; PIECE];
    let room = PIECE.min(MOST_FILE_BYTES + 1 - bytes.len());
    let part = &mut piece[..room];
    let count = files.piece(part)?;
    append(bytes, &part[..count])?;
    Ok(count)
}

// Reads the open file to its end, in pieces, and at most one byte past MOST_FILE_BYTES.
fn read_open<F: Shelf>(alloc: Global, files: &mut F) -> Result<Bytes, FileReadError>
    requires { IsOpened (F.state files.old) }
    ensures frame { ReadsOn (F.state files.old) (F.state files.new) }
    ensures most { (F.state files.new).reads.taken ≤ MOST_FILE_BYTES + 1 }
    ensures read { IsRead (F.state files.old).holds (F.state files.old).reads (F.state files.new).reads result }
    ensures given { HandsOver (F.state files.old).reads (F.state files.new).reads result }
{
    let mut bytes = Vec::new(alloc);
    loop {
        match read_piece(files, &mut bytes) {
            Ok(0) => return Ok(Bytes::of(bytes)),
            Ok(_) => {
                if bytes.len() > MOST_FILE_BYTES {
                    return Err(FileReadError::TooLong);
                }
            }
            Err(error) => return Err(error),
        }
    }
}

/// Reads the file of this name, in pieces, and takes at most one byte past `MOST_FILE_BYTES` of it.
///
/// TooLong: it has more. Failed: a call on the shelf has failed. Memory: there is no memory for its bytes.
///
/// Source: own choice ("The outside").
pub fn read_file<F: Shelf>(
    alloc: Global,
    name: String,
    files: &mut F,
) -> Result<Bytes, FileReadError>
    ensures frame { OnlyReads (F.state files.old) (F.state files.new) }
    ensures named { (F.state files.new).reads.named ≡ string_bytes name }
    ensures most { (F.state files.new).reads.taken ≤ MOST_FILE_BYTES + 1 }
    ensures read { IsRead (F.state files.old).holds (F.state files.old).reads (F.state files.new).reads result }
    ensures given { IsGiven (F.state files.old).reads (F.state files.new).reads (string_bytes name) result }
{
    files.start(name)?;
    read_open(alloc, files)
}
