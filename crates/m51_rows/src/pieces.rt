//! A shelf in memory that returns whole files, or 1 to 7 bytes in turn.
ghost use Rattle.std.specs.Prelude.{◌≤◌, None};

use crate::failing::Failure;
use m51_cells::{Bytes, NoMemory};
use m51_shelf::{Failed, MemShelf, Shelf};
use std::alloc::Global;

// The most files that a run can keep here: one more than a command keeps.
const KEEPS: u32 = 2;

// The most bytes that a run can keep here.
const ROOM: u32 = 1_048_576;

// The most bytes of a short piece.
const LONGEST: usize = 7;

/// How long the pieces of a shelf are.
#[derive(Clone, Copy)]
enum InputPieces {
    // As long as the slice.
    Whole,
    // This many bytes, and one more the next time.
    Short(usize),
}

impl InputPieces {
    // The most bytes of the next piece into a slice of this length.
    fn next(&mut self, room: usize) -> usize
        ensures { result ≤ room }
    {
        match *self {
            InputPieces::Whole => room,
            InputPieces::Short(count) => {
                *self = InputPieces::Short(if count < LONGEST { count + 1 } else { 1 });
                room.min(count)
            }
        }
    }
}

/// Files in memory. Contracts see nothing of them here.
#[derive(Drop)]
pub(crate) struct PieceShelf {
    shelf: MemShelf,
    pieces: InputPieces,
}

impl PieceShelf {
    /// A shelf of these files, before its first call.
    pub(crate) fn make(
        alloc: Global,
        files: Vec<(Bytes, Bytes)>,
        failure: Failure,
    ) -> Result<PieceShelf, NoMemory> {
        let shelf = MemShelf::make(alloc, files, failure.calls(alloc)?, KEEPS, ROOM)?;
        let pieces = match failure {
            Failure::Short => InputPieces::Short(1),
            _ => InputPieces::Whole,
        };
        Ok(PieceShelf { shelf, pieces })
    }

    /// The files that were kept, in order.
    pub(crate) fn kept(&self) -> &[(Bytes, Bytes)] {
        self.shelf.kept()
    }
}

impl Shelf for PieceShelf {
    ghost state = { λ files. record {
      holds = None;
      reads = record {
        opened = None;
        named = files.shelf.name;
        ready = files.shelf.ready;
        taken = files.shelf.taken;
        faults = files.shelf.faults;
        given = None;
      };
      keeps = record { kept = None; missed = files.shelf.store.missed; faults = files.shelf.store.faults };
    } };

    fn start(&mut self, name: String) -> Result<(), Failed> {
        self.shelf.start(name)
    }

    fn piece(&mut self, into: &mut [u8]) -> Result<usize, Failed> {
        let most = self.pieces.next(into.len());
        self.shelf.piece(&mut into[..most])
    }

    fn keep(&mut self, name: String, bytes: &[u8]) -> Result<(), Failed> {
        self.shelf.keep(name, bytes)
    }
}
