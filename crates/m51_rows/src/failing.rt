//! What goes wrong in a run: a call of the shelf or of the sink that fails, or pieces of a few bytes.
use crate::texts::{after, before, number};
use m51_cells::NoMemory;
use m51_shelf::{MemSink, ShelfCall};
use std::alloc::{AllocError, Global};

// The most bytes that a run can write here.
const ROOM: u32 = 1_048_576;

/// What goes wrong in a run.
#[derive(Clone, Copy)]
pub(crate) enum Failure {
    /// Nothing.
    None,
    /// The call of the shelf of this kind and number.
    Shelf(ShelfCall, u32),
    /// The write of this number.
    Write(u32),
    /// Each write that passes this room.
    Room(u32),
    /// Nothing, but that the shelf answers 1 to 7 bytes in turn.
    Short,
}

impl Failure {
    /// That of a line: `start 2`, `piece 5`, `keep 1`, `write 3`, `room 10`, or `short`.
    pub(crate) fn of(line: &[u8]) -> Option<Failure> {
        if line == b"short".as_slice() {
            return Some(Failure::Short);
        }
        let number = number(after(line, b" "))?;
        match str::from_utf8(before(line, b" ")).ok()? {
            "start" => Some(Failure::Shelf(ShelfCall::Start, number)),
            "piece" => Some(Failure::Shelf(ShelfCall::Piece, number)),
            "keep" => Some(Failure::Shelf(ShelfCall::Keep, number)),
            "write" => Some(Failure::Write(number)),
            "room" => Some(Failure::Room(number)),
            _ => None,
        }
    }

    /// The calls of the shelf that fail.
    pub(crate) fn calls(self, alloc: Global) -> Result<Vec<(ShelfCall, u32)>, AllocError> {
        match self {
            Failure::Shelf(call, number) => Ok(vec![in alloc; (call, number)]?),
            _ => Ok(Vec::new(alloc)),
        }
    }

    // The writes that fail.
    fn writes(self, alloc: Global) -> Result<Vec<u32>, AllocError> {
        match self {
            Failure::Write(number) => Ok(vec![in alloc; number]?),
            _ => Ok(Vec::new(alloc)),
        }
    }

    /// The sink of a run.
    pub(crate) fn sink(self, alloc: Global) -> Result<MemSink, NoMemory> {
        let room = match self {
            Failure::Room(room) => room,
            _ => ROOM,
        };
        MemSink::make(alloc, self.writes(alloc)?, room)
    }
}
