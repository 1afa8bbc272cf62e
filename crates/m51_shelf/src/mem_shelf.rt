//! A shelf in memory, whose failures are listed.
ghost use Rattle.std.specs.Prelude.{◌≡◌, ◌≤◌, ◌<◌, ◌↔◌, ◌⊎◌, ◌+◌, ◌-◌, ◌∷◌, ◌++◌, [], Some, None, IsTrue, IfOk};
ghost use Rattle.std.specs.Prelude.{IsErr, OnOk};
ghost use Rattle.std.specs.Prelude.{vec_capacity};
ghost use Rattle.std.specs.Prelude.{Contains, is_ok, length, string_bytes};
ghost use Rattle.std.specs.List.{All};
ghost use Rattle.m51_cells.specs.Outside.{HasCause};
ghost use Rattle.m51_shelf.specs.Shelf.{Opens, IsPiece, handed, file_of, contents_at, GrowsIfKept, missed_after};
ghost use Rattle.m51_shelf.specs.Memory.{FailsToKeep, FailsToRead, FailsToStart, IsPlace, SameFiles, made};
ghost use Rattle.m51_shelf.specs.Memory.{store_after, CountsPiece, Starts};

use crate::files::{contents, copy_piece, index_of};
use crate::shelf::Shelf;
use crate::sink::Failed;
use m51_cells::{Bytes, NoMemory};
use std::alloc::Global;
use std::marker::Model;

/// A call of a shelf.
///
/// Source: own choice ("The outside").
#[derive(Clone, Copy, Debug, PartialEq, Eq)]
pub enum ShelfCall {
    /// A start of a file.
    Start,
    /// A piece of the open file.
    Piece,
    /// A file to be kept.
    Keep,
}

/// Files in memory. Contracts see what they hold and what was kept; of two files of one name the first counts, and what
/// is kept does not show among those that are read. A call fails exactly if its number, counted from 1 in its kind, is
/// listed, a start also if the file does not exist, and a keep also if there is no buffer or no room for it.
///
/// Source: own choice ("The outside").
#[derive(Drop)]
pub struct MemShelf {
    files: Vec<(Bytes, Bytes)>,
    fails: Vec<(ShelfCall, u32)>,
    starts: u64,
    pieces: u64,
    name: Option<String>,
    index: usize,
    taken: usize,
    ready: bool,
    faults: u64,
    kept: Vec<(Bytes, Bytes)>,
    // A buffer for each file that may still be kept, with room for all bytes that may.
    buffers: Vec<Vec<u8>>,
    room: usize,
    keeps: u64,
    missed: Option<String>,
    keep_faults: u64,
}

impl Model for MemShelf {
    ghost use Rattle.std.specs.Prelude.{◌≡◌, ◌≤◌, ◌+◌, [], length, vec_capacity};
    ghost use Rattle.std.specs.List.{All};
    ghost use Rattle.m51_shelf.specs.Shelf.{contents_at};
    ghost use Rattle.m51_shelf.specs.Stored.{name_bytes};
    ghost use Rattle.m51_shelf.specs.Memory.{IsPlace, MemoryShelf};

    ghost Value = { MemoryShelf };

    ghost view = { λ s. record {
      files = s.files.items;
      fails = s.fails.items;
      starts = s.starts;
      pieces = s.pieces;
      name = name_bytes s.name;
      index = s.index;
      taken = s.taken;
      ready = s.ready;
      faults = s.faults;
      store = record {
        kept = s.kept.items;
        buffers = length s.buffers.items;
        room = s.room;
        calls = s.keeps;
        missed = name_bytes s.missed;
        faults = s.keep_faults;
      };
    } };

    ghost invariant = { λ s. (s.taken ≤ length (contents_at s.files.items s.index))
        × (length s.kept.items + length s.buffers.items ≤ vec_capacity s.kept)
        × All (IsPlace s.room) s.buffers.items };
}

// This number of buffers, each with this room.
fn places_of(alloc: Global, count: u32, room: usize) -> Result<Vec<Vec<u8>>, NoMemory>
    ensures buffers { IfOk result (λ buffers. length buffers.items ≡ count) }
    ensures room { IfOk result (λ buffers. All (IsPlace room) buffers.items) }
{
    let mut buffers = Vec::new(alloc);
    for _ in 0..count {
        buffers.push(Vec::with_capacity(alloc, room)?)?;
    }
    Ok(buffers)
}

// Adds a file to those that are kept, in one of the buffers. It does not allocate.
fn put_file(
    kept: &mut Vec<(Bytes, Bytes)>,
    buffers: &mut Vec<Vec<u8>>,
    name: String,
    bytes: &[u8],
    room: usize,
)
    requires some { 0 < length buffers.old.items }
    requires capacity { length kept.old.items + length buffers.old.items ≤ vec_capacity kept.old }
    requires buffers { All (IsPlace room) buffers.old.items }
    requires room { length bytes.now ≤ room }
    ensures kept { kept.new.items ≡ kept.old.items ++ (string_bytes name, bytes.now) ∷ [] }
    ensures fewer { length buffers.new.items ≡ length buffers.old.items - 1 }
    ensures capacity { vec_capacity kept.old ≤ vec_capacity kept.new }
    ensures buffers { All (IsPlace room) buffers.new.items }
{
    let Some(mut buffer) = buffers.pop() else {
        unreachable!()
    };
    match buffer.extend_from_slice(bytes) {
        Ok(()) => {}
        Err(_) => unreachable!(),
    }
    match kept.push((Bytes::of(name.into_bytes()), Bytes::of(buffer))) {
        Ok(()) => {}
        Err(_) => unreachable!(),
    }
}

// Whether this call of that number is listed.
fn is_listed(fails: &[(ShelfCall, u32)], call: ShelfCall, number: u64) -> bool
    ensures { IsTrue result ↔ Contains fails.now (call, number) }
{
    fails
        .iter()
        .any(|fail| fail.0 == call && u64::from(fail.1) == number)
}

// A start of that number fails where it is listed, and where no file has the name.
fn check_start(
    fails: &[(ShelfCall, u32)],
    files: &[(Bytes, Bytes)],
    number: u64,
    name: &[u8],
) -> Result<(), Failed>
    ensures { IsErr result ↔ (Contains fails.now (ShelfCall.Start, number) ⊎ (file_of files.now name.now ≡ None)) }
{
    if is_listed(fails, ShelfCall::Start, number) || index_of(files, name) == files.len() {
        return Err(Failed);
    }
    Ok(())
}

// A piece of that number fails where it is listed.
fn check_piece(fails: &[(ShelfCall, u32)], number: u64) -> Result<(), Failed>
    ensures { IsErr result ↔ Contains fails.now (ShelfCall.Piece, number) }
{
    if is_listed(fails, ShelfCall::Piece, number) {
        return Err(Failed);
    }
    Ok(())
}

// There must be a buffer, and room for `count` bytes.
fn check_room(buffers: usize, room: usize, count: usize) -> Result<(), Failed>
    ensures { IsErr result ↔ ((buffers ≡ 0) ⊎ (room < count)) }
{
    if buffers == 0 || room < count {
        return Err(Failed);
    }
    Ok(())
}

// A keep of that number fails if it is listed, and if there is no buffer or no room for `count` bytes.
fn check_keep(
    fails: &[(ShelfCall, u32)],
    number: u64,
    buffers: usize,
    room: usize,
    count: usize,
) -> Result<(), Failed>
    ensures { IsErr result ↔ (Contains fails.now (ShelfCall.Keep, number) ⊎ ((buffers ≡ 0) ⊎ (room < count))) }
{
    if is_listed(fails, ShelfCall::Keep, number) {
        return Err(Failed);
    }
    check_room(buffers, room, count)
}

impl MemShelf {
    /// A shelf of these files, by name, before its first call. `fails` lists the calls that fail; `keeps` and `room`
    /// are the most files, and the most bytes of all of them, that it keeps. Error: out of memory.
    ///
    /// Source: own choice ("The outside").
    pub fn make(
        alloc: Global,
        files: Vec<(Bytes, Bytes)>,
        fails: Vec<(ShelfCall, u32)>,
        keeps: u32,
        room: u32,
    ) -> Result<MemShelf, NoMemory>
        ensures { IfOk result (λ shelf. shelf ≡ made files.items fails.items keeps room) }
    {
        let index = files.len();
        let kept = Vec::with_capacity(alloc, keeps as usize)?;
        let buffers = places_of(alloc, keeps, room as usize)?;
        Ok(MemShelf {
            files,
            fails,
            starts: 0,
            pieces: 0,
            name: None,
            index,
            taken: 0,
            ready: false,
            faults: 0,
            kept,
            buffers,
            room: room as usize,
            keeps: 0,
            missed: None,
            keep_faults: 0,
        })
    }

    /// The files that were kept, in order.
    ///
    /// Source: own choice ("The outside").
    pub fn kept(&self) -> &[(Bytes, Bytes)]
        ensures { result.now ≡ self.now.store.kept }
    {
        &self.kept
    }
}

impl Shelf for MemShelf {
    ghost state = { λ shelf. record {
      holds = Some (file_of shelf.files);
      reads = record {
        opened = Some (contents_at shelf.files shelf.index);
        named = shelf.name;
        ready = shelf.ready;
        taken = shelf.taken;
        faults = shelf.faults;
        given = None;
      };
      keeps = record {
        kept = Some shelf.store.kept;
        missed = shelf.store.missed;
        faults = shelf.store.faults;
      };
    } };

    fn start(&mut self, name: String) -> Result<(), Failed>
        ensures opens { OnOk result (Opens (Some (file_of self.old.files)) (string_bytes name)
            (Some (contents_at self.new.files self.new.index))) }
        ensures named { self.new.name ≡ string_bytes name }
        ensures ready { self.new.ready ≡ is_ok result }
        ensures taken { self.new.taken ≡ 0 }
        ensures cause { HasCause self.old.faults self.new.faults result }
        ensures store { self.new.store ≡ self.old.store }
        ensures failed { IsErr result ↔ FailsToStart self.old (string_bytes name) }
        ensures started { Starts self.old self.new result }
    {
        let number = self.starts.saturating_add(1);
        let checked = check_start(&self.fails, &self.files, number, name.as_bytes());
        let index = index_of(&self.files, name.as_bytes());
        self.starts = number;
        self.taken = 0;
        self.index = index;
        self.name = Some(name);
        match checked {
            Ok(()) => {
                self.ready = true;
                Ok(())
            }
            Err(Failed) => {
                self.ready = false;
                self.faults = self.faults.saturating_add(1);
                Err(Failed)
            }
        }
    }

    fn piece(&mut self, into: &mut [u8]) -> Result<usize, Failed>
        requires { IsTrue self.old.ready }
        ensures bound { IfOk result (λ count. count ≤ length into.new) }
        ensures piece { IfOk result (λ count.
            IsPiece (contents_at self.old.files self.old.index) self.old.taken count into.new) }
        ensures index { self.new.index ≡ self.old.index }
        ensures named { self.new.name ≡ self.old.name }
        ensures ready { self.new.ready ≡ is_ok result }
        ensures taken { self.new.taken ≡ handed self.old.taken result }
        ensures cause { HasCause self.old.faults self.new.faults result }
        ensures store { self.new.store ≡ self.old.store }
        ensures failed { IsErr result ↔ FailsToRead self.old }
        ensures reads { CountsPiece self.old self.new result }
    {
        let number = self.pieces.saturating_add(1);
        self.pieces = number;
        match check_piece(&self.fails, number) {
            Ok(()) => {
                let count = copy_piece(contents(&self.files, self.index), self.taken, into);
                self.taken += count;
                Ok(count)
            }
            Err(Failed) => {
                self.ready = false;
                self.faults = self.faults.saturating_add(1);
                Err(Failed)
            }
        }
    }

    fn keep(&mut self, name: String, bytes: &[u8]) -> Result<(), Failed>
        ensures kept { GrowsIfKept (Some self.old.store.kept) (Some self.new.store.kept)
            (string_bytes name, bytes.now) result }
        ensures missed { self.new.store.missed ≡ missed_after self.old.store.missed (string_bytes name) result }
        ensures cause { HasCause self.old.store.faults self.new.store.faults result }
        ensures failed { IsErr result ↔ FailsToKeep self.old (length bytes.now) }
        ensures store { self.new.store ≡ store_after self.old.store (string_bytes name, bytes.now) result }
        ensures files { SameFiles self.old self.new }
    {
        let number = self.keeps.saturating_add(1);
        let count = bytes.len();
        self.keeps = number;
        match check_keep(&self.fails, number, self.buffers.len(), self.room, count) {
            Ok(()) => {
                put_file(&mut self.kept, &mut self.buffers, name, bytes, self.room);
                self.room -= count;
                Ok(())
            }
            Err(Failed) => {
                self.missed = Some(name);
                self.keep_faults = self.keep_faults.saturating_add(1);
                Err(Failed)
            }
        }
    }
}
