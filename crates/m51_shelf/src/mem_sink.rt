//! A sink in memory, whose failures are listed.
ghost use Rattle.std.specs.Prelude.{◌≡◌, ◌≤◌, ◌<◌, ◌↔◌, [], Some, length, Contains, IsTrue, IfOk};
ghost use Rattle.std.specs.Io.KnownBytes.{WriteAppends};
ghost use Rattle.m51_cells.specs.Outside.{HasCause};
ghost use Rattle.m51_shelf.specs.Writing.{FailsAt, IsPieceTaken};

use crate::sink::{Failed, Sink};
use m51_cells::NoMemory;
use std::alloc::Global;
use std::marker::Model;

/// A sink whose text is visible to contracts. A call fails exactly if its number, counted from 1, is listed, or it
/// would pass the room; else it takes the whole piece.
///
/// Source: own choice ("Sinks in memory").
#[derive(Drop)]
pub struct MemSink {
    text: Vec<u8>,
    room: usize,
    fails: Vec<u32>,
    calls: u64,
    faults: u64,
}

impl Model for MemSink {
    ghost use Rattle.std.specs.Prelude.{◌≤◌, vec_capacity, vec_len};
    ghost use Rattle.m51_shelf.specs.Writing.{MemSinkState};

    ghost Value = { MemSinkState };

    ghost view = { λ s. record {
      text = s.text.items;
      room = s.room;
      fails = s.fails.items;
      calls = s.calls;
      faults = s.faults;
    } };

    ghost invariant = { λ s. (s.room ≤ vec_capacity s.text) × (vec_len s.text ≤ s.room) };
}

impl MemSink {
    /// An empty sink with room for `room` bytes, whose calls of these numbers fail.
    ///
    /// NoMemory: there is no memory for the room.
    ///
    /// Source: own choice ("Sinks in memory").
    pub fn make(alloc: Global, fails: Vec<u32>, room: u32) -> Result<MemSink, NoMemory>
        ensures made { IfOk result (λ sink.
            sink ≡ record { text = []; room = room; fails = fails.items; calls = 0; faults = 0 }) }
    {
        let room = room as usize;
        Ok(MemSink {
            text: Vec::with_capacity(alloc, room)?,
            room,
            fails,
            calls: 0,
            faults: 0,
        })
    }

    /// The bytes taken so far.
    ///
    /// Source: own choice ("Sinks in memory").
    pub fn text(&self) -> &[u8]
        ensures { result.now ≡ self.now.text }
    {
        &self.text
    }

    // Whether the next call fails at this many bytes.
    fn fails_at(&self, count: usize) -> bool
        ensures { IsTrue result ↔ FailsAt self.now count }
    {
        is_listed(&self.fails, self.calls.saturating_add(1)) || self.room - self.text.len() < count
    }
}

// Whether the number of a call is among these.
fn is_listed(fails: &[u32], number: u64) -> bool
    ensures { IsTrue result ↔ Contains fails.now number }
{
    fails.iter().any(|call| u64::from(*call) == number)
}

impl Sink for MemSink {
    ghost state = { λ sink. record { text = Some sink.text; faults = sink.faults } };

    /// Takes the whole piece, or fails and is counted as a fault.
    ///
    /// Source: own choice ("Sinks in memory").
    fn write(&mut self, piece: &[u8]) -> Result<usize, Failed>
        ensures bound { IfOk result (λ count. count ≤ length piece.now) }
        ensures some { IfOk result (λ count. 0 < length piece.now → 0 < count) }
        ensures bytes { WriteAppends (Some self.old.text) (Some self.new.text) result piece.now }
        ensures cause { HasCause self.old.faults self.new.faults result }
        ensures taken { IsPieceTaken self.old self.new piece.now result }
    {
        let fails = self.fails_at(piece.len());
        self.calls = self.calls.saturating_add(1);
        if fails {
            self.faults = self.faults.saturating_add(1);
            return Err(Failed);
        }
        match self.text.extend_from_slice(piece) {
            Ok(()) => Ok(piece.len()),
            Err(_) => unreachable!(),
        }
    }
}
