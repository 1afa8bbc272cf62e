//! Standard output.
ghost use Rattle.std.specs.Prelude.{◌≡◌, ◌≤◌, ◌<◌, None, length, take, IfOk, OnOk, OnErr};
ghost use Rattle.std.specs.Io.KnownBytes.{Appends, WriteAppends};
ghost use Rattle.m51_cells.specs.Outside.{HasCause, one_more};

use crate::sink::{Failed, Sink};
use std::io::{ErrorKind, Write, writer};
use std::marker::Model;

/// How often a call on the outside is made again at most, after signals have interrupted it.
///
/// Source: own choice ("Calls on the outside").
pub const MOST_TRIES: u32 = 1_000_000;

/// Standard output, through the program's handle. Contracts see no text of it, only its count of faults.
///
/// Source: own choice ("Calls on the outside").
#[derive(Drop)]
pub struct StdSink<P> {
    rt: P,
    faults: u64,
}

impl<P> Model for StdSink<P> {
    ghost use Rattle.std.specs.Prelude.{ℕ};

    ghost Value = { ℕ };

    ghost view = { λ s. s.faults };
}

impl<P: Print> StdSink<P> {
    /// Standard output, without a fault so far.
    ///
    /// Source: own choice ("Calls on the outside").
    pub fn make(rt: P) -> StdSink<P>
        ensures { result ≡ 0 }
    {
        StdSink { rt, faults: 0 }
    }
}

// Writes until the piece is taken or a write fails, and answers how many bytes were taken. A write that a signal
// interrupts is made again, `MOST_TRIES` times at most in a call.
fn write_on<W: Write>(to: &mut W, piece: &[u8]) -> usize
    ensures bound { result ≤ length piece.now }
    ensures bytes { Appends (W.contents to.old) (W.contents to.new) (take result piece.now) }
{
    let mut done = 0;
    let mut interrupted = 0;
    while done < piece.len() {
        match to.write(&piece[done..]) {
            Ok(0) => break,
            Ok(count) => done += count,
            Err(error) if error.kind() == ErrorKind::Interrupted && interrupted < MOST_TRIES => {
                interrupted += 1;
            }
            Err(_) => break,
        }
    }
    done
}

// Writes a piece as far as it is taken. Where nothing of it is, that is a fault.
fn write_counted<W: Write>(to: &mut W, faults: &mut u64, piece: &[u8]) -> Result<usize, Failed>
    ensures bound { IfOk result (λ count. count ≤ length piece.now) }
    ensures some { IfOk result (λ count. 0 < length piece.now → 0 < count) }
    ensures bytes { WriteAppends (W.contents to.old) (W.contents to.new) result piece.now }
    ensures cause { HasCause faults.old faults.new result }
    ensures taken { OnOk result (faults.new ≡ faults.old) }
    ensures counted { OnErr result (faults.new ≡ one_more faults.old) }
{
    let done = write_on(to, piece);
    if done > 0 || piece.is_empty() {
        return Ok(done);
    }
    *faults = faults.saturating_add(1);
    Err(Failed)
}

impl<P: Print> Sink for StdSink<P> {
    ghost state = { λ sink. record { text = None; faults = sink } };

    /// Writes until the piece is taken or a write fails. The number of bytes that were taken before a failure is
    /// returned, and the next call fails if the failure persists. A write that a signal interrupts is made again,
    /// `MOST_TRIES` times at most in a call.
    ///
    /// Failed: standard output has failed, or has taken nothing, before a byte of the piece was taken.
    ///
    /// Source: own choice ("Calls on the outside").
    fn write(&mut self, piece: &[u8]) -> Result<usize, Failed>
        ensures bound { IfOk result (λ count. count ≤ length piece.now) }
        ensures some { IfOk result (λ count. 0 < length piece.now → 0 < count) }
        ensures bytes { WriteAppends None None result piece.now }
        ensures cause { HasCause self.old self.new result }
        ensures taken { OnOk result (self.new ≡ self.old) }
        ensures counted { OnErr result (self.new ≡ one_more self.old) }
    {
        write_counted(&mut writer(&self.rt), &mut self.faults, piece)
    }
}
