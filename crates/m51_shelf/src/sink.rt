//! Where text goes.
ghost use Rattle.std.specs.Prelude.{◌≤◌, ◌<◌, length, IfOk, OnOk, OnErr};
ghost use Rattle.std.specs.Io.KnownBytes.{Appends, WriteAppends};
ghost use Rattle.m51_cells.specs.Outside.{HasCause};
ghost use Rattle.m51_shelf.specs.Writing.{SinkState, StopsWithin};

/// A call on the outside has failed.
///
/// Source: own choice ("Calls on the outside").
#[derive(Clone, Copy, Debug, PartialEq, Eq)]
pub struct Failed;

/// What takes text.
///
/// Source: own choice ("Calls on the outside").
pub trait Sink {
    /// The bytes taken so far, if contracts see them, and how many writes have failed. That count stops at the last
    /// value of a `u64`.
    ghost state: { Self → SinkState };

    /// Takes the first bytes of the piece, at least one where it has one, and answers how many.
    ///
    /// Failed: the count of faults has gone up, and the text is as it was.
    ///
    /// Source: own choice ("Calls on the outside").
    fn write(&mut self, piece: &[u8]) -> Result<usize, Failed>
        ensures bound { IfOk result (λ count. count ≤ length piece.now) }
        ensures some { IfOk result (λ count. 0 < length piece.now → 0 < count) }
        ensures bytes { WriteAppends (state self.old).text (state self.new).text result piece.now }
        ensures cause { HasCause (state self.old).faults (state self.new).faults result };
}

/// Writes all of the bytes.
///
/// Failed: a write has failed, and a prefix of the bytes is written that lacks at least the last.
///
/// Source: own choice ("Calls on the outside").
pub fn write_whole<S: Sink>(out: &mut S, bytes: &[u8]) -> Result<(), Failed>
    ensures whole { OnOk result (Appends (S.state out.old).text (S.state out.new).text bytes.now) }
    ensures short { OnErr result (StopsWithin (S.state out.old).text (S.state out.new).text bytes.now) }
    ensures cause { HasCause (S.state out.old).faults (S.state out.new).faults result }
{
    let mut done = 0;
    while done < bytes.len() {
        done += out.write(&bytes[done..])?;
    }
    Ok(())
}
