//! A sink that never fails.
ghost use Rattle.std.specs.Prelude.{◌≡◌, ◌≤◌, ◌<◌, None, Ok, length, IfOk};
ghost use Rattle.std.specs.Io.KnownBytes.{WriteAppends};
ghost use Rattle.m51_cells.specs.Outside.{HasCause};

use crate::sink::{Failed, Sink};

/// A sink that never fails, and forgets its bytes.
///
/// Source: own choice ("Sinks in memory").
#[derive(Drop)]
pub struct SureSink {}

impl SureSink {
    /// Such a sink. All are alike.
    ///
    /// Source: own choice ("Sinks in memory").
    pub fn make() -> SureSink {
        SureSink {}
    }
}

impl Sink for SureSink {
    ghost state = { λ sink. record { text = None; faults = 0 } };

    /// Takes the whole piece.
    ///
    /// Source: own choice ("Sinks in memory").
    fn write(&mut self, piece: &[u8]) -> Result<usize, Failed>
        ensures bound { IfOk result (λ count. count ≤ length piece.now) }
        ensures some { IfOk result (λ count. 0 < length piece.now → 0 < count) }
        ensures bytes { WriteAppends None None result piece.now }
        ensures cause { HasCause 0 0 result }
        ensures whole { result ≡ Ok (length piece.now) }
    {
        Ok(piece.len())
    }
}
