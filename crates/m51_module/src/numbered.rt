//! Segments and externals by their numbers, counted from 1.
ghost use Rattle.std.specs.Prelude.{◌≡◌};
ghost use Rattle.m51_module.specs.Validity.{numbered};

use crate::segment::Segment;
use crate::symbol::External;

/// The segment of that number, from 1; `None` if none has it.
///
/// Source: own choice ("Object records").
pub fn segment_numbered(segments: &[Segment], number: u8) -> Option<Segment>
    ensures { result ≡ numbered segments.now number }
{
    if number == 0 {
        return None;
    }
    segments.get(usize::from(number) - 1).copied()
}

/// The external of that number, from 1; `None` if none has it.
///
/// Source: own choice ("Object records").
pub fn external_numbered(externals: &[External], number: u8) -> Option<External>
    ensures { result ≡ numbered externals.now number }
{
    if number == 0 {
        return None;
    }
    externals.get(usize::from(number) - 1).copied()
}
