//! The fixups of the references of a line.
ghost use Rattle.std.specs.Prelude.{◌≡◌, ◌+◌, ◌<◌, ◌≤◌, ◌++◌, map, OnOk};
ghost use Rattle.m51_emit.specs.Pieces.{target_base, fixup_of};
ghost use Rattle.m51_emit.specs.Within.{LieInside};

use crate::content::ReferenceAt;
use crate::publics::from_base;
use m51_cells::{Base, NoMemory};
use m51_encode::Reference;
use m51_module::{Fixup, Segment, segment_numbered};

// The address that a target begins at, 0 where the link places it.
fn target_base(segments: &[Segment], target: Base) -> u16
    ensures { result ≡ target_base segments.now target }
{
    match target {
        Base::Segment(number) => match segment_numbered(segments, number) {
            Some(segment) => segment.base,
            None => 0,
        },
        Base::None | Base::External(_) => 0,
    }
}

// The fixup of a reference in a segment, whose line lies at that place.
fn fixup_of(
    segments: &[Segment],
    segment: u8,
    at: usize,
    byte: usize,
    reference: Reference,
) -> Fixup
    requires { at + byte < 65536 }
    ensures { result ≡ fixup_of segments.now segment at (byte, reference) }
{
    Fixup {
        segment,
        offset: (at + byte) as u16,
        form: reference.form,
        bit: reference.bit,
        target: reference.base,
        addend: from_base(target_base(segments, reference.base), reference.number),
    }
}

/// Appends the fixups of one more line, whose references lie within its `len` bytes.
pub(crate) fn push_fixups(
    fixups: &mut Vec<Fixup>,
    segments: &[Segment],
    segment: u8,
    at: usize,
    len: usize,
    references: &[ReferenceAt],
) -> Result<(), NoMemory>
    requires memory { at + len ≤ 65536 }
    requires inside { LieInside len references.now }
    ensures { OnOk result
        (fixups.new.items ≡ fixups.old.items ++ map (fixup_of segments.now segment at) references.now) }
{
    for (byte, reference) in references {
        fixups.push(fixup_of(segments, segment, at, *byte, *reference))?;
    }
    Ok(())
}
