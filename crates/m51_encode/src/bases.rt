//! How the base of a value relates to the segment of the statement.
ghost use Rattle.std.specs.Prelude.{◌≡◌};
ghost use Rattle.m51_expr.specs.Located.{base_by, origin_base};
ghost use Rattle.m51_encode.specs.Bases.{same_segment, is_current, stands_absolute, object_base, is_numbered};
ghost use Rattle.m51_encode.specs.Bases.{is_linked};

use m51_cells::Base;
use m51_expr::{Origin, Places, SegmentNumber, is_absolute_origin, is_unplaced_origin};

/// What names and the place of a statement that gives bytes mean, and the numbers of the segments in the object.
///
/// Source: own choice ("Numbers of segments in values").
pub trait Numbered: Places<u32> {
    /// The number of a segment in the object, 0 for an absolute one that it does not have.
    fn number(&self, segment: u32) -> u8
        ensures { result ≡ (Self.meanings self.now).number segment };
}

// Whether two values count from one segment.
fn same_segment<S: SegmentNumber>(a: Origin<S>, b: Origin<S>) -> bool
    ensures { result ≡ same_segment (base_by S.number a) (base_by S.number b) }
{
    match (a, b) {
        (Origin::Segment(a), Origin::Segment(b)) => a.is(b),
        _ => false,
    }
}

/// Whether a value counts from the segment of the statement.
pub(crate) fn is_current<S: SegmentNumber, P: Places<S>>(names: &P, origin: Origin<S>) -> bool
    ensures { result ≡ is_current (P.meanings names.now) (base_by S.number origin) }
{
    same_segment(origin, names.here().origin)
}

/// Whether the statement is in an absolute segment.
pub(crate) fn stands_absolute<S: SegmentNumber, P: Places<S>>(names: &P) -> bool
    ensures { result ≡ stands_absolute (P.meanings names.now) }
{
    is_absolute_origin(names, names.here().origin)
}

// Whether the origin is a segment that the object has.
fn is_numbered<N: Numbered>(names: &N, origin: Origin<u32>) -> bool
    ensures { result ≡ is_numbered (N.meanings names.now) (origin_base origin) }
{
    match origin {
        Origin::Segment(segment) => names.number(segment) != 0,
        Origin::None | Origin::External(_) => false,
    }
}

/// The base in the object.
pub(crate) fn object_base<N: Numbered>(names: &N, origin: Origin<u32>) -> Base
    ensures { result ≡ object_base (N.meanings names.now) (origin_base origin) }
{
    match origin {
        Origin::None => Base::None,
        Origin::Segment(segment) => Base::Segment(names.number(segment)),
        Origin::External(external) => Base::External(external),
    }
}

/// Whether the linker adds the base. Any other value counts as a number.
pub(crate) fn is_linked<N: Numbered>(names: &N, origin: Origin<u32>) -> bool
    ensures { result ≡ is_linked (N.meanings names.now) (origin_base origin) }
{
    is_unplaced_origin(names, origin) || (is_numbered(names, origin) && !is_current(names, origin))
}
