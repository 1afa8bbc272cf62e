//! Values by segment numbers of any width.
ghost use Rattle.std.specs.Prelude.{◌≡◌, ◌==◌};
ghost use Rattle.m51_expr.specs.Value.{plain, counted};
ghost use Rattle.m51_expr.specs.Operators.{same_base};
ghost use Rattle.m51_expr.specs.Located.{base_by, value_by};

use crate::value::{Part, part_value};
use m51_cells::Kind;

/// The number of a segment.
///
/// Source: own choice ("Numbers of segments in values").
pub trait SegmentNumber: Copy {
    ghost use Rattle.std.specs.Prelude.{ℕ};

    ghost number: { Self → ℕ };

    /// Whether two segments are one.
    fn is(self, other: Self) -> bool
        ensures { result ≡ (number self == number other) };
}

impl SegmentNumber for u8 {
    ghost number = { λ n. n };

    fn is(self, other: u8) -> bool {
        self == other
    }
}

impl SegmentNumber for u32 {
    ghost number = { λ n. n };

    fn is(self, other: u32) -> bool {
        self == other
    }
}

/// What a value counts from.
///
/// Source: own choice ("Numbers of segments in values").
#[derive(Clone, Copy, Debug, PartialEq, Eq)]
pub enum Origin<S> {
    /// Nothing: the number is the value.
    None,
    /// A segment.
    Segment(S),
    /// An external, counted from 1.
    External(u8),
}

/// The value of an expression.
///
/// Source: own choice ("Numbers of segments in values").
#[derive(Clone, Copy, Debug, PartialEq, Eq)]
pub struct Located<S> {
    /// The number, counted from the origin; where a part is named, that of its operand.
    pub number: u16,
    /// What memory the value is of.
    pub class: Kind,
    pub part: Part,
    pub origin: Origin<S>,
}

/// A value of a number and a class, without an origin and whole.
///
/// Source: own choice ("Values with a base").
pub fn plain<S: SegmentNumber>(number: u16, class: Kind) -> Located<S>
    ensures { value_by S.number result ≡ plain number class }
{
    Located {
        number,
        class,
        part: Part::Whole,
        origin: Origin::None,
    }
}

/// What a value with no origin or an absolute one counts as: its number, or that number's high byte, low byte or the
/// address of its bit, which is 0 where it has none.
///
/// Source: own choice ("Values with a base").
pub fn counted<S: SegmentNumber>(value: Located<S>) -> u16
    ensures { result ≡ counted (value_by S.number value) }
{
    part_value(value.number, value.part)
}

/// Whether two values count from one thing.
pub(crate) fn same_origin<S: SegmentNumber>(a: Origin<S>, b: Origin<S>) -> bool
    ensures { result ≡ same_base (base_by S.number a) (base_by S.number b) }
{
    match (a, b) {
        (Origin::None, Origin::None) => true,
        (Origin::Segment(a), Origin::Segment(b)) => a.is(b),
        (Origin::External(a), Origin::External(b)) => a == b,
        _ => false,
    }
}
