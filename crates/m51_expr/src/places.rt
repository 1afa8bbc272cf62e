//! What names mean over segment numbers of any width.
ghost use Rattle.std.specs.Prelude.{◌≡◌, option_map};
ghost use Rattle.m51_expr.specs.Meanings.{Meanings, is_absolute_base, is_unplaced, as_number};
ghost use Rattle.m51_expr.specs.Located.{base_by, value_by};

use crate::fault::ExprError;
use crate::located::{Located, Origin, SegmentNumber, counted};
use m51_cells::{BASE_NOT_ALLOWED, Name};

/// What the names and the place of a statement mean, where a segment has a number of type `S`. No method allocates.
///
/// Source: own choice ("Numbers of segments in values").
pub trait Places<S: SegmentNumber> {
    ghost meanings: { Self → Meanings };

    /// What a name means, or none if it has no value at the statement.
    fn value(&self, name: &Name) -> Option<Located<S>>
        ensures { option_map (value_by S.number) result ≡ (meanings self.now).value name.now };

    /// The place of the statement, `$`.
    fn here(&self) -> Located<S>
        ensures { value_by S.number result ≡ (meanings self.now).here };

    /// Whether the segment of this number is absolute.
    fn fixed(&self, segment: S) -> bool
        ensures { result ≡ (meanings self.now).fixed (S.number segment) };

    /// Whether the segment of this number is of type BITADDRESSABLE.
    fn bitaddressable(&self, segment: S) -> bool
        ensures { result ≡ (meanings self.now).bitaddressable (S.number segment) };
}

/// Whether the origin is an absolute segment.
///
/// Source: own choice ("Values with a base").
pub fn is_absolute_origin<S: SegmentNumber, P: Places<S>>(names: &P, origin: Origin<S>) -> bool
    ensures { result ≡ is_absolute_base (P.meanings names.now) (base_by S.number origin) }
{
    match origin {
        Origin::Segment(segment) => names.fixed(segment),
        Origin::None | Origin::External(_) => false,
    }
}

/// Whether the origin is relocatable or external, so that the link places it.
///
/// Source: own choice ("Values with a base").
pub fn is_unplaced_origin<S: SegmentNumber, P: Places<S>>(names: &P, origin: Origin<S>) -> bool
    ensures { result ≡ is_unplaced (P.meanings names.now) (base_by S.number origin) }
{
    match origin {
        Origin::None => false,
        Origin::Segment(segment) => !names.fixed(segment),
        Origin::External(_) => true,
    }
}

/// What an operand counts as where only an absolute base is allowed, or else `BASE_NOT_ALLOWED`.
///
/// Source: own choice ("Values with a base").
pub fn as_number<S: SegmentNumber, P: Places<S>>(
    names: &P,
    value: Located<S>,
) -> Result<u16, ExprError>
    ensures { result ≡ as_number (P.meanings names.now) (value_by S.number value) }
{
    if is_unplaced_origin(names, value.origin) {
        return Err(ExprError {
            number: BASE_NOT_ALLOWED,
        });
    }
    Ok(counted(value))
}
