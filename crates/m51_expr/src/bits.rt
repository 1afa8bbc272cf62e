//! The dot: bits of bytes.
ghost use Rattle.std.specs.Prelude.{◌≡◌};
ghost use Rattle.m51_expr.specs.Bits.{has_bits, keeps_base, dotted_bit, dot};
ghost use Rattle.m51_expr.specs.Located.{base_by, value_by, valued_by};

use crate::fault::ExprError;
use crate::located::{Located, Origin, SegmentNumber, counted, plain, same_origin};
use crate::places::{Places, as_number, is_unplaced_origin};
use crate::value::{Part, is_whole};
use m51_cells::{BASE_NOT_ALLOWED, Kind, NO_BIT};
use m51_isa::bit_address;

// Whether a base that the link places has bits with addresses.
fn has_bits<S: SegmentNumber, P: Places<S>>(names: &P, origin: Origin<S>, class: Kind) -> bool
    ensures { result ≡ has_bits (P.meanings names.now) (base_by S.number origin) class }
{
    match (origin, class) {
        (Origin::Segment(segment), _) => names.bitaddressable(segment),
        (Origin::External(_), Kind::Direct) => true,
        _ => false,
    }
}

// Whether the dot keeps the base of its left operand.
fn keeps_base<S: SegmentNumber>(x: Located<S>) -> bool
    ensures { result ≡ keeps_base (value_by S.number x) }
{
    !same_origin(x.origin, Origin::None) && is_whole(x.part)
}

// A bit of a byte.
fn dotted_bit<S: SegmentNumber, P: Places<S>>(
    names: &P,
    x: Located<S>,
    bit: u16,
) -> Result<Located<S>, ExprError>
    ensures { valued_by S.number result ≡ dotted_bit (P.meanings names.now) (value_by S.number x) bit }
{
    if bit > 7 {
        return Err(ExprError { number: NO_BIT });
    }
    let kept = Located {
        class: Kind::Bits,
        part: Part::Bit(bit as u8),
        ..x
    };
    if is_unplaced_origin(names, x.origin) {
        return if has_bits(names, x.origin, x.class) {
            Ok(kept)
        } else {
            Err(ExprError { number: NO_BIT })
        };
    }
    match bit_address(counted(x), bit) {
        None => Err(ExprError { number: NO_BIT }),
        Some(_) if keeps_base(x) => Ok(kept),
        Some(address) => Ok(plain(address, Kind::Bits)),
    }
}

/// The dot between two operands.
pub(crate) fn dot<S: SegmentNumber, P: Places<S>>(
    names: &P,
    x: Located<S>,
    n: Located<S>,
) -> Result<Located<S>, ExprError>
    ensures { valued_by S.number result
        ≡ dot (P.meanings names.now) (value_by S.number x) (value_by S.number n) }
{
    if is_unplaced_origin(names, x.origin) && !is_whole(x.part) {
        return Err(ExprError {
            number: BASE_NOT_ALLOWED,
        });
    }
    let bit = as_number(names, n)?;
    dotted_bit(names, x, bit)
}
