//! What PUBLIC makes of a name.
ghost use Rattle.std.specs.Prelude.{◌≡◌, option_map};
ghost use Rattle.m51_expr.specs.Located.{origin_base, located_value};
ghost use Rattle.m51_emit.specs.PublicNames.{public, from_base, public_from, public_of_value, public_valued};
ghost use Rattle.m51_emit.specs.PublicNames.{public_by};

use m51_cells::{BASE_NOT_ALLOWED, Base, Kind, Name, OUT_OF_RANGE, UNKNOWN_NAME, same_kind};
use m51_expr::{Located, Origin, is_whole};
use m51_module::Public;

/// What defines a name, as far as PUBLIC asks.
///
/// Source: ASM51 guide.
#[derive(Clone, Copy, Debug, PartialEq, Eq)]
pub enum Definer {
    /// `SEGMENT`
    Segment,
    /// `SET`
    Set,
    /// `EXTRN`
    External,
    /// A label, `EQU`, or the word of an address; or nothing, as of a predefined name.
    Other,
}

/// A segment that a value counts from, as far as PUBLIC asks.
///
/// Source: ASM51 guide.
#[derive(Clone, Copy, Debug, PartialEq, Eq)]
pub struct PublicSegment {
    pub kind: Kind,
    /// The address that it begins at, 0 where the link places it.
    pub base: u16,
    /// Its number in the module, 0 where the module does not have it.
    pub number: u8,
}

// The public of a value.
fn public(name: Name, value: Located<u32>, base: Base, number: u16) -> Result<Public, u8>
    ensures { result ≡ public name (located_value value) base number }
{
    Ok(Public {
        name,
        kind: value.class,
        base,
        number,
    })
}

/// An address as it counts from a base, modulo 65,536.
pub(crate) fn from_base(base: u16, address: u16) -> u16
    ensures { result ≡ from_base base address }
{
    address.wrapping_sub(base)
}

// The public of a value that counts from this segment.
fn public_from(name: Name, value: Located<u32>, segment: PublicSegment) -> Result<Public, u8>
    ensures { result ≡ public_from name (located_value value) segment }
{
    if !same_kind(value.class, segment.kind) {
        Err(OUT_OF_RANGE)
    } else if segment.number == 0 {
        public(name, value, Base::None, value.number)
    } else {
        public(
            name,
            value,
            Base::Segment(segment.number),
            from_base(segment.base, value.number),
        )
    }
}

// The public of a value.
fn public_of_value(name: Name, value: Located<u32>, segment: PublicSegment) -> Result<Public, u8>
    ensures { result ≡ public_of_value name (located_value value) segment (origin_base value.origin) }
{
    match value.origin {
        Origin::None => public(name, value, Base::None, value.number),
        Origin::Segment(_) if is_whole(value.part) => public_from(name, value, segment),
        Origin::Segment(_) | Origin::External(_) => Err(BASE_NOT_ALLOWED),
    }
}

// The public of a name that may be public.
fn public_valued(
    name: Name,
    segment: PublicSegment,
    value: Option<Located<u32>>,
) -> Result<Public, u8>
    ensures { result ≡ public_valued name segment (option_map located_value value) }
{
    match value {
        Some(value) => public_of_value(name, value, segment),
        None => Err(UNKNOWN_NAME),
    }
}

/// What a name of PUBLIC becomes: a public, or the number of a fault.
///
/// The value is that of the name at the statement, and the segment that which it counts from; without one the segment
/// does not matter. The number of the public counts from the base of the segment. A value of a segment that the module
/// does not have is a number.
///
/// Error: 8 for the name of a segment, an external or SET, for the value of an external, and for one of a segment under
/// `HIGH`, `LOW` or the dot; 7 where the name has no value; 14 where the class is not the kind of the segment.
///
/// Source: own choice ("Public names").
pub fn public_of(
    name: Name,
    definer: Definer,
    segment: PublicSegment,
    value: Option<Located<u32>>,
) -> Result<Public, u8>
    ensures { result ≡ public_by name definer segment (option_map located_value value) }
{
    match definer {
        Definer::Segment | Definer::Set | Definer::External => Err(BASE_NOT_ALLOWED),
        Definer::Other => public_valued(name, segment, value),
    }
}
