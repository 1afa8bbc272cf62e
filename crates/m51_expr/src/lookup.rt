//! What names mean in an object, whose segments are numbered by a byte.
ghost use Rattle.std.specs.Prelude.{◌≡◌, option_map};
ghost use Rattle.m51_expr.specs.Meanings.{Meanings};
ghost use Rattle.m51_expr.specs.Located.{origin_base, located_value};

use crate::located::{Located, Origin};
use crate::places::Places;
use crate::value::Value;
use m51_cells::{Base, Name};

/// What the names and the place of a statement mean. No method allocates.
///
/// Source: own choice ("Values with a base").
pub trait Lookup {
    ghost meanings: { Self → Meanings };

    /// What a name means, or none if it has no value at the statement.
    fn value(&self, name: &Name) -> Option<Value>
        ensures { result ≡ (meanings self.now).value name.now };

    /// The place of the statement, `$`.
    fn here(&self) -> Value
        ensures { result ≡ (meanings self.now).here };

    /// Whether the segment of this number is absolute.
    fn fixed(&self, segment: u8) -> bool
        ensures { result ≡ (meanings self.now).fixed segment };

    /// Whether the segment of this number is of type BITADDRESSABLE.
    fn bitaddressable(&self, segment: u8) -> bool
        ensures { result ≡ (meanings self.now).bitaddressable segment };
}

// A base of an object as an origin.
fn origin_of(base: Base) -> Origin<u8>
    ensures { origin_base result ≡ base }
{
    match base {
        Base::None => Origin::None,
        Base::Segment(segment) => Origin::Segment(segment),
        Base::External(external) => Origin::External(external),
    }
}

// A value of an object with its origin.
fn with_origin(value: Value) -> Located<u8>
    ensures { located_value result ≡ value }
{
    Located {
        number: value.number,
        class: value.class,
        part: value.part,
        origin: origin_of(value.base),
    }
}

// An origin as the base of an object.
fn base_of(origin: Origin<u8>) -> Base
    ensures { result ≡ origin_base origin }
{
    match origin {
        Origin::None => Base::None,
        Origin::Segment(segment) => Base::Segment(segment),
        Origin::External(external) => Base::External(external),
    }
}

/// A value as one of an object.
pub(crate) fn object_value(value: Located<u8>) -> Value
    ensures { result ≡ located_value value }
{
    Value {
        number: value.number,
        class: value.class,
        base: base_of(value.origin),
        part: value.part,
    }
}

impl<L: Lookup> Places<u8> for L {
    ghost meanings = { λ l. L.meanings l };

    fn value(&self, name: &Name) -> Option<Located<u8>> {
        match Lookup::value(self, name) {
            Some(value) => Some(with_origin(value)),
            None => None,
        }
    }

    fn here(&self) -> Located<u8> {
        with_origin(Lookup::here(self))
    }

    fn fixed(&self, segment: u8) -> bool {
        Lookup::fixed(self, segment)
    }

    fn bitaddressable(&self, segment: u8) -> bool {
        Lookup::bitaddressable(self, segment)
    }
}
