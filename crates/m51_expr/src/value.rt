//! Values of expressions.
ghost use Rattle.std.specs.Prelude.{◌≡◌};
ghost use Rattle.m51_expr.specs.Value.{is_whole, part_value};

use m51_cells::{Base, Kind};
use m51_isa::bit_address;

/// The operator that is over the number of a value with a base.
///
/// Source: own choice ("Values with a base").
#[derive(Clone, Copy, Debug, PartialEq, Eq)]
pub enum Part {
    /// None.
    Whole,
    /// `HIGH`
    High,
    /// `LOW`
    Low,
    /// `.` and a bit number from 0 to 7.
    Bit(u8),
}

/// The value of an expression.
///
/// Source: own choice ("Values with a base").
#[derive(Clone, Copy, Debug, PartialEq, Eq)]
pub struct Value {
    /// The number, counted from the base; where a part is named, that of its operand.
    pub number: u16,
    /// What memory the value is of.
    pub class: Kind,
    pub base: Base,
    pub part: Part,
}

/// Whether neither `HIGH`, `LOW` nor `.` is over the number.
///
/// Source: own choice ("Values with a base").
pub fn is_whole(part: Part) -> bool
    ensures { result ≡ is_whole part }
{
    match part {
        Part::Whole => true,
        Part::High | Part::Low | Part::Bit(_) => false,
    }
}

/// A number under a part: the number, its high byte, its low byte or the address of its bit, which is 0 where it has
/// none.
pub(crate) fn part_value(number: u16, part: Part) -> u16
    ensures { result ≡ part_value number part }
{
    match part {
        Part::Whole => number,
        Part::High => number / 256,
        Part::Low => number % 256,
        Part::Bit(bit) => match bit_address(number, u16::from(bit)) {
            Some(address) => address,
            None => 0,
        },
    }
}
