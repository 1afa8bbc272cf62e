//! What a field takes: classes, operators and numbers.
ghost use Rattle.std.specs.Prelude.{◌≡◌};
ghost use Rattle.m51_encode.specs.Taking.{takes_class, takes_part, takes_number, held_of};

use m51_cells::Kind;
use m51_expr::Part;
use m51_isa::{Field, fits_byte};

/// Whether values of the class are allowed in the field.
pub(crate) fn takes_class(field: Field, class: Kind) -> bool
    ensures { result ≡ takes_class field class }
{
    match (field, class) {
        (_, Kind::Number) | (Field::Data | Field::Data16, _) => true,
        (Field::Direct, Kind::Direct) | (Field::Bit, Kind::Bits) => true,
        (Field::Addr16 | Field::Addr11 | Field::Rel, Kind::Code) => true,
        _ => false,
    }
}

/// Whether a base under the operator is allowed in the field.
pub(crate) fn takes_part(field: Field, part: Part) -> bool
    ensures { result ≡ takes_part field part }
{
    match (field, part) {
        (_, Part::Whole) | (Field::Data | Field::Direct, _) | (Field::Bit, Part::Bit(_)) => true,
        _ => false,
    }
}

/// Whether the number fits the field.
pub(crate) fn takes_number(field: Field, number: u16) -> bool
    ensures { result ≡ takes_number field number }
{
    match field {
        Field::Data => fits_byte(number),
        Field::Direct | Field::Bit => number <= 0xFF,
        Field::Data16 | Field::Addr16 | Field::Addr11 | Field::Rel => true,
    }
}

/// What a field holds of a number.
pub(crate) fn held_of(field: Field, number: u16) -> u16
    ensures { result ≡ held_of field number }
{
    match field {
        Field::Data => number % 256,
        _ => number,
    }
}
