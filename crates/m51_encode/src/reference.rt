//! Fields, and what the linker has to fill in.
ghost use Rattle.std.specs.Prelude.{◌≡◌};
ghost use Rattle.m51_expr.specs.Located.{located_value};
ghost use Rattle.m51_encode.specs.Reference.{form_of, bit_of_part, reference_of};

use crate::bases::{Numbered, object_base};
use m51_cells::Base;
use m51_expr::{Located, Part};
use m51_isa::Field;
use m51_module::Form;

/// What the linker has to fill in.
///
/// Source: OMF-51.
#[derive(Clone, Copy, Debug, PartialEq, Eq)]
pub struct Reference {
    /// How the field is filled.
    pub form: Form,
    /// The number of the bit, 0 to 7, for CONV; 0 else.
    pub bit: u8,
    /// The segment or external that the address counts from.
    pub base: Base,
    /// What is added to the base; where an operator is over the base, its operand.
    pub number: u16,
}

/// What a field of a statement holds.
///
/// Source: own choice ("Fields").
#[derive(Clone, Copy, Debug, PartialEq, Eq)]
pub enum FieldValue {
    /// A number: 0 to 255 for data, addresses and bits of 8 bits and for `rel`, 0 to 2,047 for `addr11`, else 16 bits.
    Number(u16),
    /// What the linker fills in.
    Linked(Reference),
}

// The form of the field.
fn form_of(field: Field, part: Part) -> Form
    ensures { result ≡ form_of field part }
{
    match (field, part) {
        (Field::Data16 | Field::Addr16, _) => Form::Word,
        (Field::Addr11, _) => Form::Inblock,
        (Field::Rel, _) => Form::Relative,
        (_, Part::Bit(_)) => Form::Conv,
        (_, Part::High) => Form::High,
        (_, Part::Low) => Form::Low,
        (Field::Bit, Part::Whole) => Form::Bit,
        (Field::Data | Field::Direct, Part::Whole) => Form::Byte,
    }
}

// The number of the bit that the dot names.
fn bit_of_part(part: Part) -> u8
    ensures { result ≡ bit_of_part part }
{
    match part {
        Part::Bit(bit) => bit,
        Part::Whole | Part::High | Part::Low => 0,
    }
}

/// What a value in the field leaves to the linker.
pub(crate) fn reference_of<N: Numbered>(names: &N, field: Field, value: Located<u32>) -> Reference
    ensures { result ≡ reference_of (N.meanings names.now) field (located_value value) }
{
    Reference {
        form: form_of(field, value.part),
        bit: bit_of_part(value.part),
        base: object_base(names, value.origin),
        number: value.number,
    }
}
