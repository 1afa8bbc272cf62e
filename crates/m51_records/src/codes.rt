//! The numbers of kinds, types and forms in records.
ghost use Rattle.std.specs.Prelude.{◌≡◌, ◌<◌};
ghost use Rattle.m51_records.specs.Codes.{kind_number, kind_of, reloc_number, reloc_by_code, form_number, form_by_code};

use m51_cells::{Kind, Reloc};
use m51_module::Form;

// The kinds in the order of their numbers, from 0.
const KINDS: [Kind; 6] = [
    Kind::Code,
    Kind::Xdata,
    Kind::Direct,
    Kind::Idata,
    Kind::Bits,
    Kind::Number,
];

// The types in the order of their numbers, from 0.
const RELOCS: [Reloc; 6] = [
    Reloc::Abs,
    Reloc::Unit,
    Reloc::Bitaddressable,
    Reloc::Inpage,
    Reloc::Inblock,
    Reloc::Page,
];

// The forms in the order of their numbers, from 0.
const FORMS: [Form; 8] = [
    Form::Low,
    Form::Byte,
    Form::Relative,
    Form::High,
    Form::Word,
    Form::Inblock,
    Form::Bit,
    Form::Conv,
];

/// The kind of a number, if one has it.
///
/// Source: own choice ("Object records").
pub(crate) fn kind_of(number: u8) -> Option<Kind>
    ensures { result ≡ kind_of number }
{
    KINDS.get(usize::from(number)).copied()
}

/// The number of a kind.
///
/// Source: own choice ("Object records").
pub(crate) fn kind_number(kind: Kind) -> u8
    ensures { result ≡ kind_number kind }
{
    match kind {
        Kind::Code => 0,
        Kind::Xdata => 1,
        Kind::Direct => 2,
        Kind::Idata => 3,
        Kind::Bits => 4,
        Kind::Number => 5,
    }
}

/// The type of a number, if one has it.
///
/// Source: own choice ("Object records").
pub(crate) fn reloc_by_code(number: u8) -> Option<Reloc>
    ensures { result ≡ reloc_by_code number }
{
    RELOCS.get(usize::from(number)).copied()
}

/// The number of a type.
///
/// Source: own choice ("Object records").
pub(crate) fn reloc_number(reloc: Reloc) -> u8
    ensures { result ≡ reloc_number reloc }
{
    match reloc {
        Reloc::Abs => 0,
        Reloc::Unit => 1,
        Reloc::Bitaddressable => 2,
        Reloc::Inpage => 3,
        Reloc::Inblock => 4,
        Reloc::Page => 5,
    }
}

/// The form of a number, if one has it.
///
/// Source: own choice ("Object records").
pub(crate) fn form_by_code(number: u8) -> Option<Form>
    ensures { result ≡ form_by_code number }
{
    FORMS.get(usize::from(number)).copied()
}

/// The number of a form.
///
/// Source: own choice ("Object records").
pub(crate) fn form_number(form: Form) -> u8
    ensures { result ≡ form_number form }
{
    match form {
        Form::Low => 0,
        Form::Byte => 1,
        Form::Relative => 2,
        Form::High => 3,
        Form::Word => 4,
        Form::Inblock => 5,
        Form::Bit => 6,
        Form::Conv => 7,
    }
}
