//! The operands of the text of a row, and their fields.
ghost use Rattle.std.specs.Prelude.{◌≡◌};
ghost use Rattle.m51_isa.specs.Spelling.{field_in, look_of};

use crate::look::Look;
use crate::operand::{Pointer, Register};

/// What is meant by the number of an operand, in the manual's words.
///
/// Source: family manual.
#[derive(Clone, Copy, Debug, PartialEq, Eq)]
pub enum Field {
    /// `#data`: 8 bits.
    Data,
    /// `#data16`: 16 bits.
    Data16,
    /// `direct`: a direct address of 8 bits.
    Direct,
    /// `bit`: a bit address of 8 bits.
    Bit,
    /// `addr16`: a code address of 16 bits.
    Addr16,
    /// `addr11`: a code address within a block of 2,048 bytes, whose top three bits are in the opcode.
    Addr11,
    /// `rel`: a code address by its distance from the next instruction, a signed byte.
    Rel,
}

/// The field of an operand: what is meant, the byte of the instruction where it begins, and what it holds.
///
/// Source: family manual.
#[derive(Clone, Copy, Debug, PartialEq, Eq)]
pub struct FieldSlot {
    /// What is meant by the number.
    pub field: Field,
    /// The byte of the instruction where the field begins: 0 for `addr11`, else 1 or 2.
    pub byte: u8,
    /// The number.
    pub number: u16,
}

/// An operand of the text of a row.
///
/// Source: family manual.
#[derive(Clone, Copy)]
pub enum Slot {
    /// No operand.
    Nothing,
    /// `A`
    A,
    /// `AB`
    Ab,
    /// `C`
    C,
    /// `DPTR`
    Dptr,
    /// `@A+PC`
    APc,
    /// `@A+DPTR`
    ADptr,
    /// `@DPTR`
    AtDptr,
    /// `R0` to `R7`
    R(Register),
    /// `@R0` or `@R1`
    AtR(Pointer),
    /// `#` and a number.
    Imm(FieldSlot),
    /// A number: an address, a bit or a target.
    Plain(FieldSlot),
    /// `/` and the number of a bit.
    NotBit(FieldSlot),
}

impl Slot {
    /// Its field, if it has one.
    ///
    /// Source: family manual.
    pub fn field(&self) -> Option<FieldSlot>
        ensures { result ≡ field_in self.now }
    {
        match self {
            Slot::Imm(field) | Slot::Plain(field) | Slot::NotBit(field) => Some(*field),
            _ => None,
        }
    }

    /// What it looks like, whatever its number.
    ///
    /// Source: family manual.
    pub fn look(&self) -> Look
        ensures { result ≡ look_of self.now }
    {
        match self {
            Slot::Nothing => Look::Nothing,
            Slot::A => Look::A,
            Slot::Ab => Look::Ab,
            Slot::C => Look::C,
            Slot::Dptr => Look::Dptr,
            Slot::APc => Look::APc,
            Slot::ADptr => Look::ADptr,
            Slot::AtDptr => Look::AtDptr,
            Slot::R(n) => Look::R(*n),
            Slot::AtR(n) => Look::AtR(*n),
            Slot::Imm(_) => Look::Imm,
            Slot::Plain(_) => Look::Plain,
            Slot::NotBit(_) => Look::NotBit,
        }
    }
}
