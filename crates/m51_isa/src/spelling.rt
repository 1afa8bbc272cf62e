//! The text of the rows of the instruction table.
ghost use Rattle.std.specs.Prelude.{◌≡◌};
ghost use Rattle.m51_isa.specs.Rows.{FitsOperand, slot_of};
ghost use Rattle.m51_isa.specs.Spelling.{text_in, text_of};

use crate::instr::Instr;
use crate::numbers::numbers_of;
use crate::operand::{Pointer, Register};
use crate::slot::{FieldSlot, Slot};
use crate::table::{Operand, row_at};

/// The text of a row: its mnemonic and its operands, in the order of the text.
///
/// Source: family manual.
#[derive(Clone, Copy)]
pub struct Spelling {
    /// The mnemonic, in upper case.
    pub mnemonic: &'static [u8],
    /// The first operand, if there is one.
    pub first: Slot,
    /// The second operand, if there is one.
    pub second: Slot,
    /// The third operand, if there is one.
    pub third: Slot,
}

// An operand with its number.
fn slot_of(operand: Operand, number: u16) -> Slot
    requires { FitsOperand operand number }
    ensures { result ≡ slot_of operand number }
{
    match operand {
        Operand::Nothing => Slot::Nothing,
        Operand::A => Slot::A,
        Operand::Ab => Slot::Ab,
        Operand::C => Slot::C,
        Operand::Dptr => Slot::Dptr,
        Operand::APc => Slot::APc,
        Operand::ADptr => Slot::ADptr,
        Operand::AtDptr => Slot::AtDptr,
        Operand::R => Slot::R(Register::new(number as u8)),
        Operand::AtR => Slot::AtR(Pointer::new(number as u8)),
        Operand::Imm(field, byte) => Slot::Imm(FieldSlot {
            field,
            byte,
            number,
        }),
        Operand::Plain(field, byte) => Slot::Plain(FieldSlot {
            field,
            byte,
            number,
        }),
        Operand::NotBit(field, byte) => Slot::NotBit(FieldSlot {
            field,
            byte,
            number,
        }),
    }
}

/// The text of a row, with the numbers that it has as an instruction: of the two direct addresses of `MOV
/// direct,direct` the target comes first.
///
/// Source: family manual.
pub fn spelling_of(row: &Instr) -> Spelling
    ensures { text_in result ≡ text_of row.now }
{
    let numbers = numbers_of(row);
    let (mnemonic, columns) = row_at(numbers.row);
    Spelling {
        mnemonic,
        first: slot_of(columns.first, numbers.first),
        second: slot_of(columns.second, numbers.second),
        third: slot_of(columns.third, numbers.third),
    }
}
