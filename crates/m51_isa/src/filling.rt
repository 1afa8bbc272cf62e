//! Puts numbers into the fields of a row.
ghost use Rattle.std.specs.Prelude.{◌≡◌};
ghost use Rattle.m51_isa.specs.Filling.{with_numbers};
ghost use Rattle.m51_isa.specs.Rows.{FitsOperand, refilled, room};

use crate::instr::Instr;
use crate::numbers::{instr_of, numbers_of};
use crate::table::{Operand, row_at};

// The number of an operand: this one for a field, else its own.
fn refilled(operand: Operand, own: u16, number: u16) -> u16
    requires { FitsOperand operand own }
    ensures { room operand result ≡ refilled operand own number }
{
    match operand {
        Operand::Imm(..) | Operand::Plain(..) | Operand::NotBit(..) => number,
        _ => own,
    }
}

/// The row with these numbers in the fields of its first, second and third operand, in the order of the text. A field
/// takes what it has room for: of 8 bits the low byte, `addr11` the number modulo 2,048. The number of an operand
/// without a field is not looked at.
///
/// Source: family manual.
pub fn with_numbers(row: &Instr, a: u16, b: u16, c: u16) -> Instr
    ensures { result ≡ with_numbers row.now a b c }
{
    let numbers = numbers_of(row);
    let (_, columns) = row_at(numbers.row);
    let a = refilled(columns.first, numbers.first, a);
    let b = refilled(columns.second, numbers.second, b);
    let c = refilled(columns.third, numbers.third, c);
    instr_of(numbers.row, a, b, c)
}
