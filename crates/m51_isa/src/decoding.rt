//! From bytes to the instruction that they begin with.
ghost use Rattle.std.specs.Prelude.{◌≡◌, ◌↔◌, IfSome, IsNone, slice_index};
ghost use Rattle.m51_isa.specs.Rows.{field_at, number_at, room};
ghost use Rattle.m51_isa.specs.Table.{IsRowAt, decoded};
ghost use Rattle.m51_isa.specs.TextLaws.{kept};

use crate::instr::Instr;
use crate::numbers::instr_of;
use crate::slot::Field;
use crate::table::{Operand, row_at, row_of_opcode};

// The number of a field in these bytes: of a word the high byte is first, of `addr11` the top three bits are in the
// opcode.
fn field_at(field: Field, byte: u8, bytes: (u8, u8, u8)) -> u16
    ensures value { result ≡ field_at field byte bytes }
    ensures room { kept field result ≡ result }
{
    let (first, second, third) = bytes;
    match field {
        Field::Data16 | Field::Addr16 => u16::from(second) * 256 + u16::from(third),
        Field::Addr11 => u16::from(first / 32) * 256 + u16::from(second),
        _ if byte == 1 => u16::from(second),
        _ => u16::from(third),
    }
}

// The number of an operand in these bytes: a register is in the opcode.
fn number_at(operand: Operand, bytes: (u8, u8, u8)) -> u16
    ensures value { result ≡ number_at operand bytes }
    ensures room { room operand result ≡ result }
{
    match operand {
        Operand::R => u16::from(bytes.0 % 8),
        Operand::AtR => u16::from(bytes.0 % 2),
        Operand::Imm(field, byte) | Operand::Plain(field, byte) | Operand::NotBit(field, byte) => {
            field_at(field, byte, bytes)
        }
        _ => 0,
    }
}

/// The instruction that the bytes begin with, or none exactly if the first of them is the reserved A5H.
///
/// Source: family manual.
pub fn decode(bytes: [u8; 3]) -> Option<Instr>
    ensures value { result ≡ decoded bytes }
    ensures row { IfSome result (IsRowAt bytes) }
    ensures only { (i : Instr) → IsRowAt bytes i → result ≡ Some i }
    ensures none { IsNone result ↔ (slice_index bytes 0 ≡ 0xA5) }
{
    let [first, second, third] = bytes;
    let row = row_of_opcode(first)?;
    let (_, columns) = row_at(row);
    let bytes = (first, second, third);
    let a = number_at(columns.first, bytes);
    let b = number_at(columns.second, bytes);
    let c = number_at(columns.third, bytes);
    Some(instr_of(row, a, b, c))
}
