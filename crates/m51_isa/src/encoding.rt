//! From an instruction to its bytes.
ghost use Rattle.std.specs.Prelude.{◌≡◌, ◌<◌};
ghost use Rattle.m51_isa.specs.Rows.{laid};
ghost use Rattle.m51_isa.specs.Table.{encoded, length_of, padded, IsRowAt};

use crate::instr::Instr;
use crate::numbers::numbers_of;
use crate::table::{Layout, length, row_at};

/// The bytes of an instruction: the first `len` of them, and zeros.
///
/// Source: own choice ("Bytes of an instruction").
#[derive(Clone, Copy, Debug, PartialEq, Eq)]
pub struct Code {
    /// The bytes, with 0 past the length.
    pub bytes: [u8; 3],
    /// How many bytes the instruction has, 1 to 3.
    pub len: u8,
}

// The three bytes of an instruction.
type Bytes = (u8, u8, u8);

// The bytes of a row with these numbers.
fn laid(layout: Layout, opcode: u8, a: u16, b: u16, c: u16) -> Bytes
    requires first { (laid layout opcode a b c).0 < 256 }
    requires second { (laid layout opcode a b c).1 < 256 }
    requires third { (laid layout opcode a b c).2 < 256 }
    ensures { result ≡ laid layout opcode a b c }
{
    match layout {
        Layout::LowABC => (opcode + a as u8, b as u8, c as u8),
        Layout::LowBA => (opcode + b as u8, a as u8, 0),
        Layout::AB => (opcode, a as u8, b as u8),
        Layout::BA => (opcode, b as u8, a as u8),
        Layout::BC => (opcode, b as u8, c as u8),
        Layout::WordA => (opcode, (a / 256) as u8, (a % 256) as u8),
        Layout::WordB => (opcode, (b / 256) as u8, (b % 256) as u8),
        Layout::BlockA => (opcode + 32 * (a / 256) as u8, (a % 256) as u8, 0),
    }
}

/// The bytes of an instruction.
///
/// Source: family manual.
pub fn encode(instr: &Instr) -> Code
    ensures bytes { result.bytes ≡ padded (encoded instr.now) }
    ensures len { result.len ≡ length_of instr.now }
    ensures row { IsRowAt result.bytes instr.now }
{
    let numbers = numbers_of(instr);
    let (_, columns) = row_at(numbers.row);
    let (first, second, third) = laid(
        columns.layout,
        columns.opcode,
        numbers.first,
        numbers.second,
        numbers.third,
    );
    Code {
        bytes: [first, second, third],
        len: length(instr),
    }
}
