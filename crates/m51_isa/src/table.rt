//! The instruction table: a row for each instruction, and length and cycles of each. A step of a board asks for length
//! and cycles, so no row is read for them.
ghost use Rattle.std.specs.Prelude.{◌≡◌, ◌<◌, IfSome, is_none, length, map, slice_index};
ghost use Rattle.m51_isa.specs.Rows.{column_of, columns_at, mnemonic_at, row_among, row_count, row_of_opcode};
ghost use Rattle.m51_isa.specs.Table.{cycles_of, flow_of, is_reserved, length_of};

use crate::instr::Flow::{Branch, Call, Next, Ret, Reti};
use crate::instr::{Flow, Instr};
use crate::numbers::numbers_of;
use crate::slot::Field;
use crate::table::Layout::{AB, BA, BC, BlockA, LowABC, LowBA, WordA, WordB};
use crate::table::Operand::{A, ADptr, APc, Ab, AtDptr, AtR, C, Dptr, Nothing, R};

// An operand of a row, without its number.
#[derive(Clone, Copy)]
pub(crate) enum Operand {
    Nothing,
    A,
    Ab,
    C,
    Dptr,
    APc,
    ADptr,
    AtDptr,
    R,
    AtR,
    // A field, and the byte of the instruction where it begins.
    Imm(Field, u8),
    Plain(Field, u8),
    NotBit(Field, u8),
}

// How the numbers A, B and C of the operands of a row are laid out in its bytes. The number of an operand that is
// missing is 0. A low number is in the opcode, a word has its high byte first, a block has its top three bits in the
// opcode.
#[derive(Clone, Copy)]
pub(crate) enum Layout {
    LowABC,
    LowBA,
    AB,
    BA,
    BC,
    WordA,
    WordB,
    BlockA,
}

// The columns of a row: its operands in the order of the text, the first of its opcodes, how its bytes are
// laid out, and where control goes.
#[derive(Clone, Copy)]
pub(crate) struct Columns {
    pub first: Operand,
    pub second: Operand,
    pub third: Operand,
    pub opcode: u8,
    pub layout: Layout,
    pub flow: Flow,
}

const DATA_1: Operand = Operand::Imm(Field::Data, 1);

const DATA_2: Operand = Operand::Imm(Field::Data, 2);

const DATA16: Operand = Operand::Imm(Field::Data16, 1);

const DIRECT_1: Operand = Operand::Plain(Field::Direct, 1);

const DIRECT_2: Operand = Operand::Plain(Field::Direct, 2);

const BIT: Operand = Operand::Plain(Field::Bit, 1);

const NOT_BIT: Operand = Operand::NotBit(Field::Bit, 1);

const ADDR16: Operand = Operand::Plain(Field::Addr16, 1);

const ADDR11: Operand = Operand::Plain(Field::Addr11, 0);

const REL_1: Operand = Operand::Plain(Field::Rel, 1);

const REL_2: Operand = Operand::Plain(Field::Rel, 2);

// A row: its mnemonic and its columns.
pub(crate) type Row = (&'static [u8], Columns);

macro_rules! row {
    ($mnemonic:expr, $first:expr, $second:expr, $third:expr, $opcode:expr, $layout:expr, $flow:expr) => {
        (
            $mnemonic,
            Columns {
                first: $first,
                second: $second,
                third: $third,
                opcode: $opcode,
                layout: $layout,
                flow: $flow,
            },
        )
    };
}

// How many rows there are.
pub(crate) const ROW_COUNT: u8 = 111;

// The rows, in the order of the variants of [`Instr`].
pub(crate) static ROWS: [Row; 111] = [
    row!(b"NOP", Nothing, Nothing, Nothing, 0x00, LowABC, Next),
    row!(b"JBC", BIT, REL_2, Nothing, 0x10, AB, Branch),
    row!(b"JB", BIT, REL_2, Nothing, 0x20, AB, Branch),
    row!(b"JNB", BIT, REL_2, Nothing, 0x30, AB, Branch),
    row!(b"JC", REL_1, Nothing, Nothing, 0x40, AB, Branch),
    row!(b"JNC", REL_1, Nothing, Nothing, 0x50, AB, Branch),
    row!(b"JZ", REL_1, Nothing, Nothing, 0x60, AB, Branch),
    row!(b"JNZ", REL_1, Nothing, Nothing, 0x70, AB, Branch),
    row!(b"SJMP", REL_1, Nothing, Nothing, 0x80, AB, Branch),
    row!(b"MOV", Dptr, DATA16, Nothing, 0x90, WordB, Next),
    row!(b"ORL", C, NOT_BIT, Nothing, 0xA0, BC, Next),
    row!(b"ANL", C, NOT_BIT, Nothing, 0xB0, BC, Next),
    row!(b"PUSH", DIRECT_1, Nothing, Nothing, 0xC0, AB, Next),
    row!(b"POP", DIRECT_1, Nothing, Nothing, 0xD0, AB, Next),
    row!(b"MOVX", A, AtDptr, Nothing, 0xE0, LowABC, Next),
    row!(b"MOVX", AtDptr, A, Nothing, 0xF0, LowABC, Next),
    row!(b"AJMP", ADDR11, Nothing, Nothing, 0x01, BlockA, Branch),
    row!(b"ACALL", ADDR11, Nothing, Nothing, 0x11, BlockA, Call),
    row!(b"LJMP", ADDR16, Nothing, Nothing, 0x02, WordA, Branch),
    row!(b"LCALL", ADDR16, Nothing, Nothing, 0x12, WordA, Call),
    row!(b"RET", Nothing, Nothing, Nothing, 0x22, LowABC, Ret),
    row!(b"RETI", Nothing, Nothing, Nothing, 0x32, LowABC, Reti),
    row!(b"ORL", DIRECT_1, A, Nothing, 0x42, AB, Next),
    row!(b"ANL", DIRECT_1, A, Nothing, 0x52, AB, Next),
    row!(b"XRL", DIRECT_1, A, Nothing, 0x62, AB, Next),
    row!(b"ORL", C, BIT, Nothing, 0x72, BC, Next),
    row!(b"ANL", C, BIT, Nothing, 0x82, BC, Next),
    row!(b"MOV", BIT, C, Nothing, 0x92, AB, Next),
    row!(b"MOV", C, BIT, Nothing, 0xA2, BC, Next),
    row!(b"CPL", BIT, Nothing, Nothing, 0xB2, AB, Next),
    row!(b"CLR", BIT, Nothing, Nothing, 0xC2, AB, Next),
    row!(b"SETB", BIT, Nothing, Nothing, 0xD2, AB, Next),
    row!(b"MOVX", A, AtR, Nothing, 0xE2, LowBA, Next),
    row!(b"MOVX", AtR, A, Nothing, 0xF2, LowABC, Next),
    row!(b"RR", A, Nothing, Nothing, 0x03, LowABC, Next),
    row!(b"RRC", A, Nothing, Nothing, 0x13, LowABC, Next),
    row!(b"RL", A, Nothing, Nothing, 0x23, LowABC, Next),
    row!(b"RLC", A, Nothing, Nothing, 0x33, LowABC, Next),
    row!(b"ORL", DIRECT_1, DATA_2, Nothing, 0x43, AB, Next),
    row!(b"ANL", DIRECT_1, DATA_2, Nothing, 0x53, AB, Next),
    row!(b"XRL", DIRECT_1, DATA_2, Nothing, 0x63, AB, Next),
    row!(b"JMP", ADptr, Nothing, Nothing, 0x73, LowABC, Branch),
    row!(b"MOVC", A, APc, Nothing, 0x83, LowABC, Next),
    row!(b"MOVC", A, ADptr, Nothing, 0x93, LowABC, Next),
    row!(b"INC", Dptr, Nothing, Nothing, 0xA3, LowABC, Next),
    row!(b"CPL", C, Nothing, Nothing, 0xB3, LowABC, Next),
    row!(b"CLR", C, Nothing, Nothing, 0xC3, LowABC, Next),
    row!(b"SETB", C, Nothing, Nothing, 0xD3, LowABC, Next),
    row!(b"INC", A, Nothing, Nothing, 0x04, LowABC, Next),
    row!(b"DEC", A, Nothing, Nothing, 0x14, LowABC, Next),
    row!(b"ADD", A, DATA_1, Nothing, 0x24, BC, Next),
    row!(b"ADDC", A, DATA_1, Nothing, 0x34, BC, Next),
    row!(b"ORL", A, DATA_1, Nothing, 0x44, BC, Next),
    row!(b"ANL", A, DATA_1, Nothing, 0x54, BC, Next),
    row!(b"XRL", A, DATA_1, Nothing, 0x64, BC, Next),
    row!(b"MOV", A, DATA_1, Nothing, 0x74, BC, Next),
    row!(b"DIV", Ab, Nothing, Nothing, 0x84, LowABC, Next),
    row!(b"SUBB", A, DATA_1, Nothing, 0x94, BC, Next),
    row!(b"MUL", Ab, Nothing, Nothing, 0xA4, LowABC, Next),
    row!(b"CJNE", A, DATA_1, REL_2, 0xB4, BC, Branch),
    row!(b"SWAP", A, Nothing, Nothing, 0xC4, LowABC, Next),
    row!(b"DA", A, Nothing, Nothing, 0xD4, LowABC, Next),
    row!(b"CLR", A, Nothing, Nothing, 0xE4, LowABC, Next),
    row!(b"CPL", A, Nothing, Nothing, 0xF4, LowABC, Next),
    row!(b"INC", DIRECT_1, Nothing, Nothing, 0x05, AB, Next),
    row!(b"DEC", DIRECT_1, Nothing, Nothing, 0x15, AB, Next),
    row!(b"ADD", A, DIRECT_1, Nothing, 0x25, BC, Next),
    row!(b"ADDC", A, DIRECT_1, Nothing, 0x35, BC, Next),
    row!(b"ORL", A, DIRECT_1, Nothing, 0x45, BC, Next),
    row!(b"ANL", A, DIRECT_1, Nothing, 0x55, BC, Next),
    row!(b"XRL", A, DIRECT_1, Nothing, 0x65, BC, Next),
    row!(b"MOV", DIRECT_1, DATA_2, Nothing, 0x75, AB, Next),
    row!(b"MOV", DIRECT_2, DIRECT_1, Nothing, 0x85, BA, Next),
    row!(b"SUBB", A, DIRECT_1, Nothing, 0x95, BC, Next),
    row!(b"CJNE", A, DIRECT_1, REL_2, 0xB5, BC, Branch),
    row!(b"XCH", A, DIRECT_1, Nothing, 0xC5, BC, Next),
    row!(b"DJNZ", DIRECT_1, REL_2, Nothing, 0xD5, AB, Branch),
    row!(b"MOV", A, DIRECT_1, Nothing, 0xE5, BC, Next),
    row!(b"MOV", DIRECT_1, A, Nothing, 0xF5, AB, Next),
    row!(b"INC", AtR, Nothing, Nothing, 0x06, LowABC, Next),
    row!(b"DEC", AtR, Nothing, Nothing, 0x16, LowABC, Next),
    row!(b"ADD", A, AtR, Nothing, 0x26, LowBA, Next),
    row!(b"ADDC", A, AtR, Nothing, 0x36, LowBA, Next),
    row!(b"ORL", A, AtR, Nothing, 0x46, LowBA, Next),
    row!(b"ANL", A, AtR, Nothing, 0x56, LowBA, Next),
    row!(b"XRL", A, AtR, Nothing, 0x66, LowBA, Next),
    row!(b"MOV", AtR, DATA_1, Nothing, 0x76, LowABC, Next),
    row!(b"MOV", DIRECT_1, AtR, Nothing, 0x86, LowBA, Next),
    row!(b"SUBB", A, AtR, Nothing, 0x96, LowBA, Next),
    row!(b"MOV", AtR, DIRECT_1, Nothing, 0xA6, LowABC, Next),
    row!(b"CJNE", AtR, DATA_1, REL_2, 0xB6, LowABC, Branch),
    row!(b"XCH", A, AtR, Nothing, 0xC6, LowBA, Next),
    row!(b"XCHD", A, AtR, Nothing, 0xD6, LowBA, Next),
    row!(b"MOV", A, AtR, Nothing, 0xE6, LowBA, Next),
    row!(b"MOV", AtR, A, Nothing, 0xF6, LowABC, Next),
    row!(b"INC", R, Nothing, Nothing, 0x08, LowABC, Next),
    row!(b"DEC", R, Nothing, Nothing, 0x18, LowABC, Next),
    row!(b"ADD", A, R, Nothing, 0x28, LowBA, Next),
    row!(b"ADDC", A, R, Nothing, 0x38, LowBA, Next),
    row!(b"ORL", A, R, Nothing, 0x48, LowBA, Next),
    row!(b"ANL", A, R, Nothing, 0x58, LowBA, Next),
    row!(b"XRL", A, R, Nothing, 0x68, LowBA, Next),
    row!(b"MOV", R, DATA_1, Nothing, 0x78, LowABC, Next),
    row!(b"MOV", DIRECT_1, R, Nothing, 0x88, LowBA, Next),
    row!(b"SUBB", A, R, Nothing, 0x98, LowBA, Next),
    row!(b"MOV", R, DIRECT_1, Nothing, 0xA8, LowABC, Next),
    row!(b"CJNE", R, DATA_1, REL_2, 0xB8, LowABC, Branch),
    row!(b"XCH", A, R, Nothing, 0xC8, LowBA, Next),
    row!(b"DJNZ", R, REL_1, Nothing, 0xD8, LowABC, Branch),
    row!(b"MOV", A, R, Nothing, 0xE8, LowBA, Next),
    row!(b"MOV", R, A, Nothing, 0xF8, LowABC, Next),
];

// The entry of an opcode without a row.
const NO_ROW: u8 = 255;

// The row of each opcode, laid out as the manual's table of opcodes: a column for each low digit, and one for those
// that end in a register.
static COLUMNS: [[u8; 16]; 8] = [
    [0, 1, 2, 3, 4, 5, 6, 7, 8, 9, 10, 11, 12, 13, 14, 15],
    [
        16, 17, 16, 17, 16, 17, 16, 17, 16, 17, 16, 17, 16, 17, 16, 17,
    ],
    [
        18, 19, 20, 21, 22, 23, 24, 25, 26, 27, 28, 29, 30, 31, 32, 33,
    ],
    [
        34, 35, 36, 37, 38, 39, 40, 41, 42, 43, 44, 45, 46, 47, 32, 33,
    ],
    [
        48, 49, 50, 51, 52, 53, 54, 55, 56, 57, 58, 59, 60, 61, 62, 63,
    ],
    [
        64, 65, 66, 67, 68, 69, 70, 71, 72, 73, NO_ROW, 74, 75, 76, 77, 78,
    ],
    [
        79, 80, 81, 82, 83, 84, 85, 86, 87, 88, 89, 90, 91, 92, 93, 94,
    ],
    [
        95, 96, 97, 98, 99, 100, 101, 102, 103, 104, 105, 106, 107, 108, 109, 110,
    ],
];

// The column of a low digit: 6 and 7 are the opcodes of `@R0` and `@R1`, 8 to F those of `R0` to `R7`.
fn column_of(low: u8) -> u8
    ensures value { result ≡ column_of low }
    ensures below { result < 8 }
{
    match low {
        0..=5 => low,
        6 | 7 => 6,
        _ => 7,
    }
}

// An entry of a column, by the high digit.
fn entry(column: &[u8; 16], high: u8) -> u8
    requires { high < 16 }
    ensures { result ≡ slice_index column.now high }
{
    column[usize::from(high)]
}

// The number of the row of an opcode, if it has one.
pub(crate) fn row_of_opcode(opcode: u8) -> Option<u8>
    ensures value { result ≡ row_of_opcode opcode }
    ensures below { IfSome result (λ row. row < row_count) }
    ensures none { is_none result ≡ is_reserved opcode }
{
    let column = column_of(opcode % 16);
    match entry(&COLUMNS[usize::from(column)], opcode / 16) {
        NO_ROW => None,
        row => Some(row),
    }
}

// One of these rows.
#[inline(always)]
fn row_among(rows: &[Row], row: u8) -> Row
    requires { row < length rows.now }
    ensures mnemonic { result.0.now ≡ (row_among (map (λ r. (r.0.now, r.1)) rows.now) row).0 }
    ensures columns { result.1 ≡ (row_among (map (λ r. (r.0.now, r.1)) rows.now) row).1 }
{
    rows[usize::from(row)]
}

// The row of a number.
#[inline(always)]
pub(crate) fn row_at(row: u8) -> Row
    requires { row < row_count }
    ensures mnemonic { result.0.now ≡ mnemonic_at row }
    ensures columns { result.1 ≡ columns_at row }
{
    row_among(&ROWS, row)
}

// The rows by their place, which is made of the first letter and the length of the mnemonic and of the kinds of the
// first two operands ([`place`](crate::searching)): one row at each of the 256 places, and then one more at each; 0
// where there is none. `tests/row_places` prints them.
pub(crate) static PLACES: [u8; 512] = [
    0, 0, 0, 47, 97, 81, 50, 66, 92, 95, 0, 23, 0, 0, 0, 90, 62, 0, 0, 0, 39, 0, 0, 0, 0, 0, 49, 0,
    0, 0, 29, 0, 0, 98, 82, 51, 67, 0, 0, 16, 65, 0, 0, 0, 0, 0, 0, 0, 0, 0, 110, 0, 15, 56, 0, 59,
    74, 0, 0, 102, 105, 26, 11, 0, 0, 0, 0, 0, 17, 0, 45, 4, 0, 0, 0, 0, 48, 94, 0, 0, 76, 0, 2, 0,
    0, 0, 86, 89, 0, 0, 64, 0, 0, 0, 0, 0, 0, 0, 0, 0, 5, 0, 0, 0, 0, 0, 33, 0, 0, 0, 0, 1, 0, 0,
    0, 0, 0, 0, 0, 0, 0, 0, 0, 0, 109, 93, 55, 77, 0, 0, 0, 78, 0, 27, 0, 0, 0, 34, 103, 20, 71,
    72, 0, 58, 99, 83, 52, 68, 0, 18, 42, 22, 14, 0, 32, 0, 0, 44, 0, 0, 13, 0, 0, 0, 0, 0, 35, 0,
    21, 0, 0, 0, 0, 0, 0, 0, 0, 0, 19, 0, 0, 28, 0, 0, 0, 0, 0, 0, 0, 12, 0, 0, 0, 0, 0, 0, 0, 0,
    0, 0, 0, 25, 10, 0, 0, 60, 0, 9, 0, 0, 0, 0, 0, 104, 88, 57, 73, 0, 0, 8, 0, 41, 0, 0, 0, 0, 0,
    0, 0, 0, 0, 0, 0, 0, 101, 85, 54, 70, 0, 0, 0, 24, 80, 0, 106, 0, 0, 0, 0, 0, 40, 0, 0, 61, 0,
    108, 0, 0, 0, 0, 100, 84, 53, 69, 0, 0, 0, 0, 0, 0, 0, 0, 63, 0, 0, 0, 0, 0, 0, 0, 0, 0, 0, 0,
    0, 0, 30, 0, 0, 0, 0, 0, 79, 0, 0, 0, 0, 0, 0, 0, 0, 0, 0, 0, 0, 0, 0, 0, 0, 0, 0, 0, 0, 0, 0,
    0, 0, 0, 0, 0, 0, 0, 0, 0, 0, 0, 46, 6, 0, 0, 0, 0, 0, 0, 0, 0, 0, 0, 0, 0, 0, 0, 0, 0, 0, 0,
    0, 0, 0, 0, 0, 0, 0, 0, 0, 0, 7, 0, 0, 0, 0, 0, 0, 0, 0, 0, 0, 3, 0, 0, 0, 0, 0, 0, 0, 0, 0, 0,
    0, 0, 0, 0, 0, 0, 0, 0, 0, 0, 0, 0, 0, 0, 0, 36, 0, 87, 0, 0, 0, 0, 0, 0, 0, 0, 0, 0, 0, 43, 0,
    0, 0, 0, 0, 0, 0, 0, 38, 0, 0, 0, 0, 0, 37, 0, 0, 0, 0, 0, 0, 0, 0, 0, 0, 0, 0, 0, 0, 0, 0, 0,
    0, 0, 0, 0, 0, 0, 0, 0, 0, 0, 0, 0, 0, 0, 0, 0, 0, 0, 0, 0, 0, 0, 0, 0, 0, 0, 0, 0, 0, 0, 0,
    96, 0, 0, 0, 31, 0, 0, 0, 0, 0, 0, 0, 0, 0, 0, 0, 0, 0, 0, 107, 91, 0, 75, 0, 0, 0, 0, 0, 0, 0,
    0, 0, 0, 0, 0, 0, 0, 0, 0, 0, 0,
];

/// How many bytes an instruction has, 1 to 3.
///
/// Source: family manual.
#[inline(always)]
pub fn length(instr: &Instr) -> u8
    ensures { result ≡ length_of instr.now }
{
    match instr {
        Instr::JbcBitRel(..)
        | Instr::JbBitRel(..)
        | Instr::JnbBitRel(..)
        | Instr::MovDptrData16(..)
        | Instr::LjmpAddr16(..)
        | Instr::LcallAddr16(..)
        | Instr::OrlDirectData(..)
        | Instr::AnlDirectData(..)
        | Instr::XrlDirectData(..)
        | Instr::CjneADataRel(..)
        | Instr::MovDirectData(..)
        | Instr::MovDirectDirect(..)
        | Instr::CjneADirectRel(..)
        | Instr::DjnzDirectRel(..)
        | Instr::CjneAtRiDataRel(..)
        | Instr::CjneRnDataRel(..) => 3,
        Instr::SjmpRel(..)
        | Instr::JcRel(..)
        | Instr::JncRel(..)
        | Instr::JzRel(..)
        | Instr::JnzRel(..)
        | Instr::OrlCNotBit(..)
        | Instr::AnlCNotBit(..)
        | Instr::PushDirect(..)
        | Instr::PopDirect(..)
        | Instr::AjmpAddr11(..)
        | Instr::AcallAddr11(..)
        | Instr::OrlDirectA(..)
        | Instr::AnlDirectA(..)
        | Instr::XrlDirectA(..)
        | Instr::OrlCBit(..)
        | Instr::AnlCBit(..)
        | Instr::MovBitC(..)
        | Instr::MovCBit(..)
        | Instr::CplBit(..)
        | Instr::ClrBit(..)
        | Instr::SetbBit(..)
        | Instr::AddAData(..)
        | Instr::AddcAData(..)
        | Instr::OrlAData(..)
        | Instr::AnlAData(..)
        | Instr::XrlAData(..)
        | Instr::MovAData(..)
        | Instr::SubbAData(..)
        | Instr::IncDirect(..)
        | Instr::DecDirect(..)
        | Instr::AddADirect(..)
        | Instr::AddcADirect(..)
        | Instr::OrlADirect(..)
        | Instr::AnlADirect(..)
        | Instr::XrlADirect(..)
        | Instr::SubbADirect(..)
        | Instr::XchADirect(..)
        | Instr::MovADirect(..)
        | Instr::MovDirectA(..)
        | Instr::MovAtRiData(..)
        | Instr::MovDirectAtRi(..)
        | Instr::MovAtRiDirect(..)
        | Instr::MovRnData(..)
        | Instr::MovDirectRn(..)
        | Instr::MovRnDirect(..)
        | Instr::DjnzRnRel(..) => 2,
        _ => 1,
    }
}

/// How many machine cycles an instruction takes: 1, 2 or 4.
///
/// Source: family manual.
#[inline(always)]
pub fn cycles(instr: &Instr) -> u8
    ensures { result ≡ cycles_of instr.now }
{
    match instr {
        Instr::DivAb | Instr::MulAb => 4,
        Instr::JbcBitRel(..)
        | Instr::JbBitRel(..)
        | Instr::JnbBitRel(..)
        | Instr::JcRel(..)
        | Instr::JncRel(..)
        | Instr::JzRel(..)
        | Instr::JnzRel(..)
        | Instr::SjmpRel(..)
        | Instr::MovDptrData16(..)
        | Instr::OrlCNotBit(..)
        | Instr::AnlCNotBit(..)
        | Instr::PushDirect(..)
        | Instr::PopDirect(..)
        | Instr::MovxAAtDptr
        | Instr::MovxAtDptrA
        | Instr::AjmpAddr11(..)
        | Instr::AcallAddr11(..)
        | Instr::LjmpAddr16(..)
        | Instr::LcallAddr16(..)
        | Instr::Ret
        | Instr::Reti
        | Instr::OrlCBit(..)
        | Instr::AnlCBit(..)
        | Instr::MovBitC(..)
        | Instr::MovxAAtRi(..)
        | Instr::MovxAtRiA(..)
        | Instr::OrlDirectData(..)
        | Instr::AnlDirectData(..)
        | Instr::XrlDirectData(..)
        | Instr::JmpAtADptr
        | Instr::MovcAAtAPc
        | Instr::MovcAAtADptr
        | Instr::IncDptr
        | Instr::CjneADataRel(..)
        | Instr::MovDirectData(..)
        | Instr::MovDirectDirect(..)
        | Instr::CjneADirectRel(..)
        | Instr::DjnzDirectRel(..)
        | Instr::MovDirectAtRi(..)
        | Instr::MovAtRiDirect(..)
        | Instr::CjneAtRiDataRel(..)
        | Instr::MovDirectRn(..)
        | Instr::MovRnDirect(..)
        | Instr::CjneRnDataRel(..)
        | Instr::DjnzRnRel(..) => 2,
        _ => 1,
    }
}

/// Where control goes after an instruction.
///
/// Source: family manual.
pub fn kind_of(instr: &Instr) -> Flow
    ensures { result ≡ flow_of instr.now }
{
    let (_, columns) = row_at(numbers_of(instr).row);
    columns.flow
}
