//! An instruction as its row and the numbers of its operands, and back.
ghost use Rattle.std.specs.Prelude.{◌≡◌, ◌<◌, ◌%◌};
ghost use Rattle.m51_isa.specs.Rows.{IsAtRow, IsLaid, columns_at, filled_at, row_count};

use crate::instr::Instr;
use crate::operand::{Address11, Pointer, Register};

// The number of a row, and the numbers of its operands in the order of the text, 0 where one has none.
#[derive(Clone, Copy)]
pub(crate) struct Numbers {
    pub row: u8,
    pub first: u16,
    pub second: u16,
    pub third: u16,
}

fn words(row: u8, first: u16, second: u16, third: u16) -> Numbers
    ensures row { result.row ≡ row }
    ensures first { result.first ≡ first }
    ensures second { result.second ≡ second }
    ensures third { result.third ≡ third }
{
    Numbers {
        row,
        first,
        second,
        third,
    }
}

fn bytes(row: u8, first: u8, second: u8, third: u8) -> Numbers
    ensures row { result.row ≡ row }
    ensures first { result.first ≡ first }
    ensures second { result.second ≡ second }
    ensures third { result.third ≡ third }
{
    words(row, u16::from(first), u16::from(second), u16::from(third))
}

// The row and the numbers of an instruction.
#[inline(always)]
pub(crate) fn numbers_of(instr: &Instr) -> Numbers
    ensures row { result.row < row_count }
    ensures is { IsAtRow result.row result.first result.second result.third instr.now }
    ensures laid { IsLaid (columns_at result.row) result.first result.second result.third instr.now }
{
    match *instr {
        Instr::Nop => bytes(0, 0, 0, 0),
        Instr::JbcBitRel(bit, rel) => bytes(1, bit, rel, 0),
        Instr::JbBitRel(bit, rel) => bytes(2, bit, rel, 0),
        Instr::JnbBitRel(bit, rel) => bytes(3, bit, rel, 0),
        Instr::JcRel(rel) => bytes(4, rel, 0, 0),
        Instr::JncRel(rel) => bytes(5, rel, 0, 0),
        Instr::JzRel(rel) => bytes(6, rel, 0, 0),
        Instr::JnzRel(rel) => bytes(7, rel, 0, 0),
        Instr::SjmpRel(rel) => bytes(8, rel, 0, 0),
        Instr::MovDptrData16(word) => words(9, 0, word, 0),
        Instr::OrlCNotBit(bit) => bytes(10, 0, bit, 0),
        Instr::AnlCNotBit(bit) => bytes(11, 0, bit, 0),
        Instr::PushDirect(direct) => bytes(12, direct, 0, 0),
        Instr::PopDirect(direct) => bytes(13, direct, 0, 0),
        Instr::MovxAAtDptr => bytes(14, 0, 0, 0),
        Instr::MovxAtDptrA => bytes(15, 0, 0, 0),
        Instr::AjmpAddr11(address) => words(16, address.number(), 0, 0),
        Instr::AcallAddr11(address) => words(17, address.number(), 0, 0),
        Instr::LjmpAddr16(address) => words(18, address, 0, 0),
        Instr::LcallAddr16(address) => words(19, address, 0, 0),
        Instr::Ret => bytes(20, 0, 0, 0),
        Instr::Reti => bytes(21, 0, 0, 0),
        Instr::OrlDirectA(direct) => bytes(22, direct, 0, 0),
        Instr::AnlDirectA(direct) => bytes(23, direct, 0, 0),
        Instr::XrlDirectA(direct) => bytes(24, direct, 0, 0),
        Instr::OrlCBit(bit) => bytes(25, 0, bit, 0),
        Instr::AnlCBit(bit) => bytes(26, 0, bit, 0),
        Instr::MovBitC(bit) => bytes(27, bit, 0, 0),
        Instr::MovCBit(bit) => bytes(28, 0, bit, 0),
        Instr::CplBit(bit) => bytes(29, bit, 0, 0),
        Instr::ClrBit(bit) => bytes(30, bit, 0, 0),
        Instr::SetbBit(bit) => bytes(31, bit, 0, 0),
        Instr::MovxAAtRi(pointer) => bytes(32, 0, pointer.number(), 0),
        Instr::MovxAtRiA(pointer) => bytes(33, pointer.number(), 0, 0),
        Instr::RrA => bytes(34, 0, 0, 0),
        Instr::RrcA => bytes(35, 0, 0, 0),
        Instr::RlA => bytes(36, 0, 0, 0),
        Instr::RlcA => bytes(37, 0, 0, 0),
        Instr::OrlDirectData(direct, value) => bytes(38, direct, value, 0),
        Instr::AnlDirectData(direct, value) => bytes(39, direct, value, 0),
        Instr::XrlDirectData(direct, value) => bytes(40, direct, value, 0),
        Instr::JmpAtADptr => bytes(41, 0, 0, 0),
        Instr::MovcAAtAPc => bytes(42, 0, 0, 0),
        Instr::MovcAAtADptr => bytes(43, 0, 0, 0),
        Instr::IncDptr => bytes(44, 0, 0, 0),
        Instr::CplC => bytes(45, 0, 0, 0),
        Instr::ClrC => bytes(46, 0, 0, 0),
        Instr::SetbC => bytes(47, 0, 0, 0),
        Instr::IncA => bytes(48, 0, 0, 0),
        Instr::DecA => bytes(49, 0, 0, 0),
        Instr::AddAData(value) => bytes(50, 0, value, 0),
        Instr::AddcAData(value) => bytes(51, 0, value, 0),
        Instr::OrlAData(value) => bytes(52, 0, value, 0),
        Instr::AnlAData(value) => bytes(53, 0, value, 0),
        Instr::XrlAData(value) => bytes(54, 0, value, 0),
        Instr::MovAData(value) => bytes(55, 0, value, 0),
        Instr::DivAb => bytes(56, 0, 0, 0),
        Instr::SubbAData(value) => bytes(57, 0, value, 0),
        Instr::MulAb => bytes(58, 0, 0, 0),
        Instr::CjneADataRel(value, rel) => bytes(59, 0, value, rel),
        Instr::SwapA => bytes(60, 0, 0, 0),
        Instr::DaA => bytes(61, 0, 0, 0),
        Instr::ClrA => bytes(62, 0, 0, 0),
        Instr::CplA => bytes(63, 0, 0, 0),
        Instr::IncDirect(direct) => bytes(64, direct, 0, 0),
        Instr::DecDirect(direct) => bytes(65, direct, 0, 0),
        Instr::AddADirect(direct) => bytes(66, 0, direct, 0),
        Instr::AddcADirect(direct) => bytes(67, 0, direct, 0),
        Instr::OrlADirect(direct) => bytes(68, 0, direct, 0),
        Instr::AnlADirect(direct) => bytes(69, 0, direct, 0),
        Instr::XrlADirect(direct) => bytes(70, 0, direct, 0),
        Instr::MovDirectData(direct, value) => bytes(71, direct, value, 0),
        Instr::MovDirectDirect(source, target) => bytes(72, target, source, 0),
        Instr::SubbADirect(direct) => bytes(73, 0, direct, 0),
        Instr::CjneADirectRel(direct, rel) => bytes(74, 0, direct, rel),
        Instr::XchADirect(direct) => bytes(75, 0, direct, 0),
        Instr::DjnzDirectRel(direct, rel) => bytes(76, direct, rel, 0),
        Instr::MovADirect(direct) => bytes(77, 0, direct, 0),
        Instr::MovDirectA(direct) => bytes(78, direct, 0, 0),
        Instr::IncAtRi(pointer) => bytes(79, pointer.number(), 0, 0),
        Instr::DecAtRi(pointer) => bytes(80, pointer.number(), 0, 0),
        Instr::AddAAtRi(pointer) => bytes(81, 0, pointer.number(), 0),
        Instr::AddcAAtRi(pointer) => bytes(82, 0, pointer.number(), 0),
        Instr::OrlAAtRi(pointer) => bytes(83, 0, pointer.number(), 0),
        Instr::AnlAAtRi(pointer) => bytes(84, 0, pointer.number(), 0),
        Instr::XrlAAtRi(pointer) => bytes(85, 0, pointer.number(), 0),
        Instr::MovAtRiData(pointer, value) => bytes(86, pointer.number(), value, 0),
        Instr::MovDirectAtRi(pointer, direct) => bytes(87, direct, pointer.number(), 0),
        Instr::SubbAAtRi(pointer) => bytes(88, 0, pointer.number(), 0),
        Instr::MovAtRiDirect(pointer, direct) => bytes(89, pointer.number(), direct, 0),
        Instr::CjneAtRiDataRel(pointer, value, rel) => bytes(90, pointer.number(), value, rel),
        Instr::XchAAtRi(pointer) => bytes(91, 0, pointer.number(), 0),
        Instr::XchdAAtRi(pointer) => bytes(92, 0, pointer.number(), 0),
        Instr::MovAAtRi(pointer) => bytes(93, 0, pointer.number(), 0),
        Instr::MovAtRiA(pointer) => bytes(94, pointer.number(), 0, 0),
        Instr::IncRn(register) => bytes(95, register.number(), 0, 0),
        Instr::DecRn(register) => bytes(96, register.number(), 0, 0),
        Instr::AddARn(register) => bytes(97, 0, register.number(), 0),
        Instr::AddcARn(register) => bytes(98, 0, register.number(), 0),
        Instr::OrlARn(register) => bytes(99, 0, register.number(), 0),
        Instr::AnlARn(register) => bytes(100, 0, register.number(), 0),
        Instr::XrlARn(register) => bytes(101, 0, register.number(), 0),
        Instr::MovRnData(register, value) => bytes(102, register.number(), value, 0),
        Instr::MovDirectRn(register, direct) => bytes(103, direct, register.number(), 0),
        Instr::SubbARn(register) => bytes(104, 0, register.number(), 0),
        Instr::MovRnDirect(register, direct) => bytes(105, register.number(), direct, 0),
        Instr::CjneRnDataRel(register, value, rel) => bytes(106, register.number(), value, rel),
        Instr::XchARn(register) => bytes(107, 0, register.number(), 0),
        Instr::DjnzRnRel(register, rel) => bytes(108, register.number(), rel, 0),
        Instr::MovARn(register) => bytes(109, 0, register.number(), 0),
        Instr::MovRnA(register) => bytes(110, register.number(), 0, 0),
    }
}

// The low byte of a number.
fn low(number: u16) -> u8
    ensures { result ≡ number % 256 }
{
    (number % 256) as u8
}

// The address of a number within its block of 2,048 bytes.
fn in_block(number: u16) -> Address11
    ensures { result ≡ number % 2048 }
{
    Address11::new(number % 2048)
}

// The register of the three lowest bits of a number.
fn register(number: u16) -> Register
    ensures { result ≡ number % 8 }
{
    Register::new((number % 8) as u8)
}

// The register of the lowest bit of a number.
fn pointer(number: u16) -> Pointer
    ensures { result ≡ number % 2 }
{
    Pointer::new((number % 2) as u8)
}

// The instruction of a row with these numbers in its operands, in the order of the text. An operand takes what it has
// room for.
#[inline(always)]
pub(crate) fn instr_of(row: u8, a: u16, b: u16, c: u16) -> Instr
    requires { row < row_count }
    ensures { result ≡ filled_at row a b c }
{
    match row {
        0 => Instr::Nop,
        1 => Instr::JbcBitRel(low(a), low(b)),
        2 => Instr::JbBitRel(low(a), low(b)),
        3 => Instr::JnbBitRel(low(a), low(b)),
        4 => Instr::JcRel(low(a)),
        5 => Instr::JncRel(low(a)),
        6 => Instr::JzRel(low(a)),
        7 => Instr::JnzRel(low(a)),
        8 => Instr::SjmpRel(low(a)),
        9 => Instr::MovDptrData16(b),
        10 => Instr::OrlCNotBit(low(b)),
        11 => Instr::AnlCNotBit(low(b)),
        12 => Instr::PushDirect(low(a)),
        13 => Instr::PopDirect(low(a)),
        14 => Instr::MovxAAtDptr,
        15 => Instr::MovxAtDptrA,
        16 => Instr::AjmpAddr11(in_block(a)),
        17 => Instr::AcallAddr11(in_block(a)),
        18 => Instr::LjmpAddr16(a),
        19 => Instr::LcallAddr16(a),
        20 => Instr::Ret,
        21 => Instr::Reti,
        22 => Instr::OrlDirectA(low(a)),
        23 => Instr::AnlDirectA(low(a)),
        24 => Instr::XrlDirectA(low(a)),
        25 => Instr::OrlCBit(low(b)),
        26 => Instr::AnlCBit(low(b)),
        27 => Instr::MovBitC(low(a)),
        28 => Instr::MovCBit(low(b)),
        29 => Instr::CplBit(low(a)),
        30 => Instr::ClrBit(low(a)),
        31 => Instr::SetbBit(low(a)),
        32 => Instr::MovxAAtRi(pointer(b)),
        33 => Instr::MovxAtRiA(pointer(a)),
        34 => Instr::RrA,
        35 => Instr::RrcA,
        36 => Instr::RlA,
        37 => Instr::RlcA,
        38 => Instr::OrlDirectData(low(a), low(b)),
        39 => Instr::AnlDirectData(low(a), low(b)),
        40 => Instr::XrlDirectData(low(a), low(b)),
        41 => Instr::JmpAtADptr,
        42 => Instr::MovcAAtAPc,
        43 => Instr::MovcAAtADptr,
        44 => Instr::IncDptr,
        45 => Instr::CplC,
        46 => Instr::ClrC,
        47 => Instr::SetbC,
        48 => Instr::IncA,
        49 => Instr::DecA,
        50 => Instr::AddAData(low(b)),
        51 => Instr::AddcAData(low(b)),
        52 => Instr::OrlAData(low(b)),
        53 => Instr::AnlAData(low(b)),
        54 => Instr::XrlAData(low(b)),
        55 => Instr::MovAData(low(b)),
        56 => Instr::DivAb,
        57 => Instr::SubbAData(low(b)),
        58 => Instr::MulAb,
        59 => Instr::CjneADataRel(low(b), low(c)),
        60 => Instr::SwapA,
        61 => Instr::DaA,
        62 => Instr::ClrA,
        63 => Instr::CplA,
        64 => Instr::IncDirect(low(a)),
        65 => Instr::DecDirect(low(a)),
        66 => Instr::AddADirect(low(b)),
        67 => Instr::AddcADirect(low(b)),
        68 => Instr::OrlADirect(low(b)),
        69 => Instr::AnlADirect(low(b)),
        70 => Instr::XrlADirect(low(b)),
        71 => Instr::MovDirectData(low(a), low(b)),
        72 => Instr::MovDirectDirect(low(b), low(a)),
        73 => Instr::SubbADirect(low(b)),
        74 => Instr::CjneADirectRel(low(b), low(c)),
        75 => Instr::XchADirect(low(b)),
        76 => Instr::DjnzDirectRel(low(a), low(b)),
        77 => Instr::MovADirect(low(b)),
        78 => Instr::MovDirectA(low(a)),
        79 => Instr::IncAtRi(pointer(a)),
        80 => Instr::DecAtRi(pointer(a)),
        81 => Instr::AddAAtRi(pointer(b)),
        82 => Instr::AddcAAtRi(pointer(b)),
        83 => Instr::OrlAAtRi(pointer(b)),
        84 => Instr::AnlAAtRi(pointer(b)),
        85 => Instr::XrlAAtRi(pointer(b)),
        86 => Instr::MovAtRiData(pointer(a), low(b)),
        87 => Instr::MovDirectAtRi(pointer(b), low(a)),
        88 => Instr::SubbAAtRi(pointer(b)),
        89 => Instr::MovAtRiDirect(pointer(a), low(b)),
        90 => Instr::CjneAtRiDataRel(pointer(a), low(b), low(c)),
        91 => Instr::XchAAtRi(pointer(b)),
        92 => Instr::XchdAAtRi(pointer(b)),
        93 => Instr::MovAAtRi(pointer(b)),
        94 => Instr::MovAtRiA(pointer(a)),
        95 => Instr::IncRn(register(a)),
        96 => Instr::DecRn(register(a)),
        97 => Instr::AddARn(register(b)),
        98 => Instr::AddcARn(register(b)),
        99 => Instr::OrlARn(register(b)),
        100 => Instr::AnlARn(register(b)),
        101 => Instr::XrlARn(register(b)),
        102 => Instr::MovRnData(register(a), low(b)),
        103 => Instr::MovDirectRn(register(b), low(a)),
        104 => Instr::SubbARn(register(b)),
        105 => Instr::MovRnDirect(register(a), low(b)),
        106 => Instr::CjneRnDataRel(register(a), low(b), low(c)),
        107 => Instr::XchARn(register(b)),
        108 => Instr::DjnzRnRel(register(a), low(b)),
        109 => Instr::MovARn(register(b)),
        110 => Instr::MovRnA(register(a)),
        111..=255 => Instr::Nop,
    }
}
