//! Where the operand of a jump, a branch or a call leads, which targets it reaches, and which bits have addresses.
ghost use Rattle.std.specs.Prelude.{◌≡◌};
ghost use Rattle.m51_isa.specs.Targets.{bit_address, distance, in_one_block, fits_byte, is_near, near, relative};
ghost use Rattle.m51_isa.specs.Targets.{next_of, target_of};

use crate::instr::Instr;
use crate::operand::Address11;
use crate::table::length;

/// The address after an instruction, modulo 65,536.
///
/// Source: family manual.
pub fn next_of(instr: &Instr, at: u16) -> u16
    ensures { result ≡ next_of instr.now at }
{
    at.wrapping_add(u16::from(length(instr)))
}

/// The target of a relative jump: the address of the next instruction and a signed byte, modulo 65,536.
///
/// Source: family manual.
pub fn relative_target(next: u16, rel: u8) -> u16
    ensures { result ≡ relative next rel }
{
    if rel < 128 {
        next.wrapping_add(u16::from(rel))
    } else {
        next.wrapping_add(0xFF00 + u16::from(rel))
    }
}

/// The target of AJMP and ACALL: an address in the block of 2,048 bytes of the next instruction.
///
/// Source: family manual.
pub fn block_target(next: u16, address: Address11) -> u16
    ensures { result ≡ near next address }
{
    next / 2048 * 2048 + address.number()
}

/// How far a target lies from the next instruction, modulo 65,536.
///
/// Source: family manual.
pub fn distance(next: u16, target: u16) -> u16
    ensures { result ≡ distance next target }
{
    target.wrapping_sub(next)
}

/// Whether a distance is from -128 to 127.
///
/// Source: family manual.
pub fn is_near(distance: u16) -> bool
    ensures { result ≡ is_near distance }
{
    distance <= 127 || distance >= 65408
}

/// Whether two addresses are in one block of 2,048 bytes.
///
/// Source: family manual.
pub fn in_one_block(a: u16, b: u16) -> bool
    ensures { result ≡ in_one_block a b }
{
    a / 2048 == b / 2048
}

/// Whether a byte can hold the number, without a sign or with one: it is at most 00FFH or at least FF00H.
///
/// Source: ASM51 guide.
pub fn fits_byte(number: u16) -> bool
    ensures { result ≡ fits_byte number }
{
    number <= 0xFF || number >= 0xFF00
}

/// The bit address, from 0 to 255, of a bit of a byte: the bits 0 to 7 of the bytes 20H to 2FH, and of the multiples of
/// 8 from 80H to 0F8H. `None` for each other byte or bit.
///
/// Source: family manual.
pub fn bit_address(byte: u16, bit: u16) -> Option<u16>
    ensures { result ≡ bit_address byte bit }
{
    if bit > 7 {
        None
    } else if 0x20 <= byte && byte <= 0x2F {
        Some((byte - 0x20) * 8 + bit)
    } else if 0x80 <= byte && byte <= 0xF8 && byte % 8 == 0 {
        Some(byte + bit)
    } else {
        None
    }
}

/// The target of a jump, a branch or a call; `JMP @A+DPTR` names none.
///
/// Source: family manual.
pub fn target_of(instr: &Instr, next: u16) -> Option<u16>
    ensures { result ≡ target_of instr.now next }
{
    match instr {
        Instr::JbcBitRel(_, rel)
        | Instr::JbBitRel(_, rel)
        | Instr::JnbBitRel(_, rel)
        | Instr::JcRel(rel)
        | Instr::JncRel(rel)
        | Instr::JzRel(rel)
        | Instr::JnzRel(rel)
        | Instr::SjmpRel(rel)
        | Instr::CjneADataRel(_, rel)
        | Instr::CjneADirectRel(_, rel)
        | Instr::CjneAtRiDataRel(_, _, rel)
        | Instr::CjneRnDataRel(_, _, rel)
        | Instr::DjnzDirectRel(_, rel)
        | Instr::DjnzRnRel(_, rel) => Some(relative_target(next, *rel)),
        Instr::AjmpAddr11(address) | Instr::AcallAddr11(address) => Some(block_target(
            next, *address,
        )),
        Instr::LjmpAddr16(address) | Instr::LcallAddr16(address) => Some(*address),
        _ => None,
    }
}
