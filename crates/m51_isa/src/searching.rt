//! Finds the row of the instruction table by its text.
ghost use Rattle.std.specs.Prelude.{◌≡◌, ◌<◌, IfSome, is_some, slice_index};
ghost use Rattle.m51_isa.specs.Looks.{look_kind, number_in};
ghost use Rattle.m51_isa.specs.Rows.{IsRegister, fits_at, found, operand_kind, place, row_count};
ghost use Rattle.m51_isa.specs.Search.{search, has_row, row_for};

use crate::generics::{Jump, generic, jump_row};
use crate::instr::Instr;
use crate::look::Look;
use crate::numbers::instr_of;
use crate::table::{Operand, PLACES, ROW_COUNT, row_at};

// The kind of an operand: a number for each way that one can look, whatever its own number.
fn operand_kind(operand: Operand) -> u8
    ensures { result ≡ operand_kind operand }
{
    match operand {
        Operand::Nothing => 0,
        Operand::A => 1,
        Operand::Ab => 2,
        Operand::C => 3,
        Operand::Dptr => 4,
        Operand::APc => 5,
        Operand::ADptr => 6,
        Operand::AtDptr => 7,
        Operand::R => 8,
        Operand::AtR => 9,
        Operand::Imm(..) => 10,
        Operand::Plain(..) => 11,
        Operand::NotBit(..) => 12,
    }
}

// The kind of the operands that look so.
fn look_kind(look: &Look) -> u8
    ensures value { result ≡ look_kind look.now }
    ensures below { result < 14 }
{
    match look {
        Look::Nothing => 0,
        Look::A => 1,
        Look::Ab => 2,
        Look::C => 3,
        Look::Dptr => 4,
        Look::APc => 5,
        Look::ADptr => 6,
        Look::AtDptr => 7,
        Look::R(_) => 8,
        Look::AtR(_) => 9,
        Look::Imm => 10,
        Look::Plain => 11,
        Look::NotBit => 12,
        Look::Other => 13,
    }
}

// The number of an operand that looks so: that of a register, else 0.
fn number_in(look: &Look) -> u16
    ensures value { result ≡ number_in look.now }
    ensures is { IsRegister look.now }
{
    match look {
        Look::R(register) => u16::from(register.number()),
        Look::AtR(pointer) => u16::from(pointer.number()),
        _ => 0,
    }
}

// The place of the rows with a mnemonic of this first letter and length, and first operands of these kinds. With these
// factors no more than two rows share a place.
fn place(letter: u8, length: usize, a: u8, b: u8) -> usize
    requires first { a < 14 }
    requires second { b < 14 }
    ensures value { result ≡ place letter length a b }
    ensures below { result < 256 }
{
    let sum = 10 * usize::from(letter) + 29 * (length % 8) + 27 * usize::from(a) + usize::from(b);
    sum % 256
}

// An entry of the rows by their place.
fn entry(places: &[u8; 512], place: usize) -> u8
    requires { place < 512 }
    ensures { result ≡ slice_index places.now place }
{
    places[place]
}

// Whether a row has this mnemonic, and operands of these kinds.
fn fits(row: u8, mnemonic: &[u8], a: u8, b: u8, c: u8) -> bool
    ensures { result ≡ fits_at mnemonic.now a b c row }
{
    if row < ROW_COUNT {
        let (own, columns) = row_at(row);
        operand_kind(columns.first) == a
            && operand_kind(columns.second) == b
            && operand_kind(columns.third) == c
            && own == mnemonic
    } else {
        false
    }
}

// The number of the row of a mnemonic with operands that look so, if there is one.
#[inline(always)]
fn found(mnemonic: &[u8], a: &Look, b: &Look, c: &Look) -> Option<u8>
    ensures value { result ≡ found mnemonic.now (look_kind a.now) (look_kind b.now) (look_kind c.now) }
    ensures below { IfSome result (λ row. row < row_count) }
    ensures some { is_some result ≡ is_some (search mnemonic.now a.now b.now c.now) }
{
    let (a, b, c) = (look_kind(a), look_kind(b), look_kind(c));
    let letter = mnemonic.first().copied().unwrap_or(0);
    let place = place(letter, mnemonic.len(), a, b);
    let one = entry(&PLACES, place);
    let two = entry(&PLACES, place + 256);
    if fits(one, mnemonic, a, b, c) {
        Some(one)
    } else if fits(two, mnemonic, a, b, c) {
        Some(two)
    } else {
        None
    }
}

/// The row of a mnemonic, in upper case, with operands that look so, if there is one: its instruction with the
/// registers of the line, and 0 in each field.
///
/// Source: family manual.
pub fn search(mnemonic: &[u8], a: &Look, b: &Look, c: &Look) -> Option<Instr>
    ensures { result ≡ search mnemonic.now a.now b.now c.now }
{
    let row = found(mnemonic, a, b, c)?;
    Some(instr_of(row, number_in(a), number_in(b), number_in(c)))
}

/// Whether a mnemonic, in upper case, may have operands that look so: there is such a row, or it is `JMP` or `CALL`
/// with only a code address.
///
/// Source: ASM51 guide.
#[tactic(auto, unfolding(crate::specs::Search::has_row))]
pub fn has_row(mnemonic: &[u8], a: &Look, b: &Look, c: &Look) -> bool
    ensures { result ≡ has_row mnemonic.now a.now b.now c.now }
{
    found(mnemonic, a, b, c).is_some() || generic(mnemonic, a, b, c).is_some()
}

/// The row of a line, if it has one: for `JMP` and `CALL` with only a code address that of the form, else as
/// [`search`] finds it.
///
/// Source: ASM51 guide.
pub fn row_for(mnemonic: &[u8], form: Jump, a: &Look, b: &Look, c: &Look) -> Option<Instr>
    ensures { result ≡ row_for mnemonic.now form a.now b.now c.now }
{
    match generic(mnemonic, a, b, c) {
        Some(verb) => Some(jump_row(verb, form)),
        None => search(mnemonic, a, b, c),
    }
}
