//! The register at an address, and the address of a name.
ghost use Rattle.std.specs.Prelude.{◌≡◌, ◌+◌, ◌≤◌, IsTrue, find, map};
ghost use Rattle.std.specs.Option.{option_copied};
ghost use Rattle.std.specs.Str.{bytes_eq};
ghost use Rattle.m51_sfr.specs.Registers.{address_in, bit_row, bits, bits_among, bits_of, has_register};
ghost use Rattle.m51_sfr.specs.Registers.{registers, row};
ghost use Rattle.m51_sfr.specs.Coded.{register_in};

use crate::addresses::{
    ACC, B, DPH, IE, IP, P0, P1, P2, P3, PCON, PSW, RCAP2L, SBUF, SCON, T2CON, TH1, TH2,
};
use crate::table::{Bit, REGISTERS, RegisterRow};

/// Whether the address is that of a register.
///
/// Source: family manual.
#[tactic(auto, unfolding(crate::specs::Registers::has_register))]
pub fn is_register(address: u8) -> bool
    ensures value { result ≡ has_register address }
    ensures high { IsTrue result → 128 ≤ address }
{
    matches!(
        address,
        P0..=DPH
            | PCON..=TH1
            | P1
            | SCON..=SBUF
            | P2
            | IE
            | P3
            | IP
            | T2CON
            | RCAP2L..=TH2
            | PSW
            | ACC
            | B
    )
}

// The row with this name, if there is one.
fn row_named<'a>(rows: &'a [RegisterRow], name: &[u8]) -> Option<&'a RegisterRow>
    ensures { option_copied result ≡ find (λ r. bytes_eq r.0.now name.now) rows.now }
{
    rows.iter().find(|row| row.0 == name)
}

// The address of the row with this name, if there is one.
fn address_in(rows: &[RegisterRow], name: &[u8]) -> Option<u8>
    ensures { result ≡ address_in (map (λ r. row r.0.now r.1) rows.now) name.now }
{
    let found = row_named(rows, name)?;
    Some(found.1)
}

// The bit with this name, if there is one.
fn pair_named<'a>(bits: &'a [Bit], name: &[u8]) -> Option<&'a Bit>
    ensures { option_copied result ≡ find (λ b. bytes_eq b.0.now name.now) bits.now }
{
    bits.iter().find(|bit| bit.0 == name)
}

// The address of a bit of the register at an address.
fn sum(address: u8, bit: u8) -> u16
    ensures { result ≡ address + bit }
{
    u16::from(address) + u16::from(bit)
}

// The bit address of the bit with this name in the register at an address, if there is one.
fn bit_in(address: u8, bits: &[Bit], name: &[u8]) -> Option<u16>
    ensures { result ≡ address_in (map (bit_row address) (map (λ b. row b.0.now b.1) bits.now)) name.now }
{
    let found = pair_named(bits, name)?;
    Some(sum(address, found.1))
}

// The bit address of the bit with this name, if the register has it and its bits have addresses.
fn bit_of(register: &RegisterRow, name: &[u8]) -> Option<u16>
    ensures { result ≡ address_in (bits_of (register_in register.now)) name.now }
{
    if register.1 % 8 == 0 {
        bit_in(register.1, register.2, name)
    } else {
        None
    }
}

// The bit address of the bit with this name, if one of these registers has it.
fn bit_among(rows: &[RegisterRow], name: &[u8]) -> Option<u16>
    ensures { result ≡ address_in (bits_among (map register_in rows.now)) name.now }
{
    for row in rows {
        if let Some(address) = bit_of(row, name) {
            return Some(address);
        }
    }
    None
}

/// The direct address of the register of this name, in upper case.
///
/// Source: family manual.
#[tactic(auto, unfolding(crate::specs::Registers::registers, crate::specs::Registers::table))]
pub fn register_named(name: &[u8]) -> Option<u8>
    ensures { result ≡ address_in registers name.now }
{
    address_in(&REGISTERS, name)
}

/// The bit address of the bit of this name, in upper case: where the register is at a multiple of 8, its address plus
/// the number of the bit. The bits of other registers have none.
///
/// Source: family manual.
#[tactic(auto, unfolding(crate::specs::Registers::bits, crate::specs::Registers::table))]
pub fn bit_named(name: &[u8]) -> Option<u16>
    ensures { result ≡ address_in bits name.now }
{
    bit_among(&REGISTERS, name)
}
