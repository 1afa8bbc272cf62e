//! The registers of the banks as direct addresses.
ghost use Rattle.std.specs.Prelude.{◌≡◌, ◌<◌, IfSome, length, position};
ghost use Rattle.std.specs.Str.{bytes_eq};
ghost use Rattle.m51_expr.specs.Located.{located_value};
ghost use Rattle.m51_predefined.specs.Predefined.{absolute_register_of, register_value};

use m51_cells::{Kind, Name};
use m51_expr::{BANK_REGISTERS, Located, plain};

// The index of the word among these.
fn index_in(words: &[&[u8]], word: &[u8]) -> Option<usize>
    ensures index { result ≡ position (λ w. bytes_eq w.now word.now) words.now }
    ensures within { IfSome result (λ index. index < length words.now) }
{
    words.iter().position(|one| *one == word)
}

/// The register, 0 to 7, that a name `AR0` to `AR7` means; `None` for each other name.
///
/// Source: ASM51 guide.
pub fn absolute_register(name: &Name) -> Option<u8>
    ensures register { result ≡ absolute_register_of name.now }
    ensures range { IfSome result (λ register. register < 8) }
{
    let index = index_in(&BANK_REGISTERS, name.bytes())?;
    Some(index as u8)
}

/// The direct address of a register, 0 to 7, of a bank, 0 to 3, as the value of `AR0` to `AR7`: 8 times the bank plus
/// the register, of class DATA and without a base.
///
/// Source: ASM51 guide.
pub fn register_value(bank: u8, register: u8) -> Located<u32>
    ensures { located_value result ≡ register_value bank register }
{
    plain(8 * u16::from(bank) + u16::from(register), Kind::Direct)
}
