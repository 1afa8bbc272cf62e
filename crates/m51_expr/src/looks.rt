//! What operands look like.
ghost use Rattle.std.specs.Prelude.{◌≡◌, map};
ghost use Rattle.m51_expr.specs.Operand.{operand_tree};
ghost use Rattle.m51_expr.specs.Looks.{register_look, pointer_look, look_of, has_form};

use crate::operand::Operand;
use m51_isa::{Look, Pointer, Register, has_row};

// The register of a number.
fn register_look(number: u8) -> Look
    ensures { result ≡ register_look number }
{
    if number < 8 {
        Look::R(Register::new(number))
    } else {
        Look::Other
    }
}

// The register of a number that holds an address.
fn pointer_look(number: u8) -> Look
    ensures { result ≡ pointer_look number }
{
    if number < 2 {
        Look::AtR(Pointer::new(number))
    } else {
        Look::Other
    }
}

/// What an operand looks like in the instruction table, whatever its value.
///
/// Source: family manual.
pub fn look_of(operand: &Operand) -> Look
    ensures { result ≡ look_of (operand_tree operand.now) }
{
    match operand {
        Operand::A => Look::A,
        Operand::Ab => Look::Ab,
        Operand::C => Look::C,
        Operand::Dptr => Look::Dptr,
        Operand::APc => Look::APc,
        Operand::ADptr => Look::ADptr,
        Operand::AtDptr => Look::AtDptr,
        Operand::R(n) => register_look(*n),
        Operand::AtR(n) => pointer_look(*n),
        Operand::Imm(_) => Look::Imm,
        Operand::Plain(_) => Look::Plain,
        Operand::NotBit(_) => Look::NotBit,
    }
}

/// Whether the mnemonic, in upper case, may have these operands: the instruction table has such a row, or it is `JMP`
/// or `CALL` with only a code address.
///
/// Source: ASM51 guide.
pub fn has_form(mnemonic: &[u8], operands: &[Operand]) -> bool
    ensures { result ≡ has_form mnemonic.now (map operand_tree operands.now) }
{
    let none = Look::Nothing;
    match operands {
        [] => has_row(mnemonic, &none, &none, &none),
        [a] => has_row(mnemonic, &look_of(a), &none, &none),
        [a, b] => has_row(mnemonic, &look_of(a), &look_of(b), &none),
        [a, b, c] => has_row(mnemonic, &look_of(a), &look_of(b), &look_of(c)),
        _ => false,
    }
}
