//! Generic jumps, and their rows.
ghost use Rattle.std.specs.Prelude.{◌≡◌};
ghost use Rattle.m51_isa.specs.Generic.{verb_of, generic, jump_row};

use crate::instr::Instr;
use crate::look::Look;
use crate::operand::Address11;

/// The form of a jump or a call.
///
/// Source: family manual.
#[derive(Clone, Copy, Debug, PartialEq, Eq)]
pub enum Jump {
    /// `SJMP`: two bytes, a distance of -128 to 127.
    Short,
    /// `AJMP` or `ACALL`: two bytes, a target in the block of 2,048 bytes of the next instruction.
    Block,
    /// `LJMP` or `LCALL`: three bytes, any target.
    Long,
}

/// A generic mnemonic: the assembler chooses the form of the jump or call.
///
/// Source: ASM51 guide.
#[derive(Clone, Copy, Debug, PartialEq, Eq)]
pub enum Verb {
    /// `JMP` with a code address.
    Jmp,
    /// `CALL`.
    Call,
}

/// The generic jump or call of a mnemonic, in upper case, with operands that look so, if it is one: `JMP` or `CALL`
/// with only a code address.
///
/// Source: ASM51 guide.
pub fn generic(mnemonic: &[u8], a: &Look, b: &Look, c: &Look) -> Option<Verb>
    ensures { result ≡ generic mnemonic.now a.now b.now c.now }
{
    match (a, b, c) {
        (Look::Plain, Look::Nothing, Look::Nothing) => verb_of(mnemonic),
        _ => None,
    }
}

// The generic mnemonic that a word is.
fn verb_of(word: &[u8]) -> Option<Verb>
    ensures { result ≡ verb_of word.now }
{
    if word == b"JMP".as_slice() {
        Some(Verb::Jmp)
    } else if word == b"CALL".as_slice() {
        Some(Verb::Call)
    } else {
        None
    }
}

/// The row that a generic jump or call of this form means, with 0 in its field. There is no short call: that of
/// a block is taken for it.
///
/// Source: ASM51 guide.
pub fn jump_row(verb: Verb, form: Jump) -> Instr
    ensures { result ≡ jump_row verb form }
{
    match (verb, form) {
        (Verb::Jmp, Jump::Short) => Instr::SjmpRel(0),
        (Verb::Jmp, Jump::Block) => Instr::AjmpAddr11(Address11::new(0)),
        (Verb::Jmp, Jump::Long) => Instr::LjmpAddr16(0),
        (Verb::Call, Jump::Short | Jump::Block) => Instr::AcallAddr11(Address11::new(0)),
        (Verb::Call, Jump::Long) => Instr::LcallAddr16(0),
    }
}
