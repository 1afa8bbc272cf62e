//! What an instruction changes: addresses that it names, the stack, and control without a condition.
ghost use Rattle.std.specs.Prelude.{◌≡◌};
ghost use Rattle.m51_isa.specs.Changes.{written_of, stack_of, is_jump};

use crate::instr::{Instr, Stack, Written};

/// What an instruction writes at a direct address or a bit address that is one of its operands.
///
/// Source: family manual.
pub fn written_of(instr: &Instr) -> Written
    ensures { result ≡ written_of instr.now }
{
    match instr {
        Instr::OrlDirectA(direct)
        | Instr::AnlDirectA(direct)
        | Instr::XrlDirectA(direct)
        | Instr::OrlDirectData(direct, _)
        | Instr::AnlDirectData(direct, _)
        | Instr::XrlDirectData(direct, _)
        | Instr::IncDirect(direct)
        | Instr::DecDirect(direct)
        | Instr::MovDirectData(direct, _)
        | Instr::MovDirectDirect(_, direct)
        | Instr::MovDirectA(direct)
        | Instr::MovDirectAtRi(_, direct)
        | Instr::MovDirectRn(_, direct)
        | Instr::PopDirect(direct)
        | Instr::XchADirect(direct)
        | Instr::DjnzDirectRel(direct, _) => Written::Direct(*direct),
        Instr::MovBitC(bit) | Instr::CplBit(bit) | Instr::ClrBit(bit) | Instr::SetbBit(bit) => {
            Written::Bit(*bit)
        }
        Instr::JbcBitRel(bit, _) => Written::BitIfSet(*bit),
        _ => Written::Nothing,
    }
}

/// What an instruction does with the stack.
///
/// Source: family manual.
pub fn stack_of(instr: &Instr) -> Stack
    ensures { result ≡ stack_of instr.now }
{
    match instr {
        Instr::PushDirect(_) => Stack::Push,
        Instr::PopDirect(_) => Stack::Pop,
        Instr::AcallAddr11(_) | Instr::LcallAddr16(_) => Stack::Call,
        Instr::Ret | Instr::Reti => Stack::Return,
        _ => Stack::Keep,
    }
}

/// Whether an instruction is a jump without a condition, after which control never continues with the next instruction.
///
/// Source: family manual.
pub fn is_jump(instr: &Instr) -> bool
    ensures { result ≡ is_jump instr.now }
{
    matches!(
        instr,
        Instr::SjmpRel(_) | Instr::AjmpAddr11(_) | Instr::LjmpAddr16(_) | Instr::JmpAtADptr
    )
}
