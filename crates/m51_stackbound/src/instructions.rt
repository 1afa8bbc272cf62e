//! What an instruction does with SP and with control.
ghost use Rattle.std.specs.Prelude.{◌≡◌};
ghost use Rattle.m51_stackbound.specs.Instructions.{instr_at, writes_sp, sets_sp, is_push, is_pop, is_call};
ghost use Rattle.m51_stackbound.specs.Instructions.{is_return, is_computed};

pub(crate) use m51_isa::{is_jump, next_of, target_of};
use m51_isa::{Instr, Stack, Written, decode, stack_of, written_of};
use m51_module::Image;
use m51_sfr::addresses::SP;

/// The instruction that begins at the address.
#[tactic(auto, unfolding(crate::specs::Instructions::instr_at))]
pub(crate) fn instr_at(image: &Image, at: u16) -> Option<Instr>
    ensures { result ≡ instr_at image.now at }
{
    let bytes = image.bytes();
    decode([
        bytes[usize::from(at)],
        bytes[usize::from(at.wrapping_add(1))],
        bytes[usize::from(at.wrapping_add(2))],
    ])
}

/// Whether the instruction writes SP by an operand.
pub(crate) fn writes_sp(instr: &Instr) -> bool
    ensures { result ≡ writes_sp instr.now }
{
    match written_of(instr) {
        Written::Direct(direct) => direct == SP,
        _ => false,
    }
}

/// The value that `MOV SP,#data` gives SP.
pub(crate) fn sets_sp(instr: &Instr) -> Option<u8>
    ensures { result ≡ sets_sp instr.now }
{
    match instr {
        Instr::MovDirectData(direct, value) => { if *direct == SP { Some(*value) } else { None } }
        _ => None,
    }
}

/// Whether it is PUSH.
pub(crate) fn is_push(instr: &Instr) -> bool
    ensures { result ≡ is_push instr.now }
{
    matches!(stack_of(instr), Stack::Push)
}

/// Whether it is POP.
pub(crate) fn is_pop(instr: &Instr) -> bool
    ensures { result ≡ is_pop instr.now }
{
    matches!(stack_of(instr), Stack::Pop)
}

/// Whether it is a call.
pub(crate) fn is_call(instr: &Instr) -> bool
    ensures { result ≡ is_call instr.now }
{
    matches!(stack_of(instr), Stack::Call)
}

/// Whether it is RET or RETI.
pub(crate) fn is_return(instr: &Instr) -> bool
    ensures { result ≡ is_return instr.now }
{
    matches!(stack_of(instr), Stack::Return)
}

/// Whether it is `JMP @A+DPTR`.
pub(crate) fn is_computed(instr: &Instr) -> bool
    ensures { result ≡ is_computed instr.now }
{
    matches!(instr, Instr::JmpAtADptr)
}
