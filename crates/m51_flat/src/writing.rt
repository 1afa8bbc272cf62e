//! Parts of an effect: flags, DPTR and the program counter.
ghost use Rattle.std.specs.Prelude.{◌≡◌};
ghost use Rattle.m51_flat.specs.Parts.{auxiliary_carry, branched, with_flags, with_carry, with_sum, jumped};
ghost use Rattle.m51_flat.specs.Parts.{carry, dptr_of, with_dptr, with_pair};

use crate::sfr::{replace_bit, write_sfr};
use crate::state::{Cpu, Effect, Transfer};
use m51_alu::Sum;
use m51_isa::relative_target;
use m51_sfr::addresses::{ACC, B, DPH, DPL, PSW};
use m51_sfr::bits::{AC, CY, OV};

/// Control goes to a target: an instruction's, or the handler of an interrupt.
///
/// Source: own choice ("Effects").
pub fn jump(effect: &mut Effect, target: u16, transfer: Transfer)
    ensures { effect.new ≡ jumped target transfer effect.old }
{
    effect.cpu.pc = target;
    effect.transfer = transfer;
}

/// A branch by a signed byte, where it is taken.
#[tactic(auto, unfolding(crate::specs::Parts::branched))]
pub(crate) fn branch_if(effect: &mut Effect, taken: bool, rel: u8)
    ensures { effect.new ≡ branched taken rel effect.old }
{
    if taken {
        let target = relative_target(effect.cpu.pc, rel);
        jump(effect, target, Transfer::Jump);
    }
}

/// Sets or clears CY.
#[tactic(auto, unfolding(crate::specs::Parts::with_carry))]
pub(crate) fn write_carry(effect: &mut Effect, carry: bool)
    ensures { effect.new ≡ with_carry carry effect.old }
{
    let psw = replace_bit(effect.cpu.latch(PSW), CY, carry);
    write_sfr(effect, PSW, psw);
}

/// PSW with the three flags of a sum.
#[tactic(auto, unfolding(crate::specs::Parts::with_flags))]
fn replace_flags(psw: u8, sum: Sum) -> u8
    ensures { result ≡ with_flags sum psw }
{
    let psw = replace_bit(psw, CY, sum.cy);
    let psw = replace_bit(psw, AC, sum.ac);
    replace_bit(psw, OV, sum.ov)
}

/// Writes A and the flags after a sum.
#[tactic(auto, unfolding(crate::specs::Parts::with_sum))]
pub(crate) fn write_sum(effect: &mut Effect, sum: Sum)
    ensures { effect.new ≡ with_sum sum effect.old }
{
    let psw = replace_flags(effect.cpu.latch(PSW), sum);
    write_sfr(effect, PSW, psw);
    write_sfr(effect, ACC, sum.value);
}

/// The carry flag.
pub(crate) fn read_carry(cpu: &Cpu) -> bool
    ensures { result ≡ carry cpu.now }
{
    cpu.flag(PSW, CY)
}

/// The auxiliary carry flag.
pub(crate) fn read_auxiliary_carry(cpu: &Cpu) -> bool
    ensures { result ≡ auxiliary_carry cpu.now }
{
    cpu.flag(PSW, AC)
}

/// DPTR.
#[tactic(auto, unfolding(crate::specs::Parts::dptr_of))]
pub(crate) fn read_dptr(cpu: &Cpu) -> u16
    ensures { result ≡ dptr_of cpu.now }
{
    u16::from(cpu.latch(DPH)) * 256 + u16::from(cpu.latch(DPL))
}

/// Writes DPTR.
#[tactic(auto, unfolding(crate::specs::Parts::with_dptr))]
pub(crate) fn write_dptr(effect: &mut Effect, word: u16)
    ensures { effect.new ≡ with_dptr word effect.old }
{
    write_sfr(effect, DPH, (word / 256) as u8);
    write_sfr(effect, DPL, (word % 256) as u8);
}

/// Writes A, B and OV after a product or a quotient, and clears CY.
#[tactic(auto, unfolding(crate::specs::Parts::with_pair))]
pub(crate) fn write_pair(effect: &mut Effect, pair: (u8, u8, bool))
    ensures { effect.new ≡ with_pair pair effect.old }
{
    let (a, b, overflow) = pair;
    let psw = replace_bit(effect.cpu.latch(PSW), CY, false);
    write_sfr(effect, PSW, replace_bit(psw, OV, overflow));
    write_sfr(effect, B, b);
    write_sfr(effect, ACC, a);
}
