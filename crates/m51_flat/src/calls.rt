//! Calls and returns.
ghost use Rattle.std.specs.Prelude.{◌≡◌, IfErr, length};
ghost use Rattle.m51_flat.specs.Causes.{IsMissing};
ghost use Rattle.m51_flat.specs.Reads.{answer, with_effect};
ghost use Rattle.m51_flat.specs.Transfers.{called, returned, returned_from, stacked};

use crate::actions::ReturnFrom;
use crate::operands::read_byte;
use crate::sfr::write_sfr;
use crate::state::{Effect, NoEffect, Put, Transfer};
use crate::store::CellStore;
use crate::writing::jump;
use m51_sfr::addresses::SP;

/// Stores the address of the next instruction: SP is raised by two, and PC is pushed, low byte first.
/// What the effect puts is then these two bytes. Control stays where it is.
///
/// Source: family manual.
#[tactic(auto, unfolding(crate::specs::Transfers::stacked))]
pub fn stack_pc(effect: &mut Effect)
    ensures value { effect.new ≡ stacked effect.old }
    ensures registers { length effect.old.cpu.regs ≡ 128 }
{
    let sp = effect.cpu.latch(SP);
    let pc = effect.cpu.pc;
    write_sfr(effect, SP, sp.wrapping_add(2));
    effect.first = Put::Byte {
        address: sp.wrapping_add(1),
        value: (pc % 256) as u8,
    };
    effect.second = Put::Byte {
        address: sp.wrapping_add(2),
        value: (pc / 256) as u8,
    };
}

/// ACALL and LCALL: the address of the next instruction is stored, and control goes to the target.
///
/// Source: family manual.
#[tactic(auto, unfolding(crate::specs::Transfers::called))]
pub fn call(effect: &mut Effect, target: u16)
    ensures value { effect.new ≡ called effect.old target }
    ensures registers { length effect.old.cpu.regs ≡ 128 }
{
    stack_pc(effect);
    jump(effect, target, Transfer::Call);
}

/// The return from an interrupt ends the higher level in progress.
fn end_level(effect: &mut Effect)
    ensures { effect.new ≡ returned_from ReturnFrom.Interrupt effect.old }
{
    effect.cpu.low = effect.cpu.high && effect.cpu.low;
    effect.cpu.high = false;
    effect.cpu.held = true;
    effect.transfer = Transfer::Reti;
}

/// RET and RETI: the high byte is read at SP, then the low byte below it, and SP is lowered by two.
#[tactic(auto, unfolding(crate::specs::Transfers::returned))]
pub(crate) fn return_from<M: CellStore>(
    store: &M,
    effect: &mut Effect,
    from: ReturnFrom,
) -> Result<(), NoEffect>
    ensures value { with_effect result effect.new ≡ answer (M.cells store.now) (returned effect.old from) }
    ensures missing { IfErr result (IsMissing (M.cells store.now)) }
{
    let sp = effect.cpu.latch(SP);
    let high = read_byte(store, sp)?;
    let low = read_byte(store, sp.wrapping_sub(1))?;
    write_sfr(effect, SP, sp.wrapping_sub(2));
    let target = u16::from(high) * 256 + u16::from(low);
    jump(effect, target, Transfer::Ret);
    match from {
        ReturnFrom::Subroutine => {}
        ReturnFrom::Interrupt => end_level(effect),
    }
    Ok(())
}
