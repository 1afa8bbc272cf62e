//! Conditional branches.
ghost use Rattle.std.specs.Prelude.{◌≡◌, IfErr};
ghost use Rattle.m51_flat.specs.Causes.{IsMissing};
ghost use Rattle.m51_flat.specs.Reads.{answer, with_effect};
ghost use Rattle.m51_flat.specs.Transfers.{compared, counted_down, is_met};

use crate::actions::{Addressing, ByteOperand, Condition};
use crate::operands::{locate, read_latch_at, read_operand, write_location};
use crate::state::{Cpu, Effect, NoEffect, Pins};
use crate::store::CellStore;
use crate::writing::{branch_if, read_carry, write_carry};
use m51_sfr::addresses::ACC;

/// The condition of JC, JNC, JZ and JNZ.
#[tactic(auto, unfolding(crate::specs::Transfers::is_met))]
pub(crate) fn meets(condition: Condition, cpu: &Cpu) -> bool
    ensures { result ≡ is_met condition cpu.now }
{
    match condition {
        Condition::IfCarry => read_carry(cpu),
        Condition::IfNoCarry => !read_carry(cpu),
        Condition::IfZero => cpu.latch(ACC) == 0,
        Condition::IfNotZero => cpu.latch(ACC) != 0,
    }
}

/// CJNE: CY says that the first operand is less, and the branch is taken where they differ.
#[tactic(auto, using(crate::proofs::Readings::answer_then), unfolding(crate::specs::Transfers::compared))]
#[inline(always)]
pub(crate) fn compare<M: CellStore>(
    store: &M,
    ext: &Pins,
    effect: &mut Effect,
    first: ByteOperand,
    second: ByteOperand,
    rel: u8,
) -> Result<(), NoEffect>
    ensures value { with_effect result effect.new ≡ answer (M.cells store.now)
        (compared ext.now effect.old first second rel) }
    ensures missing { IfErr result (IsMissing (M.cells store.now)) }
{
    let a = read_operand(store, &effect.cpu, ext, first)?;
    let b = read_operand(store, &effect.cpu, ext, second)?;
    write_carry(effect, a < b);
    branch_if(effect, a != b, rel);
    Ok(())
}

/// DJNZ: an operand, of a port its latch, is counted down, and the branch is taken where it is not 0.
#[tactic(auto, using(crate::proofs::Readings::answer_then), unfolding(crate::specs::Transfers::counted_down))]
#[inline(always)]
pub(crate) fn count_down<M: CellStore>(
    store: &M,
    effect: &mut Effect,
    addressing: Addressing,
    rel: u8,
) -> Result<(), NoEffect>
    ensures value { with_effect result effect.new ≡ answer (M.cells store.now)
        (counted_down effect.old addressing rel) }
    ensures missing { IfErr result (IsMissing (M.cells store.now)) }
{
    let location = locate(store, &effect.cpu, addressing)?;
    let value = read_latch_at(store, &effect.cpu, location)?.wrapping_sub(1);
    write_location(effect, location, value);
    branch_if(effect, value != 0, rel);
    Ok(())
}
