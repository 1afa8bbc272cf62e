//! Operations on bits.
ghost use Rattle.std.specs.Prelude.{◌≡◌, IfErr};
ghost use Rattle.m51_flat.specs.Causes.{IsMissing};
ghost use Rattle.m51_flat.specs.Bits.{passes, changed_carry, merged_carry, bit_from, carry_merged, bit_flipped};
ghost use Rattle.m51_flat.specs.Bits.{branched_on_bit, tested_and_cleared};
ghost use Rattle.m51_flat.specs.Operands.{bit_latch_at, bit_found_at, with_bit_at};
ghost use Rattle.m51_flat.specs.Reads.{answer, with_effect};

use crate::actions::{BitSource, BitTest, CarryChange, CarryMerge};
use crate::operands::read_bit;
use crate::sfr::{replace_bit, write_sfr};
use crate::state::{Cpu, Effect, NoEffect, Pins, Put};
use crate::store::CellStore;
use crate::writing::{branch_if, read_carry, write_carry};

/// A bit for an operand that is changed: of a port that of its latch.
#[tactic(auto, unfolding(crate::specs::Operands::bit_latch_at))]
pub(crate) fn read_bit_latch<M: CellStore>(store: &M, cpu: &Cpu, bit: u8) -> Result<u8, NoEffect>
    ensures value { result ≡ answer (M.cells store.now) (bit_latch_at cpu.now bit) }
    ensures missing { IfErr result (IsMissing (M.cells store.now)) }
{
    if bit < 128 {
        read_bit(store, bit)
    } else {
        Ok(cpu.latch(bit - bit % 8) >> (bit % 8) & 1)
    }
}

/// Writes a bit: in internal RAM its cell, in a register the whole byte.
#[tactic(auto, unfolding(crate::specs::Operands::with_bit_at))]
pub(crate) fn write_bit(effect: &mut Effect, bit: u8, value: bool)
    ensures { effect.new ≡ with_bit_at bit value effect.old }
{
    if bit < 128 {
        effect.first = Put::Bit {
            address: bit,
            value,
        };
    } else {
        let address = bit - bit % 8;
        let byte = replace_bit(effect.cpu.latch(address), bit % 8, value);
        write_sfr(effect, address, byte);
    }
}

/// What a read finds in a bit: at a port the level of its pin.
#[tactic(auto, unfolding(crate::specs::Operands::bit_found_at))]
fn find_bit<M: CellStore>(store: &M, cpu: &Cpu, ext: &Pins, bit: u8) -> Result<u8, NoEffect>
    ensures value { result ≡ answer (M.cells store.now) (bit_found_at cpu.now ext.now bit) }
    ensures missing { IfErr result (IsMissing (M.cells store.now)) }
{
    if bit < 128 {
        read_bit(store, bit)
    } else {
        Ok(cpu.found(ext, bit - bit % 8) >> (bit % 8) & 1)
    }
}

/// CY cleared, set or complemented.
pub(crate) fn change_carry(by: CarryChange, carry: bool) -> bool
    ensures { result ≡ changed_carry by carry }
{
    match by {
        CarryChange::CarryClear => false,
        CarryChange::CarrySet => true,
        CarryChange::CarryFlip => !carry,
    }
}

/// CY loaded from a bit, or combined with it or its complement.
fn merge_carry(by: CarryMerge, carry: bool, bit: bool) -> bool
    ensures { result ≡ merged_carry by carry bit }
{
    match by {
        CarryMerge::CarryLoad => bit,
        CarryMerge::CarryAnd => carry && bit,
        CarryMerge::CarryAndNot => carry && !bit,
        CarryMerge::CarryOr => carry || bit,
        CarryMerge::CarryOrNot => carry || !bit,
    }
}

/// The bit that is written.
pub(crate) fn bit_of_source(from: BitSource, cpu: &Cpu) -> bool
    ensures { result ≡ bit_from from cpu.now }
{
    match from {
        BitSource::One => true,
        BitSource::Zero => false,
        BitSource::FromCarry => read_carry(cpu),
    }
}

/// MOV C,bit, and ANL and ORL with C: at a port the pin is read.
#[tactic(auto, using(crate::proofs::Readings::answer_then), unfolding(crate::specs::Bits::carry_merged))]
pub(crate) fn carry_with<M: CellStore>(
    store: &M,
    ext: &Pins,
    effect: &mut Effect,
    by: CarryMerge,
    bit: u8,
) -> Result<(), NoEffect>
    ensures value { with_effect result effect.new ≡ answer (M.cells store.now)
        (carry_merged ext.now effect.old by bit) }
    ensures missing { IfErr result (IsMissing (M.cells store.now)) }
{
    let value = find_bit(store, &effect.cpu, ext, bit)?;
    let carry = merge_carry(by, read_carry(&effect.cpu), value == 1);
    write_carry(effect, carry);
    Ok(())
}

/// CPL bit: of a port the latch is read.
#[tactic(auto, using(crate::proofs::Readings::answer_then), unfolding(crate::specs::Bits::bit_flipped))]
pub(crate) fn flip_bit<M: CellStore>(
    store: &M,
    effect: &mut Effect,
    bit: u8,
) -> Result<(), NoEffect>
    ensures value { with_effect result effect.new ≡ answer (M.cells store.now) (bit_flipped effect.old bit) }
    ensures missing { IfErr result (IsMissing (M.cells store.now)) }
{
    let value = read_bit_latch(store, &effect.cpu, bit)?;
    write_bit(effect, bit, value != 1);
    Ok(())
}

/// A bit is 1, or it is 0.
fn is_passed(test: BitTest, bit: bool) -> bool
    ensures { result ≡ passes test bit }
{
    match test {
        BitTest::IfSet => bit,
        BitTest::IfClear => !bit,
    }
}

/// JB and JNB: at a port the pin is read.
#[tactic(auto, using(crate::proofs::Readings::answer_then), unfolding(crate::specs::Bits::branched_on_bit))]
pub(crate) fn branch_on_bit<M: CellStore>(
    store: &M,
    ext: &Pins,
    effect: &mut Effect,
    test: BitTest,
    bit: u8,
    rel: u8,
) -> Result<(), NoEffect>
    ensures value { with_effect result effect.new ≡ answer (M.cells store.now)
        (branched_on_bit ext.now effect.old test bit rel) }
    ensures missing { IfErr result (IsMissing (M.cells store.now)) }
{
    let value = find_bit(store, &effect.cpu, ext, bit)?;
    branch_if(effect, is_passed(test, value == 1), rel);
    Ok(())
}

/// JBC: where the bit is 1 it is cleared and the branch is taken; else nothing is written.
#[tactic(auto, using(crate::proofs::Readings::answer_then), unfolding(crate::specs::Bits::tested_and_cleared))]
pub(crate) fn test_and_clear<M: CellStore>(
    store: &M,
    effect: &mut Effect,
    bit: u8,
    rel: u8,
) -> Result<(), NoEffect>
    ensures value { with_effect result effect.new ≡ answer (M.cells store.now) (tested_and_cleared effect.old bit rel) }
    ensures missing { IfErr result (IsMissing (M.cells store.now)) }
{
    let value = read_bit_latch(store, &effect.cpu, bit)?;
    if value == 1 {
        write_bit(effect, bit, false);
        branch_if(effect, true, rel);
    }
    Ok(())
}
