//! Moves, arithmetic and logic.
ghost use Rattle.std.specs.Prelude.{◌≡◌, ◌+◌, ◌*◌, ◌/◌, ◌%◌, length, IfErr};
ghost use Rattle.m51_flat.specs.Causes.{IsMissing};
ghost use Rattle.m51_flat.specs.Arithmetic.{assigned, summed, combined, changed, with_turn, exchanged};
ghost use Rattle.m51_flat.specs.Arithmetic.{digits_exchanged, sum_by, logic_of, stepped, turned};
ghost use Rattle.m51_flat.specs.Reads.{answer, with_effect};

use crate::actions::{Addition, Addressing, ByteOperand, Count, Logic, Turning};
use crate::operands::{find_at, locate, read_latch_at, read_operand, write_location};
use crate::sfr::write_sfr;
use crate::state::{Effect, NoEffect, Pins};
use crate::store::CellStore;
use crate::writing::{read_auxiliary_carry, read_carry, write_carry, write_sum};
use m51_alu::{Sum, da, subb};
use m51_sfr::addresses::ACC;

/// The sum or difference of A and an operand.
#[inline(always)]
fn add_by(op: Addition, a: u8, value: u8, carry: bool) -> Sum
    ensures { result ≡ sum_by op a value carry }
{
    match op {
        Addition::Add => m51_alu::add(a, value, false),
        Addition::AddCarry => m51_alu::add(a, value, carry),
        Addition::Subtract => subb(a, value, carry),
    }
}

/// Each bit of one byte with that of another.
fn logic_by(op: Logic, a: u8, b: u8) -> u8
    ensures { result ≡ logic_of op a b }
{
    match op {
        Logic::Or => a | b,
        Logic::And => a & b,
        Logic::Xor => a ^ b,
    }
}

/// One more or one less, modulo 256.
fn count_by(count: Count, value: u8) -> u8
    ensures { result ≡ stepped count value }
{
    match count {
        Count::Increment => value.wrapping_add(1),
        Count::Decrement => value.wrapping_sub(1),
    }
}

/// A and CY after a turn.
fn turn_by(by: Turning, a: u8, carry: bool, auxiliary: bool) -> (u8, bool)
    ensures { result ≡ turned by a carry auxiliary }
{
    match by {
        Turning::RotateRight => (a / 2 + 128 * (a % 2), carry),
        Turning::RotateRightCarry => (a / 2 + 128 * u8::from(carry), a % 2 == 1),
        Turning::RotateLeft => (a % 128 * 2 + a / 128, carry),
        Turning::RotateLeftCarry => (a % 128 * 2 + u8::from(carry), a / 128 == 1),
        Turning::SwapDigits => (a % 16 * 16 + a / 16, carry),
        Turning::Complement => (255 - a, carry),
        Turning::Adjust => da(a, carry, auxiliary),
    }
}

/// MOV and CLR A: a value is read and written.
#[tactic(auto, using(crate::proofs::Readings::answer_then), unfolding(crate::specs::Arithmetic::assigned))]
#[inline(always)]
pub(crate) fn assign<M: CellStore>(
    store: &M,
    ext: &Pins,
    effect: &mut Effect,
    addressing: Addressing,
    from: ByteOperand,
) -> Result<(), NoEffect>
    ensures value { with_effect result effect.new ≡ answer (M.cells store.now)
        (assigned ext.now effect.old addressing from) }
    ensures missing { IfErr result (IsMissing (M.cells store.now)) }
{
    let location = locate(store, &effect.cpu, addressing)?;
    let value = read_operand(store, &effect.cpu, ext, from)?;
    write_location(effect, location, value);
    Ok(())
}

/// ADD, ADDC, SUBB: A and the flags become a sum.
#[tactic(auto, using(crate::proofs::Readings::answer_then), unfolding(crate::specs::Arithmetic::summed))]
#[inline(always)]
pub(crate) fn accumulate<M: CellStore>(
    store: &M,
    ext: &Pins,
    effect: &mut Effect,
    op: Addition,
    from: ByteOperand,
) -> Result<(), NoEffect>
    ensures value { with_effect result effect.new ≡ answer (M.cells store.now) (summed ext.now effect.old op from) }
    ensures missing { IfErr result (IsMissing (M.cells store.now)) }
{
    let value = read_operand(store, &effect.cpu, ext, from)?;
    let sum = add_by(op, effect.cpu.latch(ACC), value, read_carry(&effect.cpu));
    write_sum(effect, sum);
    Ok(())
}

/// ORL, ANL, XRL: an operand, of a port its latch, is combined with another.
#[tactic(auto, using(crate::proofs::Readings::answer_then), unfolding(crate::specs::Arithmetic::combined))]
#[inline(always)]
pub(crate) fn combine<M: CellStore>(
    store: &M,
    ext: &Pins,
    effect: &mut Effect,
    op: Logic,
    addressing: Addressing,
    from: ByteOperand,
) -> Result<(), NoEffect>
    ensures value { with_effect result effect.new ≡ answer (M.cells store.now)
        (combined ext.now effect.old op addressing from) }
    ensures missing { IfErr result (IsMissing (M.cells store.now)) }
{
    let location = locate(store, &effect.cpu, addressing)?;
    let value = read_latch_at(store, &effect.cpu, location)?;
    let mask = read_operand(store, &effect.cpu, ext, from)?;
    write_location(effect, location, logic_by(op, value, mask));
    Ok(())
}

/// INC and DEC: an operand, of a port its latch, is counted up or down.
#[tactic(auto, using(crate::proofs::Readings::answer_then), unfolding(crate::specs::Arithmetic::changed))]
#[inline(always)]
pub(crate) fn change<M: CellStore>(
    store: &M,
    effect: &mut Effect,
    count: Count,
    addressing: Addressing,
) -> Result<(), NoEffect>
    ensures value { with_effect result effect.new ≡ answer (M.cells store.now) (changed effect.old count addressing) }
    ensures missing { IfErr result (IsMissing (M.cells store.now)) }
{
    let location = locate(store, &effect.cpu, addressing)?;
    let value = read_latch_at(store, &effect.cpu, location)?;
    write_location(effect, location, count_by(count, value));
    Ok(())
}

/// A and CY turned.
#[tactic(auto, unfolding(crate::specs::Arithmetic::with_turn))]
pub(crate) fn turn(effect: &mut Effect, by: Turning)
    ensures { effect.new ≡ with_turn by effect.old }
{
    let (a, carry) = turn_by(
        by,
        effect.cpu.latch(ACC),
        read_carry(&effect.cpu),
        read_auxiliary_carry(&effect.cpu),
    );
    write_carry(effect, carry);
    write_sfr(effect, ACC, a);
}

/// XCH: A is exchanged with an operand.
#[tactic(auto, using(crate::proofs::Readings::answer_then), unfolding(crate::specs::Arithmetic::exchanged))]
pub(crate) fn exchange<M: CellStore>(
    store: &M,
    ext: &Pins,
    effect: &mut Effect,
    addressing: Addressing,
) -> Result<(), NoEffect>
    ensures value { with_effect result effect.new ≡ answer (M.cells store.now)
        (exchanged ext.now effect.old addressing) }
    ensures missing { IfErr result (IsMissing (M.cells store.now)) }
{
    let location = locate(store, &effect.cpu, addressing)?;
    let value = find_at(store, &effect.cpu, ext, location)?;
    let a = effect.cpu.latch(ACC);
    write_sfr(effect, ACC, value);
    write_location(effect, location, a);
    Ok(())
}

/// The high digit of one byte before the low digit of another.
fn digits(high: u8, low: u8) -> u8
    ensures { result ≡ high / 16 * 16 + low % 16 }
{
    high / 16 * 16 + low % 16
}

/// XCHD: the low digits of A and an operand are exchanged.
#[tactic(auto, using(crate::proofs::Readings::answer_then), unfolding(crate::specs::Arithmetic::digits_exchanged))]
pub(crate) fn exchange_digit<M: CellStore>(
    store: &M,
    ext: &Pins,
    effect: &mut Effect,
    addressing: Addressing,
) -> Result<(), NoEffect>
    ensures value { with_effect result effect.new ≡ answer (M.cells store.now)
        (digits_exchanged ext.now effect.old addressing) }
    ensures missing { IfErr result (IsMissing (M.cells store.now)) }
{
    let location = locate(store, &effect.cpu, addressing)?;
    let value = find_at(store, &effect.cpu, ext, location)?;
    let a = effect.cpu.latch(ACC);
    write_sfr(effect, ACC, digits(a, value));
    write_location(effect, location, digits(value, a));
    Ok(())
}
