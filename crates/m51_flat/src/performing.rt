//! The outcome of each action.
ghost use Rattle.std.specs.Prelude.{◌≡◌, length, IfErr};
ghost use Rattle.m51_flat.specs.Causes.{IsMissing};
ghost use Rattle.m51_flat.specs.Reads.{answer, with_effect};
ghost use Rattle.m51_flat.specs.Meaning.{plan};

use crate::actions::Action;
use crate::arithmetic::{accumulate, assign, change, combine, exchange, exchange_digit, turn};
use crate::bits::{
    bit_of_source, branch_on_bit, carry_with, change_carry, flip_bit, test_and_clear, write_bit,
};
use crate::branches::{compare, count_down, meets};
use crate::calls::{call, return_from};
use crate::moves::{load_code, load_external, pop, push, store_external};
use crate::state::{Effect, NoEffect, Pins, Transfer};
use crate::store::CellStore;
use crate::writing::{branch_if, jump, read_carry, read_dptr, write_carry, write_dptr, write_pair};
use m51_alu::{div, mul};
use m51_isa::block_target;
use m51_sfr::addresses::{ACC, B};

/// The outcome of an action over a store, from the effect of an instruction that only continues with the next. An
/// effect after a read without a value has no meaning.
#[inline(always)]
pub(crate) fn perform<M: CellStore>(
    store: &M,
    image: &[u8],
    ext: &Pins,
    effect: &mut Effect,
    action: Action,
) -> Result<(), NoEffect>
    requires { length image.now ≡ 65536 }
    ensures value { with_effect result effect.new
        ≡ answer (M.cells store.now) (plan image.now ext.now effect.old action) }
    ensures missing { IfErr result (IsMissing (M.cells store.now)) }
{
    match action {
        Action::Skip => Ok(()),
        Action::Assign(addressing, from) => assign(store, ext, effect, addressing, from),
        Action::Accumulate(op, from) => accumulate(store, ext, effect, op, from),
        Action::Combine(op, addressing, from) => combine(store, ext, effect, op, addressing, from),
        Action::Change(count, addressing) => change(store, effect, count, addressing),
        Action::Turn(by) => {
            turn(effect, by);
            Ok(())
        }
        Action::Multiply => {
            let pair = mul(effect.cpu.latch(ACC), effect.cpu.latch(B));
            write_pair(effect, pair);
            Ok(())
        }
        Action::Divide => {
            let pair = div(effect.cpu.latch(ACC), effect.cpu.latch(B));
            write_pair(effect, pair);
            Ok(())
        }
        Action::Exchange(addressing) => exchange(store, ext, effect, addressing),
        Action::ExchangeDigit(addressing) => exchange_digit(store, ext, effect, addressing),
        Action::LoadDptr(word) => {
            write_dptr(effect, word);
            Ok(())
        }
        Action::AdvanceDptr => {
            let word = read_dptr(&effect.cpu).wrapping_add(1);
            write_dptr(effect, word);
            Ok(())
        }
        Action::LoadExternal(from) => load_external(store, effect, from),
        Action::StoreExternal(to) => store_external(store, effect, to),
        Action::LoadCode(base) => {
            load_code(image, effect, base);
            Ok(())
        }
        Action::Push(addressing) => push(store, ext, effect, addressing),
        Action::Pop(addressing) => pop(store, effect, addressing),
        Action::ChangeCarry(by) => {
            let carry = change_carry(by, read_carry(&effect.cpu));
            write_carry(effect, carry);
            Ok(())
        }
        Action::CarryWith(by, bit) => carry_with(store, ext, effect, by, bit),
        Action::StoreBit(from, bit) => {
            let value = bit_of_source(from, &effect.cpu);
            write_bit(effect, bit, value);
            Ok(())
        }
        Action::FlipBit(bit) => flip_bit(store, effect, bit),
        Action::JumpTo(target) => {
            jump(effect, target, Transfer::Jump);
            Ok(())
        }
        Action::JumpNear(address) => {
            let target = block_target(effect.cpu.pc, address);
            jump(effect, target, Transfer::Jump);
            Ok(())
        }
        Action::JumpBy(rel) => {
            branch_if(effect, true, rel);
            Ok(())
        }
        Action::JumpIndirect => {
            let target = read_dptr(&effect.cpu).wrapping_add(u16::from(effect.cpu.latch(ACC)));
            jump(effect, target, Transfer::Jump);
            Ok(())
        }
        Action::BranchOn(condition, rel) => {
            let taken = meets(condition, &effect.cpu);
            branch_if(effect, taken, rel);
            Ok(())
        }
        Action::BranchOnBit(test, bit, rel) => branch_on_bit(store, ext, effect, test, bit, rel),
        Action::TestAndClear(bit, rel) => test_and_clear(store, effect, bit, rel),
        Action::Compare(first, second, rel) => compare(store, ext, effect, first, second, rel),
        Action::CountDown(addressing, rel) => count_down(store, effect, addressing, rel),
        Action::CallTo(target) => {
            call(effect, target);
            Ok(())
        }
        Action::CallNear(address) => {
            let target = block_target(effect.cpu.pc, address);
            call(effect, target);
            Ok(())
        }
        Action::Return(from) => return_from(store, effect, from),
    }
}
