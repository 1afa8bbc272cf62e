//! External memory, program memory and the stack.
ghost use Rattle.std.specs.Prelude.{◌≡◌, length, IfErr};
ghost use Rattle.m51_flat.specs.Causes.{IsMissing};
ghost use Rattle.m51_flat.specs.Moves.{external_address, code_base, external_loaded, external_stored, code_loaded};
ghost use Rattle.m51_flat.specs.Moves.{pushed, popped};
ghost use Rattle.m51_flat.specs.Reads.{answer, with_effect};

use crate::actions::{Addressing, ByteOperand, CodeBase, ExternalAt, Location};
use crate::operands::{bank_base, locate, read_byte, read_operand, read_xbyte, write_location};
use crate::sfr::write_sfr;
use crate::state::{Cpu, Effect, NoEffect, Pins, Put};
use crate::store::CellStore;
use crate::writing::read_dptr;
use m51_sfr::addresses::{ACC, P2, SP};

/// An address in external memory: DPTR, or the latch of P2 and a register.
#[tactic(auto, unfolding(crate::specs::Moves::external_address))]
fn locate_external<M: CellStore>(
    store: &M,
    cpu: &Cpu,
    external: ExternalAt,
) -> Result<u16, NoEffect>
    ensures value { result ≡ answer (M.cells store.now) (external_address cpu.now external) }
    ensures missing { IfErr result (IsMissing (M.cells store.now)) }
{
    match external {
        ExternalAt::ByDptr => Ok(read_dptr(cpu)),
        ExternalAt::ByRegister(pointer) => {
            let low = read_byte(store, bank_base(cpu) + pointer.number())?;
            Ok(u16::from(cpu.latch(P2)) * 256 + u16::from(low))
        }
    }
}

/// What A is added to: DPTR, or the address of the next instruction.
fn code_start(cpu: &Cpu, base: CodeBase) -> u16
    ensures { result ≡ code_base cpu.now base }
{
    match base {
        CodeBase::FromDptr => read_dptr(cpu),
        CodeBase::FromNext => cpu.pc,
    }
}

/// MOVX A: A is loaded from external memory.
#[tactic(auto, using(crate::proofs::Readings::answer_then), unfolding(crate::specs::Moves::external_loaded))]
pub(crate) fn load_external<M: CellStore>(
    store: &M,
    effect: &mut Effect,
    from: ExternalAt,
) -> Result<(), NoEffect>
    ensures value { with_effect result effect.new ≡ answer (M.cells store.now) (external_loaded effect.old from) }
    ensures missing { IfErr result (IsMissing (M.cells store.now)) }
{
    let address = locate_external(store, &effect.cpu, from)?;
    let value = read_xbyte(store, address)?;
    write_sfr(effect, ACC, value);
    Ok(())
}

/// MOVX with A: A is stored in external memory.
#[tactic(auto, using(crate::proofs::Readings::answer_then), unfolding(crate::specs::Moves::external_stored))]
pub(crate) fn store_external<M: CellStore>(
    store: &M,
    effect: &mut Effect,
    to: ExternalAt,
) -> Result<(), NoEffect>
    ensures value { with_effect result effect.new ≡ answer (M.cells store.now) (external_stored effect.old to) }
    ensures missing { IfErr result (IsMissing (M.cells store.now)) }
{
    let address = locate_external(store, &effect.cpu, to)?;
    let value = effect.cpu.latch(ACC);
    effect.first = Put::Xbyte { address, value };
    Ok(())
}

/// MOVC: A is loaded from program memory.
#[tactic(auto, unfolding(crate::specs::Moves::code_loaded))]
pub(crate) fn load_code(image: &[u8], effect: &mut Effect, base: CodeBase)
    requires { length image.now ≡ 65536 }
    ensures { effect.new ≡ code_loaded image.now effect.old base }
{
    let address = code_start(&effect.cpu, base).wrapping_add(u16::from(effect.cpu.latch(ACC)));
    write_sfr(effect, ACC, image[usize::from(address)]);
}

/// PUSH: SP is raised, then the operand is read and stored.
#[tactic(auto, using(crate::proofs::Readings::answer_then), unfolding(crate::specs::Moves::pushed))]
pub(crate) fn push<M: CellStore>(
    store: &M,
    ext: &Pins,
    effect: &mut Effect,
    addressing: Addressing,
) -> Result<(), NoEffect>
    ensures value { with_effect result effect.new ≡ answer (M.cells store.now) (pushed ext.now effect.old addressing) }
    ensures missing { IfErr result (IsMissing (M.cells store.now)) }
{
    let sp = effect.cpu.latch(SP).wrapping_add(1);
    write_sfr(effect, SP, sp);
    let value = read_operand(store, &effect.cpu, ext, ByteOperand::At(addressing))?;
    write_location(effect, Location::Ram(sp), value);
    Ok(())
}

/// POP: the stack is read and SP lowered, then the operand is written.
#[tactic(auto, using(crate::proofs::Readings::answer_then), unfolding(crate::specs::Moves::popped))]
pub(crate) fn pop<M: CellStore>(
    store: &M,
    effect: &mut Effect,
    addressing: Addressing,
) -> Result<(), NoEffect>
    ensures value { with_effect result effect.new ≡ answer (M.cells store.now) (popped effect.old addressing) }
    ensures missing { IfErr result (IsMissing (M.cells store.now)) }
{
    let sp = effect.cpu.latch(SP);
    let location = locate(store, &effect.cpu, addressing)?;
    let value = read_byte(store, sp)?;
    write_sfr(effect, SP, sp.wrapping_sub(1));
    write_location(effect, location, value);
    Ok(())
}
