//! Reads and writes of operands.
ghost use Rattle.std.specs.Prelude.{◌≡◌, ◌+◌, ◌≤◌, ◌<◌, IfErr};
ghost use Rattle.m51_flat.specs.Causes.{IsMissing};
ghost use Rattle.m51_flat.specs.Operands.{bank, location_of, latch_at, found_at, operand_value, with_location};
ghost use Rattle.m51_flat.specs.Reads.{answer, value_or_missing};
ghost use Rattle.m51_flat.specs.States.{byte_seen, bit_seen, xbyte_seen};

use crate::actions::{Addressing, ByteOperand, Location};
use crate::sfr::write_sfr;
use crate::state::{Cpu, Effect, NoEffect, Pins, Put, Seen};
use crate::store::CellStore;
use m51_sfr::addresses::{ACC, PSW};

/// The value that is seen, or why there is none.
fn value(seen: Seen) -> Result<u8, NoEffect>
    ensures { result ≡ value_or_missing seen }
{
    match seen {
        Seen::Value(value) => Ok(value),
        Seen::Outside(cell) => Err(NoEffect::Outside(cell)),
        Seen::Unset(cell) => Err(NoEffect::Unset(cell)),
    }
}

/// A byte of internal RAM.
#[tactic(auto, using(crate::proofs::Causes::byte_missing))]
#[inline(always)]
pub(crate) fn read_byte<M: CellStore>(store: &M, address: u8) -> Result<u8, NoEffect>
    ensures value { result ≡ value_or_missing (byte_seen (M.cells store.now) address) }
    ensures missing { IfErr result (IsMissing (M.cells store.now)) }
{
    value(store.byte(address))
}

/// A byte of external memory.
#[tactic(auto, using(crate::proofs::Causes::xbyte_missing))]
pub(crate) fn read_xbyte<M: CellStore>(store: &M, address: u16) -> Result<u8, NoEffect>
    ensures value { result ≡ value_or_missing (xbyte_seen (M.cells store.now) address) }
    ensures missing { IfErr result (IsMissing (M.cells store.now)) }
{
    value(store.xbyte(address))
}

/// Where the register bank begins that bits 4 and 3 of PSW select.
#[tactic(auto, unfolding(crate::specs::Operands::bank))]
pub(crate) fn bank_base(cpu: &Cpu) -> u8
    ensures value { result ≡ bank cpu.now }
    ensures below { result ≤ 24 }
{
    8 * (cpu.latch(PSW) / 8 % 4)
}

/// The location of an addressed byte: for an indirect one its register is read.
#[tactic(auto, unfolding(crate::specs::Operands::location_of))]
#[inline(always)]
pub(crate) fn locate<M: CellStore>(
    store: &M,
    cpu: &Cpu,
    addressing: Addressing,
) -> Result<Location, NoEffect>
    ensures value { result ≡ answer (M.cells store.now) (location_of cpu.now addressing) }
    ensures missing { IfErr result (IsMissing (M.cells store.now)) }
{
    match addressing {
        Addressing::Accumulator => Ok(Location::Sfr(ACC)),
        Addressing::Direct(address) => {
            if address < 128 {
                Ok(Location::Ram(address))
            } else {
                Ok(Location::Sfr(address))
            }
        }
        Addressing::Indirect(pointer) => {
            let address = read_byte(store, bank_base(cpu) + pointer.number())?;
            Ok(Location::Ram(address))
        }
        Addressing::Bank(register) => Ok(Location::Ram(bank_base(cpu) + register.number())),
    }
}

/// The value at a location, for an operand that is changed: of a port its latch.
#[tactic(auto, unfolding(crate::specs::Operands::latch_at))]
#[inline(always)]
pub(crate) fn read_latch_at<M: CellStore>(
    store: &M,
    cpu: &Cpu,
    location: Location,
) -> Result<u8, NoEffect>
    ensures value { result ≡ answer (M.cells store.now) (latch_at cpu.now location) }
    ensures missing { IfErr result (IsMissing (M.cells store.now)) }
{
    match location {
        Location::Ram(address) => read_byte(store, address),
        Location::Sfr(address) => Ok(cpu.latch(address)),
    }
}

/// What a read finds there: at a port the levels of its pins.
#[tactic(auto, unfolding(crate::specs::Operands::found_at))]
#[inline(always)]
pub(crate) fn find_at<M: CellStore>(
    store: &M,
    cpu: &Cpu,
    ext: &Pins,
    location: Location,
) -> Result<u8, NoEffect>
    ensures value { result ≡ answer (M.cells store.now) (found_at cpu.now ext.now location) }
    ensures missing { IfErr result (IsMissing (M.cells store.now)) }
{
    match location {
        Location::Ram(address) => read_byte(store, address),
        Location::Sfr(address) => Ok(cpu.found(ext, address)),
    }
}

/// The value of an operand that is only read.
#[tactic(auto, using(crate::proofs::Readings::answer_then), unfolding(crate::specs::Operands::operand_value))]
#[inline(always)]
pub(crate) fn read_operand<M: CellStore>(
    store: &M,
    cpu: &Cpu,
    ext: &Pins,
    operand: ByteOperand,
) -> Result<u8, NoEffect>
    ensures value { result ≡ answer (M.cells store.now) (operand_value cpu.now ext.now operand) }
    ensures missing { IfErr result (IsMissing (M.cells store.now)) }
{
    match operand {
        ByteOperand::Immediate(value) => Ok(value),
        ByteOperand::At(addressing) => {
            let location = locate(store, cpu, addressing)?;
            find_at(store, cpu, ext, location)
        }
    }
}

/// Writes to a location.
#[tactic(auto, unfolding(crate::specs::Operands::with_location))]
#[inline(always)]
pub(crate) fn write_location(effect: &mut Effect, location: Location, value: u8)
    ensures { effect.new ≡ with_location location value effect.old }
{
    match location {
        Location::Ram(address) => effect.first = Put::Byte { address, value },
        Location::Sfr(address) => write_sfr(effect, address, value),
    }
}

/// A bit of internal RAM by its bit address.
#[tactic(auto, using(crate::proofs::Causes::bit_missing))]
pub(crate) fn read_bit<M: CellStore>(store: &M, bit: u8) -> Result<u8, NoEffect>
    requires { bit < 128 }
    ensures value { result ≡ value_or_missing (bit_seen (M.cells store.now) (256 + bit)) }
    ensures missing { IfErr result (IsMissing (M.cells store.now)) }
{
    value(store.bit(bit))
}
