//! The action of each instruction.
ghost use Rattle.std.specs.Prelude.{◌≡◌};
ghost use Rattle.m51_flat.specs.Actions.{action_of};

use crate::actions::{
    Action, Addition, Addressing, BitSource, BitTest, ByteOperand, CarryChange, CarryMerge,
    CodeBase, Condition, Count, ExternalAt, Logic, ReturnFrom, Turning,
};
use m51_isa::Instr;

/// The action of an instruction.
#[inline(always)]
pub(crate) fn action_for(instr: &Instr) -> Action
    ensures { result ≡ action_of instr.now }
{
    match *instr {
        Instr::Nop => Action::Skip,
        Instr::JbcBitRel(bit, rel) => Action::TestAndClear(bit, rel),
        Instr::JbBitRel(bit, rel) => Action::BranchOnBit(BitTest::IfSet, bit, rel),
        Instr::JnbBitRel(bit, rel) => Action::BranchOnBit(BitTest::IfClear, bit, rel),
        Instr::JcRel(rel) => Action::BranchOn(Condition::IfCarry, rel),
        Instr::JncRel(rel) => Action::BranchOn(Condition::IfNoCarry, rel),
        Instr::JzRel(rel) => Action::BranchOn(Condition::IfZero, rel),
        Instr::JnzRel(rel) => Action::BranchOn(Condition::IfNotZero, rel),
        Instr::SjmpRel(rel) => Action::JumpBy(rel),
        Instr::MovDptrData16(word) => Action::LoadDptr(word),
        Instr::OrlCNotBit(bit) => Action::CarryWith(CarryMerge::CarryOrNot, bit),
        Instr::AnlCNotBit(bit) => Action::CarryWith(CarryMerge::CarryAndNot, bit),
        Instr::PushDirect(direct) => Action::Push(Addressing::Direct(direct)),
        Instr::PopDirect(direct) => Action::Pop(Addressing::Direct(direct)),
        Instr::MovxAAtDptr => Action::LoadExternal(ExternalAt::ByDptr),
        Instr::MovxAtDptrA => Action::StoreExternal(ExternalAt::ByDptr),
        Instr::AjmpAddr11(address) => Action::JumpNear(address),
        Instr::AcallAddr11(address) => Action::CallNear(address),
        Instr::LjmpAddr16(address) => Action::JumpTo(address),
        Instr::LcallAddr16(address) => Action::CallTo(address),
        Instr::Ret => Action::Return(ReturnFrom::Subroutine),
        Instr::Reti => Action::Return(ReturnFrom::Interrupt),
        Instr::OrlDirectA(direct) => Action::Combine(
            Logic::Or,
            Addressing::Direct(direct),
            ByteOperand::At(Addressing::Accumulator),
        ),
        Instr::AnlDirectA(direct) => Action::Combine(
            Logic::And,
            Addressing::Direct(direct),
            ByteOperand::At(Addressing::Accumulator),
        ),
        Instr::XrlDirectA(direct) => Action::Combine(
            Logic::Xor,
            Addressing::Direct(direct),
            ByteOperand::At(Addressing::Accumulator),
        ),
        Instr::OrlCBit(bit) => Action::CarryWith(CarryMerge::CarryOr, bit),
        Instr::AnlCBit(bit) => Action::CarryWith(CarryMerge::CarryAnd, bit),
        Instr::MovBitC(bit) => Action::StoreBit(BitSource::FromCarry, bit),
        Instr::MovCBit(bit) => Action::CarryWith(CarryMerge::CarryLoad, bit),
        Instr::CplBit(bit) => Action::FlipBit(bit),
        Instr::ClrBit(bit) => Action::StoreBit(BitSource::Zero, bit),
        Instr::SetbBit(bit) => Action::StoreBit(BitSource::One, bit),
        Instr::MovxAAtRi(pointer) => Action::LoadExternal(ExternalAt::ByRegister(pointer)),
        Instr::MovxAtRiA(pointer) => Action::StoreExternal(ExternalAt::ByRegister(pointer)),
        Instr::RrA => Action::Turn(Turning::RotateRight),
        Instr::RrcA => Action::Turn(Turning::RotateRightCarry),
        Instr::RlA => Action::Turn(Turning::RotateLeft),
        Instr::RlcA => Action::Turn(Turning::RotateLeftCarry),
        Instr::OrlDirectData(direct, value) => Action::Combine(
            Logic::Or,
            Addressing::Direct(direct),
            ByteOperand::Immediate(value),
        ),
        Instr::AnlDirectData(direct, value) => Action::Combine(
            Logic::And,
            Addressing::Direct(direct),
            ByteOperand::Immediate(value),
        ),
        Instr::XrlDirectData(direct, value) => Action::Combine(
            Logic::Xor,
            Addressing::Direct(direct),
            ByteOperand::Immediate(value),
        ),
        Instr::JmpAtADptr => Action::JumpIndirect,
        Instr::MovcAAtAPc => Action::LoadCode(CodeBase::FromNext),
        Instr::MovcAAtADptr => Action::LoadCode(CodeBase::FromDptr),
        Instr::IncDptr => Action::AdvanceDptr,
        Instr::CplC => Action::ChangeCarry(CarryChange::CarryFlip),
        Instr::ClrC => Action::ChangeCarry(CarryChange::CarryClear),
        Instr::SetbC => Action::ChangeCarry(CarryChange::CarrySet),
        Instr::IncA => Action::Change(Count::Increment, Addressing::Accumulator),
        Instr::DecA => Action::Change(Count::Decrement, Addressing::Accumulator),
        Instr::AddAData(value) => Action::Accumulate(Addition::Add, ByteOperand::Immediate(value)),
        Instr::AddcAData(value) => Action::Accumulate(
            Addition::AddCarry,
            ByteOperand::Immediate(value),
        ),
        Instr::OrlAData(value) => Action::Combine(
            Logic::Or,
            Addressing::Accumulator,
            ByteOperand::Immediate(value),
        ),
        Instr::AnlAData(value) => Action::Combine(
            Logic::And,
            Addressing::Accumulator,
            ByteOperand::Immediate(value),
        ),
        Instr::XrlAData(value) => Action::Combine(
            Logic::Xor,
            Addressing::Accumulator,
            ByteOperand::Immediate(value),
        ),
        Instr::MovAData(value) => Action::Assign(
            Addressing::Accumulator,
            ByteOperand::Immediate(value),
        ),
        Instr::DivAb => Action::Divide,
        Instr::SubbAData(value) => Action::Accumulate(
            Addition::Subtract,
            ByteOperand::Immediate(value),
        ),
        Instr::MulAb => Action::Multiply,
        Instr::CjneADataRel(value, rel) => Action::Compare(
            ByteOperand::At(Addressing::Accumulator),
            ByteOperand::Immediate(value),
            rel,
        ),
        Instr::SwapA => Action::Turn(Turning::SwapDigits),
        Instr::DaA => Action::Turn(Turning::Adjust),
        Instr::ClrA => Action::Assign(Addressing::Accumulator, ByteOperand::Immediate(0)),
        Instr::CplA => Action::Turn(Turning::Complement),
        Instr::IncDirect(direct) => Action::Change(Count::Increment, Addressing::Direct(direct)),
        Instr::DecDirect(direct) => Action::Change(Count::Decrement, Addressing::Direct(direct)),
        Instr::AddADirect(direct) => Action::Accumulate(
            Addition::Add,
            ByteOperand::At(Addressing::Direct(direct)),
        ),
        Instr::AddcADirect(direct) => Action::Accumulate(
            Addition::AddCarry,
            ByteOperand::At(Addressing::Direct(direct)),
        ),
        Instr::OrlADirect(direct) => Action::Combine(
            Logic::Or,
            Addressing::Accumulator,
            ByteOperand::At(Addressing::Direct(direct)),
        ),
        Instr::AnlADirect(direct) => Action::Combine(
            Logic::And,
            Addressing::Accumulator,
            ByteOperand::At(Addressing::Direct(direct)),
        ),
        Instr::XrlADirect(direct) => Action::Combine(
            Logic::Xor,
            Addressing::Accumulator,
            ByteOperand::At(Addressing::Direct(direct)),
        ),
        Instr::MovDirectData(direct, value) => Action::Assign(
            Addressing::Direct(direct),
            ByteOperand::Immediate(value),
        ),
        Instr::MovDirectDirect(source, target) => Action::Assign(
            Addressing::Direct(target),
            ByteOperand::At(Addressing::Direct(source)),
        ),
        Instr::SubbADirect(direct) => Action::Accumulate(
            Addition::Subtract,
            ByteOperand::At(Addressing::Direct(direct)),
        ),
        Instr::CjneADirectRel(direct, rel) => Action::Compare(
            ByteOperand::At(Addressing::Accumulator),
            ByteOperand::At(Addressing::Direct(direct)),
            rel,
        ),
        Instr::XchADirect(direct) => Action::Exchange(Addressing::Direct(direct)),
        Instr::DjnzDirectRel(direct, rel) => Action::CountDown(Addressing::Direct(direct), rel),
        Instr::MovADirect(direct) => Action::Assign(
            Addressing::Accumulator,
            ByteOperand::At(Addressing::Direct(direct)),
        ),
        Instr::MovDirectA(direct) => Action::Assign(
            Addressing::Direct(direct),
            ByteOperand::At(Addressing::Accumulator),
        ),
        Instr::IncAtRi(pointer) => Action::Change(Count::Increment, Addressing::Indirect(pointer)),
        Instr::DecAtRi(pointer) => Action::Change(Count::Decrement, Addressing::Indirect(pointer)),
        Instr::AddAAtRi(pointer) => Action::Accumulate(
            Addition::Add,
            ByteOperand::At(Addressing::Indirect(pointer)),
        ),
        Instr::AddcAAtRi(pointer) => Action::Accumulate(
            Addition::AddCarry,
            ByteOperand::At(Addressing::Indirect(pointer)),
        ),
        Instr::OrlAAtRi(pointer) => Action::Combine(
            Logic::Or,
            Addressing::Accumulator,
            ByteOperand::At(Addressing::Indirect(pointer)),
        ),
        Instr::AnlAAtRi(pointer) => Action::Combine(
            Logic::And,
            Addressing::Accumulator,
            ByteOperand::At(Addressing::Indirect(pointer)),
        ),
        Instr::XrlAAtRi(pointer) => Action::Combine(
            Logic::Xor,
            Addressing::Accumulator,
            ByteOperand::At(Addressing::Indirect(pointer)),
        ),
        Instr::MovAtRiData(pointer, value) => Action::Assign(
            Addressing::Indirect(pointer),
            ByteOperand::Immediate(value),
        ),
        Instr::MovDirectAtRi(pointer, direct) => Action::Assign(
            Addressing::Direct(direct),
            ByteOperand::At(Addressing::Indirect(pointer)),
        ),
        Instr::SubbAAtRi(pointer) => Action::Accumulate(
            Addition::Subtract,
            ByteOperand::At(Addressing::Indirect(pointer)),
        ),
        Instr::MovAtRiDirect(pointer, direct) => Action::Assign(
            Addressing::Indirect(pointer),
            ByteOperand::At(Addressing::Direct(direct)),
        ),
        Instr::CjneAtRiDataRel(pointer, value, rel) => Action::Compare(
            ByteOperand::At(Addressing::Indirect(pointer)),
            ByteOperand::Immediate(value),
            rel,
        ),
        Instr::XchAAtRi(pointer) => Action::Exchange(Addressing::Indirect(pointer)),
        Instr::XchdAAtRi(pointer) => Action::ExchangeDigit(Addressing::Indirect(pointer)),
        Instr::MovAAtRi(pointer) => Action::Assign(
            Addressing::Accumulator,
            ByteOperand::At(Addressing::Indirect(pointer)),
        ),
        Instr::MovAtRiA(pointer) => Action::Assign(
            Addressing::Indirect(pointer),
            ByteOperand::At(Addressing::Accumulator),
        ),
        Instr::IncRn(register) => Action::Change(Count::Increment, Addressing::Bank(register)),
        Instr::DecRn(register) => Action::Change(Count::Decrement, Addressing::Bank(register)),
        Instr::AddARn(register) => Action::Accumulate(
            Addition::Add,
            ByteOperand::At(Addressing::Bank(register)),
        ),
        Instr::AddcARn(register) => Action::Accumulate(
            Addition::AddCarry,
            ByteOperand::At(Addressing::Bank(register)),
        ),
        Instr::OrlARn(register) => Action::Combine(
            Logic::Or,
            Addressing::Accumulator,
            ByteOperand::At(Addressing::Bank(register)),
        ),
        Instr::AnlARn(register) => Action::Combine(
            Logic::And,
            Addressing::Accumulator,
            ByteOperand::At(Addressing::Bank(register)),
        ),
        Instr::XrlARn(register) => Action::Combine(
            Logic::Xor,
            Addressing::Accumulator,
            ByteOperand::At(Addressing::Bank(register)),
        ),
        Instr::MovRnData(register, value) => Action::Assign(
            Addressing::Bank(register),
            ByteOperand::Immediate(value),
        ),
        Instr::MovDirectRn(register, direct) => Action::Assign(
            Addressing::Direct(direct),
            ByteOperand::At(Addressing::Bank(register)),
        ),
        Instr::SubbARn(register) => Action::Accumulate(
            Addition::Subtract,
            ByteOperand::At(Addressing::Bank(register)),
        ),
        Instr::MovRnDirect(register, direct) => Action::Assign(
            Addressing::Bank(register),
            ByteOperand::At(Addressing::Direct(direct)),
        ),
        Instr::CjneRnDataRel(register, value, rel) => Action::Compare(
            ByteOperand::At(Addressing::Bank(register)),
            ByteOperand::Immediate(value),
            rel,
        ),
        Instr::XchARn(register) => Action::Exchange(Addressing::Bank(register)),
        Instr::DjnzRnRel(register, rel) => Action::CountDown(Addressing::Bank(register), rel),
        Instr::MovARn(register) => Action::Assign(
            Addressing::Accumulator,
            ByteOperand::At(Addressing::Bank(register)),
        ),
        Instr::MovRnA(register) => Action::Assign(
            Addressing::Bank(register),
            ByteOperand::At(Addressing::Accumulator),
        ),
    }
}
