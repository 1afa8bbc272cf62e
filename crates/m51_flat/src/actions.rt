//! What instructions do, by the classes of their operands.
use m51_isa::{Address11, Pointer, Register};

/// The addressing mode of an operand that names a byte.
#[derive(Clone, Copy)]
pub(crate) enum Addressing {
    /// The accumulator.
    Accumulator,
    /// A direct address: internal RAM below 80H, else a special function register.
    Direct(u8),
    /// The byte of internal RAM whose address is in a register.
    Indirect(Pointer),
    /// A register of the selected bank.
    Bank(Register),
}

/// Where the value of an operand comes from.
#[derive(Clone, Copy)]
pub(crate) enum ByteOperand {
    /// The instruction itself.
    Immediate(u8),
    /// An addressed byte.
    At(Addressing),
}

/// The location of an addressed byte, once the register that it goes by is read.
#[derive(Clone, Copy)]
pub(crate) enum Location {
    /// A byte of internal RAM.
    Ram(u8),
    /// A special function register.
    Sfr(u8),
}

/// ADD, ADDC and SUBB.
#[derive(Clone, Copy)]
pub(crate) enum Addition {
    /// ADD.
    Add,
    /// ADDC.
    AddCarry,
    /// SUBB.
    Subtract,
}

/// ORL, ANL and XRL.
#[derive(Clone, Copy)]
pub(crate) enum Logic {
    /// ORL.
    Or,
    /// ANL.
    And,
    /// XRL.
    Xor,
}

/// INC and DEC.
#[derive(Clone, Copy)]
pub(crate) enum Count {
    /// INC.
    Increment,
    /// DEC.
    Decrement,
}

/// RR, RRC, RL, RLC, SWAP, CPL and DA.
#[derive(Clone, Copy)]
pub(crate) enum Turning {
    /// RR A.
    RotateRight,
    /// RRC A.
    RotateRightCarry,
    /// RL A.
    RotateLeft,
    /// RLC A.
    RotateLeftCarry,
    /// SWAP A.
    SwapDigits,
    /// CPL A.
    Complement,
    /// DA A.
    Adjust,
}

/// The address of MOVX: in DPTR, or in the latch of P2 and a register.
#[derive(Clone, Copy)]
pub(crate) enum ExternalAt {
    /// @DPTR.
    ByDptr,
    /// @R0 or @R1, with the latch of P2 above it.
    ByRegister(Pointer),
}

/// What A is added to in MOVC: DPTR, or the address of the next instruction.
#[derive(Clone, Copy)]
pub(crate) enum CodeBase {
    /// @A+DPTR.
    FromDptr,
    /// @A+PC.
    FromNext,
}

/// CLR C, SETB C and CPL C.
#[derive(Clone, Copy)]
pub(crate) enum CarryChange {
    /// CLR C.
    CarryClear,
    /// SETB C.
    CarrySet,
    /// CPL C.
    CarryFlip,
}

/// MOV, ANL and ORL with C and a bit or its complement.
#[derive(Clone, Copy)]
pub(crate) enum CarryMerge {
    /// MOV C,bit.
    CarryLoad,
    /// ANL C,bit.
    CarryAnd,
    /// ANL C,/bit.
    CarryAndNot,
    /// ORL C,bit.
    CarryOr,
    /// ORL C,/bit.
    CarryOrNot,
}

/// What SETB, CLR and MOV bit,C write.
#[derive(Clone, Copy)]
pub(crate) enum BitSource {
    /// SETB bit.
    One,
    /// CLR bit.
    Zero,
    /// MOV bit,C.
    FromCarry,
}

/// The condition of JC, JNC, JZ and JNZ.
#[derive(Clone, Copy)]
pub(crate) enum Condition {
    /// JC.
    IfCarry,
    /// JNC.
    IfNoCarry,
    /// JZ.
    IfZero,
    /// JNZ.
    IfNotZero,
}

/// The condition of JB and JNB.
#[derive(Clone, Copy)]
pub(crate) enum BitTest {
    /// JB.
    IfSet,
    /// JNB.
    IfClear,
}

/// RET and RETI.
#[derive(Clone, Copy)]
pub(crate) enum ReturnFrom {
    /// RET.
    Subroutine,
    /// RETI.
    Interrupt,
}

/// What an instruction does besides continuing with the next.
#[derive(Clone, Copy)]
pub(crate) enum Action {
    /// NOP.
    Skip,
    /// MOV of a byte.
    Assign(Addressing, ByteOperand),
    /// ADD, ADDC and SUBB to A.
    Accumulate(Addition, ByteOperand),
    /// ANL, ORL and XRL of two bytes.
    Combine(Logic, Addressing, ByteOperand),
    /// INC and DEC of a byte.
    Change(Count, Addressing),
    /// RR, RRC, RL, RLC, SWAP, CPL and DA of A.
    Turn(Turning),
    /// MUL AB.
    Multiply,
    /// DIV AB.
    Divide,
    /// XCH.
    Exchange(Addressing),
    /// XCHD.
    ExchangeDigit(Addressing),
    /// MOV DPTR,#data16.
    LoadDptr(u16),
    /// INC DPTR.
    AdvanceDptr,
    /// MOVX to A.
    LoadExternal(ExternalAt),
    /// MOVX from A.
    StoreExternal(ExternalAt),
    /// MOVC.
    LoadCode(CodeBase),
    /// PUSH.
    Push(Addressing),
    /// POP.
    Pop(Addressing),
    /// CLR, SETB and CPL of C.
    ChangeCarry(CarryChange),
    /// MOV, ANL and ORL to C from a bit address.
    CarryWith(CarryMerge, u8),
    /// SETB, CLR and MOV from C, to a bit address.
    StoreBit(BitSource, u8),
    /// CPL of a bit address.
    FlipBit(u8),
    /// LJMP.
    JumpTo(u16),
    /// AJMP.
    JumpNear(Address11),
    /// SJMP.
    JumpBy(u8),
    /// JMP @A+DPTR.
    JumpIndirect,
    /// JC, JNC, JZ and JNZ.
    BranchOn(Condition, u8),
    /// JB and JNB of a bit address.
    BranchOnBit(BitTest, u8, u8),
    /// JBC of a bit address.
    TestAndClear(u8, u8),
    /// CJNE.
    Compare(ByteOperand, ByteOperand, u8),
    /// DJNZ.
    CountDown(Addressing, u8),
    /// LCALL.
    CallTo(u16),
    /// ACALL.
    CallNear(Address11),
    /// RET and RETI.
    Return(ReturnFrom),
}
