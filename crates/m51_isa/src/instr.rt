//! Instructions, and where control goes after them.
use crate::operand::{Address11, Pointer, Register};

/// An instruction: one variant for each operand form, with its operands in the order of its bytes.
///
/// A register number is in the opcode, so it comes first.
///
/// Source: family manual.
#[derive(Clone, Copy)]
pub enum Instr {
    /// `NOP`, 00H.
    Nop,
    /// `JBC bit,rel`, 10H.
    JbcBitRel(u8, u8),
    /// `JB bit,rel`, 20H.
    JbBitRel(u8, u8),
    /// `JNB bit,rel`, 30H.
    JnbBitRel(u8, u8),
    /// `JC rel`, 40H.
    JcRel(u8),
    /// `JNC rel`, 50H.
    JncRel(u8),
    /// `JZ rel`, 60H.
    JzRel(u8),
    /// `JNZ rel`, 70H.
    JnzRel(u8),
    /// `SJMP rel`, 80H.
    SjmpRel(u8),
    /// `MOV DPTR,#data16`, 90H.
    MovDptrData16(u16),
    /// `ORL C,/bit`, A0H.
    OrlCNotBit(u8),
    /// `ANL C,/bit`, B0H.
    AnlCNotBit(u8),
    /// `PUSH direct`, C0H.
    PushDirect(u8),
    /// `POP direct`, D0H.
    PopDirect(u8),
    /// `MOVX A,@DPTR`, E0H.
    MovxAAtDptr,
    /// `MOVX @DPTR,A`, F0H.
    MovxAtDptrA,
    /// `AJMP addr11`, 01H, 21H and so on to E1H.
    AjmpAddr11(Address11),
    /// `ACALL addr11`, 11H, 31H and so on to F1H.
    AcallAddr11(Address11),
    /// `LJMP addr16`, 02H.
    LjmpAddr16(u16),
    /// `LCALL addr16`, 12H.
    LcallAddr16(u16),
    /// `RET`, 22H.
    Ret,
    /// `RETI`, 32H.
    Reti,
    /// `ORL direct,A`, 42H.
    OrlDirectA(u8),
    /// `ANL direct,A`, 52H.
    AnlDirectA(u8),
    /// `XRL direct,A`, 62H.
    XrlDirectA(u8),
    /// `ORL C,bit`, 72H.
    OrlCBit(u8),
    /// `ANL C,bit`, 82H.
    AnlCBit(u8),
    /// `MOV bit,C`, 92H.
    MovBitC(u8),
    /// `MOV C,bit`, A2H.
    MovCBit(u8),
    /// `CPL bit`, B2H.
    CplBit(u8),
    /// `CLR bit`, C2H.
    ClrBit(u8),
    /// `SETB bit`, D2H.
    SetbBit(u8),
    /// `MOVX A,@Ri`, E2H and E3H.
    MovxAAtRi(Pointer),
    /// `MOVX @Ri,A`, F2H and F3H.
    MovxAtRiA(Pointer),
    /// `RR A`, 03H.
    RrA,
    /// `RRC A`, 13H.
    RrcA,
    /// `RL A`, 23H.
    RlA,
    /// `RLC A`, 33H.
    RlcA,
    /// `ORL direct,#data`, 43H.
    OrlDirectData(u8, u8),
    /// `ANL direct,#data`, 53H.
    AnlDirectData(u8, u8),
    /// `XRL direct,#data`, 63H.
    XrlDirectData(u8, u8),
    /// `JMP @A+DPTR`, 73H.
    JmpAtADptr,
    /// `MOVC A,@A+PC`, 83H.
    MovcAAtAPc,
    /// `MOVC A,@A+DPTR`, 93H.
    MovcAAtADptr,
    /// `INC DPTR`, A3H.
    IncDptr,
    /// `CPL C`, B3H.
    CplC,
    /// `CLR C`, C3H.
    ClrC,
    /// `SETB C`, D3H.
    SetbC,
    /// `INC A`, 04H.
    IncA,
    /// `DEC A`, 14H.
    DecA,
    /// `ADD A,#data`, 24H.
    AddAData(u8),
    /// `ADDC A,#data`, 34H.
    AddcAData(u8),
    /// `ORL A,#data`, 44H.
    OrlAData(u8),
    /// `ANL A,#data`, 54H.
    AnlAData(u8),
    /// `XRL A,#data`, 64H.
    XrlAData(u8),
    /// `MOV A,#data`, 74H.
    MovAData(u8),
    /// `DIV AB`, 84H.
    DivAb,
    /// `SUBB A,#data`, 94H.
    SubbAData(u8),
    /// `MUL AB`, A4H.
    MulAb,
    /// `CJNE A,#data,rel`, B4H.
    CjneADataRel(u8, u8),
    /// `SWAP A`, C4H.
    SwapA,
    /// `DA A`, D4H.
    DaA,
    /// `CLR A`, E4H.
    ClrA,
    /// `CPL A`, F4H.
    CplA,
    /// `INC direct`, 05H.
    IncDirect(u8),
    /// `DEC direct`, 15H.
    DecDirect(u8),
    /// `ADD A,direct`, 25H.
    AddADirect(u8),
    /// `ADDC A,direct`, 35H.
    AddcADirect(u8),
    /// `ORL A,direct`, 45H.
    OrlADirect(u8),
    /// `ANL A,direct`, 55H.
    AnlADirect(u8),
    /// `XRL A,direct`, 65H.
    XrlADirect(u8),
    /// `MOV direct,#data`, 75H.
    MovDirectData(u8, u8),
    /// `MOV direct,direct`, 85H; the source comes first.
    MovDirectDirect(u8, u8),
    /// `SUBB A,direct`, 95H.
    SubbADirect(u8),
    /// `CJNE A,direct,rel`, B5H.
    CjneADirectRel(u8, u8),
    /// `XCH A,direct`, C5H.
    XchADirect(u8),
    /// `DJNZ direct,rel`, D5H.
    DjnzDirectRel(u8, u8),
    /// `MOV A,direct`, E5H.
    MovADirect(u8),
    /// `MOV direct,A`, F5H.
    MovDirectA(u8),
    /// `INC @Ri`, 06H and 07H.
    IncAtRi(Pointer),
    /// `DEC @Ri`, 16H and 17H.
    DecAtRi(Pointer),
    /// `ADD A,@Ri`, 26H and 27H.
    AddAAtRi(Pointer),
    /// `ADDC A,@Ri`, 36H and 37H.
    AddcAAtRi(Pointer),
    /// `ORL A,@Ri`, 46H and 47H.
    OrlAAtRi(Pointer),
    /// `ANL A,@Ri`, 56H and 57H.
    AnlAAtRi(Pointer),
    /// `XRL A,@Ri`, 66H and 67H.
    XrlAAtRi(Pointer),
    /// `MOV @Ri,#data`, 76H and 77H.
    MovAtRiData(Pointer, u8),
    /// `MOV direct,@Ri`, 86H and 87H.
    MovDirectAtRi(Pointer, u8),
    /// `SUBB A,@Ri`, 96H and 97H.
    SubbAAtRi(Pointer),
    /// `MOV @Ri,direct`, A6H and A7H.
    MovAtRiDirect(Pointer, u8),
    /// `CJNE @Ri,#data,rel`, B6H and B7H.
    CjneAtRiDataRel(Pointer, u8, u8),
    /// `XCH A,@Ri`, C6H and C7H.
    XchAAtRi(Pointer),
    /// `XCHD A,@Ri`, D6H and D7H.
    XchdAAtRi(Pointer),
    /// `MOV A,@Ri`, E6H and E7H.
    MovAAtRi(Pointer),
    /// `MOV @Ri,A`, F6H and F7H.
    MovAtRiA(Pointer),
    /// `INC Rn`, 08H to 0FH.
    IncRn(Register),
    /// `DEC Rn`, 18H to 1FH.
    DecRn(Register),
    /// `ADD A,Rn`, 28H to 2FH.
    AddARn(Register),
    /// `ADDC A,Rn`, 38H to 3FH.
    AddcARn(Register),
    /// `ORL A,Rn`, 48H to 4FH.
    OrlARn(Register),
    /// `ANL A,Rn`, 58H to 5FH.
    AnlARn(Register),
    /// `XRL A,Rn`, 68H to 6FH.
    XrlARn(Register),
    /// `MOV Rn,#data`, 78H to 7FH.
    MovRnData(Register, u8),
    /// `MOV direct,Rn`, 88H to 8FH.
    MovDirectRn(Register, u8),
    /// `SUBB A,Rn`, 98H to 9FH.
    SubbARn(Register),
    /// `MOV Rn,direct`, A8H to AFH.
    MovRnDirect(Register, u8),
    /// `CJNE Rn,#data,rel`, B8H to BFH.
    CjneRnDataRel(Register, u8, u8),
    /// `XCH A,Rn`, C8H to CFH.
    XchARn(Register),
    /// `DJNZ Rn,rel`, D8H to DFH.
    DjnzRnRel(Register, u8),
    /// `MOV A,Rn`, E8H to EFH.
    MovARn(Register),
    /// `MOV Rn,A`, F8H to FFH.
    MovRnA(Register),
}

/// Where control goes after an instruction.
///
/// Source: family manual.
#[derive(Clone, Copy, Debug, PartialEq, Eq)]
pub enum Flow {
    /// To the next instruction.
    Next,
    /// To the next instruction or to a target.
    Branch,
    /// To a target, with a return address on the stack.
    Call,
    /// To the address on the stack.
    Ret,
    /// To the address on the stack, at the end of an interrupt.
    Reti,
}

/// What an instruction writes at an address that is one of its operands.
///
/// Source: family manual.
#[derive(Clone, Copy, Debug, PartialEq, Eq)]
pub enum Written {
    /// Nothing.
    Nothing,
    /// The byte at this direct address.
    Direct(u8),
    /// The bit at this bit address.
    Bit(u8),
    /// The bit at this bit address, only where it is 1.
    BitIfSet(u8),
}

/// What an instruction does with the stack.
///
/// Source: family manual.
#[derive(Clone, Copy, Debug, PartialEq, Eq)]
pub enum Stack {
    /// Nothing.
    Keep,
    /// Puts a byte on it.
    Push,
    /// Takes a byte from it.
    Pop,
    /// Puts a return address of two bytes on it.
    Call,
    /// Takes a return address of two bytes from it.
    Return,
}
