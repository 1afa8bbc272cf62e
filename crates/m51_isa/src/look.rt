//! What operands look like.
use crate::operand::{Pointer, Register};

/// What an operand of a line looks like, whatever its number; or that there is none.
///
/// Source: family manual.
#[derive(Clone, Copy)]
pub enum Look {
    /// No operand.
    Nothing,
    /// `A`
    A,
    /// `AB`
    Ab,
    /// `C`
    C,
    /// `DPTR`
    Dptr,
    /// `@A+PC`
    APc,
    /// `@A+DPTR`
    ADptr,
    /// `@DPTR`
    AtDptr,
    /// `R0` to `R7`
    R(Register),
    /// `@R0` or `@R1`
    AtR(Pointer),
    /// `#` and a number.
    Imm,
    /// A number: an address, a bit or a target.
    Plain,
    /// `/` and the number of a bit.
    NotBit,
    /// A register that no row has.
    Other,
}
