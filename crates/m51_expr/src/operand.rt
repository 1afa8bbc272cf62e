//! The operands of instructions and the items of lists of data.
use crate::tree::Expr;
use m51_cells::{Bytes, ListOf};

/// An operand of an instruction.
///
/// Source: ASM51 guide.
#[derive(Drop)]
pub enum Operand {
    /// `A`
    A,
    /// `AB`
    Ab,
    /// `C`
    C,
    /// `DPTR`
    Dptr,
    /// `@A+PC`
    APc,
    /// `@A+DPTR`
    ADptr,
    /// `@DPTR`
    AtDptr,
    /// `R0` to `R7`
    R(u8),
    /// `@R0` or `@R1`
    AtR(u8),
    /// `#` and an expression.
    Imm(Expr),
    /// An expression: an address, a bit or a target.
    Plain(Expr),
    /// `/` and an expression: a bit, inverted.
    NotBit(Expr),
}

/// The operands of an instruction, at most three.
///
/// Source: own choice ("Lists in types").
pub type Operands = ListOf<Operand>;

/// An item of DB or DW.
///
/// Source: ASM51 guide.
#[derive(Drop)]
pub enum Item {
    /// A value: one byte of DB, two of DW.
    Value(Expr),
    /// A text that is a whole item of DB, as its characters.
    Text(Bytes),
}

/// The items of DB or DW.
///
/// Source: own choice ("Lists in types").
pub type Items = ListOf<Item>;
