//! Statements of a unit.
use m51_isa::Instr;

/// What is written of some bytes.
///
/// Source: own choice ("Disassembly").
#[derive(Clone, Copy)]
pub enum Content {
    /// One byte by `DB`.
    Byte(u8),
    /// An instruction.
    Code(Instr),
}

/// A statement of a unit.
///
/// Source: own choice ("Disassembly").
#[derive(Clone, Copy)]
pub struct Statement {
    /// The address at which it begins.
    pub at: u16,
    /// What is written there.
    pub content: Content,
}
