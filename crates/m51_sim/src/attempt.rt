//! What a step is.
use m51_flat::Source;
use m51_isa::Instr;

/// What a step is.
///
/// Source: own choice ("Runs").
#[derive(Drop)]
pub enum Attempt {
    /// The vectoring of an interrupt of this source.
    Vectoring(Source),
    /// A machine cycle without an instruction.
    Idling,
    /// This instruction.
    Executing(Instr),
    /// The reserved opcode, which is no instruction.
    Refusing,
}
