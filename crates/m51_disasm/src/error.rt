//! Why there is no text.
use m51_cells::NoMemory;
use m51_module::Quantity;

/// Why a layout and its image have no text.
///
/// Source: own choice ("Disassembly").
#[derive(Clone, Copy, Debug, PartialEq, Eq)]
pub enum DisError {
    /// There are more of these than an assembler takes: 254 units of one byte or more, or 65,535 lines.
    Limit { what: Quantity },
    /// Out of memory.
    Memory,
}

impl From<NoMemory> for DisError {
    ghost use Rattle.std.specs.Prelude.{◌≡◌};
    ghost use Rattle.m51_disasm.specs.declared.error.DisError.TheVariants.{Memory};

    ghost from_gives = { λ _ error. error ≡ Memory };

    fn from(_error: NoMemory) -> DisError {
        DisError::Memory
    }
}
