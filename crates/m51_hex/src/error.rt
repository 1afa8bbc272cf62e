//! What is wrong with a HEX file.
use m51_cells::NoMemory;
use thiserror::Error;

/// Why a HEX file is refused. Lines count from 1.
///
/// Source: own choice ("Intel HEX files").
#[derive(Clone, Copy, Debug, PartialEq, Eq, Error)]
pub enum HexError {
    /// The line does not begin with a colon.
    #[error("line {line} does not begin with a colon")]
    H1 { line: u32 },
    /// A character after the line's colon is no hexadecimal digit.
    #[error("a character of line {line} is no hexadecimal digit")]
    H2 { line: u32 },
    /// The line has not the form of a record: its count is not that of its data, digits are too few or odd in number,
    /// its type is neither 00 nor 01, a record of type 01 has data, or its data end above 10000H.
    #[error("line {line} has not the form of a record")]
    H3 { line: u32 },
    /// The checksum of the line's record is wrong.
    #[error("the checksum of line {line} is wrong")]
    H4 { line: u32 },
    /// There is no record of type 01.
    #[error("there is no record of type 01")]
    H5,
    /// Out of memory.
    #[error("out of memory")]
    Memory,
}

impl From<NoMemory> for HexError {
    ghost use Rattle.std.specs.Prelude.{◌≡◌};
    ghost use Rattle.m51_hex.specs.declared.error.HexError.TheVariants.{Memory};

    ghost from_gives = { λ _ error. error ≡ Memory };

    fn from(_error: NoMemory) -> HexError {
        HexError::Memory
    }
}
