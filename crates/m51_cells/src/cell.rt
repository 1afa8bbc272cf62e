//! The memories of the processor and their cells.

/// A memory of the processor.
///
/// Source: family manual.
#[derive(Clone, Copy, Debug, PartialEq, Eq)]
pub enum Space {
    /// The 256 bytes of internal RAM, counted by bits.
    Ram,
    /// The 65,536 bytes of external data memory.
    Xram,
    /// The 65,536 bytes of program memory.
    Code,
}

/// The smallest part of a memory that has one owner: a bit of internal RAM, or a byte of another memory.
///
/// Source: own choice ("A cell of RAM is a bit").
#[derive(Clone, Copy, Debug, PartialEq, Eq)]
pub struct Cell {
    pub space: Space,
    /// In internal RAM `8 * byte + bit`, below 2,048; else the byte's address, below 65,536.
    pub at: u32,
}
