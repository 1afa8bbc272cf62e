//! Parts of a disassembly.

/// A unit of one byte or more.
///
/// Source: own choice ("Disassembly").
#[derive(Clone, Copy, Debug, PartialEq, Eq)]
pub struct CodeRange {
    /// The address at which it begins.
    pub base: u16,
    /// How many bytes it has.
    pub size: u16,
}
