//! What a line gives: bytes, and references in them.
use m51_cells::{Bytes, ListOf};
use m51_encode::Reference;

/// A reference, after the byte of the line where its field begins, which is counted from 0.
///
/// Source: own choice ("Content of a line").
pub type ReferenceAt = (usize, Reference);

/// The references of a line, in the order of its operands or items.
///
/// Source: own choice ("Lists in types").
pub type References = ListOf<ReferenceAt>;

/// Bytes, and the references in them.
///
/// Source: own choice ("Content of a line").
#[derive(Drop)]
pub struct EmittedContent {
    /// The bytes, with 0 where the linker fills in.
    pub bytes: Bytes,
    pub references: References,
}

/// What a line gives, and how its operands and items are counted.
///
/// Source: own choice ("Content of a line").
#[derive(Drop)]
pub struct LineContent {
    pub content: EmittedContent,
    /// The fault of the leftmost operand or item that has one: 7 to 10, 14, or 19 for a fixup too many.
    pub fault: Option<u8>,
    /// How many fixups the text makes down to this line.
    pub made: usize,
}
