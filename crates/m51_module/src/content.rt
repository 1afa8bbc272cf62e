//! What segments of program memory hold, and the fields in it that the linker fills.
use m51_cells::{Base, Bytes, ListOf};

/// Consecutive bytes of a segment.
///
/// Source: own choice ("Valid modules").
#[derive(Drop)]
pub struct Piece {
    /// The segment, counted from 1.
    pub segment: u8,
    /// The offset of the first byte from the segment's base.
    pub offset: u16,
    /// 1 to 1,024 bytes.
    pub bytes: Bytes,
}

/// How the linker fills a field: by the target's address T, which is the target plus the addend modulo 65,536, and the
/// address P of the field.
///
/// Source: OMF-51.
#[derive(Clone, Copy, Debug, PartialEq, Eq)]
pub enum Form {
    /// One byte: the low byte of T.
    Low,
    /// One byte: T, which is at most 00FFH or at least FF00H.
    Byte,
    /// One byte: T minus (P + 1), as a signed number from -128 to 127.
    Relative,
    /// One byte: the high byte of T.
    High,
    /// Two bytes: T, the high byte first.
    Word,
    /// Two bytes: bits 10 to 8 of T at the top of the first, the low byte of T in the second. T and P + 2 lie in one
    /// block of 2,048 bytes.
    Inblock,
    /// One byte: the bit address T, at most 00FFH.
    Bit,
    /// One byte: the bit address of a bit of byte T.
    Conv,
}

/// A field that the linker fills.
///
/// Source: own choice ("Valid modules").
#[derive(Clone, Copy, Debug, PartialEq, Eq)]
pub struct Fixup {
    /// The segment of the field, counted from 1.
    pub segment: u8,
    /// The offset of the field's first byte from the segment's base.
    pub offset: u16,
    pub form: Form,
    /// The number of the bit, 0 to 7, for CONV; 0 else.
    pub bit: u8,
    /// The segment or external that the address counts from.
    pub target: Base,
    /// What is added, modulo 65,536.
    pub addend: u16,
}

/// The content of a module.
///
/// Source: own choice ("Lists in types").
pub type Pieces = ListOf<Piece>;

/// The fixups of a module.
///
/// Source: own choice ("Lists in types").
pub type Fixups = ListOf<Fixup>;
