//! The words for kinds and types.
ghost use Rattle.std.specs.Prelude.{◌≡◌};
ghost use Rattle.m51_stmt.specs.Kinds.{kind_of, extern_kind_of, reloc_of};

use m51_cells::{Kind, Reloc};

/// The kind of memory that a word names.
#[tactic(auto, unfolding(crate::specs::Kinds::kind_of))]
pub(crate) fn kind_of(word: &[u8]) -> Option<Kind>
    ensures { result ≡ kind_of word.now }
{
    if word == b"CODE".as_slice() {
        Some(Kind::Code)
    } else if word == b"XDATA".as_slice() {
        Some(Kind::Xdata)
    } else if word == b"DATA".as_slice() {
        Some(Kind::Direct)
    } else if word == b"IDATA".as_slice() {
        Some(Kind::Idata)
    } else if word == b"BIT".as_slice() {
        Some(Kind::Bits)
    } else {
        None
    }
}

/// The kind that a word names in EXTRN, where NUMBER means none.
pub(crate) fn extern_kind_of(word: &[u8]) -> Option<Kind>
    ensures { result ≡ extern_kind_of word.now }
{
    if word == b"NUMBER".as_slice() {
        return Some(Kind::Number);
    }
    kind_of(word)
}

/// The type of a segment that a word names.
#[tactic(auto, unfolding(crate::specs::Kinds::reloc_of))]
pub(crate) fn reloc_of(word: &[u8]) -> Option<Reloc>
    ensures { result ≡ reloc_of word.now }
{
    if word == b"UNIT".as_slice() {
        Some(Reloc::Unit)
    } else if word == b"BITADDRESSABLE".as_slice() {
        Some(Reloc::Bitaddressable)
    } else if word == b"INPAGE".as_slice() {
        Some(Reloc::Inpage)
    } else if word == b"INBLOCK".as_slice() {
        Some(Reloc::Inblock)
    } else if word == b"PAGE".as_slice() {
        Some(Reloc::Page)
    } else {
        None
    }
}
