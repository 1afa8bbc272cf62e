//! What segments, names and values are of.
ghost use Rattle.std.specs.Prelude.{◌≡◌, ◌↔◌, IsTrue};
ghost use Rattle.m51_cells.specs.Kinds as word;

/// The kind of a segment, of a name or of a value.
///
/// Source: ASM51 guide.
#[derive(Clone, Copy, Debug, PartialEq, Eq)]
pub enum Kind {
    /// Program memory.
    Code,
    /// External data memory.
    Xdata,
    /// DATA: the lower 128 bytes of internal RAM, which instructions address directly.
    Direct,
    /// All 256 bytes of internal RAM, which instructions address by R0 and R1.
    Idata,
    /// BIT: the 128 bits of the bytes 20H to 2FH of internal RAM.
    Bits,
    /// No memory: names and values that have no kind.
    Number,
}

/// The type of a segment: where it may begin.
///
/// Source: ASM51 guide.
#[derive(Clone, Copy, Debug, PartialEq, Eq)]
pub enum Reloc {
    /// An absolute segment, whose base the source gives.
    Abs,
    /// Anywhere in its memory.
    Unit,
    /// In the bytes 20H to 2FH of internal RAM, whose bits have addresses.
    Bitaddressable,
    /// Inside one block of 256 bytes.
    Inpage,
    /// Inside one block of 2,048 bytes.
    Inblock,
    /// At a multiple of 256.
    Page,
}

/// What a number is counted from.
///
/// Source: OMF-51.
#[derive(Clone, Copy, Debug, PartialEq, Eq)]
pub enum Base {
    /// Nothing: the number is the value.
    None,
    /// A segment of the module, counted from 1.
    Segment(u8),
    /// An external of the module, counted from 1.
    External(u8),
}

/// Whether the kinds are the same.
///
/// Source: ASM51 guide.
#[tactic(auto, using(crate::proofs::KindLaws::kind_same))]
pub fn same_kind(one: Kind, two: Kind) -> bool
    ensures word { result ≡ word.same_kind one two }
    ensures same { IsTrue result ↔ one ≡ two }
{
    one == two
}

/// Whether the types are the same.
///
/// Source: ASM51 guide.
#[tactic(auto, using(crate::proofs::KindLaws::reloc_same))]
pub fn same_reloc(one: Reloc, two: Reloc) -> bool
    ensures word { result ≡ word.same_reloc one two }
    ensures same { IsTrue result ↔ one ≡ two }
{
    one == two
}

/// Whether the kind is program memory.
///
/// Source: ASM51 guide.
pub fn is_code(kind: Kind) -> bool
    ensures { result ≡ word.is_code kind }
{
    match kind {
        Kind::Code => true,
        Kind::Xdata | Kind::Direct | Kind::Idata | Kind::Bits | Kind::Number => false,
    }
}

/// Whether the type is that of an absolute segment.
///
/// Source: ASM51 guide.
pub fn is_absolute(reloc: Reloc) -> bool
    ensures { result ≡ word.is_absolute reloc }
{
    match reloc {
        Reloc::Abs => true,
        Reloc::Unit | Reloc::Bitaddressable | Reloc::Inpage | Reloc::Inblock | Reloc::Page => false,
    }
}

/// Whether a segment of the kind may have the type: absolute and UNIT with each kind, BITADDRESSABLE with DATA, INPAGE
/// and PAGE with CODE and XDATA, INBLOCK with CODE; and none where there is no kind.
///
/// Source: ASM51 guide.
pub fn allows(kind: Kind, reloc: Reloc) -> bool
    ensures { result ≡ word.allows kind reloc }
{
    match (kind, reloc) {
        (Kind::Number, _) => false,
        (_, Reloc::Abs | Reloc::Unit) => true,
        (Kind::Direct, Reloc::Bitaddressable) => true,
        (Kind::Code | Kind::Xdata, Reloc::Inpage | Reloc::Page) => true,
        (Kind::Code, Reloc::Inblock) => true,
        _ => false,
    }
}

/// Whether a segment of the kind and type may be OVERLAYABLE: it is relocatable, and not of program memory.
///
/// Source: RL51 guide.
pub fn may_overlay(kind: Kind, reloc: Reloc) -> bool
    ensures { result ≡ word.may_overlay kind reloc }
{
    !is_absolute(reloc) && !is_code(kind)
}

/// The most bytes, for BIT bits, of a joined segment of the kind and type.
///
/// Source: RL51 guide.
pub fn most_of(kind: Kind, reloc: Reloc) -> u32
    ensures { result ≡ word.most_of kind reloc }
{
    match (kind, reloc) {
        (Kind::Direct, Reloc::Bitaddressable) => 16,
        (Kind::Direct, _) | (Kind::Bits, _) => 128,
        (Kind::Idata, _) | (_, Reloc::Inpage) => 256,
        (_, Reloc::Inblock) => 2048,
        _ => 65_535,
    }
}

/// The most bytes, for BIT bits, of a segment of the kind in a module.
///
/// Source: ASM51 guide.
pub fn largest(kind: Kind) -> u32
    ensures { result ≡ word.largest kind }
{
    most_of(kind, Reloc::Unit)
}
