//! The cells that segments cover, and the bases at which they fit.
ghost use Rattle.std.specs.Prelude.{◌≡◌, ◌≢◌, ◌+◌, ◌<◌, ◌≤◌, ◌↔◌, IsTrue, true};
ghost use Rattle.m51_cells.specs.Extent.{extent_of, Meet};
ghost use Rattle.m51_cells.specs.Fits.{allows, Fits, FitsBlock, FitsMemory};

use crate::{Kind, Reloc, Space};

/// Consecutive cells of a memory.
///
/// Source: own choice ("A cell of RAM is a bit").
#[derive(Clone, Copy, Debug, PartialEq, Eq)]
pub struct Extent {
    pub space: Space,
    /// The first cell.
    pub first: u32,
    /// The number of cells.
    pub len: u32,
}

/// The cells that a segment covers: base and size are counted in bytes, for BIT in bits from bit address 0. Its kind is
/// not NUMBER, and both are at most 65,536.
///
/// Source: own choice ("A cell of RAM is a bit").
pub fn cells_of(kind: Kind, base: u32, size: u32) -> Extent
    requires kind { kind ≢ Kind.Number }
    requires base { base ≤ 65536 }
    requires size { size ≤ 65536 }
    ensures { result ≡ extent_of kind base size }
{
    match kind {
        Kind::Direct | Kind::Idata => Extent {
            space: Space::Ram,
            first: 8 * base,
            len: 8 * size,
        },
        Kind::Bits => Extent {
            space: Space::Ram,
            first: 256 + base,
            len: size,
        },
        Kind::Xdata => Extent {
            space: Space::Xram,
            first: base,
            len: size,
        },
        Kind::Code => Extent {
            space: Space::Code,
            first: base,
            len: size,
        },
        Kind::Number => unreachable!(),
    }
}

// Whether two extents of one memory share a cell: neither is empty, and each begins before the other ends.
#[tactic(auto, using(crate::proofs::Meeting::shared, crate::proofs::Meeting::parted))]
fn overlap(a: &Extent, b: &Extent) -> bool
    requires { a.now.space ≡ b.now.space }
    ensures { IsTrue result ↔ Meet a.now b.now }
{
    if a.len == 0 || b.len == 0 {
        return false;
    }
    let a_end = u64::from(a.first) + u64::from(a.len);
    let b_end = u64::from(b.first) + u64::from(b.len);
    u64::from(a.first) < b_end && u64::from(b.first) < a_end
}

/// Whether two extents share a cell.
///
/// Source: own choice ("Extents go by numbers").
pub fn meets(a: &Extent, b: &Extent) -> bool
    ensures { IsTrue result ↔ Meet a.now b.now }
{
    a.space == b.space && overlap(a, b)
}

// Whether a segment ends at the limit or below it.
fn ends_by(base: u32, size: u32, limit: u64) -> bool
    ensures { IsTrue result ↔ (base + size ≤ limit) }
{
    u64::from(base) + u64::from(size) <= limit
}

// Whether a segment stays in one block of 256 or 2,048 bytes.
fn fits_block(block: u64, base: u32, size: u32) -> bool
    requires { 0 < block }
    ensures { IsTrue result ↔ FitsBlock block base size }
{
    if size == 0 {
        return true;
    }
    let last = u64::from(base) + u64::from(size - 1);
    u64::from(base) / block == last / block && ends_by(base, size, 0x10000)
}

// Whether a segment of program or external memory fits.
fn fits_memory(reloc: Reloc, base: u32, size: u32) -> bool
    ensures { IsTrue result ↔ FitsMemory reloc base size }
{
    match reloc {
        Reloc::Page => base % 256 == 0 && ends_by(base, size, 0x10000),
        Reloc::Inpage => fits_block(256, base, size),
        Reloc::Inblock => fits_block(2048, base, size),
        Reloc::Abs | Reloc::Unit | Reloc::Bitaddressable => ends_by(base, size, 0x10000),
    }
}

/// Whether a segment of this kind, type and size may begin at this base: base and size are counted in bytes, for BIT in
/// bits from bit address 0. An absolute segment fits as UNIT of its kind. The kind is not NUMBER, and allows the type.
///
/// Source: RL51 guide.
pub fn fits(kind: Kind, reloc: Reloc, base: u32, size: u32) -> bool
    requires kind { kind ≢ Kind.Number }
    requires reloc { allows kind reloc ≡ true }
    ensures { IsTrue result ↔ Fits kind reloc base size }
{
    match (kind, reloc) {
        (Kind::Direct, Reloc::Bitaddressable) => 0x20 <= base && ends_by(base, size, 0x30),
        (Kind::Direct, _) | (Kind::Bits, _) => ends_by(base, size, 0x80),
        (Kind::Idata, _) => ends_by(base, size, 0x100),
        (Kind::Code, _) | (Kind::Xdata, _) => fits_memory(reloc, base, size),
        (Kind::Number, _) => unreachable!(),
    }
}
