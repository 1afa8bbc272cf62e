//! The search for the least base.
ghost use Rattle.std.specs.Prelude.{◌≡◌, ◌≢◌, ◌↔◌, ℕ, ◌+◌, ◌<◌, ◌≤◌, ◌⊎◌, true, IfOk, MatchOption};
ghost use Rattle.std.specs.List.{All};
ghost use Rattle.std.specs.List.Sorted.{IsPermutation};
ghost use Rattle.m51_cells.specs.Extent.{extent_of, Meet};
ghost use Rattle.m51_cells.specs.Fits.{allows, Fits};
ghost use Rattle.m51_bases.specs.Raising.{EndsWithin, in_block, rounded, HasNoFit, IsBlocked, IsClear, IsFirstClear};
ghost use Rattle.m51_bases.specs.Raising.{IsNextFit, IsRaised, NoneBelow, NoneIsClear, Passes, same_space};

use m51_cells::{Extent, Kind, NoMemory, Reloc, Space, cells_of, fits, meets};

/// What going over all extents once gives.
///
/// Source: own choice ("Bases that fit").
pub enum Search {
    /// The base shares no cell with any of them.
    Clear,
    /// No base below this one does.
    Raised(u32),
    /// No base does.
    Full,
}

// `from`, if the segment lies in one block of `block` bytes there; else the start of the next block.
fn in_block(block: u32, size: u32, from: u32) -> u32
    requires block { (block ≡ 256) ⊎ (block ≡ 2048) }
    requires size { size ≤ 65535 }
    requires from { from ≤ 1048576 }
    ensures { result ≡ in_block block size from }
{
    if size == 0 || from / block == (from + size - 1) / block {
        from
    } else {
        (from / block + 1) * block
    }
}

// The least base from there on that the type allows, whatever the end.
fn rounded(kind: Kind, reloc: Reloc, size: u32, from: u32) -> u32
    requires size { size ≤ 65535 }
    requires from { from ≤ 1048576 }
    ensures { result ≡ rounded kind reloc size from }
{
    match (kind, reloc) {
        (Kind::Direct, Reloc::Bitaddressable) => from.max(0x20),
        (Kind::Code | Kind::Xdata, Reloc::Page) => (from + 255) / 256 * 256,
        (Kind::Code | Kind::Xdata, Reloc::Inpage) => in_block(256, size, from),
        (Kind::Code | Kind::Xdata, Reloc::Inblock) => in_block(2048, size, from),
        _ => from,
    }
}

// The least base from there on at which the segment fits.
fn next_fit(kind: Kind, reloc: Reloc, size: u32, from: u32) -> Option<u32>
    requires kind { kind ≢ Kind.Number }
    requires reloc { allows kind reloc ≡ true }
    requires size { size ≤ 65535 }
    requires from { from ≤ 1048576 }
    ensures { MatchOption result (HasNoFit kind reloc size from) (λ base. IsNextFit kind reloc size from base) }
{
    let base = rounded(kind, reloc, size, from);
    if fits(kind, reloc, base, size) {
        Some(base)
    } else {
        None
    }
}

// The least base whose first cell lies after the extent.
fn base_after(kind: Kind, e: &Extent) -> u32
    requires kind { kind ≢ Kind.Number }
    requires end { e.now.first + e.now.len ≤ 1048576 }
    ensures most { result ≤ 1048576 }
    ensures after { (lower size : ℕ) → (lower < result)
        ↔ ((extent_of kind lower size).first < e.now.first + e.now.len) }
{
    let end = e.first + e.len;
    match kind {
        Kind::Direct | Kind::Idata => (end + 7) / 8,
        Kind::Bits => end.saturating_sub(256),
        _ => end,
    }
}

// The base, or one after the extent where they meet.
fn raise(kind: Kind, reloc: Reloc, size: u32, e: &Extent, base: u32) -> Option<u32>
    requires kind { kind ≢ Kind.Number }
    requires reloc { allows kind reloc ≡ true }
    requires size { size ≤ 65535 }
    requires base { base ≤ 65536 }
    requires fits { Fits kind reloc base size }
    requires end { e.now.first + e.now.len ≤ 1048576 }
    ensures { MatchOption result (IsBlocked kind reloc size e.now base)
        (λ next. IsRaised kind reloc size e.now base next) }
{
    if !meets(e, &cells_of(kind, base, size)) {
        return Some(base);
    }
    next_fit(kind, reloc, size, base_after(kind, e))
}

// Goes over all extents once.
fn pass(extents: &[Extent], kind: Kind, reloc: Reloc, size: u32, base: u32) -> Search
    requires kind { kind ≢ Kind.Number }
    requires reloc { allows kind reloc ≡ true }
    requires size { size ≤ 65535 }
    requires base { base ≤ 65536 }
    requires fits { Fits kind reloc base size }
    requires ends { All EndsWithin extents.now }
    requires none { NoneBelow extents.now kind reloc size base }
    ensures { Passes extents.now kind reloc size base result }
{
    let mut next = base;
    for e in extents {
        match raise(kind, reloc, size, e, next) {
            Some(raised) => next = raised,
            None => return Search::Full,
        }
    }
    if next == base {
        Search::Clear
    } else {
        Search::Raised(next)
    }
}

/// Whether the memories are the same.
///
/// Source: own choice ("Bases that fit").
pub fn same_space(one: Space, two: Space) -> bool
    ensures { result ≡ same_space one two }
{
    one == two
}

// Whether each extent begins where the one before it does, or after.
fn ascend(extents: &[Extent]) -> bool {
    let mut first = 0;
    for e in extents {
        if e.first < first {
            return false;
        }
        first = e.first;
    }
    true
}

/// Puts the extents into an order in which going over them is faster. Contracts see only that they are the same
/// extents, also where memory runs out. Error: out of memory.
///
/// Source: own choice ("Bases that fit").
pub fn arrange(extents: &mut Vec<Extent>) -> Result<(), NoMemory>
    ensures { IsPermutation extents.old.items extents.new.items }
{
    if !ascend(extents) {
        extents.sort_by_key(|e| e.first)?;
    }
    Ok(())
}

/// The least base at which the segment fits and shares no cell with these extents; `None` where there is none. Its kind
/// is not NUMBER and allows its type, its size is at most 65,535, and each extent ends at 1,048,576 at most.
///
/// Source: own choice ("Bases that fit").
pub fn first_clear(extents: &[Extent], kind: Kind, reloc: Reloc, size: u32) -> Option<u32>
    requires kind { kind ≢ Kind.Number }
    requires reloc { allows kind reloc ≡ true }
    requires size { size ≤ 65535 }
    requires ends { All EndsWithin extents.now }
    ensures { MatchOption result (NoneIsClear extents.now kind reloc size)
        (λ base. IsFirstClear extents.now kind reloc size base) }
{
    let mut base = next_fit(kind, reloc, size, 0)?;
    'search: loop {
        match pass(extents, kind, reloc, size, base) {
            Search::Clear => return Some(base),
            Search::Raised(next) => base = next,
            Search::Full => return None,
        }
    }
}
