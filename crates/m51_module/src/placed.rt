//! Placed extents.
ghost use Rattle.std.specs.Prelude.{◌≡◌, ◌≢◌, ◌↔◌, IsTrue};
ghost use Rattle.m51_cells.specs.Extent.{Covers};
ghost use Rattle.m51_module.specs.Cells.{extent_at, code_cell};

use m51_cells::{Extent, Kind, ListOf, Name, Reloc, cells_of};

/// What a placed extent is.
///
/// Source: RL51 guide.
#[derive(Clone, Copy, Debug, PartialEq, Eq)]
pub enum Mark {
    /// A register bank in use.
    Bank,
    /// Cells that a control line keeps free.
    Reserve,
    /// An absolute segment.
    Absolute,
    /// A relocatable segment that is not overlaid.
    Plain,
    /// A segment that may share cells with locals of units that are never active together with its own.
    Overlaid,
}

/// A placed extent: a segment, a register bank or a reserve.
///
/// Source: own choice ("Layouts").
#[derive(Clone, Copy, Debug, PartialEq, Eq)]
pub struct Placed {
    /// The name of a relocatable segment, the title of an absolute one, `BANKk` or `RESERVE`.
    pub title: Name,
    pub kind: Kind,
    pub reloc: Reloc,
    pub mark: Mark,
    /// In bytes, for BIT in bits.
    pub base: u16,
    /// In bytes, for BIT in bits.
    pub size: u16,
}

impl Placed {
    /// The cells that it covers. Its kind is not NUMBER.
    ///
    /// Source: own choice ("A cell of RAM is a bit").
    pub fn cells(&self) -> Extent
        requires { self.now.kind ≢ Kind.Number }
        ensures { result ≡ extent_at self.now }
    {
        cells_of(self.kind, u32::from(self.base), u32::from(self.size))
    }

    /// Whether the segment, which must be one of program memory, covers the address.
    ///
    /// Source: own choice ("Units").
    pub fn covers(&self, address: u16) -> bool
        requires { self.now.kind ≡ Kind.Code }
        ensures { IsTrue result ↔ Covers (extent_at self.now) (code_cell address) }
    {
        self.base <= address && u32::from(address) < u32::from(self.base) + u32::from(self.size)
    }
}

/// The placed extents of a layout, counted from 0.
///
/// Source: own choice ("Lists in types").
pub type PlacedList = ListOf<Placed>;

/// Units, counted from 0, or for each unit a number.
///
/// Source: own choice ("Lists in types").
pub type Units = ListOf<u16>;

/// Pairs of numbers.
///
/// Source: own choice ("Lists in types").
pub type Pairs = ListOf<(u16, u16)>;
