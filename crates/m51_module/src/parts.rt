//! The parts from which modules and layouts are made.
use crate::{ExternalList, Fixups, Pairs, Pieces, PlacedList, Publics, Segments, Units};
use m51_cells::Name;

/// The parts of a module.
///
/// Source: own choice ("Valid modules").
#[derive(Drop)]
pub struct ModuleParts {
    pub name: Name,
    /// The version of the object that holds it: 1, or 2, in which segments may have the argument mark.
    pub version: u8,
    /// Counted from 1.
    pub segments: Segments,
    pub publics: Publics,
    /// Counted from 1.
    pub externals: ExternalList,
    pub pieces: Pieces,
    pub fixups: Fixups,
    /// Bit k is set where the module uses register bank k, 0 to 3; bit 0 always.
    pub banks: u8,
}

/// The parts of a layout.
///
/// Source: own choice ("Layouts").
#[derive(Drop)]
pub struct LayoutParts {
    /// The placed extents in order of placing, counted from 0.
    pub placed: PlacedList,
    /// For each unit, counted from 0, its index among the placed extents.
    pub units: Units,
    /// Each edge: the unit that it leaves and the unit that it leads to.
    pub edges: Pairs,
    /// Each owner: an overlaid segment and a unit. The owners of a segment are in the order of their pairs: its own
    /// unit first, then the others, ascending.
    pub owners: Pairs,
}
