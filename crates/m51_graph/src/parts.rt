//! The parts of a graph.
use m51_cells::ListOf;
use m51_module::{Pairs, Units};

/// For each joined segment, counted from 0, its own unit, where it is overlaid: the unit whose local or argument
/// segment it is.
///
/// Source: own choice ("Lists in types").
pub type OwnUnits = ListOf<Option<u16>>;

/// For each joined segment, counted from 0, whether it has a mark.
///
/// Source: own choice ("Lists in types").
pub type Marks = ListOf<bool>;

/// The parts of a graph: what contracts see of it, and what it lends. Units, at most 1,000, and joined segments, at
/// most 2,000, are counted from 0.
///
/// Source: RL51 guide.
#[derive(Drop)]
pub struct GraphParts {
    /// The joined number of each unit, ascending.
    pub units: Units,
    /// Each edge: the unit that it leaves and the unit that it leads to.
    pub edges: Pairs,
    /// Each root: the address of its vector, and the unit.
    pub roots: Pairs,
    /// For each joined segment its own unit, where it is overlaid.
    pub own: OwnUnits,
    /// For each joined segment whether it is marked as an argument segment.
    pub arguments: Marks,
}
