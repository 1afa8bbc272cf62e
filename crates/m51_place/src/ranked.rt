//! Relocatable segments in the order in which they are placed.
use m51_control::Class;
use m51_resolve::JoinedSegment;

/// The groups of a class, in the order in which they are placed.
///
/// Source: RL51 guide; own choice ("Order of placing").
#[derive(Clone, Copy)]
pub enum Group {
    /// A plain segment that a control line orders.
    Named {
        /// Its first naming among the names that lines order of its class.
        naming: usize,
    },
    /// Another plain segment.
    Plain,
    /// An overlaid segment.
    Overlaid {
        /// The index among the vectors of the first root above its own unit; 7 where there is none.
        root: usize,
        /// The level of its own unit.
        level: u16,
    },
    /// A segment `?STACK` of IDATA that no line orders.
    Stack,
}

/// Where a segment is in the order: by class, by group, and by joined number.
///
/// Source: RL51 guide; own choice ("Order of placing").
#[derive(Clone, Copy)]
pub struct Rank {
    pub class: Option<Class>,
    pub group: Group,
    /// The joined number.
    pub number: u16,
}

/// A relocatable segment with its rank.
///
/// Source: own choice ("Placing").
#[derive(Clone, Copy)]
pub struct Ranked {
    /// The joined number.
    pub number: u16,
    pub segment: JoinedSegment,
    /// Its own unit, where it is overlaid.
    pub own: Option<u16>,
    pub rank: Rank,
}
