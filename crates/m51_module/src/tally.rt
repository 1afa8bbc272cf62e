//! The numbers of a run.
use m51_cells::Event;

/// The numbers of a run.
///
/// Source: own choice ("Runs").
#[derive(Clone, Copy, Debug, PartialEq, Eq)]
pub struct Tally {
    /// How many entries its trace has.
    pub entries: u64,
    /// How many steps were performed, 0 to 10,000,000.
    pub steps: u32,
    /// The number of the machine cycle after them.
    pub cycle: u64,
    /// The event that stopped it, if one did.
    pub event: Option<Event>,
}
