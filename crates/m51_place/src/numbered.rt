//! Extents that are placed.
use m51_module::Placed;

/// An extent that is placed, and its joined number where it is a segment.
///
/// Source: own choice ("Placing").
#[derive(Clone, Copy)]
pub struct Numbered {
    pub placed: Placed,
    /// None for a register bank and for a reserve.
    pub number: Option<u16>,
}
