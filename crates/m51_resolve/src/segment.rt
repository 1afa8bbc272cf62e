//! Joined segments.
use m51_cells::{Kind, Name, Reloc};

/// A segment of the whole program: the relocatable segments of one name, joined, or one absolute segment.
///
/// Source: RL51 guide.
#[derive(Clone, Copy, Debug, PartialEq, Eq)]
pub struct JoinedSegment {
    /// The name of a relocatable segment, `@` and the four digits of its base for an absolute one.
    pub title: Name,
    pub kind: Kind,
    pub reloc: Reloc,
    /// OVERLAYABLE: the segment holds locals or arguments of a unit.
    pub overlay: bool,
    /// ARGUMENT: the segment holds the arguments of a unit, which its callers fill.
    pub argument: bool,
    /// The base of an absolute segment, in bytes, for BIT in bits; 0 else.
    pub base: u16,
    /// The end of the last part, in bytes, for BIT in bits.
    pub size: u16,
}
