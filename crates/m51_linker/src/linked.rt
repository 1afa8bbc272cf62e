//! What a link gives.
use m51_cells::Bytes;
use m51_module::{Image, Layout, Runs};

/// A linked program.
///
/// Source: RL51 guide.
#[derive(Drop)]
pub struct Linked {
    /// The layout of all segments, which is sound.
    pub layout: Layout,
    /// The bytes of program memory: FFH where there is no content.
    pub image: Image,
    /// The runs of the image that content fills.
    pub written: Runs,
    /// For each unit a byte of the roots that it lies under: bit 0 for the reset, bits 1 to 6 for the interrupts at
    /// 0003H, 000BH, 0013H, 001BH, 0023H and 002BH.
    pub roots: Bytes,
}
