//! The linker: from modules, libraries and control lines to a layout and an image, or to the first rule that fails.
#![tactic(auto)]

mod addresses;
mod checking;
mod filling;
mod linked;
mod linking;
mod memory;
mod patching;
mod running;

pub use checking::Spot;
pub use linked::Linked;
pub use linking::link;
pub use m51_module::{Run, Runs};
