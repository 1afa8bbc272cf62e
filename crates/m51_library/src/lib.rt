//! Reads objects and libraries that are whole files, and writes libraries.
#![tactic(auto)]

mod modules;
mod objects;
mod reading;
mod writing;

pub use m51_module::{LibError, Library, build};
pub use objects::read_object;
pub use reading::read_library;
pub use writing::write_library;
