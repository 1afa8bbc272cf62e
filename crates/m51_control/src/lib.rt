//! Reads the control lines of a link: calls, reserves and orders that its user declares.
#![tactic(auto)]

mod control;
mod controls;
mod error;
mod forms;
mod naming;
mod parts;
mod reading;
mod reserving;

pub use control::{Class, Control, class_of, same_class};
pub use controls::Controls;
pub use error::ControlError;
pub use reading::read_controls;
