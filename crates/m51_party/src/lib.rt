//! Boards on one serial line.
#![tactic(auto)]

mod choosing;
mod handing;
mod laws;
mod lines;
mod party;
mod running;
mod seat;

pub use laws::{exactly_one_family, steps_make_records};
pub use party::{Party, PartyEnd};
