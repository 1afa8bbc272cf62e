//! Chooses the modules of a link, and joins their segments.
#![tactic(auto)]

mod choosing;
mod chosen;
mod definitions;
mod flat;
mod joined;
mod joining;
mod laws;
mod number;
mod publics;
mod referent;
mod resolving;
mod rules;
mod segment;

pub use joined::Joined;
pub use laws::choices_are_one;
pub use number::JoinedNumber;
pub use referent::Referent;
pub use resolving::resolve;
pub use segment::JoinedSegment;
