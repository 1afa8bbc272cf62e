//! The stack bound of a program: how high SP may get under the reset and its interrupts.
#![tactic(auto)]

mod bounding;
mod calls;
mod climbing;
mod cycling;
mod doubling;
mod following;
mod instructions;
mod judging;
mod laws;
mod listing;
mod marks;
mod ordering;
mod paths;
mod point;
mod points;
mod searching;
mod totals;
mod units;
mod walking;

pub use bounding::bound;
pub use laws::{answer_is_unique, total_is_sum_of_depths};
pub use point::Point;
