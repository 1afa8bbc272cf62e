//! The search for the least base at which a segment fits and shares no cell with some extents.
#![tactic(auto)]

mod searching;

pub use searching::{Search, arrange, first_clear, same_space};
