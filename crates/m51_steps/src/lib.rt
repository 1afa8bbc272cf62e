//! What happens inside a run of a board: a line for each of its states, or how often each instruction began.
#![tactic(auto)]

mod active;
mod counting;
mod laws;
mod lines;
mod ram;
mod shape;
mod showing;
mod stepping;
mod table;
mod tracing;
mod writing;

pub use counting::Counts;
pub use laws::notes_are_all;
pub use shape::{Shape, Window};
pub use stepping::run_noted;
pub use table::write_counts;
pub use tracing::trace_run;
