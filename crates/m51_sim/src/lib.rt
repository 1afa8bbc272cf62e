//! Boards that run an image, and the lines of their records.
#![tactic(auto)]

mod attempt;
mod board;
mod chip;
mod cycles;
mod flat_board;
mod judging;
mod laws;
mod program;
mod runs;

pub use attempt::Attempt;
pub use board::Board;
pub use cycles::Timed;
pub use flat_board::FlatBoard;
pub use laws::{flat_runs_agree, steps_are_short};
pub use m51_module::Tally;
pub use m51_shelf::{Failed, MOST_TRIES, MemSink, Sink, StdSink, SureSink, write_whole};
pub use runs::{RunEnd, Step, Told};
