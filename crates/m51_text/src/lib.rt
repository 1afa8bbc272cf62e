//! Reads the text of a source: its lines and those of its includes, each with its statement, or the faults of lines.
#![tactic(auto)]

mod answering;
mod entry;
mod inclusion;
mod inserting;
mod laws;
mod missing_end;
mod placing;
mod read_lines;
mod reading;
mod saying;
mod text;

pub use answering::read_text;
pub use laws::{lines_are_of_files, statements_have_rows};
pub use text::{Line, Lines, Text};
