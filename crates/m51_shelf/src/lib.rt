//! Where files come from and are kept, and where text goes: the outside, as the other crates see it.
#![tactic(auto)]

mod files;
mod folder;
mod keeping;
mod mem_shelf;
mod mem_sink;
mod reading;
mod shelf;
mod sink;
mod stdout;
mod sure_shelf;
mod sure_sink;

pub use folder::DirShelf;
pub use mem_shelf::{MemShelf, ShelfCall};
pub use mem_sink::MemSink;
pub use reading::{FileReadError, read_file};
pub use shelf::Shelf;
pub use sink::{Failed, Sink, write_whole};
pub use stdout::{MOST_TRIES, StdSink};
pub use sure_shelf::SureShelf;
pub use sure_sink::SureSink;
