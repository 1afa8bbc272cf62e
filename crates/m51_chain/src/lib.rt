//! The verbs, and the top call.
#![tactic(auto)]

mod analysing;
mod assembling;
mod building;
mod carrying;
mod editing;
mod faulting;
mod flat;
mod generating;
mod input_refusing;
mod joining;
mod library;
mod link_refusing;
mod linking;
mod object_refusing;
mod optional;
mod planning;
mod reading;
mod refusing;
mod reporting;
mod script_refusing;
mod status;
mod target;
mod top;
mod unrun;
mod work;

pub use carrying::status_told;
pub use m51_generator::generate;
pub use m51_shelf::{
    DirShelf, Failed, MemShelf, MemSink, Shelf, ShelfCall as Call, Sink, StdSink, SureShelf,
    SureSink,
};
pub use planning::plan;
pub use status::{NOT_TEXT, Status};
pub use target::KeptName;
pub use top::chain;
pub use unrun::UnrunParty;
pub use work::{Finish, Kept, Plan, Reason};
