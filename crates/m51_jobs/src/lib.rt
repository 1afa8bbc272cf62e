//! Jobs: what the arguments of the command line may ask for, with the files that each reads and keeps.
#![tactic(auto)]

mod endings;
mod file_name;
mod job;
mod names;
mod numbers;

pub use endings::{
    Ending, LEAST_BOARDS, MOST_BOARDS, are_assembled, are_boards, are_built, are_objects,
    ending_of, is_include, is_source,
};
pub use file_name::{FileName, FileNames};
pub use job::{AsmJob, BuildJob, FlatJob, GenJob, Job, LibraryJob, LinkJob, Operation, PartyJob};
pub use names::{file_count, name_kept, names_read};
pub use numbers::{MOST_GENERATED_UNITS, Steps, start_of, steps_of, units_of};
