//! What the arguments of the command line ask for.
#![tactic(auto)]

mod analysis_verbs;
mod commands;
mod error;
mod library_words;
mod reading;
mod verbs;

pub use error::WordsError;
pub use m51_jobs::{
    AsmJob, BuildJob, Ending, FileName, FileNames, FlatJob, GenJob, Job, LEAST_BOARDS, LibraryJob,
    LinkJob, MOST_BOARDS, MOST_GENERATED_UNITS, Operation, PartyJob, Steps, ending_of, file_count,
    is_include, is_source, name_kept, names_read,
};
pub use verbs::job_of;
