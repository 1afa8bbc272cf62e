//! From the files of a program to what is linked and run, or the first refusal.
#![tactic(auto)]

mod error;
mod inputs;
mod laws;
mod objects;
mod reading;
mod sorting;
mod sources;

pub use error::{FaultySources, InputError, SourceFaults};
pub use inputs::Inputs;
pub use laws::each_program_has_one_answer;
pub use reading::read_inputs;
pub use sources::{AssembledSource, assemble_source};
