//! The assembler: from a source to a module and the rows of its listing, or to the faults of its lines.
#![tactic(auto)]

mod answering;
mod assembling;
mod banks;
mod contents;
mod counting;
mod counts;
mod definitions;
mod forms;
mod gathering;
mod giving;
mod instruction_rows;
mod laws;
mod line_facts;
mod names;
mod names_at;
mod naming;
mod naming_lines;
mod numbering;
mod operands;
mod outcome;
mod passing;
mod placing;
mod predefining;
mod publics;
mod publishing;
mod repeats;
mod segment_table;
mod segments;
mod setting;
mod sizes;
mod stepping;
mod valid_laws;
mod valuation;

pub use assembling::assemble;
pub use definitions::How;
pub use laws::{
    an_assignment_fits, each_text_has_one_answer, first_faults_are_answers, forms_are_told,
    one_assignment_fits, segment_numbers_do_not_matter, segments_follow, values_are_seen,
    values_grow, what_is_kept_means,
};
pub use m51_module::{Fault, Faults, Row, Rows, SourceFile};
pub use names::{FirstDefinition, TextNames};
pub use outcome::Assembled;
pub use repeats::{Definitions, define_names};
pub use valid_laws::{answers_are_valid, parts_are_valid};
