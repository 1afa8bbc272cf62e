//! The bytes and references of a statement: what a value gives in a field, the form of a generic jump, and the code
//! of an instruction.
#![tactic(auto)]

mod bases;
mod choosing;
mod coding;
mod field_laws;
mod field_values;
mod filling;
mod item;
mod laws;
mod outcome;
mod reference;
mod taking;

pub use bases::Numbered;
pub use choosing::jump_form;
pub use coding::{Coded, Coding, code, code_row, row_of};
pub use field_laws::{
    blocks_lead_to_targets, chosen_jumps_reach, references_have_bits, relatives_lead_to_targets,
};
pub use field_values::field_value;
pub use filling::{CodingError, expression_field};
pub use item::{Width, item_field, push_item};
pub use laws::{coded_stands_for_line, forms_have_rows, operands_fail_by_five, outcomes_tell};
pub use outcome::OperandOutcome;
pub use reference::{FieldValue, Reference};
