//! The fields of fixups: what each form writes over the content, and its rule.
#![tactic(auto)]

mod fields;

pub use fields::{FieldBytes, field_of};
