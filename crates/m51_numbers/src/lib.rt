//! Laws that say which numbers the constants of the other crates are, and the number of each exit status.
#![tactic(auto)]

mod laws;

pub use laws::{
    faults_have_numbers, limits_have_numbers, not_text_has_a_number, records_have_types,
    status_number,
};
