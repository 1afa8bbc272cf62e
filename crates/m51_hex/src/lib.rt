//! Intel HEX files: an image of program memory as text, and read back from it.
#![tactic(auto)]

mod digits;
mod error;
mod laws;
mod reading;
mod records;
mod storing;
mod writing;

pub use error::HexError;
pub use laws::{each_line_is_a_record, what_is_written_is_read};
pub use reading::read_hex;
pub use writing::write_hex;
