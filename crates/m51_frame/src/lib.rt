//! Records of object files: the frame around their contents, and their fields from left to right.
#![tactic(auto)]

mod fields;
mod frame;
mod names;
mod pieces;

pub use fields::{absent, broken, byte_at, offset_of, pair, pair_at, put_pair, put_text, text_at};
pub use frame::{begins, checksum_place, put_record, record_at, record_bytes};
pub use names::{same, upper_name};
pub use pieces::ends_before;
