//! Writes modules as object files, and reads them again.
#![tactic(auto)]

mod codes;
mod end;
mod external;
mod fixup;
mod header;
mod laws;
mod piece;
mod public;
mod reading;
mod record;
mod seen;
mod segment;
mod types;
mod writing;

pub use laws::{one_number, one_spelling};
pub use m51_frame::{broken, checksum_place, offset_of, pair, pair_at, record_at, record_bytes};
pub use m51_module::ObjError;
pub use reading::{module_at, read_module};
pub use types::LIBRARY_HEADER;
pub use writing::write_module;
