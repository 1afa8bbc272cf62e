//! The special function registers of the 8052 and their named bits.
#![tactic(auto)]

pub mod addresses;
pub mod bits;
mod laws;
mod searching;
mod table;

pub use laws::{addresses_differ, names_differ, table_is_the_manuals};
pub use searching::{bit_named, is_register, register_named};
