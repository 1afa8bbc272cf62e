//! The predefined names of the 8052: its special function registers and their named bits.
#![tactic(auto)]

mod bank;
mod laws;
mod names;

pub use bank::{absolute_register, register_value};
pub use laws::{
    bytes_have_bits, names_are_free, names_are_registers, reserved_words_stand_for_nothing,
    rows_are_read,
};
pub use names::predefined;
