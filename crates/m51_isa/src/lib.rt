//! The instruction table of the MCS-51: bytes, length, cycles, flow and text of each operand form, and the ways in.
#![tactic(auto)]

mod changes;
mod decoding;
mod encoding;
mod filling;
mod generics;
mod instr;
mod laws;
mod look;
mod mnemonics;
mod numbers;
mod operand;
mod searching;
mod slot;
mod spelling;
mod table;
mod targets;

pub use changes::{is_jump, stack_of, written_of};
pub use decoding::decode;
pub use encoding::{Code, encode};
pub use filling::with_numbers;
pub use generics::{Jump, Verb, generic, jump_row};
pub use instr::{Flow, Instr, Stack, Written};
pub use laws::{
    codes_decode, fronts_agree, mnemonics_are_of_rows, none_is_reserved, rows_are_distinct,
    rows_are_short, rows_decode, texts_are_rows,
};
pub use look::Look;
pub use mnemonics::is_mnemonic;
pub use operand::{Address11, Pointer, Register};
pub use searching::{has_row, row_for, search};
pub use slot::{Field, FieldSlot, Slot};
pub use spelling::{Spelling, spelling_of};
pub use table::{cycles, kind_of, length};
pub use targets::{
    bit_address, block_target, distance, fits_byte, in_one_block, is_near, next_of,
    relative_target, target_of,
};
