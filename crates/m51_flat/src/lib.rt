//! One instruction of the MCS-51 over any store of cells.
#![tactic(auto)]

mod action_table;
mod actions;
mod arithmetic;
mod bits;
mod branches;
mod calls;
mod executing;
mod laws;
mod moves;
mod operands;
mod performing;
mod ram;
mod registers;
mod sfr;
mod state;
mod store;
mod writing;

pub use calls::{call, stack_pc};
pub use executing::{begin, clear, conclude, copy_cpu, exec, exec_into, reset, shut_cell};
pub use laws::{
    accesses_agree, bits_are_turned, calls_are_made, effects_are_done, flags_are_written,
    flags_keep_the_rest, flow_is_kept, levels_are_kept, one_bit_is_replaced, pc_is_stacked,
    power_goes_down, readings_agree, registers_are_written, stores_keep_the_rest,
};
pub use ram::FlatRam;
pub use state::{Cpu, Effect, Level, NoEffect, Outcome, Pins, Put, Seen, Source, Transfer};
pub use store::CellStore;
pub use writing::jump;
