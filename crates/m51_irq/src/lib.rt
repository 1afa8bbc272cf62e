//! Interrupts of the 8052: which is taken, what taking it changes, and what then holds.
#![tactic(auto)]

mod choosing;
mod laws;
mod sources;
mod vectoring;

pub use choosing::choose;
pub use laws::{
    a_return_ends_the_top_level, levels_are_nested, no_interrupt_over_the_high_level,
    none_is_taken_at_once, the_first_that_may_be_taken_is_chosen,
};
pub use vectoring::{acknowledge, vector, vector_into};
