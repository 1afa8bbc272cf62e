//! A law of the stack bound: SP does not pass it up to the first event.
#![tactic(auto)]

mod laws;

pub use laws::sp_is_bounded;
