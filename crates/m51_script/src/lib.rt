//! Reads board scripts: the levels of the pins from a cycle on, and the frames that arrive in a cycle.
#![tactic(auto)]

mod digits;
mod error;
mod forms;
mod frame_lines;
mod laws;
mod parts;
mod pin_lines;
mod reading;
mod script;
mod timing;

pub use error::ScriptError;
pub use laws::{a_line_is_read_as_it_is_written, the_last_line_of_a_port_counts};
pub use reading::read_script;
pub use script::Script;
