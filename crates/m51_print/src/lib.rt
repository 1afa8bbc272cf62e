//! The texts that a command writes: listing, map, lines of a trace, summary, stack bound, and refusals.
#![tactic(auto)]

mod lines;
mod map;
mod overlaid;
mod pushing;
mod putting;
mod refusals;
mod rows;
mod sources;
mod stack;
mod summary;
mod titles;

pub use lines::{end_line, trace_line};
pub use map::map_text;
pub use overlaid::overlaid_below;
pub use putting::{put, put_decimal, put_hex2, put_hex4};
pub use refusals::refusal_text;
pub use sources::listing;
pub use stack::{stack_refusal_text, stack_text};
pub use summary::summary_text;
pub use titles::unit_title;
