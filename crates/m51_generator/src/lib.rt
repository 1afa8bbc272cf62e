//! Makes the source of a program with many units, for measurements and as a known program.
#![tactic(auto)]

mod drawing;
mod generating;
mod procedures;
mod texts;
mod unit;
mod unit_lines;

pub use generating::generate;
