//! The text of a layout and its image, which an assembler reads: instructions where the bytes are some, `DB` elsewhere.
#![tactic(auto)]

mod address_set;
mod disassembling;
mod error;
mod instructions;
mod line;
mod listing;
mod part;
mod parting;
mod pushing;
mod statement;
mod statements;
mod writing;

pub use disassembling::disassemble;
pub use error::DisError;
pub use line::{SourceLine, StatementLine, Target};
pub use part::CodeRange;
pub use statement::{Content, Statement};
