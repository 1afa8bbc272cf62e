//! Reads the lines of an assembler source as statements, and prints statements.
#![tactic(auto)]

mod control;
mod definitions;
mod directives;
mod externs;
mod fault;
mod faults;
mod kinds;
mod lack;
mod laws;
mod lists;
mod operands;
mod printing;
mod reading;
mod statement;
mod statement_printing;
mod words;

pub use fault::StmtError;
pub use laws::printed_reads_back;
pub use m51_expr::{Item, Items, Operand, Operands};
pub use reading::{LineRoom, read_line, read_line_into};
pub use statement::{Body, Externs, Stmt};
pub use statement_printing::print_stmt;
