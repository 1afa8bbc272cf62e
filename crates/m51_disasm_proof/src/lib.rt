//! Laws of the assembler and the disassembler: what a disassembly is as a source.
#![tactic(auto)]

mod laws;

pub use laws::{
    images_are_assembled, labels_stand, lines_read_back, lines_stand, no_line_has_fault,
    statements_code_back, statements_give_bytes, statements_stand, texts_read_back,
};
