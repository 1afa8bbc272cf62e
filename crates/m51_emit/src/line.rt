//! What a line gives.
ghost use Rattle.std.specs.Prelude.{◌≡◌, [], IfOk};
ghost use Rattle.m51_isa.specs.declared.generics.Jump.{Jump};
ghost use Rattle.m51_stmt.specs.Statement.{body_tree};
ghost use Rattle.m51_emit.specs.Content.{nothing};
ghost use Rattle.m51_emit.specs.Lines.{given, row_by, line_given};

use crate::content::{EmittedContent, LineContent, References};
use crate::instruction::instruction_content;
use crate::items::items_content;
use m51_cells::{Bytes, NoMemory};
use m51_encode::{Numbered, Width, code_row};
use m51_isa::Instr;
use m51_stmt::Body;
use std::alloc::Global;

// A line without content.
fn nothing_more(alloc: Global, made: usize) -> LineContent
    ensures { result ≡ given nothing made [] }
{
    LineContent {
        content: EmittedContent {
            bytes: Bytes::new(alloc),
            references: References::new(alloc),
        },
        fault: None,
        made,
    }
}

/// What a line gives, with `made` fixups before it in its text: the bytes and references of its instruction, DB or DW,
/// the fault of the leftmost operand or item that has one, and how many fixups are made up to its end. An instruction
/// with a fault gives nothing, and so does an item. `row` is the row of the instruction, with its generic jump in the
/// form that it has, as [`m51_encode::row_of`] gives it; none where the line is no instruction.
///
/// Fixups are counted from left to right, also past a fault. Fixup 65,536 and each later one is not made, and is
/// fault 19 of its operand or item. PUBLIC gives nothing here: `public_of` says what becomes of its names.
///
/// Error: out of memory.
///
/// Source: own choice ("Content of a line").
#[tactic(auto, using(m51_encode::proofs::CodedRows::by_row))]
pub fn line_content<N: Numbered>(
    alloc: Global,
    names: &N,
    row: Option<Instr>,
    body: &Body,
    made: usize,
) -> Result<LineContent, NoMemory>
    ensures { IfOk result (λ line. (form : Jump) → row ≡ row_by form (body_tree body.now)
        → line ≡ line_given (N.meanings names.now) form (body_tree body.now) made) }
{
    match (body, row) {
        (Body::Code(_, operands), Some(row)) => {
            let coding = code_row(names, &row, operands.as_slice());
            Ok(instruction_content(alloc, coding, made)?)
        }
        (Body::Db(items), _) => items_content(alloc, names, Width::Byte, items.as_slice(), made),
        (Body::Dw(words), _) => items_content(alloc, names, Width::Word, words.as_slice(), made),
        _ => Ok(nothing_more(alloc, made)),
    }
}
