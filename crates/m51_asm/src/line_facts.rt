//! What follows for a line from those above it: its place, its row, its size, the segment that it leaves open, and its
//! operand.
ghost use Rattle.std.specs.Prelude.{◌≡◌, ◌<◌, option_map};
ghost use Rattle.m51_stmt.specs.Statement.{body_tree};
ghost use Rattle.m51_asm.specs.OpenSegments.{declared_first, current_in, last_in, named_by};
ghost use Rattle.m51_asm.specs.SegmentTable.{segment_in};
ghost use Rattle.m51_asm.specs.Placing.{AreFactsFrom};
ghost use Rattle.m51_asm.specs.Table.{first_in};

use crate::instruction_rows::{code_of_row, row_by};
use crate::names::TextNames;
use crate::operands::{Evaluated, evaluate_operand};
use crate::segments::{OpenSegment, SegmentsAbove, declared_first, open_behind};
use crate::sizes::size_by;
use m51_expr::{Located, Places};
use m51_isa::Jump;
use m51_stmt::Body;

/// What follows for a line from the lines above it.
#[derive(Clone, Copy)]
pub(crate) struct LineFacts {
    /// Its place.
    pub(crate) here: Located<u32>,
    /// The row of its instruction, by its bytes.
    pub(crate) code: Option<[u8; 3]>,
    /// How many bytes it gives, in BIT bits.
    pub(crate) size: u64,
    /// The segment that it leaves open.
    pub(crate) next: OpenSegment,
    /// Its operand, if that must use names defined above.
    pub(crate) operand: Evaluated,
}

/// The id of the segment that the name of an RSEG names, if it is one that is declared above line k.
pub(crate) fn named_by(names: &TextNames, k: usize, body: &Body) -> Option<u32>
    requires { k < 65536 }
    ensures { result ≡ named_by (λ name. declared_first k (first_in names.now name)) (body_tree body.now) }
{
    match body {
        Body::Rseg(name) => declared_first(k, names.first(name)),
        _ => None,
    }
}

/// Place, row, size, next segment and operand of line k, with names as defined above it and the form of its JMP or
/// CALL.
pub(crate) fn facts_from<P: Places<u32>>(
    k: usize,
    names: &P,
    form: Jump,
    segments: &SegmentsAbove,
    named: Option<u32>,
    body: &Body,
) -> LineFacts
    requires { k < 65536 }
    ensures { AreFactsFrom k (P.meanings names.now) form (last_in segments.now)
        (option_map (segment_in segments.now.table) named) (current_in segments.now) (body_tree body.now) result }
{
    let operand = evaluate_operand(names, named, body);
    let row = row_by(form, body);
    let size = size_by(&row, operand.number(), body);
    let next = open_behind(k, segments, operand, body);
    LineFacts {
        here: names.here(),
        code: code_of_row(&row),
        size,
        next,
        operand,
    }
}
