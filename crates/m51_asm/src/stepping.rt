//! The outcome of a line in pass 1: its fault, or its place.
ghost use Rattle.std.specs.Prelude.{◌≡◌, ◌<◌, suc, Some, false, map, slice_get, IfOk};
ghost use Rattle.m51_stmt.specs.Statement.{body_tree};
ghost use Rattle.m51_text.specs.Answer.{line_tree};
ghost use Rattle.m51_asm.specs.Assignment.{Assignment};
ghost use Rattle.m51_asm.specs.Fitting.{Fits, mod51};
ghost use Rattle.m51_asm.specs.PlacedFaults.{is_misplaced};
ghost use Rattle.m51_asm.specs.Repeats.{is_repeated};
ghost use Rattle.m51_asm.specs.OpenSegments.{text_segment};
ghost use Rattle.m51_asm.specs.Operands.{evaluated_fault};
ghost use Rattle.m51_asm.specs.Placing.{IsTableOf, IsAt, IsLineOutcome, exceeds_end, are_too_many, fault_by};

use crate::counts::{Counts, are_too_many, count, exceeds_end, fault_by, is_misplaced};
use crate::line_facts::LineFacts;
use crate::names_at::NamedText;
use crate::placing::{PassOneState, facts_of};
use crate::segments::OpenSegment;
use m51_cells::NoMemory;
use m51_expr::Located;
use m51_stmt::Body;
use m51_text::Line;
use std::alloc::Global;

/// Where a line is.
#[derive(Clone, Copy)]
pub(crate) struct LinePlace {
    /// The id of its segment.
    pub(crate) segment: u32,
    /// The size of the segment above the line.
    pub(crate) offset: u16,
    /// The row of its instruction, by its bytes.
    pub(crate) code: Option<[u8; 3]>,
    /// The bank of the last USING above.
    pub(crate) bank: u8,
    /// The bank after it.
    pub(crate) selected: u8,
    /// The value of the expression of its EQU or SET or of its address statement, if it has one.
    pub(crate) given: Option<Located<u32>>,
}

/// The outcome of a line.
#[derive(Drop)]
pub(crate) enum LineOutcome {
    /// The number of its fault.
    Fault(u8),
    /// It has none: its place.
    Placed(LinePlace),
}

// The fault of a line that repeats nothing.
fn evaluated_fault(
    segment: OpenSegment,
    facts: &LineFacts,
    counts: &Counts,
    body: &Body,
) -> Option<u8>
    ensures { result ≡ fault_by (exceeds_end (text_segment facts.now.next) counts.now.next)
        (is_misplaced (text_segment segment) (body_tree body.now))
        (are_too_many counts.now.segments counts.now.externals) (evaluated_fault facts.now.operand) }
{
    let past = exceeds_end(facts.next, counts.next);
    let misplaced = is_misplaced(segment, body);
    let many = are_too_many(counts.segments, counts.externals);
    fault_by(past, misplaced, many, facts.operand.fault())
}

/// The outcome of line k, which is taken into the state after the lines above if it has no fault. The line defines no
/// name a second time. The only error is out of memory.
pub(crate) fn step(
    alloc: Global,
    text: &NamedText<'_>,
    k: usize,
    placing: &mut PassOneState,
    line: &Line,
) -> Result<LineOutcome, NoMemory>
    requires within { k < 65536 }
    requires line { slice_get (map line_tree text.now.lines.now) k ≡ Some (line_tree line.now) }
    requires names { IsTableOf (map line_tree text.now.lines.now) text.now.names.now }
    requires predefined { text.now.mod51 ≡ mod51 (map line_tree text.now.lines.now) }
    requires once { is_repeated (map line_tree text.now.lines.now) k ≡ false }
    ensures { IfOk result (λ step. (a : Assignment) → Fits (map line_tree text.now.lines.now) a
        → IsAt (map line_tree text.now.lines.now) a k placing.old
        → IsLineOutcome (map line_tree text.now.lines.now) a k placing.new step) }
{
    let facts = facts_of(text, k, placing, line);
    let segments = &placing.segments;
    let segment = segments.current();
    let body = &line.stmt.body;
    let counts = count(placing, segment, facts.next, facts.size, body);
    let fault = evaluated_fault(segment, &facts, &counts, body);
    match fault {
        Some(number) => Ok(LineOutcome::Fault(number)),
        None => {
            let place = LinePlace {
                segment: segment.id,
                offset: segments.table.size(segment.id),
                code: facts.code,
                bank: placing.bank,
                selected: facts.operand.bank(placing.bank),
                given: facts.operand.given(),
            };
            placing.take_in(alloc, k, line, &facts, &counts)?;
            Ok(LineOutcome::Placed(place))
        }
    }
}
