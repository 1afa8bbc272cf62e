//! What is counted down to a line, and the fault that follows from it.
ghost use Rattle.std.specs.Prelude.{◌≡◌, ◌&&◌, not, ◌==◌, if◌then◌else◌};
ghost use Rattle.m51_cells.specs.Kinds.{is_absolute};
ghost use Rattle.m51_stmt.specs.Statement.{body_tree};
ghost use Rattle.m51_asm.specs.Fitting.{given_to, externals_in};
ghost use Rattle.m51_asm.specs.PlacedFaults.{kind_end, is_misplaced};
ghost use Rattle.m51_asm.specs.OpenSegments.{text_segment};
ghost use Rattle.m51_asm.specs.SegmentTable.{size_in};
ghost use Rattle.m51_asm.specs.Placing.{numbers_one, AreCounts, exceeds_end, are_too_many, fault_by};

use crate::placing::PassOneState;
use crate::segments::OpenSegment;
use m51_cells::{
    BAD_FORM, Kind, MOST_EXTERNALS, MOST_MODULE_SEGMENTS, PAST_THE_END, TOO_MANY, is_absolute,
    same_kind,
};
use m51_stmt::Body;

/// What is counted down to a line.
#[derive(Clone, Copy)]
pub(crate) struct Counts {
    /// The size of the segment that it leaves open.
    pub(crate) next: u64,
    /// How many segments have a number.
    pub(crate) segments: u64,
    /// How many externals are declared.
    pub(crate) externals: u64,
}

// What a line of a segment gives to a segment.
fn given_to(id: u32, segment: OpenSegment, size: u64) -> u64
    ensures { result ≡ given_to id (text_segment segment) size }
{
    if segment.id == id { size } else { 0 }
}

// Whether a segment gets its first byte or bit.
fn begins(segment: OpenSegment, before: u16, size: u64) -> bool
    ensures { result ≡ (is_absolute segment.reloc && ((before == 0) && not (size == 0))) }
{
    is_absolute(segment.reloc) && (before == 0 && !(size == 0))
}

// Whether a line numbers a segment.
fn numbers_one(segment: OpenSegment, before: u16, size: u64, body: &Body) -> bool
    ensures { result ≡ numbers_one (text_segment segment) before size (body_tree body.now) }
{
    match body {
        Body::Segment(_, _, _, _) => true,
        _ => begins(segment, before, size),
    }
}

fn one_if(test: bool) -> u8
    ensures { result ≡ (if test then 1 else 0) }
{
    if test { 1 } else { 0 }
}

// How many externals a line declares.
fn externals_in(body: &Body) -> u64
    ensures { result ≡ externals_in (body_tree body.now) }
{
    match body {
        Body::Extrn(externals) => externals.len() as u64,
        _ => 0,
    }
}

/// The counts after a line of this segment and size that leaves `next` open, from the state above it. A sum past 64
/// bits, which is a fault in any case, counts as the greatest number of 64 bits.
pub(crate) fn count(
    above: &PassOneState,
    segment: OpenSegment,
    next: OpenSegment,
    size: u64,
    body: &Body,
) -> Counts
    ensures { AreCounts (size_in above.now.segments.table) above.now.numbered above.now.externals (text_segment segment)
        (text_segment next) size (body_tree body.now) result }
{
    let table = &above.segments.table;
    let one = one_if(numbers_one(segment, table.size(segment.id), size, body));
    Counts {
        next: u64::from(table.size(next.id)).saturating_add(given_to(next.id, segment, size)),
        segments: u64::from(above.numbered) + u64::from(one),
        externals: u64::from(above.externals).saturating_add(externals_in(body)),
    }
}

// How far the places of a kind go.
fn kind_end(kind: Kind) -> u128
    ensures { result ≡ kind_end kind }
{
    match kind {
        Kind::Direct | Kind::Bits => 0x80,
        Kind::Idata => 0x100,
        Kind::Code | Kind::Xdata | Kind::Number => 0x10000,
    }
}

/// Whether a segment of this size passes the end of its memory or 65,535 bytes.
pub(crate) fn exceeds_end(segment: OpenSegment, size: u64) -> bool
    ensures { result ≡ exceeds_end (text_segment segment) size }
{
    kind_end(segment.kind) < u128::from(segment.base) + u128::from(size) || 65535 < size
}

/// Whether a statement is not allowed in its segment.
pub(crate) fn is_misplaced(segment: OpenSegment, body: &Body) -> bool
    ensures { result ≡ is_misplaced (text_segment segment) (body_tree body.now) }
{
    match body {
        Body::Code(_, _) | Body::Db(_) | Body::Dw(_) => !same_kind(segment.kind, Kind::Code),
        Body::Dbit(_) => !same_kind(segment.kind, Kind::Bits),
        Body::Ds(_) => same_kind(segment.kind, Kind::Bits),
        Body::Org(_) => !is_absolute(segment.reloc),
        _ => false,
    }
}

/// Whether these are too many segments or externals.
pub(crate) fn are_too_many(segments: u64, externals: u64) -> bool
    ensures { result ≡ are_too_many segments externals }
{
    (MOST_MODULE_SEGMENTS as u64) < segments || (MOST_EXTERNALS as u64) < externals
}

/// The first fault of a line that repeats nothing, by what may be wrong with it.
pub(crate) fn fault_by(past: bool, misplaced: bool, many: bool, operand: Option<u8>) -> Option<u8>
    ensures { result ≡ fault_by past misplaced many operand }
{
    if past {
        Some(PAST_THE_END)
    } else if misplaced {
        Some(BAD_FORM)
    } else if many {
        Some(TOO_MANY)
    } else {
        operand
    }
}
