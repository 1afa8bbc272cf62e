//! The segments of a text, and the one that a line leaves open.
ghost use Rattle.std.specs.Prelude.{◌≡◌, ◌<◌, ℕ, if◌then◌else◌, map, option_map, unwrap_or, Option, None, Some, IfOk};
ghost use Rattle.m51_cells.specs.declared.kind.Kind.{Kind};
ghost use Rattle.m51_cells.specs.Kinds.{is_absolute, same_kind};
ghost use Rattle.m51_expr.specs.Meanings.{Meanings};
ghost use Rattle.m51_stmt.specs.Statement.{body_tree};
ghost use Rattle.m51_text.specs.Answer.{line_tree};
ghost use Rattle.m51_asm.specs.Assignment.{absolute, opening, is_bitaddressable};
ghost use Rattle.m51_asm.specs.OpenSegments.{text_segment, declared_first, last_with, last_id, current_in, last_in};
ghost use Rattle.m51_asm.specs.OpenSegments.{open_behind};
ghost use Rattle.m51_asm.specs.Operands.{number_in, segment_named, if_rseg, operand_number};
ghost use Rattle.m51_asm.specs.SegmentTable.{declared_entries, segment_in, with_entry};

use crate::definitions::How;
use crate::names::FirstDefinition;
use crate::operands::Evaluated;
use crate::segment_table::SegmentTable;
use m51_cells::{Kind, NoMemory, Reloc, is_absolute};
use m51_stmt::Body;
use m51_text::Line;
use std::alloc::Global;

/// Whether a type is BITADDRESSABLE.
pub(crate) fn is_bitaddressable(reloc: Reloc) -> bool
    ensures { result ≡ is_bitaddressable reloc }
{
    match reloc {
        Reloc::Bitaddressable => true,
        _ => false,
    }
}

/// A segment of the text.
#[derive(Clone, Copy, Debug, PartialEq, Eq)]
pub(crate) struct OpenSegment {
    /// 1 for the one open at the start, k + 2 for one that line k declares or begins.
    pub(crate) id: u32,
    pub(crate) kind: Kind,
    pub(crate) reloc: Reloc,
    /// The base of an absolute one, for BIT of a bit; 0 else.
    pub(crate) base: u16,
}

/// A source begins in an absolute segment of CODE at 0.
pub(crate) const OPENING: OpenSegment = OpenSegment {
    id: 1,
    kind: Kind::Code,
    reloc: Reloc::Abs,
    base: 0,
};

fn absolute(id: u32, kind: Kind, base: u16) -> OpenSegment
    ensures { text_segment result ≡ absolute id kind base }
{
    OpenSegment {
        id,
        kind,
        reloc: Reloc::Abs,
        base,
    }
}

/// The id of the segment that a SEGMENT above line k declares under a name of this first definition, if one does.
pub(crate) fn declared_first(k: usize, first: Option<FirstDefinition>) -> Option<u32>
    requires { k < 65536 }
    ensures { result ≡ declared_first k first }
{
    match first {
        Some(first) => match first.how {
            How::Segment(_) if first.line < k => Some(first.line as u32 + 2),
            _ => None,
        },
        None => None,
    }
}

/// The last absolute segment of each kind, by its id.
#[derive(Clone, Copy)]
pub(crate) struct LastAbsolute {
    code: Option<u32>,
    xdata: Option<u32>,
    direct: Option<u32>,
    idata: Option<u32>,
    bits: Option<u32>,
    number: Option<u32>,
}

// The opening segment only.
const OPENING_ONLY: LastAbsolute = LastAbsolute {
    code: Some(OPENING.id),
    xdata: None,
    direct: None,
    idata: None,
    bits: None,
    number: None,
};

impl LastAbsolute {
    // The last one of a kind.
    fn of(&self, kind: Kind) -> Option<u32>
        ensures { result ≡ last_id self.now kind }
    {
        match kind {
            Kind::Code => self.code,
            Kind::Xdata => self.xdata,
            Kind::Direct => self.direct,
            Kind::Idata => self.idata,
            Kind::Bits => self.bits,
            Kind::Number => self.number,
        }
    }

    // Sets the segment of its kind.
    fn set(&mut self, segment: OpenSegment)
        ensures { (kind : Kind) → last_id self.new kind
            ≡ (if same_kind segment.kind kind then Some segment.id else last_id self.old kind) }
    {
        match segment.kind {
            Kind::Code => self.code = Some(segment.id),
            Kind::Xdata => self.xdata = Some(segment.id),
            Kind::Direct => self.direct = Some(segment.id),
            Kind::Idata => self.idata = Some(segment.id),
            Kind::Bits => self.bits = Some(segment.id),
            Kind::Number => self.number = Some(segment.id),
        }
    }

    // Notes one more segment, which may be absolute.
    fn note(&mut self, segment: OpenSegment)
        ensures { (kind : Kind) → last_id self.new kind ≡ last_with (text_segment segment) (last_id self.old) kind }
    {
        if is_absolute(segment.reloc) {
            self.set(segment);
        }
    }
}

/// The segments of a text, by the lines above a line.
#[derive(Drop)]
pub(crate) struct SegmentsAbove {
    pub(crate) table: SegmentTable,
    /// The id of the segment of the line.
    pub(crate) current: u32,
    /// Those down to the line.
    pub(crate) last: LastAbsolute,
}

impl SegmentsAbove {
    /// Before the first line of a text. The only error is out of memory.
    pub(crate) fn start(alloc: Global, lines: &[Line]) -> Result<SegmentsAbove, NoMemory>
        ensures table { IfOk result (λ s. s.table ≡ declared_entries (map line_tree lines.now)) }
        ensures current { IfOk result (λ s. s.current ≡ opening.id) }
        ensures last { IfOk result (λ s. (kind : Kind) → last_id s.last kind
            ≡ last_with opening (λ k. None) kind) }
    {
        Ok(SegmentsAbove {
            table: SegmentTable::declared(alloc, lines)?,
            current: OPENING.id,
            last: OPENING_ONLY,
        })
    }

    /// The segment of the line.
    pub(crate) fn current(&self) -> OpenSegment
        ensures { text_segment result ≡ current_in self.now }
    {
        self.table.segment(self.current)
    }

    // The segment of this id, or else this one.
    fn segment_or(&self, id: Option<u32>, other: OpenSegment) -> OpenSegment
        ensures { text_segment result ≡ unwrap_or (option_map (segment_in self.now.table) id) (text_segment other) }
    {
        match id {
            Some(id) => self.table.segment(id),
            None => other,
        }
    }

    /// Leaves a segment open for the next line, with this size.
    pub(crate) fn leave_open(&mut self, next: OpenSegment, size: u16)
        ensures table { self.new.table ≡ with_entry self.old.table (text_segment next) size }
        ensures current { self.new.current ≡ next.id }
        ensures last { (kind : Kind) → last_id self.new.last kind
            ≡ last_with (text_segment next) (last_id self.old.last) kind }
    {
        self.table.put(next, size);
        self.current = next.id;
        self.last.note(next);
    }
}

/// The segment that line k, which has this operand, leaves open.
pub(crate) fn open_behind(
    k: usize,
    segments: &SegmentsAbove,
    operand: Evaluated,
    body: &Body,
) -> OpenSegment
    requires { k < 65536 }
    ensures { (names : Meanings) (named : Option ℕ) → number_in operand ≡ operand_number names (body_tree body.now)
        → segment_named operand ≡ if_rseg named (body_tree body.now)
        → text_segment result ≡ open_behind k names (last_in segments.now) (option_map (segment_in segments.now.table)
        named) (current_in segments.now) (body_tree body.now) }
{
    let segment = segments.current();
    let id = k as u32 + 2;
    match body {
        Body::Rseg(_) => segments.segment_or(operand.segment(), segment),
        Body::Select(kind, Some(_)) => absolute(id, *kind, operand.number()),
        Body::Select(kind, None) => {
            segments.segment_or(segments.last.of(*kind), absolute(id, *kind, 0))
        }
        Body::Org(_) => {
            if is_absolute(segment.reloc) {
                absolute(id, segment.kind, operand.number())
            } else {
                segment
            }
        }
        _ => segment,
    }
}
