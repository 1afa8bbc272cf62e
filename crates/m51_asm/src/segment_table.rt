//! The table of the segments of a text.
ghost use Rattle.std.specs.Prelude.{◌≡◌, map, IfOk};
ghost use Rattle.m51_stmt.specs.Statement.{body_tree};
ghost use Rattle.m51_text.specs.Answer.{line_tree};
ghost use Rattle.m51_asm.specs.OpenSegments.{text_segment};
ghost use Rattle.m51_asm.specs.SegmentTable.{declared_entry, declared_entries, entry_in, segment_in, size_in};
ghost use Rattle.m51_asm.specs.SegmentTable.{with_entry};

use crate::segments::OpenSegment;
use m51_cells::{Kind, NoMemory, Reloc};
use m51_stmt::Body;
use m51_text::Line;
use std::alloc::Global;
use std::marker::Model;

/// What is kept of a segment of the text.
#[derive(Clone, Copy, Debug, PartialEq, Eq)]
pub(crate) struct SegmentEntry {
    pub(crate) kind: Kind,
    pub(crate) reloc: Reloc,
    /// The base of an absolute one, for BIT of a bit; 0 else.
    pub(crate) base: u16,
    /// How many bytes the lines so far give to it, in BIT bits.
    pub(crate) size: u16,
}

// That of the segment that is open at the start, and of an id that no line has begun.
const EMPTY_ENTRY: SegmentEntry = SegmentEntry {
    kind: Kind::Code,
    reloc: Reloc::Abs,
    base: 0,
    size: 0,
};

/// The segments of a text, each at its id. Contracts see the table as the list of its entries.
#[derive(Drop)]
pub(crate) struct SegmentTable {
    entries: Vec<SegmentEntry>,
}

impl Model for SegmentTable {
    ghost use Rattle.std.specs.Prelude.{List};
    ghost use Rattle.m51_asm.specs.declared.segment_table.SegmentEntry.{SegmentEntry};

    ghost Value = { List SegmentEntry };

    ghost view = { λ t. t.entries.items };
}

// The entry of the segment that a line declares, if it declares one.
fn declared_entry(body: &Body) -> SegmentEntry
    ensures { result ≡ declared_entry (body_tree body.now) }
{
    match body {
        Body::Segment(_, kind, reloc, _) => SegmentEntry {
            kind: *kind,
            reloc: *reloc,
            base: 0,
            size: 0,
        },
        _ => EMPTY_ENTRY,
    }
}

impl SegmentTable {
    /// The segments that the lines of a text declare, to which no line has given anything. The only error is out of
    /// memory.
    pub(crate) fn declared(alloc: Global, lines: &[Line]) -> Result<SegmentTable, NoMemory>
        ensures { IfOk result (λ table. table ≡ declared_entries (map line_tree lines.now)) }
    {
        let mut entries = Vec::with_capacity(alloc, lines.len().saturating_add(2))?;
        entries.push(EMPTY_ENTRY)?;
        entries.push(EMPTY_ENTRY)?;
        for line in lines {
            entries.push(declared_entry(&line.stmt.body))?;
        }
        Ok(SegmentTable { entries })
    }

    // The entry of an id.
    fn entry(&self, id: u32) -> SegmentEntry
        ensures { result ≡ entry_in self.now id }
    {
        match self.entries.get(id as usize) {
            Some(entry) => *entry,
            None => EMPTY_ENTRY,
        }
    }

    /// The type of a segment.
    pub(crate) fn reloc(&self, id: u32) -> Reloc
        ensures { result ≡ (entry_in self.now id).reloc }
    {
        self.entry(id).reloc
    }

    /// How much is given to a segment.
    pub(crate) fn size(&self, id: u32) -> u16
        ensures { result ≡ size_in self.now id }
    {
        self.entry(id).size
    }

    /// A segment.
    pub(crate) fn segment(&self, id: u32) -> OpenSegment
        ensures { text_segment result ≡ segment_in self.now id }
    {
        let entry = self.entry(id);
        OpenSegment {
            id,
            kind: entry.kind,
            reloc: entry.reloc,
            base: entry.base,
        }
    }

    /// Puts a segment at its id, with this size.
    pub(crate) fn put(&mut self, segment: OpenSegment, size: u16)
        ensures { self.new ≡ with_entry self.old (text_segment segment) size }
    {
        if let Some(entry) = self.entries.get_mut(segment.id as usize) {
            *entry = SegmentEntry {
                kind: segment.kind,
                reloc: segment.reloc,
                base: segment.base,
                size,
            };
        }
    }
}
