//! How the content of segments grows from line to line, and the content of a module.
ghost use Rattle.std.specs.Prelude.{◌≡◌, ◌+◌, ◌<◌, ◌≤◌, [], ◌∷◌, ◌++◌, map, length, IfOk, OnOk};
ghost use Rattle.m51_emit.specs.Pieces.{before_runs};
ghost use Rattle.m51_emit.specs.Within.{LieInside, EndsInMemory, AreInMemory};
ghost use Rattle.m51_emit.specs.Gathering.{with_run, with_line, pieces_in, all_pieces, all_fixups};

use crate::content::EmittedContent;
use crate::fixups::push_fixups;
use crate::pieces::push_pieces;
use m51_cells::{Bytes, NoMemory};
use m51_module::{Fixup, Fixups, Piece, Pieces, Segment};
use std::alloc::Global;
use std::marker::Model;

// Bytes that follow one another, after the place of the first in their segment.
type PlacedBytes = (usize, Bytes);

/// What lines give to a segment of a module: runs of bytes, and fixups.
///
/// Source: own choice ("Content of a module").
#[derive(Drop)]
pub struct SegmentContent {
    segment: u8,
    runs: Vec<PlacedBytes>,
    fixups: Vec<Fixup>,
}

impl Model for SegmentContent {
    ghost use Rattle.m51_emit.specs.Gathering.{Gathered};
    ghost use Rattle.m51_emit.specs.Within.{AreInMemory};

    ghost Value = { Gathered };

    ghost view = { λ s. record { segment = s.segment; runs = s.runs.items; fixups = s.fixups.items } };

    ghost invariant = { λ s. AreInMemory s.runs.items };
}

/// The content of a module.
///
/// Source: own choice ("Content of a module").
#[derive(Drop)]
pub struct ModuleContent {
    pub pieces: Pieces,
    pub fixups: Fixups,
}

// These bytes and others after them.
fn joined(before: Bytes, bytes: &[u8]) -> Result<Bytes, NoMemory>
    ensures { IfOk result (λ all. all ≡ before ++ bytes.now) }
{
    let mut all = before.into_vec();
    all.extend_from_slice(bytes)?;
    Ok(Bytes::of(all))
}

// Bytes after the last run: in one with it where they begin at its end.
fn push_after(
    alloc: Global,
    runs: &mut Vec<PlacedBytes>,
    last: PlacedBytes,
    at: usize,
    bytes: &[u8],
) -> Result<(), NoMemory>
    requires last { EndsInMemory last }
    requires memory { at + length bytes.now ≤ 65536 }
    ensures runs { OnOk result (runs.new.items ≡ runs.old.items ++ before_runs last.0 last.1 ((at, bytes.now) ∷ [])) }
    ensures kept { AreInMemory runs.old.items → AreInMemory runs.new.items }
{
    let (from, before) = last;
    if from + before.len() == at {
        runs.push((from, joined(before, bytes)?))?;
    } else {
        runs.push((from, before))?;
        runs.push((at, Bytes::of(bytes.to_vec(alloc)?)))?;
    }
    Ok(())
}

// Bytes after runs.
fn push_run(
    alloc: Global,
    runs: &mut Vec<PlacedBytes>,
    at: usize,
    bytes: &[u8],
) -> Result<(), NoMemory>
    requires kept { AreInMemory runs.old.items }
    requires memory { at + length bytes.now ≤ 65536 }
    ensures runs { OnOk result (runs.new.items ≡ with_run runs.old.items at bytes.now) }
    ensures kept { AreInMemory runs.new.items }
{
    if bytes.is_empty() {
        return Ok(());
    }
    match runs.pop() {
        Some(last) => push_after(alloc, runs, last, at, bytes),
        None => {
            runs.push((at, Bytes::of(bytes.to_vec(alloc)?)))?;
            Ok(())
        }
    }
}

impl SegmentContent {
    /// The segment of this number in its module, counted from 1, before the first line. It allocates nothing.
    ///
    /// Source: own choice ("Content of a module").
    pub fn new(alloc: Global, segment: u8) -> SegmentContent
        ensures { result ≡ record { segment = segment; runs = []; fixups = [] } }
    {
        SegmentContent {
            segment,
            runs: Vec::new(alloc),
            fixups: Vec::new(alloc),
        }
    }

    /// Adds the content of the next line of the segment, which lies at this place from the base of the segment. These
    /// are the segments of the module: the addend of a fixup counts from the base of its target.
    ///
    /// Condition: the line ends at 65,536 or before, counted from that base, and the fields of its references lie in
    /// its bytes, in ascending order and apart. Error: out of memory; nothing is said of the content then.
    ///
    /// Source: own choice ("Content of a module").
    pub fn add(
        &mut self,
        alloc: Global,
        segments: &[Segment],
        at: usize,
        content: &EmittedContent,
    ) -> Result<(), NoMemory>
        requires memory { at + length content.now.bytes ≤ 65536 }
        requires inside { LieInside (length content.now.bytes) content.now.references }
        ensures { OnOk result (self.new ≡ with_line segments.now self.old (at, content.now)) }
    {
        let bytes = content.bytes.as_slice();
        let references = content.references.as_slice();
        push_fixups(
            &mut self.fixups,
            segments,
            self.segment,
            at,
            bytes.len(),
            references,
        )?;
        push_run(alloc, &mut self.runs, at, bytes)
    }

    // Appends the pieces of the segment.
    fn push_pieces(&self, alloc: Global, pieces: &mut Vec<Piece>) -> Result<(), NoMemory>
        ensures { OnOk result (pieces.new.items ≡ pieces.old.items ++ pieces_in self.now) }
    {
        for (from, bytes) in &self.runs {
            push_pieces(alloc, pieces, self.segment, *from, bytes.as_slice())?;
        }
        Ok(())
    }
}

/// The content of a module of these segments, by segment and place: pieces of at most 1,024 bytes, and fixups.
///
/// Error: out of memory.
///
/// Source: own choice ("Content of a module").
pub fn gather(alloc: Global, segments: &[SegmentContent]) -> Result<ModuleContent, NoMemory>
    ensures { IfOk result (λ content.
        content ≡ record { pieces = all_pieces segments.now; fixups = all_fixups segments.now }) }
{
    let mut pieces = Vec::new(alloc);
    let mut fixups = Vec::new(alloc);
    for segment in segments {
        segment.push_pieces(alloc, &mut pieces)?;
        fixups.extend_from_slice(segment.fixups.as_slice())?;
    }
    Ok(ModuleContent {
        pieces: Pieces::of(pieces),
        fixups: Fixups::of(fixups),
    })
}
