//! The segments of the module of a text, and their numbers.
ghost use Rattle.std.specs.Prelude.{◌≡◌, ◌+◌, ◌++◌, ◌∷◌, [], ◌≤◌, length, map, IfOk, OnOk};
ghost use Rattle.m51_stmt.specs.Statement.{body_tree};
ghost use Rattle.m51_text.specs.Answer.{line_tree};
ghost use Rattle.m51_asm.specs.Assignment.{Assignment};
ghost use Rattle.m51_asm.specs.Fitting.{Fits};
ghost use Rattle.m51_asm.specs.ObjectSegments.{relocatable, absolute_of};
ghost use Rattle.m51_asm.specs.OpenSegments.{text_segment};
ghost use Rattle.m51_asm.specs.FirstFault.{AreFree};
ghost use Rattle.m51_asm.specs.Gathering.{IsText};
ghost use Rattle.m51_asm.specs.Placing.{IsSegmentTableAt};
ghost use Rattle.m51_asm.specs.Numbering.{number_at, segment_filled, segment_added, as_list, next_number, IsNumbering};

use crate::names_at::NamedText;
use crate::placing::PassOneState;
use crate::segment_table::SegmentTable;
use crate::segments::{OPENING, OpenSegment};
use crate::stepping::LinePlace;
use m51_cells::{Bytes, Kind, ListOf, Name, NoMemory, Reloc, same_kind};
use m51_module::{Segment, Segments, is_argument_name};
use m51_stmt::Body;
use m51_text::Line;
use std::alloc::Global;

/// The segments of the module of a text, and their numbers.
#[derive(Drop)]
pub(crate) struct Numbering {
    pub(crate) segments: Segments,
    /// For each id the number of its segment, counted from 1; 0 where the module does not have it.
    pub(crate) numbers: Bytes,
}

/// A text whose lines are placed and whose segments have numbers.
#[derive(Clone, Copy)]
pub(crate) struct PlacedText<'a> {
    pub(crate) text: NamedText<'a>,
    /// Where each line is.
    pub(crate) places: &'a [LinePlace],
    /// What is kept of all lines.
    pub(crate) end: &'a PassOneState,
    pub(crate) numbering: &'a Numbering,
}

/// The number of an id, 0 where the module does not have its segment.
pub(crate) fn number_at(numbers: &[u8], id: u32) -> u8
    ensures { result ≡ number_at numbers.now id }
{
    match numbers.get(id as usize) {
        Some(number) => *number,
        None => 0,
    }
}

// A segment that SEGMENT declares.
fn relocatable(name: &Name, kind: Kind, reloc: Reloc, overlay: bool, size: u16) -> Segment
    ensures { result ≡ (relocatable 0 name.now kind reloc overlay size).segment }
{
    Segment {
        name: *name,
        kind,
        reloc,
        overlay,
        argument: overlay && same_kind(kind, Kind::Direct) && is_argument_name(name),
        base: 0,
        size,
    }
}

// An absolute segment.
fn absolute_of(segment: OpenSegment, size: u16) -> Segment
    ensures { result ≡ (absolute_of (text_segment segment) size).segment }
{
    Segment {
        name: Name::none(),
        kind: segment.kind,
        reloc: Reloc::Abs,
        overlay: false,
        argument: false,
        base: segment.base,
        size,
    }
}

// An absolute segment, if it has a byte or a bit.
fn segment_filled(segment: OpenSegment, size: u16) -> Option<Segment>
    ensures { result ≡ segment_filled (text_segment segment) size }
{
    if size == 0 {
        None
    } else {
        Some(absolute_of(segment, size))
    }
}

// The segment of the module that a line declares or begins, by what is kept of its id.
fn segment_added(segment: OpenSegment, size: u16, body: &Body) -> Option<Segment>
    ensures { result ≡ segment_added (text_segment segment) size (body_tree body.now) }
{
    match body {
        Body::Segment(name, kind, reloc, overlay) => {
            Some(relocatable(name, *kind, *reloc, *overlay, size))
        }
        _ => segment_filled(segment, size),
    }
}

// Adds a segment, or none, and the number of the next id.
fn add(
    segments: &mut Segments,
    numbers: &mut Bytes,
    segment: Option<Segment>,
) -> Result<(), NoMemory>
    requires { length segments.old + length (as_list segment) ≤ 254 }
    ensures segments { OnOk result (segments.new ≡ segments.old ++ as_list segment) }
    ensures numbers { OnOk result (numbers.new ≡ numbers.old ++ next_number (length segments.old) segment ∷ []) }
{
    match segment {
        Some(segment) => {
            let number = segments.len() as u8 + 1;
            segments.push(segment)?;
            numbers.push(number)
        }
        None => numbers.push(0),
    }
}

/// The segments of the module of a text whose lines are placed, and their numbers. The only error is out of memory.
pub(crate) fn number_segments(
    alloc: Global,
    lines: &[Line],
    table: &SegmentTable,
) -> Result<Numbering, NoMemory>
    requires text { IsText (map line_tree lines.now) }
    requires few { length lines.now ≤ 65536 }
    requires free { let lines = map line_tree lines.now in
        (a : Assignment) → Fits lines a → AreFree lines a (length lines) }
    requires table { let lines = map line_tree lines.now in
        (a : Assignment) → Fits lines a → IsSegmentTableAt lines a (length lines) table.now }
    ensures { IfOk result (λ n. (a : Assignment) → Fits (map line_tree lines.now) a
        → IsNumbering (map line_tree lines.now) a n) }
{
    let mut segments = ListOf::new(alloc);
    let mut numbers = ListOf::new(alloc);
    numbers.push(0)?;
    let first = segment_filled(OPENING, table.size(OPENING.id));
    add(&mut segments, &mut numbers, first)?;
    for (k, line) in lines.iter().enumerate() {
        let id = k as u32 + 2;
        let added = segment_added(table.segment(id), table.size(id), &line.stmt.body);
        add(&mut segments, &mut numbers, added)?;
    }
    Ok(Numbering { segments, numbers })
}
