//! The record of a piece of content.
ghost use Rattle.std.specs.Prelude.{◌≡◌, ◌<◌, length, ◌≤◌};
ghost use Rattle.m51_module.specs.declared.content.Piece.{Piece};
ghost use Rattle.m51_frame.specs.Fields.{Reads};
ghost use Rattle.m51_records.specs.Contents.{piece_contents, segment_follows, latest, code_segment_at};
ghost use Rattle.m51_records.specs.Contents.{piece_follows, piece_offset_at, limited, content_at, piece_in};
ghost use Rattle.m51_cells.specs.declared.limits.TheConstants.{MOST_PIECE_BYTES};
ghost use Rattle.m51_records.specs.declared.types.TheConstants.{CONTENT};

use crate::record::{Reader, Record};
use crate::types::CONTENT;
use m51_cells::{MOST_PIECE_BYTES, NoMemory, copy_of, is_code};
use m51_frame::{absent, broken, byte_at, ends_before, pair_at, put_pair};
use m51_module::{ObjError, Piece, Segment, segment_numbered};
use std::alloc::Global;

// Whether no piece before is in a later segment.
fn segment_follows(before: &[Piece], segment: u8) -> bool
    ensures { result ≡ segment_follows (latest before.now) segment }
{
    match before.last() {
        None => true,
        Some(piece) => piece.segment <= segment,
    }
}

// A segment of program memory, its number, and the bytes after the number. O5 where no segment has it; O4 where it is
// of another memory, or the piece before is in a later one.
#[tactic(auto, unfolding(crate::specs::Contents::code_segment_at))]
fn code_segment_at<'a>(
    segments: &[Segment],
    before: &[Piece],
    end: u32,
    bytes: &'a [u8],
) -> Result<(u8, u16, &'a [u8]), ObjError>
    ensures { Reads (λ x. ((x.0, x.1), x.2.now)) result
        (code_segment_at segments.now (latest before.now) end bytes.now) }
{
    let (number, rest) = byte_at(end, bytes)?;
    let Some(segment) = segment_numbered(segments, number) else {
        return Err(absent(end, bytes));
    };
    if !is_code(segment.kind) || !segment_follows(before, number) {
        return Err(broken(end, bytes));
    }
    Ok((number, segment.size, rest))
}

// Whether the piece before ends before the offset, where it is in the same segment.
fn piece_follows(before: &[Piece], segment: u8, offset: u16) -> bool
    ensures { result ≡ piece_follows (latest before.now) segment offset }
{
    match before.last() {
        None => true,
        Some(piece) => {
            if piece.segment == segment {
                ends_before(piece, offset)
            } else {
                true
            }
        }
    }
}

// The offset, and the bytes after it. O4 where the piece before ends after it or touches it.
#[tactic(auto, unfolding(crate::specs::Contents::piece_offset_at))]
fn piece_offset_at<'a>(
    before: &[Piece],
    segment: u8,
    end: u32,
    bytes: &'a [u8],
) -> Result<(u16, &'a [u8]), ObjError>
    ensures { Reads (λ x. (x.0, x.1.now)) result (piece_offset_at (latest before.now) segment end bytes.now) }
{
    let (offset, rest) = pair_at(end, bytes)?;
    if !piece_follows(before, segment, offset) {
        return Err(broken(end, bytes));
    }
    Ok((offset, rest))
}

// The bytes, at most `most` of them. O4 at the first byte past these.
fn limited(most: usize, end: u32, bytes: &[u8]) -> Result<&[u8], ObjError>
    ensures { Reads (λ x. x.now) result (limited most end bytes.now) }
{
    if bytes.len() > most {
        return Err(broken(end, &bytes[most..]));
    }
    Ok(bytes)
}

// The content, the rest of the record. O4 where there is none, or it passes the size of the segment, or at the first
// byte past 1,024.
#[tactic(auto, unfolding(crate::specs::Contents::content_at))]
fn content_at(size: u16, offset: u16, end: u32, bytes: &[u8]) -> Result<&[u8], ObjError>
    ensures { Reads (λ x. x.now) result (content_at size offset end bytes.now) }
{
    let len = bytes.len().min(MOST_PIECE_BYTES);
    if bytes.is_empty() || usize::from(offset) + len > usize::from(size) {
        return Err(broken(end, bytes));
    }
    limited(MOST_PIECE_BYTES, end, bytes)
}

/// Reads the pieces of a module.
///
/// Source: own choice ("Object records").
#[derive(Drop)]
pub(crate) struct PieceReader<'a> {
    /// The segments of the module.
    pub(crate) segments: &'a [Segment],
}

impl<'a> Reader for PieceReader<'a> {
    type Item = Piece;

    ghost reads = { λ r. piece_in r.segments.now };

    ghost knows = { λ _ _. Unit {0} };

    #[tactic(auto, unfolding(crate::specs::Contents::piece_in))]
    fn read(
        &mut self,
        alloc: Global,
        before: &[Piece],
        end: u32,
        contents: &[u8],
    ) -> Result<Piece, ObjError> {
        let (segment, size, rest) = code_segment_at(self.segments, before, end, contents)?;
        let (offset, rest) = piece_offset_at(before, segment, end, rest)?;
        let content = content_at(size, offset, end, rest)?;
        let bytes = copy_of(alloc, content)?;
        Ok(Piece {
            segment,
            offset,
            bytes,
        })
    }
}

impl Record for Piece {
    ghost TYPE = { CONTENT };

    ghost spelled = { piece_contents };

    ghost is_short = { λ (p : Piece). length p.bytes ≤ MOST_PIECE_BYTES };

    const TYPE: u8 = CONTENT;

    fn contents(&self, alloc: Global) -> Result<Vec<u8>, NoMemory> {
        let mut contents = Vec::new(alloc);
        contents.push(self.segment)?;
        put_pair(&mut contents, self.offset)?;
        contents.extend_from_slice(self.bytes.as_slice())?;
        Ok(contents)
    }
}
