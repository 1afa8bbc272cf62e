//! The record of a fixup.
ghost use Rattle.std.specs.Prelude.{◌≡◌, ◌<◌, ◌≤◌, ◌++◌, ◌∷◌, [], IfOk, IsTrue, OnOk, ◌-◌, ◌&&◌, nat_le, length, take};
ghost use Rattle.std.specs.Prelude.{drop};
ghost use Rattle.std.specs.List.{All};
ghost use Rattle.m51_module.specs.Validity.{field_len};
ghost use Rattle.m51_records.specs.Contents.{latest};
ghost use Rattle.m51_frame.specs.Fields.{Reads};
ghost use Rattle.m51_records.specs.Fixups.{target_fields, fixup_contents, field_segment_follows, fixup_segment_at};
ghost use Rattle.m51_records.specs.Fixups.{field_follows, fixup_offset_at, holds, is_held, is_inside, form_at, is_bit};
ghost use Rattle.m51_records.specs.Fixups.{bit_at, target_by_number, tag_at, target_at, addend_at, fixup_in};
ghost use Rattle.m51_records.specs.WorkPieces.{ends_by, EndBy, ArePassed};
ghost use Rattle.m51_records.specs.declared.types.TheConstants.{FIXUP};

use crate::codes::{form_by_code, form_number};
use crate::record::{Reader, Record};
use crate::types::FIXUP;
use m51_cells::{Base, MOST_FIXUPS, NoMemory};
use m51_frame::{absent, broken, byte_at, pair_at, put_pair};
use m51_module::{
    External, Fixup, Form, ObjError, Piece, Segment, external_numbered, segment_numbered,
};
use std::alloc::Global;

// Whether no field before is in a later segment.
fn field_segment_follows(before: &[Fixup], segment: u8) -> bool
    ensures { result ≡ field_segment_follows (latest before.now) segment }
{
    match before.last() {
        None => true,
        Some(fixup) => fixup.segment <= segment,
    }
}

// The number of a segment, and the bytes after it. O5 where no segment has it, O4 where a field before is in a later
// one.
#[tactic(auto, unfolding(crate::specs::Fixups::fixup_segment_at))]
fn fixup_segment_at<'a>(
    segments: &[Segment],
    before: &[Fixup],
    end: u32,
    bytes: &'a [u8],
) -> Result<(u8, &'a [u8]), ObjError>
    ensures value { Reads (λ x. (x.0, x.1.now)) result
        (fixup_segment_at segments.now (latest before.now) end bytes.now) }
    ensures follows { IfOk result (λ x. IsTrue (field_segment_follows (latest before.now) x.0)) }
{
    let (number, rest) = byte_at(end, bytes)?;
    if segment_numbered(segments, number).is_none() {
        return Err(absent(end, bytes));
    }
    if !field_segment_follows(before, number) {
        return Err(broken(end, bytes));
    }
    Ok((number, rest))
}

// How many bytes a field of the form has.
fn field_len(form: Form) -> u16
    ensures { result ≡ field_len form }
{
    match form {
        Form::Word | Form::Inblock => 2,
        _ => 1,
    }
}

// Whether the field before ends at the offset or below it, where it is in the same segment.
fn field_follows(before: &[Fixup], segment: u8, offset: u16) -> bool
    ensures { result ≡ field_follows (latest before.now) segment offset }
{
    match before.last() {
        None => true,
        Some(fixup) => {
            fixup.segment != segment
                || u32::from(fixup.offset) + u32::from(field_len(fixup.form)) <= u32::from(offset)
        }
    }
}

// The offset, and the bytes after it. O4 where the field before ends after it.
#[tactic(auto, unfolding(crate::specs::Fixups::fixup_offset_at))]
fn fixup_offset_at<'a>(
    before: &[Fixup],
    segment: u8,
    end: u32,
    bytes: &'a [u8],
) -> Result<(u16, &'a [u8]), ObjError>
    ensures value { Reads (λ x. (x.0, x.1.now)) result (fixup_offset_at (latest before.now) segment end bytes.now) }
    ensures follows { IfOk result (λ x. IsTrue (field_follows (latest before.now) segment x.0)) }
{
    let (offset, rest) = pair_at(end, bytes)?;
    if !field_follows(before, segment, offset) {
        return Err(broken(end, bytes));
    }
    Ok((offset, rest))
}

// Whether the piece ends at the offset or below it.
fn ends_below(piece: &Piece, offset: u16) -> bool
    ensures { result ≡ (nat_le piece.now.offset offset && nat_le (length piece.now.bytes) (offset - piece.now.offset)) }
{
    piece.offset <= offset && piece.bytes.len() <= usize::from(offset - piece.offset)
}

// Whether the piece is in an earlier segment, or in this one and ends at the offset or below it.
fn ends_by(piece: &Piece, segment: u8, offset: u16) -> bool
    ensures { result ≡ ends_by segment offset piece.now }
{
    piece.segment < segment || (piece.segment == segment && ends_below(piece, offset))
}

// The length of a prefix of the pieces all of which end by that offset of the segment; the first `known` do.
fn passed_by(pieces: &[Piece], known: usize, segment: u8, offset: u16) -> usize
    requires few { known ≤ length pieces.now }
    requires known { EndBy segment offset (take known pieces.now) }
    ensures few { result ≤ length pieces.now }
    ensures passed { EndBy segment offset (take result pieces.now) }
{
    let mut passed = known;
    while passed < pieces.len() && ends_by(&pieces[passed], segment, offset) {
        passed += 1;
    }
    passed
}

// Whether the piece holds the byte at that offset of the segment.
fn holds(piece: &Piece, segment: u8, offset: usize) -> bool
    ensures { result ≡ holds segment offset piece.now }
{
    let first = usize::from(piece.offset);
    piece.segment == segment && first <= offset && offset - first < piece.bytes.len()
}

// Whether some piece holds it.
fn is_held(pieces: &[Piece], segment: u8, offset: usize) -> bool
    ensures { result ≡ is_held pieces.now segment offset }
{
    pieces.iter().any(|piece| holds(piece, segment, offset))
}

// Whether pieces hold each byte of the field.
fn is_inside(pieces: &[Piece], segment: u8, offset: u16, form: Form) -> bool
    ensures { result ≡ is_inside pieces.now segment offset form }
{
    let offset = usize::from(offset);
    is_held(pieces, segment, offset)
        && (field_len(form) == 1 || is_held(pieces, segment, offset + 1))
}

// The same, where the first `passed` pieces end by the field.
#[tactic(auto, using(crate::proofs::ContentLaws::inside_after, std::proofs::lemmas::List::take_rest))]
fn is_inside_after(pieces: &[Piece], passed: usize, segment: u8, offset: u16, form: Form) -> bool
    requires few { passed ≤ length pieces.now }
    requires passed { EndBy segment offset (take passed pieces.now) }
    ensures { result ≡ is_inside pieces.now segment offset form }
{
    is_inside(&pieces[passed..], segment, offset, form)
}

// A form, and the bytes after it. O4 where it is none, or content does not hold its field. The first `passed` pieces
// end by the field.
#[tactic(auto, unfolding(crate::specs::Fixups::form_at))]
fn form_at<'a>(
    pieces: &[Piece],
    passed: usize,
    segment: u8,
    offset: u16,
    end: u32,
    bytes: &'a [u8],
) -> Result<(Form, &'a [u8]), ObjError>
    requires few { passed ≤ length pieces.now }
    requires passed { EndBy segment offset (take passed pieces.now) }
    ensures { Reads (λ x. (x.0, x.1.now)) result (form_at pieces.now segment offset end bytes.now) }
{
    let (number, rest) = byte_at(end, bytes)?;
    let Some(form) = form_by_code(number) else {
        return Err(broken(end, bytes));
    };
    if !is_inside_after(pieces, passed, segment, offset, form) {
        return Err(broken(end, bytes));
    }
    Ok((form, rest))
}

// Whether the number of the bit fits the form.
fn is_bit(form: Form, bit: u8) -> bool
    ensures { result ≡ is_bit form bit }
{
    match form {
        Form::Conv => bit <= 7,
        _ => bit == 0,
    }
}

// The number of the bit, and the bytes after it. O4 where it does not fit the form.
#[tactic(auto, unfolding(crate::specs::Fixups::bit_at))]
fn bit_at(form: Form, end: u32, bytes: &[u8]) -> Result<(u8, &[u8]), ObjError>
    ensures { Reads (λ x. (x.0, x.1.now)) result (bit_at form end bytes.now) }
{
    let (bit, rest) = byte_at(end, bytes)?;
    if !is_bit(form, bit) {
        return Err(broken(end, bytes));
    }
    Ok((bit, rest))
}

// Whether a number is of a segment or of an external, and the bytes after the tag. O4 where it is neither.
fn tag_at(end: u32, bytes: &[u8]) -> Result<(u8, &[u8]), ObjError>
    ensures { Reads (λ x. (x.0, x.1.now)) result (tag_at end bytes.now) }
{
    let (tag, rest) = byte_at(end, bytes)?;
    if tag > 1 {
        return Err(broken(end, bytes));
    }
    Ok((tag, rest))
}

// The target of that tag and number. O5 where it does not exist.
fn target_by_number(
    segments: &[Segment],
    externals: &[External],
    tag: u8,
    number: u8,
    end: u32,
    field: &[u8],
) -> Result<Base, ObjError>
    ensures { Reads (λ x. x) result (target_by_number segments.now externals.now tag number end field.now) }
{
    if tag == 0 {
        if segment_numbered(segments, number).is_none() {
            return Err(absent(end, field));
        }
        return Ok(Base::Segment(number));
    }
    if external_numbered(externals, number).is_none() {
        return Err(absent(end, field));
    }
    Ok(Base::External(number))
}

// The target, and the bytes after it. O4 where its tag is none, O5 where it does not exist.
#[tactic(auto, unfolding(crate::specs::Fixups::target_at))]
fn target_at<'a>(
    segments: &[Segment],
    externals: &[External],
    end: u32,
    bytes: &'a [u8],
) -> Result<(Base, &'a [u8]), ObjError>
    ensures { Reads (λ x. (x.0, x.1.now)) result (target_at segments.now externals.now end bytes.now) }
{
    let (tag, field) = tag_at(end, bytes)?;
    let (number, rest) = byte_at(end, field)?;
    let target = target_by_number(segments, externals, tag, number, end, field)?;
    Ok((target, rest))
}

// The addend, the last field. O4 where it is cut off, or bytes are left over.
#[tactic(auto, unfolding(crate::specs::Fixups::addend_at))]
fn addend_at(end: u32, bytes: &[u8]) -> Result<u16, ObjError>
    ensures { Reads (λ x. x) result (addend_at end bytes.now) }
{
    let (addend, rest) = pair_at(end, bytes)?;
    match rest {
        [] => Ok(addend),
        _ => Err(broken(end, rest)),
    }
}

/// Reads the fixups of a module, and goes along its pieces with their fields.
///
/// Source: own choice ("Object records").
#[derive(Drop)]
pub(crate) struct FixupReader<'a> {
    /// The segments of the module, counted from 1.
    pub(crate) segments: &'a [Segment],
    /// Its externals, counted from 1.
    pub(crate) externals: &'a [External],
    /// Its content.
    pub(crate) pieces: &'a [Piece],
    /// How many pieces, from the first on, are known to end by the field of the fixup before.
    pub(crate) passed: usize,
}

impl<'a> Reader for FixupReader<'a> {
    type Item = Fixup;

    ghost reads = { λ r. fixup_in r.segments.now r.externals.now r.pieces.now };

    ghost knows = { λ r before. ArePassed r.pieces.now r.passed (latest before) };

    #[tactic(auto, unfolding(crate::specs::Fixups::fixup_in), using(crate::proofs::ContentLaws::fixup_read))]
    fn read(
        &mut self,
        _alloc: Global,
        before: &[Fixup],
        end: u32,
        contents: &[u8],
    ) -> Result<Fixup, ObjError> {
        if before.len() >= MOST_FIXUPS {
            return Err(broken(end, contents));
        }
        let (segment, rest) = fixup_segment_at(self.segments, before, end, contents)?;
        let (offset, rest) = fixup_offset_at(before, segment, end, rest)?;
        self.passed = passed_by(self.pieces, self.passed, segment, offset);
        let (form, rest) = form_at(self.pieces, self.passed, segment, offset, end, rest)?;
        let (bit, rest) = bit_at(form, end, rest)?;
        let (target, rest) = target_at(self.segments, self.externals, end, rest)?;
        let addend = addend_at(end, rest)?;
        Ok(Fixup {
            segment,
            offset,
            form,
            bit,
            target,
            addend,
        })
    }
}

// Appends the tag and the number of a target.
fn put_target(out: &mut Vec<u8>, target: Base) -> Result<(), NoMemory>
    ensures { OnOk result (out.new.items ≡ out.old.items ++ target_fields target) }
{
    let (tag, number) = match target {
        Base::None => (0, 0),
        Base::Segment(number) => (0, number),
        Base::External(number) => (1, number),
    };
    out.push(tag)?;
    out.push(number)?;
    Ok(())
}

impl Record for Fixup {
    ghost TYPE = { FIXUP };

    ghost spelled = { fixup_contents };

    ghost is_short = { λ _. Unit {0} };

    const TYPE: u8 = FIXUP;

    fn contents(&self, alloc: Global) -> Result<Vec<u8>, NoMemory> {
        let mut contents = Vec::new(alloc);
        contents.push(self.segment)?;
        put_pair(&mut contents, self.offset)?;
        contents.push(form_number(self.form))?;
        contents.push(self.bit)?;
        put_target(&mut contents, self.target)?;
        put_pair(&mut contents, self.addend)?;
        Ok(contents)
    }
}
