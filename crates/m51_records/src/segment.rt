//! The record of a segment.
ghost use Rattle.std.specs.Prelude.{◌≡◌, ◌≢◌, ◌<◌, ◌++◌, ◌∷◌, [], IfOk, length};
ghost use Rattle.m51_frame.specs.Fields.{Reads};
ghost use Rattle.m51_records.specs.Segments.{flags_of, marks_of, may_mark, are_marks, segment_contents};
ghost use Rattle.m51_records.specs.Segments.{segment_kind_at, reloc_at, marks_at, base_at, limit, is_placed, is_size};
ghost use Rattle.m51_records.specs.Segments.{size_at, names_segment, no_text, segment_name, is_new, may_have};
ghost use Rattle.m51_records.specs.Segments.{segment_name_at, segment_in};
ghost use Rattle.m51_records.specs.declared.types.TheConstants.{SEGMENT};

use crate::codes::{kind_number, kind_of, reloc_by_code, reloc_number};
use crate::record::{Reader, Record};
use crate::types::SEGMENT;
use m51_cells::{
    Kind, MOST_MODULE_SEGMENTS, Name, NoMemory, Reloc, allows, fits, is_absolute, largest,
    may_overlay, same_kind,
};
use m51_frame::{broken, byte_at, pair_at, put_pair, put_text, same, text_at, upper_name};
use m51_module::{ObjError, Segment, is_argument_name};
use std::alloc::Global;

// A kind of memory, and the bytes after it. O4 where it is no kind or NUMBER.
#[tactic(auto, unfolding(crate::specs::Segments::segment_kind_at))]
fn segment_kind_at(end: u32, bytes: &[u8]) -> Result<(Kind, &[u8]), ObjError>
    ensures value { Reads (λ x. (x.0, x.1.now)) result (segment_kind_at end bytes.now) }
    ensures memory { IfOk result (λ x. x.0 ≢ Kind.Number) }
{
    let (number, rest) = byte_at(end, bytes)?;
    match kind_of(number) {
        Some(kind) => {
            if same_kind(kind, Kind::Number) {
                return Err(broken(end, bytes));
            }
            Ok((kind, rest))
        }
        None => Err(broken(end, bytes)),
    }
}

// A type that the kind allows, and the bytes after it. O4 where it is another.
#[tactic(auto, unfolding(crate::specs::Segments::reloc_at))]
fn reloc_at(kind: Kind, end: u32, bytes: &[u8]) -> Result<(Reloc, &[u8]), ObjError>
    ensures { Reads (λ x. (x.0, x.1.now)) result (reloc_at kind end bytes.now) }
{
    let (number, rest) = byte_at(end, bytes)?;
    match reloc_by_code(number) {
        Some(reloc) => {
            if !allows(kind, reloc) {
                return Err(broken(end, bytes));
            }
            Ok((reloc, rest))
        }
        None => Err(broken(end, bytes)),
    }
}

// What the flags say of OVERLAYABLE and of ARGUMENT; `None` where they set another bit.
fn marks_of(flags: u8) -> Option<(bool, bool)>
    ensures { result ≡ marks_of flags }
{
    match flags {
        0 => Some((false, false)),
        1 => Some((true, false)),
        2 => Some((false, true)),
        3 => Some((true, true)),
        _ => None,
    }
}

// Whether a segment of the kind may be an argument segment in that version.
fn may_mark(version: u8, kind: Kind, overlay: bool) -> bool
    ensures { result ≡ may_mark version kind overlay }
{
    version == 2 && overlay && same_kind(kind, Kind::Direct)
}

// Whether a segment of the kind and type may have these marks, OVERLAYABLE and ARGUMENT.
fn are_marks(version: u8, kind: Kind, reloc: Reloc, overlay: bool, argument: bool) -> bool
    ensures { result ≡ are_marks version kind reloc overlay argument }
{
    (!overlay || may_overlay(kind, reloc)) && (!argument || may_mark(version, kind, overlay))
}

// Whether the segment is OVERLAYABLE and ARGUMENT, and the bytes after the flags. O4 where it may not be, or another
// bit is set.
#[tactic(auto, unfolding(crate::specs::Segments::marks_at))]
fn marks_at(
    version: u8,
    kind: Kind,
    reloc: Reloc,
    end: u32,
    bytes: &[u8],
) -> Result<(bool, bool, &[u8]), ObjError>
    ensures { Reads (λ x. ((x.0, x.1), x.2.now)) result (marks_at version kind reloc end bytes.now) }
{
    let (flags, rest) = byte_at(end, bytes)?;
    match marks_of(flags) {
        Some((overlay, argument)) => {
            if !are_marks(version, kind, reloc, overlay, argument) {
                return Err(broken(end, bytes));
            }
            Ok((overlay, argument, rest))
        }
        None => Err(broken(end, bytes)),
    }
}

// The base, and the bytes after it. O4 where a relocatable segment has another than 0.
#[tactic(auto, unfolding(crate::specs::Segments::base_at))]
fn base_at(reloc: Reloc, end: u32, bytes: &[u8]) -> Result<(u16, &[u8]), ObjError>
    ensures { Reads (λ x. (x.0, x.1.now)) result (base_at reloc end bytes.now) }
{
    let (base, rest) = pair_at(end, bytes)?;
    if is_absolute(reloc) || base == 0 {
        return Ok((base, rest));
    }
    Err(broken(end, bytes))
}

// Whether an absolute segment has a byte or more, and fits.
#[tactic(auto, using(crate::proofs::EntryLaws::ends_from_fits, crate::proofs::EntryLaws::fits_from_ends))]
fn is_placed(kind: Kind, base: u16, size: u16) -> bool
    requires { kind ≢ Kind.Number }
    ensures { result ≡ is_placed kind base size }
{
    size > 0 && fits(kind, Reloc::Abs, u32::from(base), u32::from(size))
}

// Whether a segment of the kind and type may have this base and size.
fn is_size(kind: Kind, reloc: Reloc, base: u16, size: u16) -> bool
    requires { kind ≢ Kind.Number }
    ensures { result ≡ is_size kind reloc base size }
{
    u32::from(size) <= largest(kind) && (!is_absolute(reloc) || is_placed(kind, base, size))
}

// The size, and the bytes after it. O4 where it is too large, or an absolute segment has none or does not fit.
#[tactic(auto, unfolding(crate::specs::Segments::size_at))]
fn size_at(
    kind: Kind,
    reloc: Reloc,
    base: u16,
    end: u32,
    bytes: &[u8],
) -> Result<(u16, &[u8]), ObjError>
    requires { kind ≢ Kind.Number }
    ensures { Reads (λ x. (x.0, x.1.now)) result (size_at kind reloc base end bytes.now) }
{
    let (size, rest) = pair_at(end, bytes)?;
    if !is_size(kind, reloc, base, size) {
        return Err(broken(end, bytes));
    }
    Ok((size, rest))
}

// The name that the text is: none for an absolute segment, a written one else; `None` where it is not so.
fn segment_name(reloc: Reloc, text: &[u8]) -> Option<Name>
    ensures { result ≡ segment_name reloc text.now }
{
    if !is_absolute(reloc) {
        return upper_name(text);
    }
    match text {
        [] => Some(Name::none()),
        _ => None,
    }
}

// Whether one of the segments has the name.
fn names_segment(before: &[Segment], name: &Name) -> bool
    ensures { result ≡ names_segment before.now name.now }
{
    before
        .iter()
        .any(|segment| same(name, segment.name.bytes()))
}

// Whether no segment before has the name, where it is one.
fn is_new(before: &[Segment], reloc: Reloc, name: &Name) -> bool
    ensures { result ≡ is_new before.now reloc name.now }
{
    is_absolute(reloc) || !names_segment(before, name)
}

// Whether a segment may have the name after those before: it is new, and that of an argument segment begins with
// `?AG?`.
#[tactic(auto, unfolding(crate::specs::Segments::may_have))]
fn may_have(before: &[Segment], reloc: Reloc, argument: bool, name: &Name) -> bool
    ensures { result ≡ may_have before.now reloc argument name.now }
{
    is_new(before, reloc, name) && (!argument || is_argument_name(name))
}

// The name, the last field. O4 where it is not of the form, or the segment may not have it, or where bytes are left
// over.
#[tactic(auto, unfolding(crate::specs::Segments::segment_name_at))]
fn segment_name_at(
    before: &[Segment],
    reloc: Reloc,
    argument: bool,
    end: u32,
    bytes: &[u8],
) -> Result<Name, ObjError>
    ensures { Reads (λ x. x) result (segment_name_at before.now reloc argument end bytes.now) }
{
    let (text, rest) = text_at(end, bytes)?;
    let Some(name) = segment_name(reloc, text) else {
        return Err(broken(end, bytes));
    };
    if !may_have(before, reloc, argument, &name) {
        return Err(broken(end, bytes));
    }
    match rest {
        [] => Ok(name),
        _ => Err(broken(end, rest)),
    }
}

/// Reads the segments of a module.
///
/// Source: own choice ("Object records").
#[derive(Drop)]
pub(crate) struct SegmentReader {
    /// The version of the module.
    pub(crate) version: u8,
}

impl Reader for SegmentReader {
    type Item = Segment;

    ghost reads = { λ r. segment_in r.version };

    ghost knows = { λ _ _. Unit {0} };

    #[tactic(auto, unfolding(crate::specs::Segments::segment_in))]
    fn read(
        &mut self,
        _alloc: Global,
        before: &[Segment],
        end: u32,
        contents: &[u8],
    ) -> Result<Segment, ObjError> {
        if before.len() >= MOST_MODULE_SEGMENTS {
            return Err(broken(end, contents));
        }
        let (kind, rest) = segment_kind_at(end, contents)?;
        let (reloc, rest) = reloc_at(kind, end, rest)?;
        let (overlay, argument, rest) = marks_at(self.version, kind, reloc, end, rest)?;
        let (base, rest) = base_at(reloc, end, rest)?;
        let (size, rest) = size_at(kind, reloc, base, end, rest)?;
        let name = segment_name_at(before, reloc, argument, end, rest)?;
        Ok(Segment {
            name,
            kind,
            reloc,
            overlay,
            argument,
            base,
            size,
        })
    }
}

// The flags of a segment.
fn flags_of(overlay: bool, argument: bool) -> u8
    ensures { result ≡ flags_of overlay argument }
{
    match (overlay, argument) {
        (false, false) => 0,
        (true, false) => 1,
        (false, true) => 2,
        (true, true) => 3,
    }
}

impl Record for Segment {
    ghost TYPE = { SEGMENT };

    ghost spelled = { segment_contents };

    ghost is_short = { λ _. Unit {0} };

    const TYPE: u8 = SEGMENT;

    fn contents(&self, alloc: Global) -> Result<Vec<u8>, NoMemory> {
        let mut contents = Vec::new(alloc);
        contents.push(kind_number(self.kind))?;
        contents.push(reloc_number(self.reloc))?;
        contents.push(flags_of(self.overlay, self.argument))?;
        put_pair(&mut contents, self.base)?;
        put_pair(&mut contents, self.size)?;
        put_text(&mut contents, self.name.bytes())?;
        Ok(contents)
    }
}
