//! Joins segments.
ghost use Rattle.std.specs.Prelude.{◌≡◌, ℕ, ◌+◌, ◌^◌, ◌<◌, ◌≤◌, [], ◌∷◌, ◌++◌, None, All, length, IfOk, IfSome, OnOk};
ghost use Rattle.m51_resolve.specs.WorkJoining.{all_growing, begun, grown, joined_with, numbers_from, Joins};
ghost use Rattle.m51_resolve.specs.Joining.{is_relocatable, are_parts, start_after, all_segments};
ghost use Rattle.m51_resolve.specs.Kept.{parts_after};
ghost use Rattle.m51_resolve.specs.Rules.{parts_agree, same_marks};

use indexmap::IndexMap;
use m51_cells::{Name, NoMemory, Reloc, is_absolute, same_kind, same_reloc};
use m51_module::Segment;
use std::alloc::Global;

// The part of a joined segment that a segment is.
#[derive(Clone, Copy)]
pub(crate) struct SegmentPart {
    // The joined segment, counted from 0.
    pub number: usize,
    // Where the part begins in it, in bytes, for BIT in bits.
    pub offset: usize,
}

// A joined segment while its parts are joined.
#[derive(Clone, Copy)]
pub(crate) struct Growing {
    // The part that is seen first.
    pub first: Segment,
    // The end of the last part, in bytes, for BIT in bits.
    pub end: usize,
    // The parts differ in kind, type, OVERLAYABLE or ARGUMENT.
    pub mixed: bool,
}

// Whether the type is not that of absolute segments.
pub(crate) fn is_relocatable(reloc: Reloc) -> bool
    ensures { result ≡ is_relocatable reloc }
{
    !is_absolute(reloc)
}

// Whether the segments are parts of one: both are relocatable, and they have one name.
fn are_parts(one: &Segment, two: &Segment) -> bool
    ensures { result ≡ are_parts one.now two.now }
{
    is_relocatable(one.reloc) && is_relocatable(two.reloc) && one.name == two.name
}

// Whether two segments have the same marks.
fn same_marks(one: &Segment, two: &Segment) -> bool
    ensures { result ≡ same_marks one.now two.now }
{
    one.overlay == two.overlay && one.argument == two.argument
}

// Whether two parts agree in kind, type, OVERLAYABLE and ARGUMENT.
fn parts_agree(one: &Segment, two: &Segment) -> bool
    ensures { result ≡ parts_agree one.now two.now }
{
    same_kind(one.kind, two.kind) && same_reloc(one.reloc, two.reloc) && same_marks(one, two)
}

// Where a part begins after that end.
fn start_after(reloc: Reloc, end: usize) -> usize
    requires { end < 2 ^ 40 }
    ensures start { result ≡ start_after reloc end }
    ensures near { result ≤ end + 255 }
{
    match reloc {
        Reloc::Page => (end + 255) / 256 * 256,
        _ => end,
    }
}

// The joined segment with one more part.
fn grown(growing: &Growing, segment: &Segment) -> Growing
    requires { growing.now.end < 2 ^ 40 }
    ensures grown { result ≡ grown growing.now segment.now }
    ensures near { result.end ≤ growing.now.end + 65790 }
{
    let first = growing.first;
    let end = start_after(segment.reloc, growing.end) + usize::from(segment.size);
    let mixed = growing.mixed || !parts_agree(&first, segment);
    Growing { first, end, mixed }
}

// A joined segment of one part.
fn begun(segment: &Segment) -> Growing
    ensures begun { result ≡ begun segment.now }
    ensures near { result.end ≤ 65790 }
{
    Growing {
        first: *segment,
        end: usize::from(segment.size),
        mixed: false,
    }
}

// The number of the joined segment that a segment is a part of.
fn joined_with(
    growing: &[Growing],
    numbers: &IndexMap<Name, usize>,
    segment: &Segment,
) -> Option<usize>
    requires { numbers.now.entries ≡ numbers_from 0 growing.now }
    ensures index { result ≡ joined_with growing.now segment.now }
    ensures within { IfSome result (λ number. number < length growing.now) }
{
    if is_relocatable(segment.reloc) {
        numbers.get(&segment.name).copied()
    } else {
        None
    }
}

// Gives the next number to the name of a segment that is seen first, where it has one.
fn number_next(
    numbers: &mut IndexMap<Name, usize>,
    growing: &[Growing],
    segment: &Segment,
) -> Result<(), NoMemory>
    requires numbers { numbers.old.entries ≡ numbers_from 0 growing.now }
    requires unseen { joined_with growing.now segment.now ≡ None }
    ensures { OnOk result (numbers.new.entries ≡ numbers_from 0 (growing.now ++ begun segment.now ∷ [])) }
{
    if is_relocatable(segment.reloc) {
        numbers.insert(segment.name, growing.len())?;
    }
    Ok(())
}

// Joins one more segment, and returns the part that it is.
fn join(
    growing: &mut Vec<Growing>,
    numbers: &mut IndexMap<Name, usize>,
    segment: &Segment,
) -> Result<SegmentPart, NoMemory>
    requires ends { All (λ g. g.end < 2 ^ 40) growing.old.items }
    requires numbers { numbers.old.entries ≡ numbers_from 0 growing.old.items }
    ensures joins { IfOk result (λ part. Joins growing.old.items segment.now part growing.new.items) }
    ensures grows { (most : ℕ) → All (λ g. g.end ≤ most) growing.old.items
        → IfOk result (λ _. All (λ g. g.end ≤ most + 65790) growing.new.items) }
    ensures numbers { OnOk result (numbers.new.entries ≡ numbers_from 0 growing.new.items) }
{
    match joined_with(growing, numbers, segment) {
        Some(number) => {
            let joined = &mut growing[number];
            let offset = start_after(segment.reloc, joined.end);
            *joined = grown(joined, segment);
            Ok(SegmentPart { number, offset })
        }
        None => {
            let number = growing.len();
            number_next(numbers, growing, segment)?;
            growing.push(begun(segment))?;
            Ok(SegmentPart { number, offset: 0 })
        }
    }
}

// Joins all of these segments: the joined segments, and for each segment the part that it is.
pub(crate) fn join_all(
    alloc: Global,
    segments: &[Segment],
) -> Result<(Vec<Growing>, Vec<SegmentPart>), NoMemory>
    requires { length segments.now ≤ 2 ^ 20 }
    ensures { let all = all_growing segments.now in
        IfOk result (λ joined. (joined.0.items ≡ all) × (joined.1.items ≡ parts_after [] segments.now)) }
{
    let mut growing = Vec::new(alloc);
    let mut parts = Vec::new(alloc);
    let mut numbers = IndexMap::new(alloc);
    for segment in segments {
        parts.push(join(&mut growing, &mut numbers, segment)?)?;
    }
    Ok((growing, parts))
}
