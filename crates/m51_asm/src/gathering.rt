//! The content of the module of a text: what its lines give to each of the segments.
ghost use Rattle.std.specs.Prelude.{◌≡◌, ◌+◌, ◌≤◌, true, length, IfOk, OnOk};
ghost use Rattle.m51_emit.specs.Gathering.{with_line};
ghost use Rattle.m51_emit.specs.Within.{LieInside};
ghost use Rattle.m51_asm.specs.Gathering.{nothing_gathered, changed_element};
ghost use Rattle.m51_asm.specs.Numbering.{number_at};

use crate::numbering::{PlacedText, number_at};
use crate::stepping::LinePlace;
use m51_cells::NoMemory;
use m51_emit::{EmittedContent, SegmentContent};
use m51_module::Segment;
use std::alloc::Global;

/// This number of segments, before the first line.
pub(crate) fn nothing_gathered(alloc: Global, count: usize) -> Result<Vec<SegmentContent>, NoMemory>
    requires { count ≤ 254 }
    ensures { IfOk result (λ all. all.items ≡ nothing_gathered count) }
{
    let mut all = Vec::new(alloc);
    for index in 0..count {
        all.push(SegmentContent::new(alloc, index as u8 + 1))?;
    }
    Ok(all)
}

// Adds the content of one more line, which its segment has at this offset. The number of the segment is 0 where the
// module does not have it.
#[tactic(auto, using(crate::proofs::GatheredLines::added, crate::proofs::GatheredLines::not_there))]
fn add_line(
    alloc: Global,
    gathered: &mut Vec<SegmentContent>,
    segments: &[Segment],
    number: u8,
    at: usize,
    content: &EmittedContent,
) -> Result<(), NoMemory>
    requires memory { at + length content.now.bytes ≤ 65536 }
    requires inside { LieInside (length content.now.bytes) content.now.references }
    ensures { OnOk result (gathered.new.items
        ≡ changed_element (λ g. with_line segments.now g (at, content.now)) number gathered.old.items) }
{
    if number == 0 {
        return Ok(());
    }
    match gathered.get_mut(usize::from(number) - 1) {
        Some(segment) => segment.add(alloc, segments, at, content),
        None => Ok(()),
    }
}

/// Adds the content of a line that is placed, unless the line or one above it has a fault: nothing is promised of the
/// list then. The only error is out of memory.
pub(crate) fn gather_line(
    alloc: Global,
    gathered: &mut Vec<SegmentContent>,
    text: &PlacedText<'_>,
    is_clean: bool,
    place: &LinePlace,
    content: &EmittedContent,
) -> Result<(), NoMemory>
    requires memory { is_clean ≡ true → place.now.offset + length content.now.bytes ≤ 65536 }
    requires inside { LieInside (length content.now.bytes) content.now.references }
    ensures { OnOk result (is_clean ≡ true → gathered.new.items
        ≡ changed_element (λ g. with_line text.now.numbering.now.segments g (place.now.offset, content.now))
        (number_at text.now.numbering.now.numbers place.now.segment) gathered.old.items) }
{
    if !is_clean {
        return Ok(());
    }
    let segments = text.numbering.segments.as_slice();
    let number = number_at(text.numbering.numbers.as_slice(), place.segment);
    let at = place.offset as usize;
    add_line(alloc, gathered, segments, number, at, content)
}
