//! L13: the first fixup whose rule fails, by joined segment and offset.
ghost use Rattle.std.specs.Prelude.{◌≡◌, ◌+◌, ◌<◌, IsSome, option_map};
ghost use Rattle.m51_resolve.specs.Joining.{part_of, segment_at};
ghost use Rattle.m51_linker.specs.Broken.{broken_at, earlier_of, earlier_spot, is_before, spot_of, title_among};
ghost use Rattle.m51_linker.specs.Ready.{Checks};

use m51_cells::Name;
use m51_module::{Fixup, Refusal};
use m51_resolve::{Joined, JoinedSegment};

/// Where a field is.
///
/// Source: RL51 guide.
#[derive(Clone, Copy, Drop)]
pub struct Spot {
    /// The number of the joined segment.
    pub number: u16,
    /// The offset of the field's first byte in the joined segment.
    pub offset: u16,
}

// Where the field of the fixup of the module is.
pub(crate) fn spot_of(joined: &Joined, module: u8, fixup: &Fixup) -> Spot
    requires segment { IsSome (segment_at joined.now «module» fixup.now.segment) }
    requires offset { (part_of joined.now «module» fixup.now.segment).1 + fixup.now.offset < 65536 }
    ensures { result ≡ spot_of joined.now «module» fixup.now }
{
    let (number, offset) = joined.part(module, fixup.segment);
    Spot {
        number: number.get(),
        offset: offset + fixup.offset,
    }
}

// Whether the first spot is not after the second.
fn is_before(one: Spot, two: Spot) -> bool
    ensures { result ≡ is_before one two }
{
    one.number < two.number || one.number == two.number && one.offset <= two.offset
}

// The first of a spot and another one, if there is another.
fn earlier_spot(spot: Spot, other: Option<Spot>) -> Spot
    ensures { result ≡ earlier_spot spot other }
{
    match other {
        Some(other) => { if is_before(spot, other) { spot } else { other } }
        None => spot,
    }
}

// The first of two spots, each of which may be missing.
pub(crate) fn earlier_of(one: Option<Spot>, other: Option<Spot>) -> Option<Spot>
    ensures { result ≡ earlier_of one other }
{
    match one {
        Some(spot) => Some(earlier_spot(spot, other)),
        None => other,
    }
}

// The title of the joined segment of that number.
fn title_among(segments: &[JoinedSegment], number: u16) -> Name
    ensures { result ≡ title_among segments.now number }
{
    match segments.get(usize::from(number)) {
        Some(segment) => segment.title,
        None => Name::none(),
    }
}

// The refusal of the first field whose rule fails, if one does.
pub(crate) fn refuse(segments: &[JoinedSegment], broken: Option<Spot>) -> Result<(), Refusal>
    ensures { Checks (option_map (broken_at segments.now) broken) result }
{
    match broken {
        Some(spot) => Err(Refusal::L13 {
            name: title_among(segments, spot.number),
            offset: spot.offset,
        }),
        None => Ok(()),
    }
}
