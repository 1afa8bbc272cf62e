//! The parts of a module in version 2, in which segments of arguments are marked.
ghost use Rattle.std.specs.Prelude.{◌≡◌, map};
ghost use Rattle.m51_module.specs.Arguments.{may_be_argument, marked, raised};

use crate::{ModuleParts, Segment, Segments, is_argument_name};
use m51_cells::{Kind, ListOf, same_kind};

// Whether the segment may have the argument mark.
fn may_be_argument(segment: &Segment) -> bool
    ensures { result ≡ may_be_argument segment.now }
{
    segment.overlay && same_kind(segment.kind, Kind::Direct) && is_argument_name(&segment.name)
}

// The segment, marked where it may be.
fn marked(segment: Segment) -> Segment
    ensures { result ≡ marked segment }
{
    Segment {
        argument: segment.argument || may_be_argument(&segment),
        ..segment
    }
}

// The segments, each marked where it may be.
fn all_marked(segments: Segments) -> Segments
    ensures { result ≡ map marked segments }
{
    let mut segments = segments.into_vec();
    for index in 0..segments.len() {
        segments[index] = marked(segments[index]);
    }
    ListOf::of(segments)
}

/// The parts in version 2, with each segment marked that may be.
pub(crate) fn raised_parts(parts: ModuleParts) -> ModuleParts
    ensures { result ≡ raised parts }
{
    let segments = all_marked(parts.segments);
    ModuleParts {
        version: 2,
        segments,
        ..parts
    }
}
