//! Depths: how many bytes of stack a start and what it calls take at most.
ghost use Rattle.std.specs.Prelude.{◌≡◌, ◌<◌, ◌≤◌, ℕ, length, nat_lt, slice_index, IfOk};
ghost use Rattle.std.specs.List.{Contains, list_any};
ghost use Rattle.m51_stackbound.specs.Callers.{AreCallsOf};
ghost use Rattle.m51_stackbound.specs.Climb.{depth_in, depth_by, AreCalls, AreTaken, AreSettled, IsBlank, IsClimbing};
ghost use Rattle.m51_stackbound.specs.Climb.{IsRaised, Raises};
ghost use Rattle.m51_stackbound.specs.Points.{IsPoint};
ghost use Rattle.m51_stackbound.specs.Rules.{rank};
ghost use Rattle.m51_stackbound.specs.Search.{ArePoints};
ghost use Rattle.m51_stackbound.specs.declared.point.Point.{Point};

use crate::calls::Call;
use crate::judging::rank;
use crate::point::Point;
use m51_cells::NoMemory;
use m51_module::{Image, Layout, Start};
use std::alloc::{AllocError, Global};

// How many starts there may be.
const STARTS: usize = 65537;

/// The depth of a start in a table; 256 for each that is above 255.
pub(crate) fn depth_in(depths: &[u16], start: Start) -> u16
    requires { length depths.now ≡ 65537 }
    ensures value { result ≡ depth_in depths.now start }
    ensures most { ((i : ℕ) → i < length depths.now → slice_index depths.now i ≤ 256) → result ≤ 256 }
{
    depths[rank(start) as usize]
}

/// Whether a depth is above 255.
pub(crate) fn is_too_deep(depths: &[u16]) -> bool
    ensures { result ≡ list_any (λ depth. nat_lt 255 depth) depths.now }
{
    depths.iter().any(|depth| *depth > 255)
}

// What a start takes by a call: its height, two bytes for the return address, and what the start that is called takes.
fn depth_by(depths: &[u16], call: &Call) -> u16
    requires len { length depths.now ≡ 65537 }
    requires most { (i : ℕ) → i < length depths.now → slice_index depths.now i ≤ 256 }
    ensures { result ≡ depth_by depths.now call.now }
{
    let height = u16::from(call.height);
    (height + 2 + depth_in(depths, Start::At(call.to))).min(256)
}

// Raises the depth of a start, unless it is as great; whether it rose.
fn raise(depths: &mut [u16], start: Start, depth: u16) -> bool
    requires { length depths.old ≡ 65537 }
    ensures raised { Raises start depth depths.old depths.new result }
    ensures few { rank start < 65537 }
{
    let index = rank(start) as usize;
    if depth <= depths[index] {
        return false;
    }
    depths[index] = depth;
    true
}

// The height of a point.
fn height_of(point: &Point) -> u16
    ensures value { result ≡ point.now.height }
    ensures few { result ≤ 255 }
{
    u16::from(point.height)
}

// Raises the depth of each start to the heights of its points.
fn raise_to_heights(layout: &Layout, image: &Image, points: &[Point], depths: &mut [u16])
    requires points { (p : Point) → Contains points.now p → IsPoint layout.now image.now p }
    requires depths { AreTaken layout.now image.now depths.old }
    ensures { IsClimbing layout.now image.now points.now depths.new }
{
    for point in points {
        raise(depths, point.start, height_of(point));
    }
}

// Raises the depth of each start by each of its calls; whether one rose.
fn raise_all(layout: &Layout, image: &Image, calls: &[Call], depths: &mut [u16]) -> bool
    requires calls { AreCalls layout.now image.now calls.now }
    requires depths { AreTaken layout.now image.now depths.old }
    ensures { IsRaised layout.now image.now calls.now depths.old depths.new result }
{
    let mut rose = false;
    for call in calls {
        let depth = depth_by(depths, call);
        if raise(depths, call.from, depth) {
            rose = true;
        }
    }
    rose
}

// Raises depths until they are settled: once by all points, and then by calls.
fn settle(layout: &Layout, image: &Image, points: &[Point], calls: &[Call], depths: &mut [u16])
    requires points { ArePoints layout.now image.now points.now }
    requires calls { AreCallsOf layout.now image.now points.now calls.now }
    requires depths { AreTaken layout.now image.now depths.old }
    ensures { AreSettled layout.now image.now points.now depths.new }
{
    raise_to_heights(layout, image, points, depths);
    'climb: while raise_all(layout, image, calls, depths) {}
}

// A table of zeros.
#[tactic(auto, using(crate::proofs::Raised::blank))]
fn blank_depths(alloc: Global, count: usize) -> Result<Vec<u16>, AllocError>
    requires { count ≡ 65537 }
    ensures { IfOk result (λ depths. IsBlank depths.items) }
{
    vec![in alloc; 0u16; count]
}

/// The depths of all starts.
pub(crate) fn depths_of(
    alloc: Global,
    layout: &Layout,
    image: &Image,
    points: &[Point],
    calls: &[Call],
) -> Result<Vec<u16>, NoMemory>
    requires points { ArePoints layout.now image.now points.now }
    requires calls { AreCallsOf layout.now image.now points.now calls.now }
    ensures { IfOk result (λ depths. AreSettled layout.now image.now points.now depths.items) }
{
    let mut depths = blank_depths(alloc, STARTS)?;
    settle(layout, image, points, calls, &mut depths);
    Ok(depths)
}
