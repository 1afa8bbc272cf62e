//! The path of a root: the starts that make the stack as deep as it is.
ghost use Rattle.std.specs.Prelude.{◌≡◌, ◌≤◌, ◌<◌, ℕ, [], IfOk, length, replicate, slice_index, slice_set};
ghost use Rattle.m51_stackbound.specs.Climb.{AreSettled};
ghost use Rattle.m51_stackbound.specs.Nexts.{AreNexts, AreTables, IsRow, called_next, earlier, next_by, next_in};
ghost use Rattle.m51_stackbound.specs.Rules.{rank};
ghost use Rattle.m51_stackbound.specs.declared.paths.Next.TheVariants.{Unknown};

use crate::climbing::depth_in;
use crate::following::call_of;
use crate::judging::rank;
use crate::point::Point;
use m51_cells::{ListOf, NoMemory};
use m51_module::{Image, Layout, RootDepth, Start};
use std::alloc::{AllocError, Global};

/// How the path of a start continues.
///
/// Source: own choice ("Stack bound").
#[derive(Clone, Copy, Debug, PartialEq, Eq)]
pub(crate) enum Next {
    /// No point was found that gives the depth of the start.
    Unknown,
    /// A point of the start has the depth as its height.
    Ends,
    /// A call of this start gives the depth.
    Calls(u16),
}

// How many starts there may be.
const STARTS: usize = 65537;

// How a point gives the depth of its start, where it calls this one.
#[tactic(auto, unfolding(crate::specs::Nexts::next_by))]
fn next_by(depths: &[u16], point: &Point, called: Option<u16>) -> Next
    requires len { length depths.now ≡ 65537 }
    requires most { (i : ℕ) → i < length depths.now → slice_index depths.now i ≤ 256 }
    ensures { result ≡ next_by depths.now point.now called }
{
    let depth = depth_in(depths, point.start);
    let height = u16::from(point.height);
    if height == depth {
        return Next::Ends;
    }
    match called {
        Some(to) => {
            if height + 2 + depth_in(depths, Start::At(to)) == depth {
                Next::Calls(to)
            } else {
                Next::Unknown
            }
        }
        None => Next::Unknown,
    }
}

// The way to continue that comes first.
fn earlier(one: Next, two: Next) -> Next
    ensures { result ≡ earlier one two }
{
    match (one, two) {
        (Next::Unknown, other) | (other, Next::Unknown) => other,
        (Next::Ends, _) | (_, Next::Ends) => Next::Ends,
        (Next::Calls(first), Next::Calls(second)) => Next::Calls(first.min(second)),
    }
}

// How the path of a start continues.
fn next_in(nexts: &[Next], start: Start) -> Next
    requires { length nexts.now ≡ 65537 }
    ensures { result ≡ next_in nexts.now start }
{
    nexts[rank(start) as usize]
}

// The start with which the path of a start continues.
fn called_next(nexts: &[Next], start: Start) -> Option<u16>
    requires { length nexts.now ≡ 65537 }
    ensures { result ≡ called_next (next_in nexts.now start) }
{
    match next_in(nexts, start) {
        Next::Calls(to) => Some(to),
        Next::Ends => None,
        Next::Unknown => None,
    }
}

// Notes one more way in which the path of a start may continue.
fn note_next(nexts: &mut [Next], start: Start, next: Next)
    requires { length nexts.old ≡ 65537 }
    ensures noted { nexts.new ≡ slice_set nexts.old (rank start) (earlier (next_in nexts.old start) next) }
    ensures few { rank start < 65537 }
{
    let index = rank(start) as usize;
    nexts[index] = earlier(nexts[index], next);
}

// A table in which no path continues.
fn blank_nexts(alloc: Global, count: usize) -> Result<Vec<Next>, AllocError>
    ensures { IfOk result (λ nexts. nexts.items ≡ replicate count Unknown) }
{
    vec![in alloc; Next::Unknown; count]
}

// Notes how each point gives the depth of its start.
fn note_all(layout: &Layout, image: &Image, points: &[Point], depths: &[u16], nexts: &mut [Next])
    requires depths { AreSettled layout.now image.now points.now depths.now }
    requires blank { AreNexts layout.now image.now [] depths.now nexts.old }
    ensures { AreNexts layout.now image.now points.now depths.now nexts.new }
{
    for point in points {
        let next = next_by(depths, point, call_of(layout, image, point));
        note_next(nexts, point.start, next);
    }
}

/// How the path of each start continues, in a table by starts.
pub(crate) fn nexts_of(
    alloc: Global,
    layout: &Layout,
    image: &Image,
    points: &[Point],
    depths: &[u16],
) -> Result<Vec<Next>, NoMemory>
    requires { AreSettled layout.now image.now points.now depths.now }
    ensures { IfOk result (λ nexts. AreNexts layout.now image.now points.now depths.now nexts.items) }
{
    let mut nexts = blank_nexts(alloc, STARTS)?;
    note_all(layout, image, points, depths, &mut nexts);
    Ok(nexts)
}

/// The depth of a root and its path: its start, and then each start with which the one before it continues.
pub(crate) fn root_depth(
    alloc: Global,
    depths: &[u16],
    nexts: &[Next],
    root: u16,
    start: Start,
) -> Result<RootDepth, NoMemory>
    requires { AreTables depths.now nexts.now }
    ensures { IfOk result (IsRow depths.now nexts.now root start) }
{
    let mut path = Vec::new(alloc);
    path.push(start)?;
    let mut last = start;
    while let Some(to) = called_next(nexts, last) {
        last = Start::At(to);
        path.push(last)?;
    }
    Ok(RootDepth {
        root,
        depth: depth_in(depths, start),
        path: ListOf::of(path),
    })
}
