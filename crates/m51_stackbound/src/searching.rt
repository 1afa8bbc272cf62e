//! The search for the points of a program.
ghost use Rattle.std.specs.Prelude.{◌≡◌, [], OnOk, IfOk, map};
ghost use Rattle.m51_stackbound.specs.Listed.{listed, listed_two};
ghost use Rattle.m51_stackbound.specs.Points.{entry_at, first_points, successors};
ghost use Rattle.m51_stackbound.specs.Search.{AreDifferent, Finds, NotesAll};

use crate::following::{entry_at, successors};
use crate::point::Point;
use crate::points::Points;
use crate::units::handlers;
use m51_cells::{MOST_POINTS, NoMemory};
use m51_module::{Image, Layout, Start};
use std::alloc::Global;

// Adds a point, if there is one.
fn note_one(points: &mut Points, point: Option<Point>) -> Result<(), NoMemory>
    ensures { OnOk result (NotesAll points.old (listed point) points.new) }
{
    match point {
        Some(point) => points.note(point),
        None => Ok(()),
    }
}

// Adds the successors of a point.
#[tactic(auto, using(crate::proofs::Noting::notes_both))]
fn visit(layout: &Layout, image: &Image, points: &mut Points, point: &Point) -> Result<(), NoMemory>
    ensures { OnOk result (NotesAll points.old (successors layout.now image.now point.now) points.new) }
{
    let (one, two) = successors(layout, image, point);
    note_one(points, one)?;
    note_one(points, two)
}

// Adds the points at which these starts are entered.
fn note_entries(points: &mut Points, starts: &[u16]) -> Result<(), NoMemory>
    ensures { OnOk result (NotesAll points.old (map entry_at starts.now) points.new) }
{
    for start in starts {
        points.note(entry_at(*start))?;
    }
    Ok(())
}

// The first points.
fn first_points(alloc: Global, layout: &Layout) -> Result<Points, NoMemory>
    ensures { IfOk result (NotesAll [] (first_points layout.now)) }
{
    let mut points = Points::new(alloc);
    points.note(Point {
        start: Start::Reset,
        address: 0,
        height: 7,
    })?;
    let starts = handlers(alloc, layout)?;
    note_entries(&mut points, &starts)?;
    Ok(points)
}

/// What is reached from these points, or none where that is more than 1,000,000 points. Each point is looked at once.
pub(crate) fn search(
    layout: &Layout,
    image: &Image,
    firsts: Points,
) -> Result<Option<Points>, NoMemory>
    requires { AreDifferent firsts }
    ensures { IfOk result (Finds layout.now image.now firsts) }
{
    let mut points = firsts;
    let mut next = 0;
    while next < points.len() {
        if points.len() > MOST_POINTS {
            return Ok(None);
        }
        let point = points.as_slice()[next];
        visit(layout, image, &mut points, &point)?;
        next += 1;
    }
    Ok(Some(points))
}

/// The points of a program, or none where they are more than 1,000,000.
pub(crate) fn points_of(
    alloc: Global,
    layout: &Layout,
    image: &Image,
) -> Result<Option<Points>, NoMemory>
    ensures { IfOk result (Finds layout.now image.now (first_points layout.now)) }
{
    let firsts = first_points(alloc, layout)?;
    search(layout, image, firsts)
}
