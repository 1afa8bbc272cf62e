//! A set of points in the order in which they were found.
ghost use Rattle.std.specs.Prelude.{◌≡◌, ◌<◌, [], IfOk, OnOk, length, slice_get, Some};
ghost use Rattle.m51_stackbound.specs.Search.{Notes};

use crate::point::Point;
use indexmap::IndexSet;
use m51_cells::NoMemory;
use std::alloc::Global;
use std::marker::Model;

/// Points, each once, which contracts see as a list.
///
/// Source: own choice ("Stack bound").
#[derive(Drop)]
pub(crate) struct Points {
    points: IndexSet<Point>,
}

impl Model for Points {
    ghost use Rattle.std.specs.Prelude.{List};
    ghost use Rattle.m51_stackbound.specs.declared.point.Point.{Point as PointValue};

    ghost Value = { List PointValue };

    ghost view = { λ p. p.points.keys };
}

impl Points {
    /// No point yet.
    pub fn new(alloc: Global) -> Points
        ensures { result ≡ [] }
    {
        Points {
            points: IndexSet::new(alloc),
        }
    }

    /// How many there are.
    pub fn len(&self) -> usize
        ensures { result ≡ length self.now }
    {
        self.points.len()
    }

    /// The points, lent.
    pub fn as_slice(&self) -> &[Point]
        ensures { result.now ≡ self.now }
    {
        self.points.as_slice()
    }

    /// Adds a point, unless it is one of them. Out of memory is the only error.
    pub fn note(&mut self, point: Point) -> Result<(), NoMemory>
        ensures { OnOk result (Notes self.old point self.new) }
    {
        self.points.insert(point)?;
        Ok(())
    }
}
