//! Extents that are in the way of a segment.
ghost use Rattle.std.specs.Prelude.{◌≡◌, ◌<◌, IfOk, length};
ghost use Rattle.std.specs.List.{All};
ghost use Rattle.m51_place.specs.Conflicts.{in_conflict};
ghost use Rattle.m51_place.specs.Placement.{in_conflict_with};
ghost use Rattle.m51_bases.specs.Raising.{EndsWithin};
ghost use Rattle.m51_place.specs.InTheWay.{in_the_way};
ghost use Rattle.m51_place.specs.Ready.{IsNumbered};

use crate::Numbered;
use crate::bases::cells;
use m51_bases::same_space;
use m51_cells::{Extent, NoMemory, Space, cite};
use m51_graph::Graph;
use std::alloc::Global;

// Whether the two joined segments are different and in conflict.
fn in_conflict(graph: &Graph, one: u16, two: u16) -> bool
    requires one { one < length graph.now.own }
    requires two { two < length graph.now.own }
    ensures { result ≡ in_conflict graph.now one two }
{
    // For the proof only: reading the parts exposes the graph's invariant.
    cite(graph.parts());
    one != two && graph.conflict(one, two)
}

// Whether the extent is in conflict with the joined segment.
fn in_conflict_with(graph: &Graph, number: u16, extent: &Numbered) -> bool
    requires number { number < length graph.now.own }
    requires extent { IsNumbered graph.now extent.now }
    ensures { result ≡ in_conflict_with graph.now number extent.now }
{
    match extent.number {
        Some(other) => in_conflict(graph, other, number),
        None => true,
    }
}

// The cells of the extents of this memory that are in conflict with the joined segment. The memory is compared first.
pub(crate) fn in_the_way(
    alloc: Global,
    graph: &Graph,
    number: u16,
    space: Space,
    earlier: &[Numbered],
) -> Result<Vec<Extent>, NoMemory>
    requires number { number < length graph.now.own }
    requires earlier { All (IsNumbered graph.now) earlier.now }
    ensures list { IfOk result (λ found. found.items ≡ in_the_way graph.now number space earlier.now) }
    ensures ends { IfOk result (λ found. All EndsWithin found.items) }
{
    let mut found = Vec::new(alloc);
    for extent in earlier {
        let cells = cells(&extent.placed);
        if same_space(cells.space, space) && in_conflict_with(graph, number, extent) {
            found.push(cells)?;
        }
    }
    Ok(found)
}
