//! The graph of joined modules and control lines.
ghost use Rattle.std.specs.Prelude.{◌≡◌, ◌≤◌, IfOk, length};
ghost use Rattle.m51_cells.specs.declared.limits.TheConstants.{MOST_SEGMENTS};
ghost use Rattle.m51_cells.specs.Outcome.{Gives};
ghost use Rattle.m51_module.specs.Walks.{Edges};
ghost use Rattle.m51_resolve.specs.Rules.{but_memory};
ghost use Rattle.m51_graph.specs.Drawing.{edges_of};
ghost use Rattle.m51_graph.specs.Graph.{LeadWithin};
ghost use Rattle.m51_graph.specs.Graphs.{graph_of, graph_over, parts_of};
ghost use Rattle.m51_graph.specs.Locals.{own_units};
ghost use Rattle.m51_graph.specs.Units.{unit_titles};

use crate::drawing::{edges_of, fixup_edges};
use crate::edge_list::EdgeList;
use crate::graphs::Graph;
use crate::judging::judge;
use crate::lines::bad_line;
use crate::locals::{argument_marks, lost_segment, own_units};
use crate::parts::GraphParts;
use crate::unit_names::UnitNames;
use crate::unit_table::UnitTable;
use crate::units::{roots, unit_numbers};
use m51_cells::{ListOf, NoMemory};
use m51_control::{Control, Controls};
use m51_module::Refusal;
use m51_resolve::{Joined, JoinedSegment};
use std::alloc::Global;

// The parts of the graph of joined segments over the edges that fixups make.
fn parts_of(
    alloc: Global,
    segments: &[JoinedSegment],
    titles: &UnitNames,
    controls: &[(u32, Control)],
    made: EdgeList,
    own: Vec<Option<u16>>,
) -> Result<GraphParts, NoMemory>
    requires segments { length segments.now ≤ MOST_SEGMENTS }
    requires titles { titles.now ≡ unit_titles segments.now }
    requires made { made.count ≡ length titles.now }
    requires own { own.items ≡ own_units titles.now controls.now segments.now }
    ensures { IfOk result (λ parts. parts
        ≡ parts_of segments.now controls.now (edges_of titles.now controls.now made.list)) }
{
    let units = unit_numbers(alloc, segments)?;
    let edges = edges_of(alloc, titles, controls, made)?;
    let roots = roots(alloc, segments)?;
    let arguments = argument_marks(alloc, segments)?;
    Ok(GraphParts {
        units: ListOf::of(units),
        edges: ListOf::of(edges),
        roots: ListOf::of(roots),
        own: ListOf::of(own),
        arguments: ListOf::of(arguments),
    })
}

// The graph of joined segments and control lines over the edges that fixups make, or the refusal of the first rule that
// fails.
pub(crate) fn graph_over(
    alloc: Global,
    segments: &[JoinedSegment],
    titles: &UnitNames,
    controls: &[(u32, Control)],
    made: EdgeList,
) -> Result<Graph, Refusal>
    requires segments { length segments.now ≤ MOST_SEGMENTS }
    requires titles { titles.now ≡ unit_titles segments.now }
    requires count { made.count ≡ length titles.now }
    requires made { LeadWithin (length titles.now) made.list }
    ensures { Gives (λ g. g) but_memory result (graph_over segments.now controls.now made.list) }
{
    if let Some(name) = lost_segment(titles.titles(), segments) {
        return Err(Refusal::L6 { name });
    }
    let own = own_units(alloc, titles, controls, segments)?;
    if let Some(line) = bad_line(alloc, titles, segments, &own, controls, &made)? {
        return Err(Refusal::L7 { line });
    }
    let parts = parts_of(alloc, segments, titles, controls, made, own)?;
    judge(alloc, titles.titles(), parts)
}

/// The graph of chosen modules and control lines. The refusals, in their order: L6, the first segment marked
/// OVERLAYABLE that is neither a local nor the argument segment of a unit; L7, the first control line that does not
/// fit; L8, no absolute segment of program memory begins at 0000H; L10, all units that reach themselves; L11, the first
/// unit with an overlaid local or argument segment that lies under two roots, and the titles of the two at the lowest
/// addresses. Out of memory may come in place of any answer.
///
/// Source: RL51 guide.
pub fn graph(alloc: Global, joined: &Joined, controls: &Controls) -> Result<Graph, Refusal>
    ensures { Gives (λ g. g) but_memory result (graph_of joined.now controls.now) }
{
    let segments = joined.segments();
    let titles = UnitNames::of(alloc, segments)?;
    let units = UnitTable::of(alloc, segments)?;
    let made = fixup_edges(alloc, joined, &units)?;
    graph_over(alloc, segments, &titles, controls.lines(), made)
}
