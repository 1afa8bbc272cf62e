//! Places segments.
ghost use Rattle.std.specs.Prelude.{◌≡◌, ◌<◌, Ok, IfOk, length};
ghost use Rattle.std.specs.Global.{Vec};
ghost use Rattle.std.specs.List.{All};
ghost use Rattle.m51_cells.specs.Outcome.{Gives};
ghost use Rattle.m51_resolve.specs.Joining.{segments_of};
ghost use Rattle.m51_resolve.specs.Rules.{but_memory};
ghost use Rattle.m51_graph.specs.Graphs.{graph_of};
ghost use Rattle.m51_place.specs.declared.numbered.Numbered.{Numbered};
ghost use Rattle.m51_place.specs.Places.{ArePlaces};
ghost use Rattle.m51_place.specs.Placement.{layout_of, located_at, located_of, mark_of, place_after, placing_of};
ghost use Rattle.m51_place.specs.Ready.{IsNumbered, IsPlaceable};

use crate::bases::base_for;
use crate::fixed::{add, fixed};
use crate::layouts::{joined_bases, parts_of_layout};
use crate::ordering::order;
use crate::sharing::check_shared;
use crate::{Numbered, Ranked};
use m51_cells::{ListOf, cite};
use m51_control::Controls;
use m51_graph::Graph;
use m51_module::{Layout, Mark, Placed, Refusal};
use m51_resolve::Joined;
use std::alloc::Global;

/// A layout, and where the joined segments begin in it.
///
/// Source: own choice ("Placing").
#[derive(Drop)]
pub struct Placing {
    pub layout: Layout,
    /// For each joined segment, by its number, its base: an address, for BIT that of a bit.
    pub bases: ListOf<u16>,
}

// The mark of a relocatable segment with this own unit.
fn mark_of(own: Option<u16>) -> Mark
    ensures { result ≡ mark_of own }
{
    match own {
        Some(_) => Mark::Overlaid,
        None => Mark::Plain,
    }
}

// The segment at this base.
fn located_at(ranked: &Ranked, base: u16) -> Numbered
    ensures { result ≡ located_at ranked.now base }
{
    Numbered {
        placed: Placed {
            title: ranked.segment.title,
            kind: ranked.segment.kind,
            reloc: ranked.segment.reloc,
            mark: mark_of(ranked.own),
            base,
            size: ranked.segment.size,
        },
        number: Some(ranked.number),
    }
}

// Places these segments in their order after the earlier extents, each at its least base. L12 names the first for which
// there is none.
fn place_after(
    alloc: Global,
    graph: &Graph,
    earlier: Vec<Numbered>,
    order: &[Ranked],
) -> Result<Vec<Numbered>, Refusal>
    requires order { All (IsPlaceable graph.now) order.now }
    requires earlier { All (IsNumbered graph.now) earlier.items }
    ensures { Gives (λ (located : Vec Numbered). located.items) but_memory result
        (place_after graph.now earlier.items order.now) }
{
    let mut located = earlier;
    for ranked in order {
        match base_for(alloc, graph, &located, ranked)? {
            Some(base) => add(&mut located, &located_at(ranked, base))?,
            None => {
                return Err(Refusal::L12 {
                    name: ranked.segment.title,
                });
            }
        }
    }
    Ok(located)
}

// The extents of a program, each placed.
fn locate(
    alloc: Global,
    joined: &Joined,
    graph: &Graph,
    controls: &Controls,
) -> Result<Vec<Numbered>, Refusal>
    requires { graph_of joined.now controls.now ≡ Ok graph.now }
    ensures { Gives (λ (located : Vec Numbered). located.items) but_memory result
        (located_of joined.now controls.now graph.now) }
{
    // For the proof only: reading the modules exposes their invariant.
    cite(joined.modules());
    let fixed = fixed(alloc, joined, controls)?;
    check_shared(&fixed)?;
    let order = order(alloc, graph, controls.lines(), joined.segments())?;
    place_after(alloc, graph, fixed, &order)
}

/// The layout of chosen modules over the graph that they and these control lines have, and the base in it of each
/// joined segment: the fixed extents (register banks in use, reserves, absolute segments), and then each relocatable
/// segment in the order of placing, at the least base at which it fits and no earlier extent in conflict covers one of
/// its cells. The refusals, in their order: L9, the first fixed extent that meets an earlier one, and the first that it
/// meets; L12, the first segment for which there is no base. Out of memory may come in place of any answer.
///
/// Source: RL51 guide.
pub fn place_all(
    alloc: Global,
    joined: &Joined,
    graph: &Graph,
    controls: &Controls,
) -> Result<Placing, Refusal>
    requires { graph_of joined.now controls.now ≡ Ok graph.now }
    ensures value { Gives (λ p. p) but_memory result (placing_of joined.now controls.now graph.now) }
    ensures bases { IfOk result (λ p. ArePlaces (segments_of joined.now) p) }
{
    // For the proof only: reading modules, lines and graph exposes their invariants.
    cite(joined.modules());
    cite(controls.lines());
    cite(graph.parts());
    let located = locate(alloc, joined, graph, controls)?;
    let bases = joined_bases(alloc, &located, joined.segments().len())?;
    let parts = parts_of_layout(alloc, graph, &located)?;
    let layout = Layout::make(alloc, parts)?;
    Ok(Placing {
        layout,
        bases: ListOf::of(bases),
    })
}

/// The layout of chosen modules over the graph that they and these control lines have, or the refusal, as `place_all`
/// gives it. Out of memory may come in place of any answer.
///
/// Source: RL51 guide.
pub fn place(
    alloc: Global,
    joined: &Joined,
    graph: &Graph,
    controls: &Controls,
) -> Result<Layout, Refusal>
    requires { graph_of joined.now controls.now ≡ Ok graph.now }
    ensures { Gives (λ l. l) but_memory result (layout_of joined.now controls.now graph.now) }
{
    let Placing { layout, bases: _ } = place_all(alloc, joined, graph, controls)?;
    Ok(layout)
}
