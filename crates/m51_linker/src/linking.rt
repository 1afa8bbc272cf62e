//! Linking of several modules.
ghost use Rattle.std.specs.Prelude.{◌≡◌, ℕ, IfOk, Ok, length};
ghost use Rattle.m51_module.specs.Plan.{IsRootAt};
ghost use Rattle.m51_graph.specs.Graphs.{graph_of};
ghost use Rattle.m51_linker.specs.Image.{IsImage, content_of};
ghost use Rattle.m51_linker.specs.Link.{IsLinkResult, AreRoots, IsLinked, IsReady, joined_of, placed_of, program_of};
ghost use Rattle.m51_linker.specs.Memory.{HoldsStretches};

use crate::Linked;
use crate::filling::content_of;
use crate::patching::patched;
use crate::running::runs_of;
use m51_cells::{Bytes, NoMemory, cite};
use m51_control::Controls;
use m51_graph::{Graph, graph};
use m51_module::{Image, Library, Module, Refusal};
use m51_place::{Placing, place_all};
use m51_resolve::{Joined, resolve};
use std::alloc::Global;

// For each unit a byte of the roots that it lies under.
fn roots_of(alloc: Global, graph: &Graph) -> Result<Bytes, NoMemory>
    ensures { IfOk result (λ roots. AreRoots graph.now roots) }
{
    let mut roots = Vec::new(alloc);
    for unit in 0..graph.parts().units.len() {
        roots.push(graph.roots_of(unit as u16))?;
    }
    Ok(Bytes::of(roots))
}

// What a link gives for placed modules whose fixups meet their rules.
fn linked(
    alloc: Global,
    joined: &Joined,
    graph: &Graph,
    placing: Placing,
    image: Image,
    content: &[Option<u8>],
) -> Result<Linked, NoMemory>
    requires image { IsImage joined.now placing image }
    requires reset { (unit : ℕ) × IsRootAt placing.layout 0 unit }
    requires units { length placing.layout.units ≡ length graph.now.units }
    requires content { HoldsStretches (content_of joined.now placing) content.now }
    ensures linked { IfOk result (λ linked.
        IsLinked (record { modules = joined.now; graph = graph.now; placing = placing }) linked) }
    ensures ready { IfOk result IsReady }
{
    let written = runs_of(alloc, content)?;
    let roots = roots_of(alloc, graph)?;
    let Placing { layout, bases: _ } = placing;
    Ok(Linked {
        layout,
        image,
        written,
        roots,
    })
}

// The program of chosen modules over their graph.
fn link_graph(
    alloc: Global,
    joined: &Joined,
    graph: &Graph,
    controls: &Controls,
) -> Result<Linked, Refusal>
    requires { graph_of joined.now controls.now ≡ Ok graph.now }
    ensures answer { IsLinkResult (placed_of joined.now controls.now graph.now) result }
    ensures ready { IfOk result IsReady }
{
    // For the proof only: reading modules, lines and graph exposes their invariants.
    cite(joined.modules());
    cite(controls.lines());
    cite(graph.parts());
    let placing = place_all(alloc, joined, graph, controls)?;
    let content = content_of(alloc, joined, &placing)?;
    let image = patched(alloc, joined, &placing, &content)?;
    Ok(linked(alloc, joined, graph, placing, image, &content)?)
}

// The program of chosen modules.
fn link_joined(alloc: Global, joined: &Joined, controls: &Controls) -> Result<Linked, Refusal>
    ensures answer { IsLinkResult (joined_of controls.now joined.now) result }
    ensures ready { IfOk result IsReady }
{
    let graph = graph(alloc, joined, controls)?;
    link_graph(alloc, joined, &graph, controls)
}

/// Links modules, the members of libraries that they need, and control lines: to the layout, the image, the runs of it
/// that content fills, and the roots of each unit; or to the first rule that fails, in this order.
///
/// `Limit` of modules; `L1`, a public that two modules define; `L2`, an external that none defines; `L3`, an external
/// of another kind than its public; `L4`, a segment whose parts differ; `Limit` of joined segments, and of units; `L5`,
/// a segment that is too large; `L6`, a segment marked OVERLAYABLE that is of no unit; `L7`, a control line that does
/// not fit; `L8`, no reset; `L10`, units that reach themselves; `L11`, a unit with locals under two roots; `L9`, two
/// fixed extents that share a cell; `L12`, a segment without a base; `L13`, the first fixup whose rule fails, by joined
/// segment and offset. Out of memory may come in place of any answer.
///
/// Source: RL51 guide.
pub fn link(
    alloc: Global,
    modules: Vec<Module>,
    libraries: &[Library],
    controls: &Controls,
) -> Result<Linked, Refusal>
    ensures answer { IsLinkResult (program_of modules.items libraries.now controls.now) result }
    ensures ready { IfOk result IsReady }
{
    let joined = resolve(alloc, modules, libraries)?;
    link_joined(alloc, &joined, controls)
}
