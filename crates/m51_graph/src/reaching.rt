//! The pairs of units that edges join, and those that walks along edges join.
ghost use Rattle.std.specs.Prelude.{◌≡◌, ◌≤◌, IfOk};
ghost use Rattle.m51_cells.specs.declared.limits.TheConstants.{MOST_UNITS};
ghost use Rattle.m51_relations.specs.Rows.{flipped, pairs};
ghost use Rattle.m51_graph.specs.Drawing.{edge_test};
ghost use Rattle.m51_graph.specs.Graph.{LeadWithin};
ghost use Rattle.m51_graph.specs.Leading.{leads};

use m51_cells::NoMemory;
use m51_relations::BitRows;
use std::alloc::Global;

// The pairs of which the first unit has an edge to the second.
pub(crate) fn edge_rows(
    alloc: Global,
    edges: &[(u16, u16)],
    count: usize,
) -> Result<BitRows, NoMemory>
    requires few { count ≤ MOST_UNITS }
    requires within { LeadWithin count edges.now }
    ensures count { IfOk result (λ rows. rows.count ≡ count) }
    ensures pairs { IfOk result (λ rows. pairs rows ≡ edge_test edges.now) }
{
    let mut rows = BitRows::none(alloc, count)?;
    for (from, to) in edges {
        rows.put(*from, *to);
    }
    Ok(rows)
}

// The pairs of which the second unit has an edge to the first.
pub(crate) fn caller_rows(
    alloc: Global,
    edges: &[(u16, u16)],
    count: usize,
) -> Result<BitRows, NoMemory>
    requires few { count ≤ MOST_UNITS }
    requires within { LeadWithin count edges.now }
    ensures count { IfOk result (λ rows. rows.count ≡ count) }
    ensures pairs { IfOk result (λ rows. pairs rows ≡ flipped (edge_test edges.now)) }
{
    let mut rows = BitRows::none(alloc, count)?;
    for (from, to) in edges {
        rows.put(*to, *from);
    }
    Ok(rows)
}

// The pairs of which the first unit reaches the second by a walk of at least one edge.
#[tactic(auto, using(crate::proofs::Closed::edges_closed))]
pub(crate) fn reach_rows(
    alloc: Global,
    edges: &[(u16, u16)],
    count: usize,
) -> Result<BitRows, NoMemory>
    requires few { count ≤ MOST_UNITS }
    requires within { LeadWithin count edges.now }
    ensures count { IfOk result (λ rows. rows.count ≡ count) }
    ensures pairs { IfOk result (λ rows. pairs rows ≡ leads edges.now) }
{
    let mut rows = edge_rows(alloc, edges, count)?;
    rows.close(alloc)?;
    Ok(rows)
}
