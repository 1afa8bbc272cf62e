//! Edges in the order in which they are drawn.
ghost use Rattle.std.specs.Prelude.{◌≡◌, ◌≤◌, [], IfOk, IfSome, IsOk};
ghost use Rattle.m51_cells.specs.declared.limits.TheConstants.{MOST_UNITS};
ghost use Rattle.m51_graph.specs.Drawing.{has_edge, with_edge};
ghost use Rattle.m51_graph.specs.DrawnEdges.{IsEdgeWithin, with_found};

use m51_cells::NoMemory;
use m51_relations::BitRows;
use std::alloc::Global;
use std::marker::Model;

// Edges, each once, in order of first sight, with the set of their pairs. Contracts see the number of units and the
// list of the edges.
#[derive(Drop)]
pub(crate) struct EdgeList {
    list: Vec<(u16, u16)>,
    seen: BitRows,
}

impl Model for EdgeList {
    ghost use Rattle.std.specs.Prelude.{◌≡◌};
    ghost use Rattle.m51_graph.specs.Drawing.{edge_test};
    ghost use Rattle.m51_graph.specs.DrawnEdges.{DrawnEdges};
    ghost use Rattle.m51_relations.specs.Rows.{pairs};

    ghost Value = { DrawnEdges };

    ghost view = { λ e. record { count = e.seen.count; list = e.list.items } };

    ghost invariant = { λ e. pairs e.seen ≡ edge_test e.list.items };
}

impl EdgeList {
    // No edge between `count` units.
    pub(crate) fn none(alloc: Global, count: usize) -> Result<EdgeList, NoMemory>
        requires { count ≤ MOST_UNITS }
        ensures { IfOk result (λ edges. edges ≡ record { count = count; list = [] }) }
    {
        Ok(EdgeList {
            list: Vec::new(alloc),
            seen: BitRows::none(alloc, count)?,
        })
    }

    // The edges, borrowed.
    pub(crate) fn list(&self) -> &[(u16, u16)]
        ensures { result.now ≡ self.now.list }
    {
        &self.list
    }

    // Whether the edge is one of them.
    pub(crate) fn has(&self, edge: (u16, u16)) -> bool
        ensures { result ≡ has_edge self.now.list edge }
    {
        self.seen.has(edge.0, edge.1)
    }

    // Adds the edge unless it is already present.
    fn draw(&mut self, edge: (u16, u16)) -> Result<(), NoMemory>
        requires { IsEdgeWithin self.old.count edge }
        ensures count { self.new.count ≡ self.old.count }
        ensures drawn { IsOk result → self.new.list ≡ with_edge self.old.list edge }
    {
        if !self.seen.has(edge.0, edge.1) {
            self.list.push(edge)?;
            self.seen.put(edge.0, edge.1);
        }
        Ok(())
    }

    // Adds the edge that was found, if one was, unless it is already present.
    pub(crate) fn draw_found(&mut self, found: Option<(u16, u16)>) -> Result<(), NoMemory>
        requires { IfSome found (λ edge. IsEdgeWithin self.old.count edge) }
        ensures count { self.new.count ≡ self.old.count }
        ensures drawn { IsOk result → self.new.list ≡ with_found self.old.list found }
    {
        match found {
            Some(edge) => self.draw(edge),
            None => Ok(()),
        }
    }
}
