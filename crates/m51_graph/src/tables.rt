//! What a graph keeps besides its parts.
ghost use Rattle.std.specs.Prelude.{◌≡◌, IfOk, length, slice_index};
ghost use Rattle.m51_module.specs.Walks.{Reaches};
ghost use Rattle.m51_relations.specs.Rows.{pairs};
ghost use Rattle.m51_graph.specs.Graph.{IsGraph};
ghost use Rattle.m51_graph.specs.Kept.{AreTables};
ghost use Rattle.m51_graph.specs.Leading.{leads};

use crate::levels::levels;
use crate::parts::GraphParts;
use crate::reaching::{caller_rows, edge_rows};
use crate::relating::root_bytes;
use m51_cells::NoMemory;
use m51_relations::{BitRows, OwnerPairs, item_or};
use std::alloc::Global;

// What a graph keeps besides its parts: the pairs of units that edges join, and those that walks join; for each unit a
// byte of the roots above it, and its level; and which owners of segments are related.
#[derive(Drop)]
pub(crate) struct Tables {
    pub edges: BitRows,
    pub reach: BitRows,
    pub under: Vec<u8>,
    pub levels: Vec<u16>,
    pub owners: OwnerPairs,
}

impl Tables {
    // The tables of the parts of a graph, from the pairs that walks join.
    pub(crate) fn make(
        alloc: Global,
        parts: &GraphParts,
        reach: BitRows,
    ) -> Result<Tables, NoMemory>
        requires graph { IsGraph parts.now }
        requires count { reach.count ≡ length parts.now.units }
        requires reach { pairs reach ≡ leads parts.now.edges }
        ensures { IfOk result (λ tables. AreTables parts.now tables) }
    {
        let count = parts.units.len();
        let list = parts.edges.as_slice();
        let edges = edge_rows(alloc, list, count)?;
        let callers = caller_rows(alloc, list, count)?;
        let under = root_bytes(alloc, &reach, parts.roots.as_slice(), count as u16)?;
        let levels = levels(alloc, list, count)?;
        let owners = OwnerPairs::make(alloc, &edges, &callers, &reach, &under)?;
        Ok(Tables {
            edges,
            reach,
            under,
            levels,
            owners,
        })
    }

    // The byte of the roots above the unit.
    pub(crate) fn under(&self, unit: u16) -> u8
        ensures { result ≡ slice_index self.now.under.items unit }
    {
        item_or(&self.under, usize::from(unit), 0)
    }

    // The level of the unit.
    pub(crate) fn level(&self, unit: u16) -> u16
        ensures { result ≡ slice_index self.now.levels.items unit }
    {
        item_or(&self.levels, usize::from(unit), 0)
    }
}
