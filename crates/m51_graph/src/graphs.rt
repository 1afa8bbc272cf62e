//! Graphs of units.
ghost use Rattle.std.specs.Prelude.{◌≡◌, ◌≢◌, ◌<◌, ◌≤◌, ◌↔◌, ℕ, true, IfOk, IfSome, IsTrue, Some, length, slice_get};
ghost use Rattle.m51_module.specs.Walks.{HasEdge, Reaches};
ghost use Rattle.m51_relations.specs.Bits.{bit, words_for};
ghost use Rattle.m51_relations.specs.Rows.{pairs};
ghost use Rattle.m51_graph.specs.Graph.{AreRootBits, IsGraph, IsOverlaid, SegmentsConflict};
ghost use Rattle.m51_graph.specs.Leading.{leads};
ghost use Rattle.m51_graph.specs.Levels.{IsLevel, level_of};
ghost use Rattle.m51_graph.specs.Relating.{IsOwned};

use crate::parts::GraphParts;
use crate::tables::Tables;
use m51_cells::NoMemory;
use m51_relations::{BitRows, Owned};
use std::alloc::Global;
use std::marker::Model;

/// The units of joined modules, the edges between them and their roots, and which joined segments are overlaid, which
/// contracts see as its parts. Units and joined segments are counted from 0. No unit reaches itself, and each owner of
/// an overlaid segment lies under at most one root. What is asked of a graph is kept in tables, which are filled when
/// it is made.
///
/// Source: RL51 guide.
#[derive(Drop)]
pub struct Graph {
    parts: GraphParts,
    tables: Tables,
}

impl Model for Graph {
    ghost use Rattle.m51_graph.specs.declared.parts.GraphParts.{GraphParts};
    ghost use Rattle.m51_graph.specs.Kept.{IsKeptGraph};

    ghost Value = { GraphParts };

    ghost view = { λ g. g.parts };

    ghost invariant = { λ g. IsKeptGraph g.parts g.tables };
}

impl Graph {
    // The graph of these parts, from the pairs of units that walks join.
    pub(crate) fn make(alloc: Global, parts: GraphParts, reach: BitRows) -> Result<Graph, NoMemory>
        requires graph { IsGraph parts }
        requires count { reach.count ≡ length parts.units }
        requires reach { pairs reach ≡ leads parts.edges }
        ensures { IfOk result (λ graph. graph ≡ parts) }
    {
        let tables = Tables::make(alloc, &parts, reach)?;
        Ok(Graph { parts, tables })
    }

    /// The parts, borrowed.
    ///
    /// Source: RL51 guide.
    pub fn parts(&self) -> &GraphParts
        ensures parts { result.now ≡ self.now }
        ensures kept { IsGraph self.now }
    {
        &self.parts
    }

    /// Whether an edge leads from the first unit to the second. Both are units of the graph.
    ///
    /// Source: RL51 guide.
    pub fn edge(&self, from: u16, to: u16) -> bool
        requires from { from < length self.now.units }
        requires to { to < length self.now.units }
        ensures { IsTrue result ↔ HasEdge self.now.edges from to }
    {
        self.tables.edges.has(from, to)
    }

    /// The row of a unit of the graph: bits, 64 to a word, of which bit v modulo 64 of word v / 64 is set exactly if
    /// the unit reaches unit v by a walk of at least one edge. There are as many words as hold a bit for each unit, and
    /// no bit is set past the last unit.
    ///
    /// Source: own choice ("Closed rows").
    pub fn row(&self, from: u16) -> &[u64]
        requires { from < length self.now.units }
        ensures words { length result.now ≡ words_for (length self.now.units) }
        ensures bits { (v : ℕ) → (bit result.now v ≡ true) ↔ Reaches self.now.edges from v }
        ensures last { (v : ℕ) → bit result.now v ≡ true → v < length self.now.units }
    {
        self.tables.reach.row(from)
    }

    /// Whether the first unit reaches the second by a walk of at least one edge. Both are units of the graph.
    ///
    /// Source: RL51 guide.
    pub fn reaches(&self, from: u16, to: u16) -> bool
        requires from { from < length self.now.units }
        requires to { to < length self.now.units }
        ensures { IsTrue result ↔ Reaches self.now.edges from to }
    {
        self.tables.reach.has(from, to)
    }

    /// Under which roots a unit of the graph lies: bit 0 is set where it is the root at 0000H or that root reaches it,
    /// and bits 1 to 6 are for the interrupts at 0003H, 000BH, 0013H, 001BH, 0023H and 002BH.
    ///
    /// Source: own choice ("Roots").
    pub fn roots_of(&self, unit: u16) -> u8
        requires { unit < length self.now.units }
        ensures { AreRootBits self.now unit result }
    {
        self.tables.under(unit)
    }

    /// The level of a unit of the graph: the number of edges of the longest walk that ends in it, 0 to 999.
    ///
    /// Source: RL51 guide.
    pub fn level(&self, unit: u16) -> u16
        requires { unit < length self.now.units }
        ensures level { IsLevel self.now.edges unit result }
        ensures is { result ≡ level_of self.now.edges unit }
    {
        self.tables.level(unit)
    }

    /// Whether the joined segment of that number, which must exist, is overlaid.
    ///
    /// Source: RL51 guide.
    pub fn overlaid(&self, segment: u16) -> bool
        requires { segment < length self.now.own }
        ensures { IsTrue result ↔ IsOverlaid self.now segment }
    {
        self.owner(segment).is_some()
    }

    /// The own unit of a joined segment, which must exist: the one whose local or argument segment it is; none where
    /// the segment is not overlaid. An argument segment is owned by the units with an edge to that unit too.
    ///
    /// Source: own choice ("Owners").
    pub fn owner(&self, segment: u16) -> Option<u16>
        requires { segment < length self.now.own }
        ensures own { slice_get self.now.own segment ≡ Some result }
        ensures unit { IfSome result (λ unit. unit < length self.now.units) }
        ensures kept { IsGraph self.now }
    {
        self.parts.own.as_slice()[usize::from(segment)]
    }

    // Whether the joined segment is an argument segment.
    fn is_argument(&self, segment: u16) -> bool
        requires { segment < length self.now.own }
        ensures argument { slice_get self.now.arguments segment ≡ Some result }
        ensures kept { IsGraph self.now }
    {
        self.parts.arguments.as_slice()[usize::from(segment)]
    }

    // Whether an owner of the one overlaid segment is related to an owner of the other.
    fn are_owners_related(&self, one: Owned, two: Owned) -> bool
        ensures { (s t : ℕ) → IsOwned self.now s one → IsOwned self.now t two
            → (IsTrue result ↔ SegmentsConflict self.now s t) }
    {
        self.tables.owners.are_related(one, two)
    }

    /// Whether two different joined segments, both of which exist, must not share a cell: one of them is not
    /// overlaid, or an owner of the one and an owner of the other are one unit, or one of these reaches the other, or
    /// one lies under no root, or they lie under different roots.
    ///
    /// Source: RL51 guide.
    pub fn conflict(&self, one: u16, two: u16) -> bool
        requires one { one < length self.now.own }
        requires two { two < length self.now.own }
        requires different { one ≢ two }
        ensures { IsTrue result ↔ SegmentsConflict self.now one two }
    {
        match (self.owner(one), self.owner(two)) {
            (Some(first), Some(second)) => {
                let one = Owned {
                    own: first,
                    argument: self.is_argument(one),
                };
                let two = Owned {
                    own: second,
                    argument: self.is_argument(two),
                };
                self.are_owners_related(one, two)
            }
            _ => true,
        }
    }
}
