//! Sound layouts.
ghost use Rattle.std.specs.Prelude.{◌≡◌, ◌<◌, ◌≤◌, ◌↔◌, ℕ, IsTrue, IfOk, IfSome, Some, [], length};
ghost use Rattle.std.specs.List.{Contains};
ghost use Rattle.m51_module.specs.Roots.{vectors};
ghost use Rattle.m51_module.specs.Walks.{HasEdge, has_edge};
ghost use Rattle.m51_module.specs.Plan.{owners_of, AreLocals, IsOverlaid, IsRootAt, IsUnitAt};
ghost use Rattle.m51_module.specs.Sound.{IsSound};

use crate::rows::{local_rows, owner_rows};
use crate::tables::{Bits, edge_rows, unit_of, units_at};
use crate::{LayoutParts, Mark, Placed, Units};
use m51_cells::{NoMemory, cite};
use std::alloc::Global;
use std::marker::Model;

/// Where the reset and the six interrupts begin, ascending.
///
/// Source: family manual.
pub const VECTORS: [u16; 7] = [0x00, 0x03, 0x0B, 0x13, 0x1B, 0x23, 0x2B];

/// A sound layout, which contracts see as its parts.
///
/// Source: own choice ("Layouts").
#[derive(Drop)]
pub struct Layout {
    parts: LayoutParts,
    owner_rows: Vec<Units>,
    local_rows: Vec<Units>,
    edge_rows: Vec<Bits>,
    units_at: Vec<Option<u16>>,
}

impl Model for Layout {
    ghost use Rattle.m51_module.specs.declared.parts.LayoutParts.{LayoutParts};
    ghost use Rattle.m51_module.specs.Kept.{IsKept};

    ghost Value = { LayoutParts };

    ghost view = { λ l. l.parts };

    ghost invariant = { λ l. IsKept l.parts l.owner_rows.items l.local_rows.items l.edge_rows.items l.units_at.items };
}

// Whether the reset or an interrupt begins at this address.
fn is_vector(address: u16) -> bool
    ensures { IsTrue result ↔ Contains vectors address }
{
    VECTORS.contains(&address)
}

impl Layout {
    /// The layout of these parts, which must be sound. Out of memory is the only error.
    ///
    /// Source: own choice ("Layouts").
    pub fn make(alloc: Global, parts: LayoutParts) -> Result<Layout, NoMemory>
        requires { IsSound parts }
        ensures { IfOk result (λ layout. layout ≡ parts) }
    {
        let owner_rows = owner_rows(alloc, parts.owners.as_slice(), parts.placed.len())?;
        let local_rows = local_rows(alloc, &owner_rows, parts.units.len())?;
        let edge_rows = edge_rows(alloc, parts.edges.as_slice(), parts.units.len())?;
        let units_at = units_at(alloc, &parts)?;
        Ok(Layout {
            parts,
            owner_rows,
            local_rows,
            edge_rows,
            units_at,
        })
    }

    /// The placed extents in order of placing.
    ///
    /// Source: own choice ("Layouts").
    pub fn placed(&self) -> &[Placed]
        ensures list { result.now ≡ self.now.placed }
        ensures sound { IsSound self.now }
    {
        self.parts.placed.as_slice()
    }

    /// For each unit its index among the placed extents.
    ///
    /// Source: own choice ("Layouts").
    pub fn units(&self) -> &[u16]
        ensures list { result.now ≡ self.now.units }
        ensures sound { IsSound self.now }
    {
        self.parts.units.as_slice()
    }

    /// The edges: for each the unit that it leaves and the unit that it leads to.
    ///
    /// Source: own choice ("Edges").
    pub fn edges(&self) -> &[(u16, u16)]
        ensures list { result.now ≡ self.now.edges }
        ensures sound { IsSound self.now }
    {
        self.parts.edges.as_slice()
    }

    /// Whether an edge leads from the first unit to the second. Units are counted from 0, and both must be below the
    /// number of units.
    ///
    /// Source: own choice ("Edges").
    pub fn edge(&self, from: u16, to: u16) -> bool
        requires from { from < length self.now.units }
        requires to { to < length self.now.units }
        ensures leads { IsTrue result ↔ HasEdge self.now.edges from to }
        ensures test { result ≡ has_edge self.now.edges from to }
    {
        self.leads(from, to)
    }

    // Whether the row of the first unit has the bit of the second.
    fn leads(&self, from: u16, to: u16) -> bool
        requires from { from < length self.now.units }
        requires to { to < length self.now.units }
        ensures { IsTrue result ↔ HasEdge self.now.edges from to }
    {
        self.edge_rows[usize::from(from)].is_set(usize::from(to))
    }

    /// The unit that covers the address, if one does.
    ///
    /// Source: own choice ("Units").
    pub fn unit_at(&self, address: u16) -> Option<u16>
        ensures some { IfSome result (λ unit. IsUnitAt self.now address unit) }
        ensures only { (unit : ℕ) → IsUnitAt self.now address unit → result ≡ Some unit }
    {
        self.units_at[usize::from(address)]
    }

    // Whether the unit is the root at this vector.
    #[tactic(auto, using(crate::proofs::Units::root_from_parts, crate::proofs::Units::parts_from_root))]
    fn is_root(&self, unit: usize, vector: u16) -> bool
        requires { unit < length self.now.units }
        ensures { IsTrue result ↔ IsRootAt self.now vector unit }
    {
        let placed = unit_of(&self.parts, unit);
        is_vector(vector) && placed.mark == Mark::Absolute && placed.base == vector
    }

    // The unit that covers the vector, if it is the root there.
    fn if_root(&self, unit: u16, vector: u16) -> Option<u16>
        requires sound { IsSound self.now }
        requires at { IsUnitAt self.now vector unit }
        ensures some { IfSome result (λ unit. IsRootAt self.now vector unit) }
        ensures only { (unit : ℕ) → IsRootAt self.now vector unit → result ≡ Some unit }
    {
        if self.is_root(usize::from(unit), vector) {
            return Some(unit);
        }
        None
    }

    /// The unit that is the root at this vector, if there is one: an absolute segment of program memory that begins
    /// there. No root is at another address than the vectors of the reset and of the six interrupts.
    ///
    /// Source: own choice ("Roots").
    pub fn root(&self, vector: u16) -> Option<u16>
        ensures some { IfSome result (λ unit. IsRootAt self.now vector unit) }
        ensures only { (unit : ℕ) → IsRootAt self.now vector unit → result ≡ Some unit }
    {
        cite(self.units());
        match self.unit_at(vector) {
            Some(unit) => self.if_root(unit, vector),
            None => None,
        }
    }

    /// The units that own the extent: its own unit first, then the others, ascending; none unless it is overlaid.
    /// Extents are counted from 0 in the order of placing, and this one must be below the number of placed extents.
    ///
    /// Source: own choice ("Owners").
    pub fn owners(&self, segment: u16) -> &[u16]
        requires { segment < length self.now.placed }
        ensures list { result.now ≡ owners_of self.now.owners segment }
        ensures plain { (IsOverlaid self.now segment → ⊥) → result.now ≡ [] }
    {
        self.owner_rows[usize::from(segment)].as_slice()
    }

    /// The overlaid segments that the unit owns, ascending, each by its index among the placed extents. The unit must
    /// be below the number of units.
    ///
    /// Source: own choice ("Owners").
    pub fn locals(&self, unit: u16) -> &[u16]
        requires { unit < length self.now.units }
        ensures { AreLocals self.now unit result.now }
    {
        self.local_rows[usize::from(unit)].as_slice()
    }
}
