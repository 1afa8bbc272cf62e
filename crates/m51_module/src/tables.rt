//! The tables that a layout keeps for a run: which edges there are, and which unit is at each address.
ghost use Rattle.std.specs.Prelude.{◌≡◌, ◌<◌, ◌≤◌, ◌+◌, true, false, [], length, replicate, slice_set, slice_index_or};
ghost use Rattle.std.specs.Prelude.{IfOk};
ghost use Rattle.m51_cells.specs.declared.kind.Kind.TheVariants.{Code};
ghost use Rattle.m51_module.specs.Kept.{AreEdgeRows, AreUnitsAt, AreClear, LeadsWithin, IsEmptyTable, IsEntered};
ghost use Rattle.m51_module.specs.Plan.{IsUnit};
ghost use Rattle.m51_module.specs.Sound.{IsSound};

use crate::{IMAGE_LEN, LayoutParts, Placed};
use m51_cells::NoMemory;
use std::alloc::{AllocError, Global};
use std::marker::Model;

/// A row of bits, which contracts see as their list.
#[derive(Drop)]
pub(crate) struct Bits {
    bits: Vec<bool>,
}

impl Model for Bits {
    ghost use Rattle.std.specs.Prelude.{Bool, List};

    ghost Value = { List Bool };

    ghost view = { λ row. row.bits.items };
}

impl Bits {
    // `count` bits, none of them set.
    fn clear(alloc: Global, count: usize) -> Result<Bits, NoMemory>
        ensures { IfOk result (λ row. row ≡ replicate count false) }
    {
        let bits = vec![in alloc; false; count]?;
        Ok(Bits { bits })
    }

    // Sets a bit.
    fn set(&mut self, index: usize)
        requires { index < length self.old }
        ensures { self.new ≡ slice_set self.old index true }
    {
        self.bits[index] = true;
    }

    /// Whether the bit is set.
    pub(crate) fn is_set(&self, index: usize) -> bool
        requires { index < length self.now }
        ensures { result ≡ slice_index_or self.now index false }
    {
        self.bits[index]
    }
}

// `count` rows of `count` bits each, none of them set.
#[tactic(auto, using(crate::proofs::KeptTables::clear_more))]
fn clear_rows(alloc: Global, count: usize) -> Result<Vec<Bits>, NoMemory>
    ensures { IfOk result (λ rows. AreClear count count rows.items) }
{
    let mut rows = Vec::new(alloc);
    for _ in 0..count {
        rows.push(Bits::clear(alloc, count)?)?;
    }
    Ok(rows)
}

// Sets the bit at that index of the row at that index.
fn set_edge(rows: &mut Vec<Bits>, from: usize, to: usize)
    requires row { from < length rows.old.items }
    requires bit { to < length (slice_index_or rows.old.items from []) }
    ensures { rows.new.items
        ≡ slice_set rows.old.items from (slice_set (slice_index_or rows.old.items from []) to true) }
{
    rows[from].set(to);
}

/// For each of `count` units a row of bits, one for each unit: whether an edge leads from the first to the second.
pub(crate) fn edge_rows(
    alloc: Global,
    edges: &[(u16, u16)],
    count: usize,
) -> Result<Vec<Bits>, NoMemory>
    requires { LeadsWithin count edges.now }
    ensures { IfOk result (λ rows. AreEdgeRows edges.now count rows.items) }
{
    let mut rows = clear_rows(alloc, count)?;
    for edge in edges {
        set_edge(&mut rows, usize::from(edge.0), usize::from(edge.1));
    }
    Ok(rows)
}

/// The placed extent that a unit is.
#[tactic(auto, using(crate::proofs::Units::unit_place, crate::proofs::Units::unit_at_place))]
pub(crate) fn unit_of(parts: &LayoutParts, unit: usize) -> &Placed
    requires sound { IsSound parts.now }
    requires unit { unit < length parts.now.units }
    ensures unit { IsUnit parts.now unit result.now }
    ensures code { result.now.kind ≡ Code }
{
    &parts.placed.as_slice()[usize::from(parts.units.as_slice()[unit])]
}

// A table of `count` addresses, none of them with a unit.
#[tactic(auto, using(crate::proofs::KeptTables::empty_table))]
fn no_units(alloc: Global, count: usize) -> Result<Vec<Option<u16>>, AllocError>
    ensures { IfOk result (λ units. IsEmptyTable count units.items) }
{
    vec![in alloc; None; count]
}

// Enters the unit at each of `size` addresses from the base.
fn enter(units_at: &mut Vec<Option<u16>>, base: usize, size: usize, unit: u16)
    requires { base + size ≤ length units_at.old.items }
    ensures { IsEntered base size unit units_at.old.items units_at.new.items }
{
    for address in base..base + size {
        units_at[address] = Some(unit);
    }
}

/// For each address the unit that covers it, if one does.
pub(crate) fn units_at(alloc: Global, parts: &LayoutParts) -> Result<Vec<Option<u16>>, NoMemory>
    requires { IsSound parts.now }
    ensures { IfOk result (λ units. AreUnitsAt parts.now (length parts.now.units) units.items) }
{
    let mut units_at = no_units(alloc, IMAGE_LEN)?;
    for unit in 0..parts.units.len() {
        let placed = unit_of(parts, unit);
        enter(
            &mut units_at,
            usize::from(placed.base),
            usize::from(placed.size),
            unit as u16,
        );
    }
    Ok(units_at)
}
