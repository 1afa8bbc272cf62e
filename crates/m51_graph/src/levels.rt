//! The levels of units: how long the longest walk is that ends in each.
ghost use Rattle.std.specs.Prelude.{◌≡◌, ◌<◌, ◌≤◌, ℕ, IfOk, length, slice_index};
ghost use Rattle.m51_cells.specs.declared.limits.TheConstants.{MOST_UNITS};
ghost use Rattle.m51_module.specs.Walks.{Reaches};
ghost use Rattle.m51_graph.specs.Climbing.{AreSettled, AreWalked, IsClimbing, Lifts};
ghost use Rattle.m51_graph.specs.Graph.{LeadWithin};

use m51_cells::NoMemory;
use std::alloc::Global;

// Raises the level of the second unit above that of the first, unless it is; whether it rose.
fn lift(levels: &mut [u16], lower: u16, upper: u16) -> bool
    requires lower { lower < length levels.old }
    requires upper { upper < length levels.old }
    requires room { slice_index levels.old lower < 65535 }
    ensures { Lifts lower upper levels.old levels.new result }
{
    let level = levels[usize::from(lower)] + 1;
    let upper = usize::from(upper);
    if level <= levels[upper] {
        return false;
    }
    levels[upper] = level;
    true
}

// Raises each level that is not above that of a unit from which an edge leads to its own; whether one rose.
fn raise(edges: &[(u16, u16)], levels: &mut [u16]) -> bool
    requires within { LeadWithin (length levels.old) edges.now }
    requires units { length levels.old ≤ MOST_UNITS }
    requires no_cycle { (unit : ℕ) → Reaches edges.now unit unit → ⊥ }
    requires walked { AreWalked edges.now levels.old }
    ensures { IsClimbing edges.now edges.now levels.old levels.new result }
{
    let mut rose = false;
    for (from, to) in edges {
        if lift(levels, *from, *to) {
            rose = true;
        }
    }
    rose
}

// Raises levels, which are 0, along the edges until none rises.
fn climb(edges: &[(u16, u16)], levels: &mut [u16])
    requires within { LeadWithin (length levels.old) edges.now }
    requires units { length levels.old ≤ MOST_UNITS }
    requires no_cycle { (unit : ℕ) → Reaches edges.now unit unit → ⊥ }
    requires zero { (unit : ℕ) → unit < length levels.old → slice_index levels.old unit ≡ 0 }
    ensures len { length levels.new ≡ length levels.old }
    ensures walked { AreWalked edges.now levels.new }
    ensures settled { AreSettled edges.now levels.new }
{
    'climb: while raise(edges, levels) {}
}

// The level of each of `count` units: the number of edges of the longest walk that ends in it.
pub(crate) fn levels(
    alloc: Global,
    edges: &[(u16, u16)],
    count: usize,
) -> Result<Vec<u16>, NoMemory>
    requires within { LeadWithin count edges.now }
    requires few { count ≤ MOST_UNITS }
    requires no_cycle { (unit : ℕ) → Reaches edges.now unit unit → ⊥ }
    ensures len { IfOk result (λ levels. length levels.items ≡ count) }
    ensures walked { IfOk result (λ levels. AreWalked edges.now levels.items) }
    ensures settled { IfOk result (λ levels. AreSettled edges.now levels.items) }
{
    let mut levels = vec![in alloc; 0; count]?;
    climb(edges, &mut levels);
    Ok(levels)
}
