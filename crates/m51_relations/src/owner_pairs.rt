//! Which owners of segments are related: units that may be active together.
ghost use Rattle.std.specs.Prelude.{◌≡◌, ◌≢◌, ◌<◌, ℕ, false, IfOk};
ghost use Rattle.m51_relations.specs.Rows.{flipped, pairs};
ghost use Rattle.m51_relations.specs.OwnerPairs.{AreOwnerPairs, AreRelatedPairs, are_apart, owner_pair, related_by};

use crate::bit_rows::BitRows;
use crate::indexing::item_or;
use m51_cells::NoMemory;
use std::alloc::Global;

/// The own unit of an overlaid segment, and whether it is an argument segment.
///
/// Source: own choice ("Conflicts").
#[derive(Clone, Copy)]
pub struct Owned {
    /// The own unit.
    pub own: u16,
    /// Whether it is an argument segment.
    pub argument: bool,
}

/// The pairs of own units of two segments of which an owner of the one is related to an owner of the other: a set for
/// two that are no argument segments, one where the first is one, one where the second is, and one where both are.
///
/// Source: own choice ("Conflicts").
#[derive(Drop)]
pub struct OwnerPairs {
    /// Neither is an argument segment.
    pub plain: BitRows,
    /// The first is one.
    pub first: BitRows,
    /// The second is one.
    pub second: BitRows,
    /// Both are.
    pub both: BitRows,
}

// Whether one of the units lies under no root, or they lie under different ones: each lies under at most one.
fn are_apart(one: u8, two: u8) -> bool
    ensures { result ≡ are_apart one two }
{
    two == 0 || one != two
}

// Whether the two units may be active together, each of which lies under at most one root.
fn are_related(reach: &BitRows, under: &[u8], one: u16, two: u16) -> bool
    ensures { result ≡ related_by (pairs reach.now) under.now one two }
{
    let first = item_or(under, usize::from(one), 0);
    let second = item_or(under, usize::from(two), 0);
    one == two || reach.has(one, two) || reach.has(two, one) || are_apart(first, second)
}

// Puts the pairs of the unit and those that are related to it into the set, which has no pair of it.
fn put_related(set: &mut BitRows, reach: &BitRows, under: &[u8], unit: u16)
    requires unit { unit < set.old.count }
    requires free { (v : ℕ) → pairs set.old unit v ≡ false }
    ensures count { set.new.count ≡ set.old.count }
    ensures others { (u v : ℕ) → u ≢ unit → pairs set.new u v ≡ pairs set.old u v }
    ensures done { (v : ℕ) → v < set.old.count → pairs set.new unit v
        ≡ related_by (pairs reach.now) under.now v unit }
{
    for other in 0..set.count() {
        set.put_if(unit, other, are_related(reach, under, other, unit));
    }
}

// The pairs of related units.
fn related_pairs(alloc: Global, reach: &BitRows, under: &[u8]) -> Result<BitRows, NoMemory>
    ensures { IfOk result (λ set. AreRelatedPairs (pairs reach.now) under.now reach.now.count set) }
{
    let mut set = BitRows::none(alloc, usize::from(reach.count()))?;
    for unit in 0..reach.count() {
        put_related(&mut set, reach, under, unit);
    }
    Ok(set)
}

impl OwnerPairs {
    /// The pairs of which owners are related, from the pairs that edges join, the same pairs reversed, those that walks
    /// join, and the roots above each unit. The sets of edges and of walks have the same number of units. Error: out of
    /// memory.
    ///
    /// Source: own choice ("Conflicts").
    pub fn make(
        alloc: Global,
        edges: &BitRows,
        callers: &BitRows,
        reach: &BitRows,
        under: &[u8],
    ) -> Result<OwnerPairs, NoMemory>
        requires count { edges.now.count ≡ reach.now.count }
        requires callers { pairs callers.now ≡ flipped (pairs edges.now) }
        ensures { IfOk result (λ made.
            AreOwnerPairs (pairs edges.now) (pairs reach.now) under.now reach.now.count made) }
    {
        let plain = related_pairs(alloc, reach, under)?;
        let first = plain.passed(alloc, callers, &plain)?;
        let second = plain.passed(alloc, &plain, edges)?;
        let both = second.passed(alloc, callers, &second)?;
        Ok(OwnerPairs {
            plain,
            first,
            second,
            both,
        })
    }

    /// Whether an owner of the one segment is related to an owner of the other.
    ///
    /// Source: own choice ("Conflicts").
    pub fn are_related(&self, one: Owned, two: Owned) -> bool
        ensures { result ≡ owner_pair self.now one.argument two.argument one.own two.own }
    {
        match (one.argument, two.argument) {
            (false, false) => self.plain.has(one.own, two.own),
            (true, false) => self.first.has(one.own, two.own),
            (false, true) => self.second.has(one.own, two.own),
            (true, true) => self.both.has(one.own, two.own),
        }
    }
}
