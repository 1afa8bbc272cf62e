//! The rules on edges and roots that a graph must meet.
ghost use Rattle.std.specs.Prelude.{◌≡◌, ◌<◌, ◌≤◌, IfOk, false, length, nat_eq};
ghost use Rattle.std.specs.List.{list_any};
ghost use Rattle.std.specs.Option.{option_map_or};
ghost use Rattle.m51_cells.specs.declared.limits.TheConstants.{MOST_UNITS};
ghost use Rattle.m51_cells.specs.Outcome.{Gives};
ghost use Rattle.m51_resolve.specs.Rules.{but_memory};
ghost use Rattle.m51_relations.specs.Rows.{pairs};
ghost use Rattle.m51_graph.specs.Graph.{AreOfUnits};
ghost use Rattle.m51_graph.specs.Graphs.{cyclic_from, first_under_two, has_overlaid, judged, judged_by, passed};
ghost use Rattle.m51_graph.specs.Graphs.{under_two, unit_under_two};
ghost use Rattle.m51_graph.specs.Leading.{leads};

use crate::graphs::Graph;
use crate::parts::GraphParts;
use crate::reaching::reach_rows;
use crate::relating::roots_above;
use m51_cells::{ListOf, Name, NoMemory};
use m51_module::Refusal;
use m51_relations::BitRows;
use std::alloc::Global;

// Whether there is a root at 0000H.
fn has_reset(roots: &[(u16, u16)]) -> bool
    ensures { result ≡ list_any (λ root. nat_eq root.0 0) roots.now }
{
    roots.iter().any(|root| root.0 == 0)
}

// Whether this own unit is the unit.
fn is_own(own: Option<u16>, unit: u16) -> bool
    ensures { result ≡ option_map_or (nat_eq unit) own false }
{
    match own {
        Some(other) => unit == other,
        None => false,
    }
}

// Whether the unit has an overlaid local or argument segment.
fn has_overlaid(own: &[Option<u16>], unit: u16) -> bool
    ensures { result ≡ has_overlaid own.now unit }
{
    own.iter().any(|found| is_own(*found, unit))
}

// The titles of the units that reach themselves.
fn cyclic_titles(alloc: Global, titles: &[Name], reach: &BitRows) -> Result<Vec<Name>, NoMemory>
    requires { length titles.now ≤ MOST_UNITS }
    ensures { IfOk result (λ cyclic. cyclic.items ≡ cyclic_from (pairs reach.now) 0 titles.now) }
{
    let mut cyclic = Vec::new(alloc);
    for (unit, title) in titles.iter().enumerate() {
        if reach.has(unit as u16, unit as u16) {
            cyclic.push(*title)?;
        }
    }
    Ok(cyclic)
}

// Refuses a unit that lies under two roots.
fn check_above(title: &Name, above: &[u16]) -> Result<(), Refusal>
    ensures { result ≡ passed (under_two title.now above.now) }
{
    match above {
        [one, two, ..] => Err(Refusal::L11 {
            unit: *title,
            one: Name::at(*one),
            two: Name::at(*two),
        }),
        _ => Ok(()),
    }
}

// Refuses a unit that has an overlaid local or argument segment and lies under two roots.
fn check_unit(
    alloc: Global,
    parts: &GraphParts,
    reach: &BitRows,
    unit: u16,
    title: &Name,
) -> Result<(), Refusal>
    ensures { Gives (λ u. u) but_memory result
        (passed (unit_under_two (pairs reach.now) parts.now.roots parts.now.own unit title.now)) }
{
    if !has_overlaid(parts.own.as_slice(), unit) {
        return Ok(());
    }
    let above = roots_above(alloc, reach, parts.roots.as_slice(), unit)?;
    check_above(title, &above)
}

// Refuses the first unit that has an overlaid local or argument segment and lies under two roots.
fn check_units(
    alloc: Global,
    parts: &GraphParts,
    reach: &BitRows,
    titles: &[Name],
) -> Result<(), Refusal>
    requires { length titles.now ≤ MOST_UNITS }
    ensures { Gives (λ u. u) but_memory result
        (passed (first_under_two (pairs reach.now) parts.now.roots parts.now.own 0 titles.now)) }
{
    for (unit, title) in titles.iter().enumerate() {
        check_unit(alloc, parts, reach, unit as u16, title)?;
    }
    Ok(())
}

// The graph of these parts, from the pairs of units that walks join, or the refusal of the first rule that fails.
fn judge_by(
    alloc: Global,
    titles: &[Name],
    parts: GraphParts,
    reach: BitRows,
) -> Result<Graph, Refusal>
    requires units { AreOfUnits parts }
    requires titles { length titles.now ≡ length parts.units }
    requires count { reach.count ≡ length parts.units }
    requires reach { pairs reach ≡ leads parts.edges }
    ensures { Gives (λ g. g) but_memory result (judged_by (pairs reach) titles.now parts) }
{
    if !has_reset(parts.roots.as_slice()) {
        return Err(Refusal::L8);
    }
    let cyclic = cyclic_titles(alloc, titles, &reach)?;
    if !cyclic.is_empty() {
        return Err(Refusal::L10 {
            units: ListOf::of(cyclic),
        });
    }
    check_units(alloc, &parts, &reach, titles)?;
    Ok(Graph::make(alloc, parts, reach)?)
}

// The graph of these parts; or L8 where there is no root at 0000H, L10 with the units that reach themselves, L11 with
// the first unit that has an overlaid local or argument segment and lies under two roots.
pub(crate) fn judge(alloc: Global, titles: &[Name], parts: GraphParts) -> Result<Graph, Refusal>
    requires units { AreOfUnits parts }
    requires titles { length titles.now ≡ length parts.units }
    ensures { Gives (λ g. g) but_memory result (judged titles.now parts) }
{
    let reach = reach_rows(alloc, parts.edges.as_slice(), parts.units.len())?;
    judge_by(alloc, titles, parts, reach)
}
