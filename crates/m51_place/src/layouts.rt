//! The parts of a layout: what is placed where, and whose it is.
ghost use Rattle.std.specs.Prelude.{◌≡◌, ◌<◌, ◌≤◌, ◌++◌, map, position, IfOk, IfSome, OnOk};
ghost use Rattle.std.specs.Prelude.{find, length, option_copied};
ghost use Rattle.std.specs.List.{All, range_with_len};
ghost use Rattle.m51_cells.specs.declared.limits.TheConstants.{MOST_SEGMENTS};
ghost use Rattle.m51_graph.specs.Drawing.{edge_test};
ghost use Rattle.m51_place.specs.Conflicts.{callers_of, is_argument_at, owners_at};
ghost use Rattle.m51_place.specs.Placement.{is_number, owner_pairs, pairs_with, parts_of_layout};
ghost use Rattle.m51_place.specs.Placement.{joined_base, joined_index};
ghost use Rattle.m51_place.specs.Ready.{IsNumbered};

use crate::Numbered;
use m51_cells::{ListOf, NoMemory};
use m51_graph::Graph;
use m51_module::{LayoutParts, Placed};
use std::alloc::{AllocError, Global};

// Whether the extent is the joined segment of that number.
fn is_number(number: u16, extent: &Numbered) -> bool
    ensures { result ≡ is_number number extent.now }
{
    match extent.number {
        Some(other) => number == other,
        None => false,
    }
}

// The index of the joined segment of that number among these extents.
fn first_numbered(located: &[Numbered], number: u16) -> Option<usize>
    ensures index { result ≡ position (is_number number) located.now }
    ensures inside { IfSome result (λ index. index < length located.now) }
{
    located.iter().position(|extent| is_number(number, extent))
}

// The same; 0 if none of them has that number.
#[tactic(auto, unfolding(crate::specs::Placement::joined_index))]
fn joined_index(located: &[Numbered], number: u16) -> u16
    requires { length located.now < 65536 }
    ensures { result ≡ joined_index located.now number }
{
    match first_numbered(located, number) {
        Some(index) => index as u16,
        None => 0,
    }
}

// The indices of the joined segments of these numbers.
fn places_of(alloc: Global, located: &[Numbered], numbers: &[u16]) -> Result<Vec<u16>, AllocError>
    requires { length located.now < 65536 }
    ensures { IfOk result (λ indices. indices.items ≡ map (joined_index located.now) numbers.now) }
{
    numbers
        .iter()
        .map(|number| joined_index(located, *number))
        .collect(alloc)
}

// The first of these extents that is the joined segment of that number.
fn joined_extent(located: &[Numbered], number: u16) -> Option<&Numbered>
    ensures { option_copied result ≡ find (is_number number) located.now }
{
    located.iter().find(|extent| is_number(number, extent))
}

// The base of the joined segment of that number; 0 if none of these extents has that number.
fn joined_base(located: &[Numbered], number: u16) -> u16
    ensures { result ≡ joined_base located.now number }
{
    match joined_extent(located, number) {
        Some(extent) => extent.placed.base,
        None => 0,
    }
}

// The bases of the first `count` joined segments.
pub(crate) fn joined_bases(
    alloc: Global,
    located: &[Numbered],
    count: usize,
) -> Result<Vec<u16>, NoMemory>
    requires { count ≤ MOST_SEGMENTS }
    ensures { IfOk result (λ bases. bases.items ≡ map (joined_base located.now) (range_with_len 0 count)) }
{
    let mut bases = Vec::new(alloc);
    for number in 0..count {
        bases.push(joined_base(located, number as u16))?;
    }
    Ok(bases)
}

// The extents only.
fn placed_of(alloc: Global, located: &[Numbered]) -> Result<Vec<Placed>, AllocError>
    ensures { IfOk result (λ placed. placed.items ≡ map (λ e. e.placed) located.now) }
{
    located.iter().map(|extent| extent.placed).collect(alloc)
}

// Whether the joined segment is an argument segment.
fn is_argument(graph: &Graph, number: u16) -> bool
    requires { number < length graph.now.own }
    ensures { result ≡ is_argument_at graph.now number }
{
    let parts = graph.parts();
    parts.arguments.as_slice()[usize::from(number)]
}

// Whether an edge leads from the one unit to the other.
fn is_caller(graph: &Graph, caller: u16, unit: u16) -> bool
    requires caller { caller < length graph.now.units }
    requires unit { unit < length graph.now.units }
    ensures { result ≡ edge_test graph.now.edges caller unit }
{
    graph.edge(caller, unit)
}

// Adds the extent of that index with each unit that has an edge to the unit, ascending.
#[tactic(auto, unfolding(crate::specs::Conflicts::callers_of))]
fn add_callers(
    pairs: &mut Vec<(u16, u16)>,
    graph: &Graph,
    index: u16,
    unit: u16,
) -> Result<(), NoMemory>
    requires { unit < length graph.now.units }
    ensures { OnOk result (pairs.new.items ≡ pairs.old.items ++ pairs_with index (callers_of graph.now unit)) }
{
    for caller in 0..graph.parts().units.len() {
        if is_caller(graph, caller as u16, unit) {
            pairs.push((index, caller as u16))?;
        }
    }
    Ok(())
}

// Adds the extent of that index with each owner of the joined segment of that number.
fn add_owners(
    pairs: &mut Vec<(u16, u16)>,
    graph: &Graph,
    index: u16,
    number: u16,
) -> Result<(), NoMemory>
    requires { number < length graph.now.own }
    ensures { OnOk result (pairs.new.items ≡ pairs.old.items ++ pairs_with index (owners_at graph.now number)) }
{
    if let Some(own) = graph.owner(number) {
        pairs.push((index, own))?;
        if is_argument(graph, number) {
            add_callers(pairs, graph, index, own)?;
        }
    }
    Ok(())
}

// Each overlaid one of these extents, with its owners.
fn owner_pairs(
    alloc: Global,
    graph: &Graph,
    located: &[Numbered],
) -> Result<Vec<(u16, u16)>, NoMemory>
    requires few { length located.now < 65536 }
    requires numbered { All (IsNumbered graph.now) located.now }
    ensures { IfOk result (λ pairs. pairs.items ≡ owner_pairs graph.now 0 located.now) }
{
    let mut pairs = Vec::new(alloc);
    for (index, extent) in located.iter().enumerate() {
        if let Some(number) = extent.number {
            add_owners(&mut pairs, graph, index as u16, number)?;
        }
    }
    Ok(pairs)
}

// The parts of the layout of what was placed.
pub(crate) fn parts_of_layout(
    alloc: Global,
    graph: &Graph,
    located: &[Numbered],
) -> Result<LayoutParts, NoMemory>
    requires few { length located.now < 65536 }
    requires numbered { All (IsNumbered graph.now) located.now }
    ensures { IfOk result (λ parts. parts ≡ parts_of_layout graph.now located.now) }
{
    let parts = graph.parts();
    let placed = placed_of(alloc, located)?;
    let units = places_of(alloc, located, parts.units.as_slice())?;
    let edges = parts.edges.as_slice().to_vec(alloc)?;
    let owners = owner_pairs(alloc, graph, located)?;
    Ok(LayoutParts {
        placed: ListOf::of(placed),
        units: ListOf::of(units),
        edges: ListOf::of(edges),
        owners: ListOf::of(owners),
    })
}
