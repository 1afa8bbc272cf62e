//! The heaviest chains of a layout.
ghost use Rattle.std.specs.Prelude.{◌≡◌, ◌==◌, ◌+◌, ◌<◌, ◌≤◌, ◌↔◌, IfOk, IsTrue, Some, length, slice_index};
ghost use Rattle.m51_module.specs.Chains.{AreHeaviest, ChainsAt, IsHeaviest, is_first, is_overlaid_data, weight_of};
ghost use Rattle.m51_module.specs.Sound.{IsSound};
ghost use Rattle.m51_place.specs.Heaviest.{AreBest, AreReached, AreWeights, HasRoom, IsHeaviestFrom, IsNextAmong};
ghost use Rattle.m51_place.specs.Heaviest.{IsRising, LeadsOn, Lifts, Steps, lesser};

use m51_cells::{Kind, ListOf, NoMemory, Reloc, cite};
use m51_module::{Chain, Layout, Mark, Placed};
use std::alloc::Global;

// Whether the extent is overlaid DATA of type UNIT.
fn is_overlaid_data(placed: &Placed) -> bool
    ensures { result ≡ is_overlaid_data placed.now.kind placed.now.reloc placed.now.mark }
{
    match (placed.kind, placed.reloc, placed.mark) {
        (Kind::Direct, Reloc::Unit, Mark::Overlaid) => true,
        _ => false,
    }
}

// Whether the unit is the first of these.
fn is_first(unit: u16, owners: &[u16]) -> bool
    ensures { result ≡ is_first unit owners.now }
{
    match owners {
        [own, ..] => unit == *own,
        [] => false,
    }
}

// The bytes of overlaid DATA whose own unit is this one.
fn weight_of(layout: &Layout, unit: u16) -> u32
    ensures { result ≡ weight_of layout.now unit }
{
    let mut bytes = 0;
    for (number, placed) in layout.placed().iter().enumerate() {
        if is_overlaid_data(placed) && is_first(unit, layout.owners(number as u16)) {
            bytes += u32::from(placed.size);
        }
    }
    bytes
}

// The bytes of each unit.
fn weights(alloc: Global, layout: &Layout) -> Result<Vec<u32>, NoMemory>
    ensures { IfOk result (λ weights. AreWeights layout.now weights.items) }
{
    let mut weights = Vec::new(alloc);
    for unit in 0..layout.units().len() {
        weights.push(weight_of(layout, unit as u16))?;
    }
    Ok(weights)
}

// Raises the number of the first unit to that of the walk along the edge to the second, unless it has as many; whether
// it rose.
fn lift(layout: &Layout, weights: &[u32], best: &mut [u32], from: u16, to: u16) -> bool
    requires { HasRoom layout.now weights.now best.old from to }
    ensures { Lifts layout.now from to best.old best.new result }
{
    let from = usize::from(from);
    let bytes = weights[from] + best[usize::from(to)];
    if bytes <= best[from] {
        return false;
    }
    best[from] = bytes;
    true
}

// Raises each number along each edge; whether one rose.
fn raise(layout: &Layout, weights: &[u32], best: &mut [u32]) -> bool
    requires sound { IsSound layout.now }
    requires weights { AreWeights layout.now weights.now }
    requires reached { AreReached layout.now best.old }
    ensures { IsRising layout.now layout.now.edges best.old best.new result }
{
    let mut rose = false;
    for (from, to) in layout.edges() {
        if lift(layout, weights, best, *from, *to) {
            rose = true;
        }
    }
    rose
}

// Raises the numbers as far as they go.
fn raise_all(layout: &Layout, weights: &[u32], best: &mut [u32])
    requires sound { IsSound layout.now }
    requires weights { AreWeights layout.now weights.now }
    requires reached { AreReached layout.now best.old }
    ensures { AreBest layout.now best.new }
{
    'climb: while raise(layout, weights, best) {}
}

// The bytes of the heaviest walk from each unit.
fn best_of(alloc: Global, layout: &Layout, weights: &[u32]) -> Result<Vec<u32>, NoMemory>
    requires sound { IsSound layout.now }
    requires weights { AreWeights layout.now weights.now }
    ensures { IfOk result (λ best. AreBest layout.now best.items) }
{
    let mut best = weights.to_vec(alloc)?;
    raise_all(layout, weights, &mut best);
    Ok(best)
}

// Whether the edge leads from the unit to one whose heaviest walk has, with the bytes of the unit, as many bytes as
// that from the unit.
fn leads_on(weights: &[u32], best: &[u32], unit: u16, edge: (u16, u16)) -> bool
    requires weight { unit < length weights.now }
    requires unit { unit < length best.now }
    requires to { edge.1 < length best.now }
    requires room { slice_index weights.now unit + slice_index best.now edge.1 ≤ 65535 }
    ensures { IsTrue result ↔ LeadsOn weights.now best.now unit edge }
{
    let unit = usize::from(unit);
    usize::from(edge.0) == unit && weights[unit] + best[usize::from(edge.1)] == best[unit]
}

// The lesser of a unit and the one that was found.
fn lesser(found: Option<u16>, unit: u16) -> Option<u16>
    ensures { result ≡ Some (lesser found unit) }
{
    match found {
        Some(other) if other < unit => Some(other),
        _ => Some(unit),
    }
}

// The least unit to which an edge leads from this one that passes `leads_on`; `None` if no edge does.
fn least_on(layout: &Layout, weights: &[u32], best: &[u32], unit: u16) -> Option<u16>
    requires sound { IsSound layout.now }
    requires weights { AreWeights layout.now weights.now }
    requires best { AreBest layout.now best.now }
    requires unit { unit < length layout.now.units }
    ensures { IsNextAmong layout.now layout.now.edges best.now unit result }
{
    let mut found = None;
    for edge in layout.edges() {
        if leads_on(weights, best, unit, *edge) {
            found = lesser(found, edge.1);
        }
    }
    found
}

// The next unit of the heaviest walk from this one; `None` where the walk ends here.
fn step(layout: &Layout, weights: &[u32], best: &[u32], unit: u16) -> Option<u16>
    requires sound { IsSound layout.now }
    requires weights { AreWeights layout.now weights.now }
    requires best { AreBest layout.now best.now }
    requires unit { unit < length layout.now.units }
    ensures { Steps layout.now best.now unit result }
{
    if best[usize::from(unit)] == weights[usize::from(unit)] {
        return None;
    }
    least_on(layout, weights, best, unit)
}

// The units of the heaviest walk from the root.
fn units_from(
    alloc: Global,
    layout: &Layout,
    weights: &[u32],
    best: &[u32],
    root: u16,
) -> Result<Vec<u16>, NoMemory>
    requires sound { IsSound layout.now }
    requires weights { AreWeights layout.now weights.now }
    requires best { AreBest layout.now best.now }
    requires root { root < length layout.now.units }
    ensures { IfOk result (λ units. IsHeaviestFrom layout.now best.now root units.items) }
{
    let mut units = vec![in alloc; root]?;
    let mut unit = root;
    while let Some(next) = step(layout, weights, best, unit) {
        units.push(next)?;
        unit = next;
    }
    Ok(units)
}

// The heaviest chain of the root.
fn chain_of(
    alloc: Global,
    layout: &Layout,
    weights: &[u32],
    best: &[u32],
    root: u16,
) -> Result<Chain, NoMemory>
    requires sound { IsSound layout.now }
    requires weights { AreWeights layout.now weights.now }
    requires best { AreBest layout.now best.now }
    requires root { root < length layout.now.units }
    ensures heaviest { IfOk result (λ chain. IsHeaviest layout.now chain) }
    ensures root { IfOk result (λ chain. chain.root ≡ root) }
{
    let units = units_from(alloc, layout, weights, best, root)?;
    Ok(Chain {
        root,
        bytes: best[usize::from(root)],
        units: ListOf::of(units),
    })
}

// The heaviest chains of the roots at these addresses.
fn chains_at(
    alloc: Global,
    layout: &Layout,
    weights: &[u32],
    best: &[u32],
    addresses: &[u16],
) -> Result<Vec<Chain>, NoMemory>
    requires sound { IsSound layout.now }
    requires weights { AreWeights layout.now weights.now }
    requires best { AreBest layout.now best.now }
    ensures { IfOk result (λ chains. ChainsAt layout.now addresses.now chains.items) }
{
    let mut chains = Vec::new(alloc);
    for address in addresses {
        match layout.root(*address) {
            Some(root) => chains.push(chain_of(alloc, layout, weights, best, root)?)?,
            None => {}
        }
    }
    Ok(chains)
}

/// For each root, by its address, the walk from it with the most bytes of overlaid DATA of type UNIT; of walks with as
/// many the one that comes first by the numbers of its units, a prefix before what it begins. It keeps one number for
/// each unit. The chains are in the order of their roots' addresses; units are counted from 0. Error: out of memory.
///
/// Source: own choice ("Heaviest chains").
pub fn heaviest(alloc: Global, layout: &Layout) -> Result<Vec<Chain>, NoMemory>
    ensures { IfOk result (λ chains. AreHeaviest layout.now chains.items) }
{
    // For the proof only: reading the units exposes the layout's invariant.
    cite(layout.units());
    let weights = weights(alloc, layout)?;
    let best = best_of(alloc, layout, &weights)?;
    chains_at(
        alloc,
        layout,
        &weights,
        &best,
        &[0x00, 0x03, 0x0B, 0x13, 0x1B, 0x23, 0x2B],
    )
}
