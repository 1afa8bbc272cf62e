//! The units of a generated program, by draws.
ghost use Rattle.std.specs.Prelude.{◌≡◌, ◌<◌, ◌≤◌, ◌+◌, ◌++◌, IfOk, OnOk, length};
ghost use Rattle.m51_generator.specs.Draws.{next_seed, draw, depth_of, seed_of_parent, drawn_parent, parent_of};
ghost use Rattle.m51_generator.specs.Draws.{child_of, with_unit, drawn};

use crate::unit::{Depth, DrawnUnit};
use m51_cells::NoMemory;
use std::alloc::Global;

// The depth of the deepest unit.
const DEEPEST: u8 = 8;

// The seed after a draw.
fn next_seed(seed: u32) -> u32
    ensures { result ≡ next_seed seed }
{
    ((1_664_525 * u64::from(seed) + 1_013_904_223) % 4_294_967_296) as u32
}

// A number below `many`, by this seed.
fn draw(many: usize, seed: u32) -> usize
    requires { 0 < many }
    ensures { result ≡ draw many seed }
{
    (seed / 65536) as usize % many
}

// The depth of the unit of this number, and 0 for the loop of MAIN.
fn depth_of(units: &[DrawnUnit], number: usize) -> u8
    ensures value { result ≡ depth_of units.now number }
    ensures within { result ≤ 8 }
{
    if number == 0 {
        return 0;
    }
    match units.get(number - 1) {
        Some(unit) => unit.depth.number(),
        None => 0,
    }
}

// The seed by which the parent of the unit of this number is drawn: the first needs no draw.
fn seed_of_parent(number: usize, seed: u32) -> u32
    ensures { result ≡ seed_of_parent number seed }
{
    if number == 1 { seed } else { next_seed(seed) }
}

// The parent that is drawn for the unit of this number.
fn drawn_parent(number: usize, seed: u32) -> usize
    requires { 0 < number }
    ensures { result ≡ drawn_parent number seed }
{
    if number == 1 { 0 } else { draw(number, seed) }
}

// The parent, where it is not too deep; else the loop of MAIN.
fn parent_of(units: &[DrawnUnit], drawn: usize) -> usize
    ensures value { result ≡ parent_of units.now drawn }
    ensures shallow { depth_of units.now result < 8 }
{
    if depth_of(units, drawn) == DEEPEST {
        0
    } else {
        drawn
    }
}

// The unit with this parent.
fn child_of(units: &[DrawnUnit], parent: usize, seed: u32) -> DrawnUnit
    requires { depth_of units.now parent < 8 }
    ensures { result ≡ child_of units.now parent seed }
{
    DrawnUnit {
        parent,
        depth: Depth::of(depth_of(units, parent) + 1),
        size: 1 + draw(4, seed) as u8,
    }
}

// Adds the unit of this number, and returns the seed after its draws.
fn add_unit(units: &mut Vec<DrawnUnit>, number: usize, seed: u32) -> Result<u32, NoMemory>
    requires { 0 < number }
    ensures { IfOk result (λ next. record { units = units.new.items; seed = next }
        ≡ with_unit number (record { units = units.old.items; seed = seed })) }
{
    let seed = seed_of_parent(number, seed);
    let parent = parent_of(units, drawn_parent(number, seed));
    let seed = next_seed(seed);
    let unit = child_of(units, parent, seed);
    units.push(unit)?;
    Ok(seed)
}

// `count` units, drawn from this start.
pub(crate) fn draw_units(alloc: Global, count: u8, start: u32) -> Result<Vec<DrawnUnit>, NoMemory>
    ensures { IfOk result (λ units. units.items ≡ (drawn count start).units) }
{
    let mut units = Vec::new(alloc);
    let mut seed = start;
    for before in 0..usize::from(count) {
        seed = add_unit(&mut units, before + 1, seed)?;
    }
    Ok(units)
}
