//! The parts of a layout.
ghost use Rattle.std.specs.Prelude.{◌≡◌, IfOk, OnOk, All, slice_get};
ghost use Rattle.m51_disasm.specs.Parts.{placed_range, unit_ranges, parts_below, code_ranges, IsInside};

use crate::part::CodeRange;
use m51_cells::{NoMemory, cite};
use m51_module::{Layout, Placed};
use std::alloc::{AllocError, Global};

// Base and size of a placed extent, by its index.
fn part_at(placed: &[Placed], index: u16) -> CodeRange
    ensures { result ≡ placed_range (slice_get placed.now index) }
{
    match placed.get(usize::from(index)) {
        None => CodeRange { base: 0, size: 0 },
        Some(placed) => CodeRange {
            base: placed.base,
            size: placed.size,
        },
    }
}

// The units of one byte or more, in the order of the layout.
fn unit_ranges(alloc: Global, layout: &Layout) -> Result<Vec<CodeRange>, AllocError>
    ensures { IfOk result (λ units. units.items ≡ unit_ranges layout.now) }
{
    let placed = layout.placed();
    layout
        .units()
        .iter()
        .map(|index| part_at(placed, *index))
        .filter(|part| part.size > 0)
        .collect(alloc)
}

// The same, with their bytes in program memory.
#[tactic(auto, using(crate::proofs::Placing::all_inside))]
fn units_inside(alloc: Global, layout: &Layout) -> Result<Vec<CodeRange>, AllocError>
    ensures units { IfOk result (λ units. units.items ≡ unit_ranges layout.now) }
    ensures inside { IfOk result (λ units. All IsInside units.items) }
{
    cite(layout.units());
    unit_ranges(alloc, layout)
}

// Puts units into the order of their bases.
fn arrange(units: &mut Vec<CodeRange>) -> Result<(), AllocError>
    requires { All IsInside units.old.items }
    ensures order { OnOk result (units.new.items ≡ parts_below units.old.items 0x10000) }
    ensures inside { All IsInside units.new.items }
{
    units.sort_by_key(|unit| unit.base)
}

/// The units of one byte or more, by ascending base.
#[tactic(auto, unfolding(crate::specs::Parts::code_ranges))]
pub(crate) fn code_ranges(alloc: Global, layout: &Layout) -> Result<Vec<CodeRange>, NoMemory>
    ensures order { IfOk result (λ parts. parts.items ≡ code_ranges layout.now) }
    ensures inside { IfOk result (λ parts. All IsInside parts.items) }
{
    let mut parts = units_inside(alloc, layout)?;
    arrange(&mut parts)?;
    Ok(parts)
}
