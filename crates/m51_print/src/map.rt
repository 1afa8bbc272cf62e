//! The map of a layout.
ghost use Rattle.std.specs.Prelude.{◌≡◌, ◌<◌, ◌++◌, OnOk, IfOk, map, flat_map, length, slice_index, All};
ghost use Rattle.m51_print.specs.Map.{kind_text, mark_text, segment_line, unit_title, root_titles, targets_of};
ghost use Rattle.m51_print.specs.Map.{unit_line, line_of_unit, unit_lines, chain_line, line_of_chain, NamesUnits};
ghost use Rattle.m51_print.specs.Map.{overlaid_line, image_line, map_of};

use crate::overlaid::overlaid_below;
use crate::pushing::{push_decimal, push_hex4, push_text};
use crate::titles::{push_list, root_titles, target_titles, unit_title, unit_titles};
use m51_cells::{Kind, Name, NoMemory};
use m51_module::{Chain, Layout, Mark, Placed};
use std::alloc::Global;

// The word of a kind, left-aligned in 5 columns. No placed extent is a number.
fn kind_text(kind: Kind) -> &'static [u8]
    ensures { result.now ≡ kind_text kind }
{
    match kind {
        Kind::Code => b"CODE ",
        Kind::Xdata => b"XDATA",
        Kind::Direct => b"DATA ",
        Kind::Idata => b"IDATA",
        Kind::Bits => b"BIT  ",
        Kind::Number => b"     ",
    }
}

// The letter of a mark.
fn mark_text(mark: Mark) -> &'static [u8]
    ensures { result.now ≡ mark_text mark }
{
    match mark {
        Mark::Bank => b"B",
        Mark::Reserve => b"R",
        Mark::Absolute => b"A",
        Mark::Plain => b"P",
        Mark::Overlaid => b"O",
    }
}

// Appends the line of a placed extent.
#[tactic(auto, unfolding(crate::specs::Map::segment_line))]
fn push_segment(text: &mut Vec<u8>, placed: &Placed) -> Result<(), NoMemory>
    ensures { OnOk result (text.new.items ≡ text.old.items ++ segment_line placed.now) }
{
    push_text(text, kind_text(placed.kind))?;
    push_text(text, b" ")?;
    push_hex4(text, placed.base)?;
    push_text(text, b" ")?;
    push_hex4(text, placed.size)?;
    push_text(text, b" ")?;
    push_text(text, mark_text(placed.mark))?;
    push_text(text, b" ")?;
    push_text(text, placed.title.bytes())?;
    push_text(text, b"\n")
}

/// Appends the lines of the placed extents.
fn push_segments(text: &mut Vec<u8>, placed: &[Placed]) -> Result<(), NoMemory>
    ensures { OnOk result (text.new.items ≡ text.old.items ++ flat_map segment_line placed.now) }
{
    for extent in placed {
        push_segment(text, extent)?;
    }
    Ok(())
}

/// Appends the line of a unit.
#[tactic(auto, unfolding(crate::specs::Map::unit_line))]
fn push_unit_line(
    text: &mut Vec<u8>,
    alloc: Global,
    title: &Name,
    roots: u8,
    targets: &[Name],
) -> Result<(), NoMemory>
    ensures { OnOk result (text.new.items ≡ text.old.items ++ unit_line title.now roots targets.now) }
{
    push_text(text, title.bytes())?;
    push_text(text, b" FROM ")?;
    let from = root_titles(alloc, roots)?;
    push_list(text, &from)?;
    push_text(text, b" TO ")?;
    push_list(text, targets)?;
    push_text(text, b"\n")
}

// Appends the line of the unit of that number.
#[tactic(auto, unfolding(crate::specs::Map::line_of_unit))]
fn push_unit(
    text: &mut Vec<u8>,
    alloc: Global,
    layout: &Layout,
    roots: &[u8],
    unit: u16,
) -> Result<(), NoMemory>
    requires roots { length roots.now ≡ length layout.now.units }
    requires unit { unit < length layout.now.units }
    ensures { OnOk result (text.new.items ≡ text.old.items ++ line_of_unit layout.now roots.now unit) }
{
    let targets = target_titles(alloc, layout, unit)?;
    push_unit_line(
        text,
        alloc,
        unit_title(layout, unit),
        roots[usize::from(unit)],
        &targets,
    )
}

// Appends the lines of the units.
fn push_units(
    text: &mut Vec<u8>,
    alloc: Global,
    layout: &Layout,
    roots: &[u8],
) -> Result<(), NoMemory>
    requires { length roots.now ≡ length layout.now.units }
    ensures { OnOk result (text.new.items
        ≡ text.old.items ++ unit_lines layout.now roots.now (length layout.now.units)) }
{
    for unit in 0..layout.units().len() {
        push_unit(text, alloc, layout, roots, unit as u16)?;
    }
    Ok(())
}

/// Appends the line of a chain.
#[tactic(auto, unfolding(crate::specs::Map::chain_line))]
fn push_chain_line(
    text: &mut Vec<u8>,
    root: &Name,
    bytes: u32,
    units: &[Name],
) -> Result<(), NoMemory>
    ensures { OnOk result (text.new.items ≡ text.old.items ++ chain_line root.now bytes units.now) }
{
    push_text(text, b"CHAIN ")?;
    push_text(text, root.bytes())?;
    push_text(text, b" ")?;
    push_decimal(text, u64::from(bytes))?;
    push_text(text, b" ")?;
    push_list(text, units)?;
    push_text(text, b"\n")
}

// Appends the line of a chain of this layout.
#[tactic(auto, unfolding(crate::specs::Map::line_of_chain))]
fn push_chain(
    text: &mut Vec<u8>,
    alloc: Global,
    layout: &Layout,
    chain: &Chain,
) -> Result<(), NoMemory>
    requires { NamesUnits layout.now chain.now }
    ensures { OnOk result (text.new.items ≡ text.old.items ++ line_of_chain layout.now chain.now) }
{
    let units = unit_titles(alloc, layout, chain.units.as_slice())?;
    push_chain_line(text, unit_title(layout, chain.root), chain.bytes, &units)
}

// Appends the lines of the chains.
fn push_chains(
    text: &mut Vec<u8>,
    alloc: Global,
    layout: &Layout,
    chains: &[Chain],
) -> Result<(), NoMemory>
    requires { All (NamesUnits layout.now) chains.now }
    ensures { OnOk result (text.new.items ≡ text.old.items ++ flat_map (line_of_chain layout.now) chains.now) }
{
    for chain in chains {
        push_chain(text, alloc, layout, chain)?;
    }
    Ok(())
}

// Appends the line of the bytes that overlaid segments of DATA cover.
fn push_overlaid(text: &mut Vec<u8>, placed: &[Placed]) -> Result<(), NoMemory>
    ensures { OnOk result (text.new.items ≡ text.old.items ++ overlaid_line placed.now) }
{
    push_text(text, b"OVERLAID ")?;
    push_decimal(text, u64::from(overlaid_below(placed, 256)))?;
    push_text(text, b" BYTES\n")
}

// Appends the line of the bytes that content fills.
fn push_image(text: &mut Vec<u8>, bytes: u32) -> Result<(), NoMemory>
    ensures { OnOk result (text.new.items ≡ text.old.items ++ image_line bytes) }
{
    push_text(text, b"IMAGE ")?;
    push_decimal(text, u64::from(bytes))?;
    push_text(text, b" BYTES\n")
}

/// The map of a layout, from the line `SEGMENTS` to the line of the image's bytes. There is a byte of roots for each
/// unit: bit 0 is set where it lies under the root at 0000H, and bits 1 to 6 are for the interrupts in order. The
/// chains name units of the layout. `bytes` is how many bytes content fills. Error: out of memory.
///
/// Source: own choice ("Texts").
#[tactic(auto, unfolding(crate::specs::Map::map_of))]
pub fn map_text(
    alloc: Global,
    layout: &Layout,
    roots: &[u8],
    chains: &[Chain],
    bytes: u32,
) -> Result<Vec<u8>, NoMemory>
    requires roots { length roots.now ≡ length layout.now.units }
    requires chains { All (NamesUnits layout.now) chains.now }
    ensures { IfOk result (λ text. text.items ≡ map_of layout.now roots.now chains.now bytes) }
{
    let mut text = Vec::new(alloc);
    push_text(&mut text, b"SEGMENTS\n")?;
    push_segments(&mut text, layout.placed())?;
    push_text(&mut text, b"UNITS\n")?;
    push_units(&mut text, alloc, layout, roots)?;
    push_chains(&mut text, alloc, layout, chains)?;
    push_overlaid(&mut text, layout.placed())?;
    push_image(&mut text, bytes)?;
    Ok(text)
}
