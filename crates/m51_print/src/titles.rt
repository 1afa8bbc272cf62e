//! The titles that the lines of units and chains list.
ghost use Rattle.std.specs.Prelude.{◌≡◌, ◌<◌, ◌++◌, OnOk, IfOk, IsTrue, ◌↔◌, true, map, flat_map, length, All};
ghost use Rattle.m51_cells.specs.Name.{title_at};
ghost use Rattle.m51_module.specs.Roots.{vectors};
ghost use Rattle.m51_print.specs.Map.{after_comma, listed, roots_among, root_titles, unit_title, targets_of};

use crate::pushing::push_text;
use m51_cells::{Name, NoMemory};
use m51_module::{Layout, VECTORS};
use std::alloc::Global;

// Appends each name after a comma.
fn push_others(text: &mut Vec<u8>, names: &[Name]) -> Result<(), NoMemory>
    ensures { OnOk result (text.new.items ≡ text.old.items ++ flat_map after_comma names.now) }
{
    for name in names {
        push_text(text, b",")?;
        push_text(text, name.bytes())?;
    }
    Ok(())
}

/// Appends names with commas between them, and `-` where there is none.
#[tactic(auto, unfolding(crate::specs::Map::listed))]
pub(crate) fn push_list(text: &mut Vec<u8>, names: &[Name]) -> Result<(), NoMemory>
    ensures { OnOk result (text.new.items ≡ text.old.items ++ listed names.now) }
{
    match names {
        [] => push_text(text, b"-"),
        [first, more @ ..] => {
            push_text(text, first.bytes())?;
            push_others(text, more)
        }
    }
}

// The titles of those of the vectors whose bits are set, the lowest bit for the first.
#[tactic(auto, using(crate::proofs::Steps::root_set, crate::proofs::Steps::root_clear))]
fn titles_among(alloc: Global, byte: u8, vectors: &[u16]) -> Result<Vec<Name>, NoMemory>
    ensures { IfOk result (λ titles. titles.items ≡ map title_at (roots_among byte vectors.now)) }
{
    let mut titles = Vec::new(alloc);
    let mut bits = byte;
    for vector in vectors {
        if bits % 2 == 1 {
            titles.push(Name::at(*vector))?;
        }
        bits /= 2;
    }
    Ok(titles)
}

/// The titles of the roots of a byte: bit 0 is for the reset, bits 1 to 6 for the interrupts in order.
#[tactic(auto, unfolding(crate::specs::Map::root_titles))]
pub(crate) fn root_titles(alloc: Global, byte: u8) -> Result<Vec<Name>, NoMemory>
    ensures { IfOk result (λ titles. titles.items ≡ root_titles byte) }
{
    titles_among(alloc, byte, &VECTORS)
}

/// The title of a unit of the layout.
///
/// Source: own choice ("Texts").
#[tactic(auto, using(crate::proofs::PlacedTitles::title_at), unfolding(crate::specs::Map::unit_title))]
pub fn unit_title(layout: &Layout, unit: u16) -> &Name
    requires { unit < length layout.now.units }
    ensures { result.now ≡ unit_title layout.now unit }
{
    &layout.placed()[usize::from(layout.units()[usize::from(unit)])].title
}

/// The titles of units.
pub(crate) fn unit_titles(
    alloc: Global,
    layout: &Layout,
    units: &[u16],
) -> Result<Vec<Name>, NoMemory>
    requires { All (λ unit. unit < length layout.now.units) units.now }
    ensures { IfOk result (λ titles. titles.items ≡ map (unit_title layout.now) units.now) }
{
    let mut titles = Vec::new(alloc);
    for unit in units {
        titles.push(*unit_title(layout, *unit))?;
    }
    Ok(titles)
}

/// The titles of the units to which an edge leads from this one, by number.
#[tactic(auto, using(crate::proofs::Ranges::named_yes, crate::proofs::Ranges::named_no))]
pub(crate) fn target_titles(
    alloc: Global,
    layout: &Layout,
    unit: u16,
) -> Result<Vec<Name>, NoMemory>
    requires { unit < length layout.now.units }
    ensures { IfOk result (λ titles. titles.items ≡ map (unit_title layout.now) (targets_of layout.now unit)) }
{
    let mut titles = Vec::new(alloc);
    for target in 0..layout.units().len() {
        if layout.edge(unit, target as u16) {
            titles.push(*unit_title(layout, target as u16))?;
        }
    }
    Ok(titles)
}
