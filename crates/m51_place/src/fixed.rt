//! The extents whose bases are fixed.
ghost use Rattle.std.specs.Prelude.{◌≡◌, ◌<◌, ◌≤◌, ◌+◌, codes, None, ◌-◌, ◌/◌, ◌%◌, ◌≢◌, ◌++◌, [], ◌∷◌, map, nat_eq};
ghost use Rattle.std.specs.Prelude.{true, IfOk, OnOk, length};
ghost use Rattle.std.specs.Char.{to_ascii_uppercase};
ghost use Rattle.m51_cells.specs.declared.limits.TheConstants.{MOST_SEGMENTS};
ghost use Rattle.m51_cells.specs.Name.{is_name};
ghost use Rattle.m51_control.specs.Controls.{AreKept, IsAllowed};
ghost use Rattle.m51_control.specs.Reserve.{IsRange};
ghost use Rattle.m51_resolve.specs.Joining.{segments_of};
ghost use Rattle.m51_place.specs.Fixed.{absolute, absolutes_from, bank, bank_if, banks_of, fixed_of, reserve_in};
ghost use Rattle.m51_place.specs.Fixed.{reserve_as, reserve_of, reserves_of, uses};

use crate::Numbered;
use m51_cells::{Kind, Name, NoMemory, Reloc, Space, is_absolute};
use m51_control::{Control, Controls};
use m51_module::{Mark, Module, Placed};
use m51_resolve::{Joined, JoinedSegment};
use std::alloc::Global;

// The title that the text writes.
fn title(text: &[u8]) -> Name
    requires { is_name text.now ≡ true }
    ensures { result ≡ map to_ascii_uppercase text.now }
{
    match Name::of(text) {
        Some(name) => name,
        None => unreachable!(),
    }
}

// The register bank of that title, which begins at that byte.
fn bank(text: &[u8], base: u16) -> Numbered
    requires { is_name text.now ≡ true }
    ensures { result ≡ bank (map to_ascii_uppercase text.now) base }
{
    Numbered {
        placed: Placed {
            title: title(text),
            kind: Kind::Direct,
            reloc: Reloc::Abs,
            mark: Mark::Bank,
            base,
            size: 8,
        },
        number: None,
    }
}

// Whether the byte has the bit of that weight.
fn has_bit(banks: u8, weight: u8) -> bool
    requires { weight ≢ 0 }
    ensures { result ≡ nat_eq (banks / weight % 2) 1 }
{
    banks / weight % 2 == 1
}

// Whether a module uses the bank whose bit has that weight.
fn uses(modules: &[Module], weight: u8) -> bool
    requires { weight ≢ 0 }
    ensures { result ≡ uses modules.now weight }
{
    modules.iter().any(|m| has_bit(m.banks(), weight))
}

// Adds an extent.
pub(crate) fn add(located: &mut Vec<Numbered>, extent: &Numbered) -> Result<(), NoMemory>
    ensures { OnOk result (located.new.items ≡ located.old.items ++ extent.now ∷ []) }
{
    located.push(*extent)?;
    Ok(())
}

// Adds the bank of that title, which begins at that byte, if it is used.
fn add_bank(located: &mut Vec<Numbered>, used: bool, text: &[u8], base: u16) -> Result<(), NoMemory>
    requires { is_name text.now ≡ true }
    ensures { OnOk result (located.new.items
        ≡ located.old.items ++ bank_if used (map to_ascii_uppercase text.now) base) }
{
    if used {
        add(located, &bank(text, base))?;
    }
    Ok(())
}

// The banks in use.
fn banks(alloc: Global, modules: &[Module]) -> Result<Vec<Numbered>, NoMemory>
    ensures { IfOk result (λ located. located.items ≡ banks_of modules.now) }
{
    let mut located = vec![in alloc; bank(b"BANK0", 0)]?;
    add_bank(&mut located, uses(modules, 2), b"BANK1", 8)?;
    add_bank(&mut located, uses(modules, 4), b"BANK2", 16)?;
    add_bank(&mut located, uses(modules, 8), b"BANK3", 24)?;
    Ok(located)
}

// The bytes from the first to the last, as an extent of that kind.
fn reserve(kind: Kind, low: u16, high: u16) -> Numbered
    requires some { low ≤ high }
    requires most { high - low < 65535 }
    ensures { result ≡ reserve_as kind low high }
{
    Numbered {
        placed: Placed {
            title: title(b"RESERVE"),
            kind,
            reloc: Reloc::Abs,
            mark: Mark::Reserve,
            base: low,
            size: high - low + 1,
        },
        number: None,
    }
}

// What a reserve keeps free.
fn reserve_in(space: Space, low: u16, high: u16) -> Option<Numbered>
    requires { IsRange space low high }
    ensures { result ≡ reserve_in space low high }
{
    match space {
        Space::Ram => Some(reserve(Kind::Direct, low, high)),
        Space::Xram => Some(reserve(Kind::Xdata, low, high)),
        Space::Code => None,
    }
}

// What a control line keeps free.
fn reserve_of(control: &Control) -> Option<Numbered>
    requires { IsAllowed control.now }
    ensures { result ≡ reserve_of control.now }
{
    match control {
        Control::Reserve(space, low, high) => reserve_in(*space, *low, *high),
        _ => None,
    }
}

// Adds what control lines keep free.
fn add_reserves(located: &mut Vec<Numbered>, controls: &[(u32, Control)]) -> Result<(), NoMemory>
    requires { AreKept controls.now }
    ensures { OnOk result (located.new.items ≡ located.old.items ++ reserves_of controls.now) }
{
    for line in controls {
        if let Some(extent) = reserve_of(&line.1) {
            add(located, &extent)?;
        }
    }
    Ok(())
}

// An absolute segment at its own base.
fn absolute(number: u16, segment: &JoinedSegment) -> Numbered
    ensures { result ≡ absolute number segment.now }
{
    Numbered {
        placed: Placed {
            title: segment.title,
            kind: segment.kind,
            reloc: segment.reloc,
            mark: Mark::Absolute,
            base: segment.base,
            size: segment.size,
        },
        number: Some(number),
    }
}

// Adds the absolute segments, in joined order.
fn add_absolutes(located: &mut Vec<Numbered>, segments: &[JoinedSegment]) -> Result<(), NoMemory>
    requires { length segments.now ≤ MOST_SEGMENTS }
    ensures { OnOk result (located.new.items ≡ located.old.items ++ absolutes_from 0 segments.now) }
{
    for (number, segment) in segments.iter().enumerate() {
        if is_absolute(segment.reloc) {
            add(located, &absolute(number as u16, segment))?;
        }
    }
    Ok(())
}

/// The extents whose bases are fixed: the register banks in use, bank 0 always among them; the reserves of control
/// lines, in their order; the absolute segments, in joined order.
///
/// Source: RL51 guide.
pub(crate) fn fixed(
    alloc: Global,
    joined: &Joined,
    controls: &Controls,
) -> Result<Vec<Numbered>, NoMemory>
    ensures { IfOk result (λ located. located.items ≡ fixed_of joined.now controls.now (segments_of joined.now)) }
{
    let mut located = banks(alloc, joined.modules())?;
    add_reserves(&mut located, controls.lines())?;
    add_absolutes(&mut located, joined.segments())?;
    Ok(located)
}
