//! The units of joined segments: their numbers, their titles and the roots among them.
ghost use Rattle.std.specs.Prelude.{◌≡◌, ◌<◌, ◌≤◌, IfOk, IfSome, length, nat_eq};
ghost use Rattle.std.specs.List.{list_any};
ghost use Rattle.m51_cells.specs.declared.limits.TheConstants.{MOST_SEGMENTS};
ghost use Rattle.m51_module.specs.Roots.{vectors};
ghost use Rattle.m51_graph.specs.Units.{is_root, roots_of, unit_titles, units_of};

use m51_cells::{Name, NoMemory, is_absolute, is_code};
use m51_module::VECTORS;
use m51_resolve::JoinedSegment;
use std::alloc::{AllocError, Global};

// The joined number of each unit: the segments of program memory are the units, in joined order.
pub(crate) fn unit_numbers(alloc: Global, segments: &[JoinedSegment]) -> Result<Vec<u16>, NoMemory>
    requires { length segments.now ≤ MOST_SEGMENTS }
    ensures { IfOk result (λ units. units.items ≡ units_of segments.now) }
{
    let mut units = Vec::new(alloc);
    for (number, segment) in segments.iter().enumerate() {
        if is_code(segment.kind) {
            units.push(number as u16)?;
        }
    }
    Ok(units)
}

// The titles of those that are units.
fn code_titles(alloc: Global, segments: &[JoinedSegment]) -> Result<Vec<Name>, AllocError>
    ensures { IfOk result (λ titles. titles.items ≡ unit_titles segments.now) }
{
    segments
        .iter()
        .filter(|segment| is_code(segment.kind))
        .map(|segment| segment.title)
        .collect(alloc)
}

// The title of each unit.
pub(crate) fn unit_titles(alloc: Global, segments: &[JoinedSegment]) -> Result<Vec<Name>, NoMemory>
    ensures { IfOk result (λ titles. titles.items ≡ unit_titles segments.now) }
{
    Ok(code_titles(alloc, segments)?)
}

// An index among units or their titles, as the number of the unit.
pub(crate) fn as_unit(index: Option<usize>) -> Option<u16>
    requires { IfSome index (λ p. p < 65536) }
    ensures { result ≡ index }
{
    match index {
        Some(unit) => Some(unit as u16),
        None => None,
    }
}

// Whether the reset or an interrupt begins at the address.
fn is_vector(address: u16) -> bool
    ensures { result ≡ list_any (nat_eq address) vectors }
{
    VECTORS.iter().any(|vector| address == *vector)
}

// Whether the segment, which is a unit, is a root.
fn is_root(segment: &JoinedSegment) -> bool
    ensures { result ≡ is_root segment.now }
{
    is_absolute(segment.reloc) && is_vector(segment.base)
}

// The vector and the unit of each root.
pub(crate) fn roots(alloc: Global, segments: &[JoinedSegment]) -> Result<Vec<(u16, u16)>, NoMemory>
    requires { length segments.now ≤ MOST_SEGMENTS }
    ensures { IfOk result (λ roots. roots.items ≡ roots_of segments.now) }
{
    let mut roots = Vec::new(alloc);
    let mut unit = 0;
    for segment in segments {
        if is_code(segment.kind) {
            if is_root(segment) {
                roots.push((segment.base, unit))?;
            }
            unit += 1;
        }
    }
    Ok(roots)
}
