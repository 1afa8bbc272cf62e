//! The roots above units.
ghost use Rattle.std.specs.Prelude.{◌≡◌, ◌&&◌, ◌||◌, IfOk, map, nat_eq};
ghost use Rattle.std.specs.List.{range_with_len};
ghost use Rattle.m51_relations.specs.Rows.{pairs};
ghost use Rattle.m51_graph.specs.Graphs.{lies_under, roots_above};
ghost use Rattle.m51_graph.specs.Relating.{root_byte};

use m51_cells::NoMemory;
use m51_module::VECTORS;
use m51_relations::BitRows;
use std::alloc::{AllocError, Global};

// Whether the root is at the vector, and is the unit or reaches it.
fn is_above(reach: &BitRows, root: &(u16, u16), vector: u16, unit: u16) -> bool
    ensures { result ≡ (nat_eq root.now.0 vector && (nat_eq root.now.1 unit || pairs reach.now root.now.1 unit)) }
{
    root.0 == vector && (root.1 == unit || reach.has(root.1, unit))
}

// Whether the unit lies under a root at the vector.
fn lies_under(reach: &BitRows, roots: &[(u16, u16)], vector: u16, unit: u16) -> bool
    ensures { result ≡ lies_under (pairs reach.now) roots.now vector unit }
{
    roots.iter().any(|root| is_above(reach, root, vector, unit))
}

// The vectors of the roots above the unit, ascending.
fn vectors_above(
    alloc: Global,
    reach: &BitRows,
    roots: &[(u16, u16)],
    unit: u16,
) -> Result<Vec<u16>, AllocError>
    ensures { IfOk result (λ above. above.items ≡ roots_above (pairs reach.now) roots.now unit) }
{
    VECTORS
        .iter()
        .copied()
        .filter(|vector| lies_under(reach, roots, *vector, unit))
        .collect(alloc)
}

// The vectors of the roots above the unit, ascending.
pub(crate) fn roots_above(
    alloc: Global,
    reach: &BitRows,
    roots: &[(u16, u16)],
    unit: u16,
) -> Result<Vec<u16>, NoMemory>
    ensures { IfOk result (λ above. above.items ≡ roots_above (pairs reach.now) roots.now unit) }
{
    Ok(vectors_above(alloc, reach, roots, unit)?)
}

// A byte whose bits say under which roots the unit lies, in order of their vectors, the lowest bit first.
fn root_byte(reach: &BitRows, roots: &[(u16, u16)], unit: u16) -> u8
    ensures { result ≡ root_byte (pairs reach.now) roots.now unit }
{
    let mut bits = 0;
    let mut weight = 1;
    for vector in &VECTORS {
        if lies_under(reach, roots, *vector, unit) {
            bits += weight;
        }
        weight *= 2;
    }
    bits
}

// That byte of each of `count` units.
fn each_byte(
    alloc: Global,
    reach: &BitRows,
    roots: &[(u16, u16)],
    count: u16,
) -> Result<Vec<u8>, AllocError>
    ensures { IfOk result (λ bytes. bytes.items
        ≡ map (root_byte (pairs reach.now) roots.now) (range_with_len 0 count)) }
{
    (0..count)
        .map(|unit| root_byte(reach, roots, unit))
        .collect(alloc)
}

// For each of `count` units, a byte whose bits say under which roots it lies, in order of their
// vectors, the lowest bit first.
pub(crate) fn root_bytes(
    alloc: Global,
    reach: &BitRows,
    roots: &[(u16, u16)],
    count: u16,
) -> Result<Vec<u8>, NoMemory>
    ensures { IfOk result (λ bytes. bytes.items
        ≡ map (root_byte (pairs reach.now) roots.now) (range_with_len 0 count)) }
{
    Ok(each_byte(alloc, reach, roots, count)?)
}
