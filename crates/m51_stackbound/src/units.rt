//! Units by address: which addresses control may go to, and where interrupts begin.
ghost use Rattle.std.specs.Prelude.{◌≡◌, ◌<◌, ℕ, IfSome, IfOk, length, is_some};
ghost use Rattle.std.specs.List.{Contains};
ghost use Rattle.m51_module.specs.Plan.{IsRootAt, IsUnitAt};
ghost use Rattle.m51_module.specs.Roots.{vectors};
ghost use Rattle.m51_stackbound.specs.Units.{unit_of, root_of, in_one_unit, counts, lie_inside, handlers, interrupts};

use m51_cells::{NoMemory, cite};
use m51_module::Layout;
use std::alloc::Global;

/// The unit that covers the address.
#[tactic(auto, using(crate::proofs::Finding::unit_is, m51_module::proofs::Units::unit_below))]
pub(crate) fn unit_at(layout: &Layout, address: u16) -> Option<u16>
    ensures value { result ≡ unit_of layout.now address }
    ensures below { IfSome result (λ unit. unit < length layout.now.units) }
{
    cite(layout.units());
    layout.unit_at(address)
}

/// The unit that is the root at the vector.
#[tactic(auto, using(crate::proofs::Finding::root_is))]
pub(crate) fn root_at(layout: &Layout, vector: u16) -> Option<u16>
    ensures { Contains vectors vector → result ≡ root_of layout.now vector }
{
    cite(layout.units());
    layout.root(vector)
}

/// The unit that covers an address that a unit covers.
pub(crate) fn unit_number(layout: &Layout, address: u16) -> u16
    requires { (unit : ℕ) × IsUnitAt layout.now address unit }
    ensures { IsUnitAt layout.now address result }
{
    layout.unit_at(address).unwrap()
}

/// The root at a vector that has one.
pub(crate) fn root_number(layout: &Layout, vector: u16) -> u16
    requires { (unit : ℕ) × IsRootAt layout.now vector unit }
    ensures { IsRootAt layout.now vector result }
{
    layout.root(vector).unwrap()
}

/// Whether one unit covers both addresses.
#[tactic(auto, unfolding(crate::specs::Units::in_one_unit))]
pub(crate) fn in_one_unit(layout: &Layout, from: u16, to: u16) -> bool
    ensures { result ≡ in_one_unit layout.now from to }
{
    match (unit_at(layout, from), unit_at(layout, to)) {
        (Some(one), Some(two)) => one == two,
        _ => false,
    }
}

/// Whether a target counts: it lies in the same unit, or in one to which an edge leads.
#[tactic(auto, unfolding(crate::specs::Units::counts))]
pub(crate) fn counts(layout: &Layout, from: u16, to: u16) -> bool
    ensures { result ≡ counts layout.now from to }
{
    match (unit_at(layout, from), unit_at(layout, to)) {
        (Some(one), Some(two)) => one == two || layout.edge(one, two),
        _ => false,
    }
}

/// Whether bytes from the address on, of this number, lie in the unit that covers it.
#[tactic(auto, using(crate::proofs::Inside::one_outside))]
pub(crate) fn lie_inside(layout: &Layout, at: u16, count: u8) -> bool
    ensures { result ≡ lie_inside layout.now at count }
{
    for index in 0..count {
        if !in_one_unit(layout, at, at.wrapping_add(u16::from(index))) {
            return false;
        }
    }
    true
}

// Whether a root begins at the vector.
fn has_root(layout: &Layout, vector: u16) -> bool
    requires { Contains vectors vector }
    ensures { result ≡ is_some (root_of layout.now vector) }
{
    root_at(layout, vector).is_some()
}

// Where the six interrupts begin.
const INTERRUPTS: [u16; 6] = [0x03, 0x0B, 0x13, 0x1B, 0x23, 0x2B];

/// The vectors of the interrupts at which a root begins, ascending.
#[tactic(auto, using(crate::proofs::Inside::interrupt_is_vector))]
pub(crate) fn handlers(alloc: Global, layout: &Layout) -> Result<Vec<u16>, NoMemory>
    ensures { IfOk result (λ vectors. vectors.items ≡ handlers layout.now) }
{
    let mut found = Vec::new(alloc);
    for vector in INTERRUPTS {
        if has_root(layout, vector) {
            found.push(vector)?;
        }
    }
    Ok(found)
}
