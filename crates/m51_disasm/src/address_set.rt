//! A set of addresses with constant lookup time.
ghost use Rattle.std.specs.Prelude.{◌≡◌, IfOk};
ghost use Rattle.m51_disasm.specs.Flags.{AreFlags, AreUnset};
ghost use Rattle.m51_disasm.specs.Lines.{is_among};

use m51_cells::NoMemory;
use m51_module::IMAGE_LEN;
use std::alloc::{AllocError, Global};
use std::marker::Model;

/// Addresses of program memory, with a flag for each that is in the set, so that lookup takes constant time. Contracts
/// see them as a list.
#[derive(Drop)]
pub(crate) struct AddressSet {
    addresses: Vec<u16>,
    flags: Vec<bool>,
}

impl Model for AddressSet {
    ghost use Rattle.std.specs.Prelude.{ℕ, List};
    ghost use Rattle.m51_disasm.specs.Flags.{AreFlags};

    ghost Value = { List ℕ };

    ghost view = { λ s. s.addresses.items };

    ghost invariant = { λ s. AreFlags s.addresses.items s.flags.items };
}

// `count` flags, none of them set.
#[tactic(auto, using(crate::proofs::Flagged::unset))]
fn unset(alloc: Global, count: usize) -> Result<Vec<bool>, AllocError>
    ensures { IfOk result (λ flags. AreUnset count flags.items) }
{
    vec![in alloc; false; count]
}

// A flag for each address of program memory, set where it is one of these.
#[tactic(auto, using(crate::proofs::Flagged::none_set, crate::proofs::Flagged::one_set))]
fn flags_of(alloc: Global, addresses: &[u16]) -> Result<Vec<bool>, NoMemory>
    ensures { IfOk result (λ flags. AreFlags addresses.now flags.items) }
{
    let mut flags = unset(alloc, IMAGE_LEN)?;
    for address in addresses {
        flags[usize::from(*address)] = true;
    }
    Ok(flags)
}

impl AddressSet {
    /// The set of these addresses.
    pub(crate) fn of(alloc: Global, addresses: Vec<u16>) -> Result<AddressSet, NoMemory>
        ensures { IfOk result (λ set. set ≡ addresses.items) }
    {
        let flags = flags_of(alloc, &addresses)?;
        Ok(AddressSet { addresses, flags })
    }

    /// The addresses, in the order in which they were given.
    pub(crate) fn addresses(&self) -> &[u16]
        ensures { result.now ≡ self.now }
    {
        &self.addresses
    }

    /// Whether the address is one of them.
    pub(crate) fn contains(&self, address: u16) -> bool
        ensures { result ≡ is_among self.now address }
    {
        self.flags[usize::from(address)]
    }
}
