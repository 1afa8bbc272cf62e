//! A store that holds a value in each cell.
ghost use Rattle.std.specs.Prelude.{◌≡◌, ℕ, ◌<◌, false, length, IfOk, slice_index};
ghost use Rattle.m51_flat.specs.Flat.{filled_cells, flat_cells};
ghost use Rattle.m51_flat.specs.FlatLaws.{flat_are_cells};

use crate::sfr::replace_bit;
use crate::state::{Put, Seen};
use crate::store::CellStore;
use m51_cells::{Cell, NoMemory};
use std::alloc::Global;
use std::marker::Model;

/// 256 bytes of internal RAM and 65,536 bytes of external memory. Each cell holds a value, and each may be written.
///
/// Source: family manual.
#[derive(Drop)]
pub struct FlatRam {
    ram: Vec<u8>,
    xram: Vec<u8>,
}

impl Model for FlatRam {
    ghost use Rattle.std.specs.Prelude.{◌≡◌, vec_len};
    ghost use Rattle.m51_flat.specs.Flat.{FlatBytes};

    ghost Value = { FlatBytes };

    ghost view = { λ r. record { ram = r.ram.items; xram = r.xram.items } };

    ghost invariant = { λ r. (vec_len r.ram ≡ 256) × (vec_len r.xram ≡ 65536) };
}

// A list of `count` bytes, each of them the fill.
fn bytes(alloc: Global, fill: u8, count: usize) -> Result<Vec<u8>, NoMemory>
    ensures len { IfOk result (λ v. length v.items ≡ count) }
    ensures each { IfOk result (λ v. (n : ℕ) → n < count → slice_index v.items n ≡ fill) }
{
    Ok(vec![in alloc; fill; count]?)
}

impl FlatRam {
    /// Memory with this byte everywhere. Error: out of memory.
    ///
    /// Source: own choice ("The fill").
    pub fn filled(alloc: Global, fill: u8) -> Result<FlatRam, NoMemory>
        ensures { IfOk result (λ r. flat_cells r ≡ filled_cells fill) }
    {
        let ram = bytes(alloc, fill, 256)?;
        let xram = bytes(alloc, fill, 65536)?;
        Ok(FlatRam { ram, xram })
    }
}

impl CellStore for FlatRam {
    ghost cells = { λ m. flat_cells m };

    ghost barred = { λ m cell. false };

    ghost are_cells = { flat_are_cells };

    fn byte(&self, address: u8) -> Seen {
        Seen::Value(self.ram[usize::from(address)])
    }

    fn bit(&self, address: u8) -> Seen {
        Seen::Value(self.ram[usize::from(32 + address / 8)] >> (address % 8) & 1)
    }

    fn xbyte(&self, address: u16) -> Seen {
        Seen::Value(self.xram[usize::from(address)])
    }

    fn shut(&self, _put: &Put) -> Option<Cell> {
        None
    }

    fn put(&mut self, put: &Put) {
        match *put {
            Put::Nothing => {}
            Put::Byte { address, value } => self.ram[usize::from(address)] = value,
            Put::Bit { address, value } => {
                let at = usize::from(32 + address / 8);
                self.ram[at] = replace_bit(self.ram[at], address % 8, value);
            }
            Put::Xbyte { address, value } => self.xram[usize::from(address)] = value,
        }
    }
}
