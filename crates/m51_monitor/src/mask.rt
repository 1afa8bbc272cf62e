//! Masks of the cells of data memory.
ghost use Rattle.std.specs.Prelude.{◌≡◌, ◌+◌, ◌*◌, ◌≤◌, ◌<◌, ℕ, true, IfOk};
ghost use Rattle.m51_cells.specs.declared.cell.Cell.{Cell};
ghost use Rattle.m51_module.specs.Sound.{IsInside};
ghost use Rattle.m51_cells.specs.Cells.{IsDataCell, cells_in};
ghost use Rattle.m51_cells.specs.Extent.{extent};
ghost use Rattle.m51_flat.specs.States.{ram_cell};
ghost use Rattle.m51_monitor.specs.Masks.{IsMarked, IsMask, flag_of};

use crate::bits::Flags;
use m51_cells::{Cell, Extent, NoMemory, Space, cite};
use std::alloc::Global;
use std::marker::Model;

/// A flag for each cell of data memory.
#[derive(Drop)]
pub(crate) struct Mask {
    ram: Flags,
    xram: Flags,
}

impl Model for Mask {
    ghost use Rattle.m51_monitor.specs.Masks as masks;

    ghost Value = { masks.Mask };

    ghost view = { λ m. record { ram = m.ram; xram = m.xram } };

    ghost invariant = { λ m. masks.IsMask (record { ram = m.ram; xram = m.xram }) };
}

impl Mask {
    /// A mask with all flags set so.
    #[tactic(auto, using(crate::proofs::Marks::all_set))]
    pub(crate) fn filled(alloc: Global, value: bool) -> Result<Mask, NoMemory>
        ensures { IfOk result (λ mask. (c : Cell) → IsDataCell c → flag_of mask c ≡ value) }
    {
        let ram = Flags::filled(alloc, value, 256)?;
        let xram = Flags::filled(alloc, value, 8192)?;
        Ok(Mask { ram, xram })
    }

    /// The flag of a cell.
    pub(crate) fn get(&self, cell: Cell) -> bool
        requires { IsDataCell cell }
        ensures { result ≡ flag_of self.now cell }
    {
        match cell.space {
            Space::Ram => self.ram.get(cell.at as usize),
            Space::Xram => self.xram.get(cell.at as usize),
            Space::Code => false,
        }
    }

    /// Whether the flags of all bits of a byte of internal RAM are set.
    pub(crate) fn is_byte_set(&self, address: u8) -> bool
        ensures { result ≡ true → (n : ℕ) → 8 * address ≤ n → n < 8 * address + 8
            → flag_of self.now (ram_cell n) ≡ true }
    {
        self.ram.are_set(usize::from(address))
    }

    /// Sets the flags of the bits of a byte of internal RAM.
    #[tactic(auto, using(crate::proofs::Marks::on_ram))]
    #[inline(always)]
    pub(crate) fn mark_byte(&mut self, address: u8)
        ensures marked { IsMarked (extent Space.Ram (8 * address) 8) true self.old self.new }
        ensures mask { IsMask self.new }
    {
        cite(&self.ram);
        self.ram.set_byte(usize::from(address));
    }

    /// Sets the flag of a bit of internal RAM, by its bit address. It is kept apart from what is done in every step.
    #[tactic(auto, using(crate::proofs::Marks::on_ram))]
    #[inline(never)]
    pub(crate) fn mark_bit(&mut self, address: u8)
        ensures marked { IsMarked (extent Space.Ram (256 + address) 1) true self.old self.new }
        ensures mask { IsMask self.new }
    {
        cite(&self.ram);
        self.ram.set(256 + usize::from(address), true);
    }

    /// Sets the flag of a byte of external memory. It is kept apart likewise.
    #[tactic(auto, using(crate::proofs::Marks::on_xram))]
    #[inline(never)]
    pub(crate) fn mark_xbyte(&mut self, address: u16)
        ensures marked { IsMarked (extent Space.Xram address 1) true self.old self.new }
        ensures mask { IsMask self.new }
    {
        cite(&self.xram);
        self.xram.set(usize::from(address), true);
    }

    // Sets the flags of the cells of an extent that ends inside its memory.
    #[tactic(auto, using(crate::proofs::Marks::on_ram, crate::proofs::Marks::on_xram, crate::proofs::Marks::on_code))]
    fn mark_some(&mut self, cells: Extent, value: bool)
        requires { cells.first + cells.len ≤ cells_in cells.space }
        ensures marked { IsMarked cells value self.old self.new }
        ensures mask { IsMask self.new }
    {
        let from = cells.first as usize;
        let to = from + cells.len as usize;
        match cells.space {
            Space::Ram => self.ram.set_row(from, to, value),
            Space::Xram => self.xram.set_row(from, to, value),
            Space::Code => {}
        }
    }

    /// Sets the flags of the cells of an extent.
    #[tactic(auto, using(crate::proofs::Marks::none_marked, crate::proofs::Marks::ends_inside))]
    pub(crate) fn mark(&mut self, cells: Extent, value: bool)
        requires { IsInside cells }
        ensures marked { IsMarked cells value self.old self.new }
        ensures mask { IsMask self.new }
    {
        cite(&self.ram);
        if cells.len > 0 {
            self.mark_some(cells, value);
        }
    }
}
