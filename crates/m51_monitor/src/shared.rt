//! One memory for all segments.
ghost use Rattle.std.specs.Prelude.{◌≡◌, ◌+◌, ◌*◌, ◌<◌, ◌≤◌, ℕ, true, false, None, Some, IfOk, IfSome, IfNone};
ghost use Rattle.m51_cells.specs.Cells.{cells_in};
ghost use Rattle.m51_module.specs.Sound.{IsInside};
ghost use Rattle.m51_cells.specs.Extent.{extent};
ghost use Rattle.m51_flat.specs.declared.state.Put.TheVariants.{Xbyte};
ghost use Rattle.m51_flat.specs.Flat.{filled_cells, flat_cells};
ghost use Rattle.m51_flat.specs.States.{bit_seen, byte_seen, first_barred, ram_cell, shut_of};
ghost use Rattle.m51_monitor.specs.Masks.{IsMarked, IsMask};
ghost use Rattle.m51_monitor.specs.Resolved.{outside_of};
ghost use Rattle.m51_monitor.specs.Shared.{shared_cells, shared_barred, cells_put, IsTurned, turned_to, Blocks};
ghost use Rattle.m51_monitor.specs.SharedLaws.{shared_are_cells};

use crate::mask::Mask;
use m51_cells::{Cell, Extent, NoMemory, Space, cite};
use m51_flat::{CellStore, FlatRam, Put, Seen};
use std::alloc::Global;
use std::marker::Model;

/// One internal RAM of 256 bytes and one external memory, with two masks: which cells are live, and which of them were
/// written.
///
/// Source: own choice ("Stores of segments").
#[derive(Drop)]
pub struct SharedRam {
    memory: FlatRam,
    live: Mask,
    written: Mask,
}

impl Model for SharedRam {
    ghost use Rattle.m51_monitor.specs.Shared as shared;

    ghost Value = { shared.Shared };

    ghost view = { λ r. record { memory = r.memory; live = r.live; written = r.written } };

    ghost invariant = { λ r. shared.IsShared (record { memory = r.memory; live = r.live; written = r.written }) };
}

// A cell of internal RAM.
fn ram_cell(at: usize) -> Cell
    requires { at < 2048 }
    ensures { result ≡ ram_cell at }
{
    Cell {
        space: Space::Ram,
        at: at as u32,
    }
}

// Sets the flags of the cells of a put. Those of a byte, which most puts are, are set here, the others elsewhere.
#[tactic(auto, using(crate::proofs::Marks::none_marked))]
#[inline(always)]
fn mark_put(mask: &mut Mask, put: Put)
    ensures marked { IsMarked (cells_put put) true mask.old mask.new }
    ensures inside { IsInside (cells_put put) }
{
    match put {
        Put::Nothing => {}
        Put::Byte { address, .. } => mask.mark_byte(address),
        Put::Bit { address, .. } => mask.mark_bit(address),
        Put::Xbyte { address, .. } => mask.mark_xbyte(address),
    }
}

impl SharedRam {
    /// Memory with this byte everywhere, all of it live and written.
    #[tactic(auto, using(crate::proofs::Reading::filled_cells_are, crate::proofs::Reading::filled_is_live))]
    pub(crate) fn filled(alloc: Global, fill: u8) -> Result<SharedRam, NoMemory>
        ensures { IfOk result (λ memory. shared_cells memory ≡ filled_cells fill) }
    {
        let memory = FlatRam::filled(alloc, fill)?;
        let live = Mask::filled(alloc, true)?;
        let written = Mask::filled(alloc, true)?;
        Ok(SharedRam {
            memory,
            live,
            written,
        })
    }

    /// The cells that may not be written are those that are outside.
    pub(crate) fn bars(&self)
        ensures { shared_barred self.now ≡ outside_of (shared_cells self.now) }
    {
        cite(&self.live);
    }

    /// Turns the cells of an extent live and unset, or outside.
    #[tactic(auto, using(crate::proofs::Reading::turned_cells, crate::proofs::Reading::turned_lives))]
    pub(crate) fn turn(&mut self, cells: Extent, live: bool)
        requires { IsInside cells }
        ensures { IsTurned cells (turned_to live) self.old self.new }
    {
        self.live.mark(cells, live);
        self.written.mark(cells, false);
    }

    // Why a cell of internal RAM has no value. Only live cells were written.
    #[tactic(auto, using(crate::proofs::Reading::dead, crate::proofs::Reading::fresh, crate::proofs::Reading::written))]
    #[inline(always)]
    fn blocked(&self, at: usize) -> Option<Seen>
        requires { at < 2048 }
        ensures some { IfSome result (λ seen. Blocks ((shared_cells self.now).ram at) × (seen
            ≡ bit_seen (shared_cells self.now) at)) }
        ensures none { IfNone result ((shared_cells self.now).ram at ≡ (flat_cells self.now.memory).ram at) }
    {
        let cell = ram_cell(at);
        if self.written.get(cell) {
            None
        } else if self.live.get(cell) {
            Some(Seen::Unset(cell))
        } else {
            Some(Seen::Outside(cell))
        }
    }

    // A byte of internal RAM, where each of its bits is looked at.
    #[tactic(auto, using(crate::proofs::Reading::byte_value, crate::proofs::Reading::byte_blocked))]
    fn byte_of_bits(&self, address: u8) -> Seen
        ensures { result ≡ byte_seen (shared_cells self.now) address }
    {
        let first = 8 * usize::from(address);
        for bit in 0..8 {
            if let Some(seen) = self.blocked(first + bit) {
                return seen;
            }
        }
        self.memory.byte(address)
    }

    // The lowest bit of a byte of internal RAM that is not live.
    #[tactic(auto, using(crate::proofs::Reading::barred_none))]
    #[inline(always)]
    fn dead_in_byte(&self, address: u8) -> Option<Cell>
        ensures { result ≡ first_barred (shared_barred self.now) 8 (8 * address) }
    {
        if self.live.is_byte_set(address) {
            return None;
        }
        self.first_dead(8 * usize::from(address), 8)
    }

    // The lowest of these cells of internal RAM, from the first on, that is not live.
    #[tactic(auto, using(crate::proofs::Reading::barred_at, crate::proofs::Reading::barred_none))]
    #[inline(always)]
    fn first_dead(&self, first: usize, count: usize) -> Option<Cell>
        requires { first + count ≤ 2048 }
        ensures { result ≡ first_barred (shared_barred self.now) count first }
    {
        for address in first..first + count {
            let cell = ram_cell(address);
            if !self.live.get(cell) {
                return Some(cell);
            }
        }
        None
    }

    // A cell of external memory, where it is not live.
    #[tactic(auto, unfolding(m51_flat::specs::States::shut_of))]
    fn dead_xbyte(&self, address: u16) -> Option<Cell>
        ensures { result ≡ shut_of (shared_barred self.now) (Xbyte address 0) }
    {
        let cell = Cell {
            space: Space::Xram,
            at: u32::from(address),
        };
        if self.live.get(cell) {
            return None;
        }
        Some(cell)
    }
}

impl CellStore for SharedRam {
    ghost cells = { λ m. shared_cells m };

    ghost barred = { λ m cell. shared_barred m cell };

    ghost are_cells = { shared_are_cells };

    #[tactic(auto, using(crate::proofs::Reading::byte_written))]
    #[inline(always)]
    fn byte(&self, address: u8) -> Seen {
        if self.written.is_byte_set(address) {
            return self.memory.byte(address);
        }
        self.byte_of_bits(address)
    }

    #[tactic(auto, using(crate::proofs::Reading::bit_value))]
    fn bit(&self, address: u8) -> Seen {
        match self.blocked(256 + usize::from(address)) {
            Some(seen) => seen,
            None => self.memory.bit(address),
        }
    }

    #[tactic(auto, using(crate::proofs::Reading::xdead, crate::proofs::Reading::xnew, crate::proofs::Reading::xhas))]
    fn xbyte(&self, address: u16) -> Seen {
        let cell = Cell {
            space: Space::Xram,
            at: u32::from(address),
        };
        if !self.live.get(cell) {
            return Seen::Outside(cell);
        }
        if !self.written.get(cell) {
            return Seen::Unset(cell);
        }
        self.memory.xbyte(address)
    }

    #[tactic(auto, unfolding(m51_flat::specs::States::shut_of))]
    #[inline(always)]
    fn shut(&self, put: &Put) -> Option<Cell> {
        match *put {
            Put::Nothing => None,
            Put::Byte { address, .. } => self.dead_in_byte(address),
            Put::Bit { address, .. } => self.first_dead(256 + usize::from(address), 1),
            Put::Xbyte { address, .. } => self.dead_xbyte(address),
        }
    }

    #[tactic(auto, using(m51_flat::proofs::Flat::open_to_puts))]
    #[inline(always)]
    fn put(&mut self, put: &Put) {
        // A copy, since the memory that is written could be that of the put.
        let put = *put;
        if let Put::Nothing = put {
            return;
        }
        self.memory.put(&put);
        mark_put(&mut self.written, put);
    }
}
