//! Stores of cells.
ghost use Rattle.std.specs.Prelude.{◌≡◌, ℕ, ◌+◌, ◌<◌, Bool, None};
ghost use Rattle.m51_cells.specs.declared.cell.Cell.{Cell};
ghost use Rattle.m51_flat.specs.States.{States, AreCells, byte_seen, bit_seen, xbyte_seen, states_after, shut_of};

use crate::state::{Put, Seen};
use m51_cells::Cell;

/// An internal RAM and an external memory, of which a cell may be outside, or never written.
///
/// Source: own choice ("Stores of cells").
pub trait CellStore {
    /// What each cell holds.
    ghost cells: { Self → States };

    /// The cells that may not be written.
    ghost barred: { Self → Cell → Bool };

    /// A byte of internal RAM: its value if each of its eight cells holds a bit, or else the answer of the lowest that
    /// holds none.
    ///
    /// Source: own choice ("Stores of cells").
    fn byte(&self, address: u8) -> Seen
        ensures { result ≡ byte_seen (cells self.now) address };

    /// A bit of internal RAM by its bit address, 00H to 7FH: 0 or 1, or the answer of its cell.
    ///
    /// Source: own choice ("Stores of cells").
    fn bit(&self, address: u8) -> Seen
        requires { address < 128 }
        ensures { result ≡ bit_seen (cells self.now) (256 + address) };

    /// A byte of external memory, or the answer of its cell.
    ///
    /// Source: own choice ("Stores of cells").
    fn xbyte(&self, address: u16) -> Seen
        ensures { result ≡ xbyte_seen (cells self.now) address };

    /// The lowest cell of the put that may not be written.
    ///
    /// Source: own choice ("Stores of cells").
    fn shut(&self, put: &Put) -> Option<Cell>
        ensures { result ≡ shut_of (barred self.now) put.now };

    /// Writes the cells of the put, all of which may be written (`shut` answers none). All others hold what they held,
    /// and those that may not be written stay the same.
    ///
    /// Source: own choice ("Stores of cells").
    fn put(&mut self, put: &Put)
        requires { shut_of (barred self.old) put.now ≡ None }
        ensures cells { cells self.new ≡ states_after put.now (cells self.old) }
        ensures barred { barred self.new ≡ barred self.old };

    /// A cell of internal RAM holds 0 or 1, and there are no cells past the end of a memory.
    ghost are_cells: { (s : Self) → AreCells (cells s) };
}
