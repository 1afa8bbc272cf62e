//! Copies of modules.
ghost use Rattle.std.specs.Prelude.{◌≡◌, IfOk};

use crate::{Module, ModuleParts, Piece, Pieces};
use m51_cells::{Bytes, ListOf, NoMemory};
use std::alloc::Global;

// The list of these items.
fn list_of<T: Copy>(alloc: Global, items: &[T]) -> Result<ListOf<T>, NoMemory>
    ensures { IfOk result (λ list. list ≡ items.now) }
{
    Ok(ListOf::of(Vec::from_slice(alloc, items)?))
}

// The same piece.
fn piece_of(alloc: Global, piece: &Piece) -> Result<Piece, NoMemory>
    ensures { IfOk result (λ copy. copy ≡ piece.now) }
{
    let bytes = Vec::from_slice(alloc, piece.bytes.as_slice())?;
    Ok(Piece {
        segment: piece.segment,
        offset: piece.offset,
        bytes: Bytes::of(bytes),
    })
}

// The same pieces.
fn pieces_of(alloc: Global, pieces: &[Piece]) -> Result<Pieces, NoMemory>
    ensures { IfOk result (λ copies. copies ≡ pieces.now) }
{
    let mut copies = Vec::new(alloc);
    for piece in pieces {
        copies.push(piece_of(alloc, piece)?)?;
    }
    Ok(ListOf::of(copies))
}

impl Module {
    /// A module that is equal to this one; the only error is out of memory.
    ///
    /// Source: own choice ("Libraries").
    pub fn copy(&self, alloc: Global) -> Result<Module, NoMemory>
        ensures { IfOk result (λ copy. copy ≡ self.now) }
    {
        let segments = list_of(alloc, self.segments())?;
        let publics = list_of(alloc, self.publics())?;
        let externals = list_of(alloc, self.externals())?;
        let pieces = pieces_of(alloc, self.pieces())?;
        let fixups = list_of(alloc, self.fixups())?;
        Ok(Module::make(ModuleParts {
            name: self.name(),
            version: self.version(),
            segments,
            publics,
            externals,
            pieces,
            fixups,
            banks: self.banks(),
        }))
    }
}
