//! The pieces of a run of bytes.
ghost use Rattle.std.specs.Prelude.{◌≡◌, ◌+◌, ◌*◌, ◌<◌, ◌≤◌, ◌++◌, length, take, IfOk, OnOk};
ghost use Rattle.m51_cells.specs.declared.limits.TheConstants.{MOST_PIECE_BYTES};
ghost use Rattle.m51_emit.specs.Pieces.{piece_at, pieces_of_run};

use m51_cells::{Bytes, MOST_PIECE_BYTES, NoMemory};
use m51_module::Piece;
use std::alloc::Global;

// At most the bytes of a piece.
fn front(bytes: &[u8]) -> &[u8]
    ensures { result.now ≡ take MOST_PIECE_BYTES bytes.now }
{
    if bytes.len() < MOST_PIECE_BYTES {
        bytes
    } else {
        &bytes[..MOST_PIECE_BYTES]
    }
}

// Piece `index` of a run: it begins 1,024 * `index` bytes after the first byte.
fn piece_at(
    alloc: Global,
    segment: u8,
    from: usize,
    bytes: &[u8],
    index: usize,
) -> Result<Piece, NoMemory>
    requires memory { from + length bytes.now ≤ 65536 }
    requires inside { MOST_PIECE_BYTES * index < length bytes.now }
    ensures { IfOk result (λ piece. piece ≡ piece_at segment (from, bytes.now) index) }
{
    let first = MOST_PIECE_BYTES * index;
    let bytes = front(&bytes[first..]).to_vec(alloc)?;
    Ok(Piece {
        segment,
        offset: (from + first) as u16,
        bytes: Bytes::of(bytes),
    })
}

/// Appends the pieces of one more run: 1,024 bytes each, but for the last.
pub(crate) fn push_pieces(
    alloc: Global,
    pieces: &mut Vec<Piece>,
    segment: u8,
    from: usize,
    bytes: &[u8],
) -> Result<(), NoMemory>
    requires { from + length bytes.now ≤ 65536 }
    ensures { OnOk result (pieces.new.items ≡ pieces.old.items ++ pieces_of_run segment (from, bytes.now)) }
{
    for index in 0..bytes.len().div_ceil(MOST_PIECE_BYTES) {
        pieces.push(piece_at(alloc, segment, from, bytes, index)?)?;
    }
    Ok(())
}
