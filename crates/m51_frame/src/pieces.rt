//! Which pieces of one segment may follow each other.
ghost use Rattle.std.specs.Prelude.{◌≡◌};
ghost use Rattle.m51_frame.specs.Pieces.{ends_before};

use m51_cells::MOST_PIECE_BYTES;
use m51_module::Piece;

/// Whether the piece ends below the offset, or has the most bytes of a piece and ends at it: then another piece of its
/// segment may begin there. Both offsets count from the beginning of the segment.
///
/// Source: own choice ("Object records").
pub fn ends_before(piece: &Piece, offset: u16) -> bool
    ensures { result ≡ ends_before piece.now offset }
{
    let len = piece.bytes.len();
    let room = usize::from(offset.saturating_sub(piece.offset));
    if len == room {
        len == MOST_PIECE_BYTES
    } else {
        len < room
    }
}
