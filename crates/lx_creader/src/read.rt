//! Reads the piece that stands at a place.
ghost use Rattle.std.specs.Prelude.{◌≡◌, ◌++◌, ◌↔◌, ℕ, List, IsTrue, length, drop, IfOk, MatchResult};
ghost use Rattle.lx_ccode.specs.Front.{BeginsWithPiece, BeginsWithPieceAt, IsPlaced};
ghost use Rattle.lx_ccode.specs.Validity.{IsValid};
ghost use Rattle.lx_creader.specs.Refusals.{IsRefusal};

use crate::reading::{PieceRead, reading};
use crate::statements::is_line;
use crate::validity::is_valid;
use crate::words::skip;
use lx_base::Memory;
use lx_ccode::laws::reading_finds_the_piece;
use lx_ccode::{LineMark, Piece, begins_with_piece, is_three};
use std::alloc::Global;
use thiserror::Error;

/// Why no piece was read.
#[derive(Debug, Drop, Error)]
pub enum PieceStop {
    /// Memory ran out. No clause ties this to a cause.
    #[error("out of memory")]
    Memory,
    /// At this offset, counted in bytes, stands the text of no piece.
    #[error("not emitted text at offset {0}")]
    NotEmitted(usize),
}

impl From<Memory> for PieceStop {
    ghost use Rattle.std.specs.Prelude.{◌≡◌};
    ghost use Rattle.lx_creader.specs.declared.read.PieceStop.TheVariants as stop;

    ghost from_gives = { λ _ stopped. stopped ≡ stop.Memory };

    fn from(_error: Memory) -> PieceStop {
        PieceStop::Memory
    }
}

/// The piece whose text stands at the offset, counted in bytes.
///
/// `NotEmitted` comes exactly where no piece's text stands there, and tells the offset.
pub fn read_piece(alloc: Global, bytes: &[u8], at: usize) -> Result<Piece, PieceStop>
    ensures { MatchResult result (λ piece. BeginsWithPiece (drop at bytes.now) piece) (λ stop. IsRefusal bytes.now at stop) }
{
    reading_finds_the_piece();
    let bytes = skip(bytes, at);
    match reading(alloc, bytes)? {
        None => Err(PieceStop::NotEmitted(at)),
        Some(PieceRead { piece, place }) => {
            let emitted = is_emitted(alloc, &place, &piece, bytes)?;
            if emitted {
                Ok(piece)
            } else {
                Err(PieceStop::NotEmitted(at))
            }
        }
    }
}

/// Whether the piece has a place just where it needs one, and the place has a spelling.
fn is_placed(place: &Option<LineMark>, piece: &Piece) -> bool
    ensures { IsTrue result ↔ IsPlaced place.now piece.now }
{
    let line = is_line(place);
    let stands = is_three(&piece.head) && piece.line.is_some();
    line && place.is_some() == stands
}

/// Whether the piece is valid and its text stands at the front of the bytes with this place.
fn is_emitted(
    alloc: Global,
    place: &Option<LineMark>,
    piece: &Piece,
    bytes: &[u8],
) -> Result<bool, Memory>
    ensures { IfOk result (λ emitted. IsTrue emitted ↔ (IsValid piece.now × IsPlaced place.now piece.now × BeginsWithPieceAt bytes.now place.now piece.now)) }
{
    let valid = is_valid(alloc, piece)?;
    if valid && is_placed(place, piece) {
        begins_with_piece(alloc, bytes, place, piece)
    } else {
        Ok(false)
    }
}
