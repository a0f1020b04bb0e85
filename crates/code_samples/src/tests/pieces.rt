//! Pieces of texts.
ghost use Rattle.std.specs.Prelude.{◌≡◌, IfSome};
ghost use Rattle.lx_ccode.specs.Validity.{IsValid};

use lx_ccode::Piece;
use lx_creader::read_piece;
use std::alloc::Global;

/// The piece at the front of a text, whose units are bytes; nothing where there is none.
pub(super) fn piece_of(alloc: Global, text: &[u8]) -> Option<Piece>
    ensures valid { IfSome result IsValid }
    ensures bytes { IfSome result (λ piece. piece.unit ≡ 1) }
{
    match read_piece(alloc, text, 0) {
        Ok(piece) if piece.unit == 1 => Some(piece),
        _ => None,
    }
}
