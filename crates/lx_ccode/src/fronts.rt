//! Tells whether a piece's text stands at the front of bytes, without the whole text in memory.
//!
//! What stands before the blocks, each block, and what stands behind them is written into one small text,
//! and compared with what stands next in the bytes.
ghost use Rattle.std.specs.Prelude.{◌≡◌, ◌↔◌, ◌++◌, [], IsTrue, IfOk, MatchOption};
ghost use Rattle.lx_ccode.specs.Front.{BeginsWithPieceAt, IsNoFront};
ghost use Rattle.lx_ccode.specs.Text.{blocks_line, blocks_then, closing_then, front_then, line_behind, line_then, opening_then, piece_then};
ghost use Rattle.lx_ccode.specs.Validity.{IsValid};
ghost use Rattle.lx_ccode.specs.Wording.{scope_wording, wording_of};

use crate::labels::standing_labels;
use crate::lines::{Scope, append_line};
use crate::piece::{CodeBlock, LineMark, Piece};
use crate::places::{file_of, line_of};
use lx_base::Memory;
use std::alloc::Global;

/// Whether the text of a valid piece stands at the front of the bytes, with this place where it has one.
///
/// It takes memory for what stands before the blocks, or for the longest block, and a byte for each block,
/// and never for the whole text.
pub fn begins_with_piece(
    alloc: Global,
    bytes: &[u8],
    place: &Option<LineMark>,
    piece: &Piece,
) -> Result<bool, Memory>
    requires { IsValid piece.now }
    ensures { IfOk result (λ begins. IsTrue begins ↔ BeginsWithPieceAt bytes.now place.now piece.now) }
{
    let labels = standing_labels(alloc, piece)?;
    let scope = Scope::of(alloc, piece, labels.as_slice(), file_of(place));
    let mut text = Vec::new(alloc);
    let rest = scope.behind_piece(&mut text, bytes, place, piece)?;
    Ok(rest.is_some())
}

/// What comes behind the text, where it stands at the front of the bytes.
fn behind<'a>(bytes: &'a [u8], text: &[u8]) -> Option<&'a [u8]>
    ensures { MatchOption result (IsNoFront (λ tail. text.now ++ tail) bytes.now) (λ rest. bytes.now ≡ text.now ++ rest.now) }
{
    bytes.strip_prefix(text)
}

/// Each method writes into a text, and what stood there is lost.
impl Scope<'_> {
    /// What comes behind the text of a piece, where it stands at the front of the bytes.
    fn behind_piece<'a>(
        &self,
        text: &mut Vec<u8>,
        bytes: &'a [u8],
        place: &Option<LineMark>,
        piece: &Piece,
    ) -> Result<Option<&'a [u8]>, Memory>
        requires { scope_wording self.now ≡ wording_of place.now piece.now }
        ensures { IfOk result (λ found. MatchOption found (IsNoFront (piece_then place.now piece.now) bytes.now) (λ rest. bytes.now ≡ piece_then place.now piece.now rest.now)) }
    {
        match self.behind_front(text, bytes, place, piece)? {
            None => Ok(None),
            Some(rest) => self.behind_opening(text, rest, line_of(place), piece),
        }
    }

    /// What comes behind the line of the spellings and the `#line` of the place.
    fn behind_front<'a>(
        &self,
        text: &mut Vec<u8>,
        bytes: &'a [u8],
        place: &Option<LineMark>,
        piece: &Piece,
    ) -> Result<Option<&'a [u8]>, Memory>
        ensures { IfOk result (λ found. MatchOption found (IsNoFront (λ tail. front_then piece.now (line_then place.now tail)) bytes.now) (λ rest. bytes.now ≡ front_then piece.now (line_then place.now rest.now))) }
    {
        text.clear();
        self.append_front(text, piece)?;
        append_line(text, place)?;
        Ok(behind(bytes, text.as_slice()))
    }

    /// What comes behind the rest of the text, from the brace on, which stands in this line.
    fn behind_opening<'a>(
        &self,
        text: &mut Vec<u8>,
        bytes: &'a [u8],
        line: Option<u32>,
        piece: &Piece,
    ) -> Result<Option<&'a [u8]>, Memory>
        requires number { self.now.number ≡ piece.now.number }
        requires names { self.now.names.now ≡ piece.now.names }
        ensures { IfOk result (λ found. MatchOption found
            (IsNoFront (λ tail. opening_then piece.now (blocks_then (scope_wording self.now) (line_behind line (opening_then piece.now [])) 0 piece.now.blocks (closing_then piece.now tail))) bytes.now)
            (λ rest. bytes.now ≡ opening_then piece.now (blocks_then (scope_wording self.now) (line_behind line (opening_then piece.now [])) 0 piece.now.blocks (closing_then piece.now rest.now)))) }
    {
        text.clear();
        let line = self.append_opening(text, line, piece)?;
        match behind(bytes, text.as_slice()) {
            None => Ok(None),
            Some(rest) => self.behind_others(text, rest, line, piece),
        }
    }

    /// What comes behind the blocks, which begin in this line, and what stands behind them.
    fn behind_others<'a>(
        &self,
        text: &mut Vec<u8>,
        bytes: &'a [u8],
        line: Option<u32>,
        piece: &Piece,
    ) -> Result<Option<&'a [u8]>, Memory>
        requires { self.now.number ≡ piece.now.number }
        ensures { IfOk result (λ found. MatchOption found
            (IsNoFront (λ tail. blocks_then (scope_wording self.now) line 0 piece.now.blocks (closing_then piece.now tail)) bytes.now)
            (λ rest. bytes.now ≡ blocks_then (scope_wording self.now) line 0 piece.now.blocks (closing_then piece.now rest.now))) }
    {
        match self.behind_blocks(text, line, piece.blocks.as_slice(), bytes)? {
            None => Ok(None),
            Some(closing) => self.behind_closing(text, closing, piece),
        }
    }

    fn behind_closing<'a>(
        &self,
        text: &mut Vec<u8>,
        bytes: &'a [u8],
        piece: &Piece,
    ) -> Result<Option<&'a [u8]>, Memory>
        requires { self.now.number ≡ piece.now.number }
        ensures { IfOk result (λ found. MatchOption found (IsNoFront (closing_then piece.now) bytes.now) (λ rest. bytes.now ≡ closing_then piece.now rest.now)) }
    {
        text.clear();
        self.append_closing(text, piece)?;
        Ok(behind(bytes, text.as_slice()))
    }

    /// What comes behind the blocks, of which the first is block 0 and begins in this line, where their text
    /// stands at the front of the bytes.
    fn behind_blocks<'a>(
        &self,
        text: &mut Vec<u8>,
        line: Option<u32>,
        blocks: &[CodeBlock],
        bytes: &'a [u8],
    ) -> Result<Option<&'a [u8]>, Memory>
        ensures { IfOk result (λ found. MatchOption found (IsNoFront (blocks_then (scope_wording self.now) line 0 blocks.now) bytes.now) (λ rest. bytes.now ≡ blocks_then (scope_wording self.now) line 0 blocks.now rest.now)) }
    {
        let mut line = line;
        let mut rest = bytes;
        for (place, block) in blocks.iter().enumerate() {
            text.clear();
            line = self.append_code_block(text, line, place as u64, block)?;
            match behind(rest, text.as_slice()) {
                None => return Ok(None),
                Some(next) => rest = next,
            }
        }
        Ok(Some(rest))
    }
}
