//! The pieces of a source.
ghost use Rattle.std.specs.Prelude.{◌≡◌, ◌++◌, ◌+◌, ◌<◌, ◌≤◌, ◌^◌, drop, length, IfOk, OnOk, MatchResult, Ok};
ghost use Rattle.lx_base.specs.declared.limits.TheConstants.{SOURCE_LIMIT};
ghost use Rattle.lx_base.specs.Places.{file_start};
ghost use Rattle.lx_token.specs.Tokens.{place_of_rest};
ghost use Rattle.lx_split.specs.Pieces.{StopsWith, block, opener_size, outside, pieces_of, pieces_without_marks};

use crate::bodies::after_block;
use crate::marks::mark_place;
use crate::openers::{Opener, from_opener, opener_at, word_of};
use lx_base::{BlockKind, ByteText, Fault, Memory, Options, Pos, Sequence, Stop, place_after};
use lx_token::Unclosed;
use std::alloc::Global;

/// A piece of a source: text outside of blocks, or a block.
#[derive(Drop)]
pub enum SourcePiece {
    /// Text outside of blocks, which is copied to the output. It is not empty.
    Outside(ByteText),
    /// A block: `/*!`, a word, the body and `*/`.
    Block {
        kind: BlockKind,
        /// What stands between the word and the `*/`.
        body: ByteText,
        /// The place of the `/` of its opener.
        at: Pos,
        /// The place behind the word.
        body_at: Pos,
        /// The line of the `*/`.
        end_line: u32,
    },
}

/// The pieces of a source, in order.
pub type Pieces = Sequence<SourcePiece>;

/// Puts outside text at the end of the pieces, if it is not empty.
fn push_outside(alloc: Global, pieces: &mut Pieces, text: &[u8]) -> Result<(), Memory>
    ensures { OnOk result (pieces.new ≡ pieces.old ++ outside text.now) }
{
    if !text.is_empty() {
        pieces.push(SourcePiece::Outside(ByteText::copy_of(alloc, text)?))?;
    }
    Ok(())
}

/// The block of a kind that begins a text at `at` and before `tail`, which begins in the line `end_line`.
fn block_of(
    alloc: Global,
    kind: BlockKind,
    at: Pos,
    text: &[u8],
    tail: &[u8],
    end_line: u32,
) -> Result<SourcePiece, Memory>
    requires opener { opener_size kind + 2 + length tail.now ≤ length text.now }
    requires col { at.col + length text.now < 2 ^ 32 }
    requires line { at.line + length text.now < 2 ^ 32 }
    requires end { end_line ≡ (place_of_rest at text.now tail.now).line }
    ensures { IfOk result (λ piece. piece ≡ block kind at text.now tail.now) }
{
    let (opener, behind) = text.split_at(3 + word_of(kind).len());
    Ok(SourcePiece::Block {
        kind,
        body: ByteText::copy_of(alloc, &behind[..behind.len() - tail.len() - 2])?,
        at,
        body_at: place_after(at, opener),
        end_line,
    })
}

/// What follows an opener.
fn behind_opener(kind: BlockKind, text: &[u8]) -> &[u8]
    requires { opener_size kind ≤ length text.now }
    ensures { result.now ≡ drop (opener_size kind) text.now }
{
    &text[3 + word_of(kind).len()..]
}

/// The pieces of a file without marks of emitted text.
fn cut(alloc: Global, bytes: &[u8], file: u32, opts: &Options) -> Result<Pieces, Stop>
    requires { length bytes.now ≤ SOURCE_LIMIT }
    ensures { MatchResult result (λ pieces. pieces_without_marks opts.now file bytes.now ≡ Ok pieces) (StopsWith (pieces_without_marks opts.now file bytes.now)) }
{
    let mut pieces = Sequence::new(alloc);
    let mut at = Pos::start_of(file);
    let mut unclosed = Unclosed::new();
    let mut rest = bytes;
    loop {
        let text = from_opener(rest, opts);
        let outside = &rest[..rest.len() - text.len()];
        push_outside(alloc, &mut pieces, outside)?;
        at = place_after(at, outside);
        let kind = match opener_at(text, opts) {
            Opener::Absent => return Ok(pieces),
            Opener::Refused => return Err(Stop::Fault(Fault::Directive { at })),
            Opener::Opens(kind) => kind,
        };
        let tail = match after_block(kind, behind_opener(kind, text), &mut unclosed) {
            Some(tail) => tail,
            None => return Err(Stop::Fault(Fault::Unclosed { at })),
        };
        let end = place_after(at, &text[..text.len() - tail.len()]);
        pieces.push(block_of(alloc, kind, at, text, tail, end.line)?)?;
        at = end;
        rest = tail;
    }
}

/// Cuts a file into the texts outside of blocks and the blocks.
///
/// `/*!` and the longest run of letters, digits, `_` and `:` behind it open a block where that run is the word of a kind
/// of blocks, wherever in outside text it stands. A block ends at the first `*/` outside of its strings, classes, comments
/// and actions, and an ignored block at the first `*/`. An include is one block.
///
/// It refuses with `MarkInSource` exactly where a mark of emitted text stands in the file, at the first one; the last `/`
/// before an output counts as one before the file. Else it refuses at the first opener from the left that is faulty: with
/// `Directive` where its word holds `re2c` and opens no block, or none under these options, and with `Unclosed` where its
/// block, or a comment or an action in it, is not closed. `Memory` says that memory is wanting; it may be answered at each
/// source, and no clause ties it to a cause.
pub fn split(alloc: Global, bytes: &[u8], file: u32, opts: &Options) -> Result<Pieces, Stop>
    requires { length bytes.now ≤ SOURCE_LIMIT }
    ensures { MatchResult result (λ pieces. pieces_of opts.now file bytes.now ≡ Ok pieces) (StopsWith (pieces_of opts.now file bytes.now)) }
{
    match mark_place(bytes, Pos::start_of(file)) {
        Some(at) => Err(Stop::Fault(Fault::MarkInSource { at })),
        None => cut(alloc, bytes, file, opts),
    }
}
