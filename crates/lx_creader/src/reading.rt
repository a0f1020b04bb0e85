//! Reads a whole piece, whatever the bytes are.
ghost use Rattle.std.specs.Prelude.{◌≡◌, IfOk, MatchOption, if◌then◌else◌};
ghost use Rattle.lx_ccode.specs.Reading.{conds_from, piece_at};
ghost use Rattle.lx_ccode.specs.Validity.{IsValid};
ghost use Rattle.lx_creader.specs.BlockParts.{AreFilled, IsBlockPart, IsRead, blocks_behind, manner_of};

use crate::blocks::{behind_brace, conds_from};
use crate::heads::head_at;
use crate::lines::Scope;
use crate::marks::line_at;
use crate::openings::Sections;
use crate::sections::{eof_at, names_at, table_at};
use crate::words::{after_digits, short_at, skip};
use lx_base::{Memory, Sequence};
use lx_ccode::{CodeBlock, CondCase, LineMark, Piece, StateCase, block_front, is_custom, is_three};
use std::alloc::Global;

/// A piece that was read, where its text may stand or not.
#[derive(Drop)]
pub(crate) struct PieceRead {
    pub piece: Piece,
    /// The place of its brace in the output, where it has one.
    pub place: Option<LineMark>,
}

/// What stands in a piece behind the table.
#[derive(Drop)]
struct BlockPart {
    /// Whether the piece declares the variables.
    declares: bool,
    /// The switch over stored states.
    states: Option<Sequence<StateCase>>,
    /// The cases of the switch over conditions.
    conds: Sequence<CondCase>,
    blocks: Sequence<CodeBlock>,
    /// Whether a block names the context marker as register 1.
    ctx: bool,
    /// The place in the source behind the block.
    line: Option<LineMark>,
}

/// The cases of the switch over conditions: in format 3 those of the labels, else those that were read.
fn conds_of(
    scope: &Scope<'_>,
    conds: Sequence<CondCase>,
    blocks: &[CodeBlock],
) -> Result<Sequence<CondCase>, Memory>
    ensures { IfOk result (λ read. read ≡ (if scope.now.three then conds_from 0 blocks.now else conds)) }
{
    if scope.three {
        conds_from(scope.alloc, blocks)
    } else {
        Ok(conds)
    }
}

/// What stands behind the table; `None` where a block has no statement.
fn block_part_at(
    scope: &Scope<'_>,
    fuel: usize,
    kept: bool,
    bytes: &[u8],
) -> Result<Option<BlockPart>, Memory>
    ensures { IfOk result (λ found. MatchOption found (AreFilled (blocks_behind fuel kept (manner_of scope.now) bytes.now).0 → ⊥)
        (IsBlockPart fuel kept (manner_of scope.now) bytes.now)) }
{
    let Sections {
        declares,
        states,
        conds,
        rest,
    } = scope.sections_of(fuel, kept, bytes)?;
    match scope.blocks_at(fuel, rest)? {
        None => Ok(None),
        Some((blocks, ctx, rest)) => {
            let (line, _) = line_at(scope.alloc, behind_brace(rest))?;
            let conds = conds_of(scope, conds, blocks.as_slice())?;
            Ok(Some(BlockPart {
                declares,
                states,
                conds,
                blocks,
                ctx,
                line,
            }))
        }
    }
}

/// The piece that is read at the front of the bytes, and its place; `None` only where no piece's text stands
/// there.
#[tactic(auto, unfolding(lx_ccode::specs::Reading::piece_at, lx_ccode::specs::Reading::reading))]
pub(crate) fn reading(alloc: Global, bytes: &[u8]) -> Result<Option<PieceRead>, Memory>
    ensures { IfOk result (λ found. MatchOption found (IsValid (piece_at bytes.now).0 → ⊥) (IsRead bytes.now)) }
{
    let fuel = bytes.len();
    let number = skip(bytes, 14);
    let (head, kept, rest) = head_at(skip(after_digits(number), 3));
    let unit = skip(rest, 14);
    let (eof, rest) = eof_at(skip(after_digits(unit), 1));
    let (names, rest) = names_at(alloc, 17, rest)?;
    let (place, rest) = line_at(alloc, skip(rest, 3))?;
    let (table, rest) = table_at(alloc, fuel, skip(rest, 2))?;
    let front = block_front(alloc, short_at(number))?;
    let scope = Scope {
        alloc,
        names: &names,
        custom: is_custom(&head),
        three: is_three(&head),
        placed: place.is_some(),
        front: front.as_slice(),
    };
    match block_part_at(&scope, fuel, kept, rest)? {
        None => Ok(None),
        Some(
            BlockPart {
                declares,
                states,
                conds,
                blocks,
                ctx,
                line,
            },
        ) => {
            let piece = Piece {
                number: short_at(number),
                head,
                names,
                unit: short_at(unit),
                eof,
                declares,
                ctx,
                table,
                states,
                conds,
                blocks,
                line,
            };
            Ok(Some(PieceRead { piece, place }))
        }
    }
}
