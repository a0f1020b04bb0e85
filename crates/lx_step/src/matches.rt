//! A match: where it stands, and where its steps go.
ghost use Rattle.std.specs.Prelude.{◌≡◌, ◌≤◌, ◌<◌, ◌+◌, ◌*◌, Some, length, option_map, slice_get};
ghost use Rattle.lx_base.specs.declared.limits.TheConstants.{STATEMENT_LIMIT};
ghost use Rattle.lx_ccode.specs.Machine.{code_at};
ghost use Rattle.lx_step.specs.Assigned.{with_statement};
ghost use Rattle.lx_step.specs.Conds.{IsCond, cond_name};
ghost use Rattle.lx_step.specs.Matches.{GoesTo, IsStartOf, StartsIn};
ghost use Rattle.lx_step.specs.Places.{AreRoomy, StandsAt, StaysIn, place_of, room_of};

use crate::answers::{Outcome, StmtAt};
use crate::assignments::is_assignment;
use crate::conds::entry_block;
use crate::scanner::Going;
use indexmap::IndexSet;
use lx_ccode::{CodeBlock, Piece, Stmt};
use std::alloc::Global;

/// A piece to be run, how many statements it has, and how many of them assign something of the user's.
#[derive(Clone, Copy)]
pub(crate) struct Program<'p> {
    pub(crate) alloc: Global,
    pub(crate) piece: &'p Piece,
    pub(crate) statements: u64,
    pub(crate) assignments: u64,
}

/// A place in the code: a block, its statements, and one of them.
#[derive(Clone, Copy)]
pub(crate) struct Position<'p> {
    pub(crate) block: u64,
    pub(crate) code: &'p [Stmt],
    pub(crate) stmt: usize,
}

impl Program<'_> {
    /// The steps after which a match that has so many units before it has looped.
    pub(crate) fn most_steps(&self, units: u64) -> u128
        requires { self.now.statements ≤ STATEMENT_LIMIT }
        ensures { result ≡ 2 * (units + 2) * self.now.statements }
    {
        2 * (u128::from(units) + 2) * u128::from(self.statements)
    }
}

/// Where a match in a condition starts, if the condition has a block.
pub(crate) fn entry<'p>(piece: &'p Piece, cond: u64) -> Option<Position<'p>>
    requires { IsCond piece.now.conds cond }
    ensures { StartsIn piece.now (cond_name piece.now.conds cond) result }
{
    let block = entry_block(piece.conds.as_slice(), cond)?;
    start_of(piece, block)
}

/// The start of a block, if there is such a block.
pub(crate) fn start_of<'p>(piece: &'p Piece, block: u64) -> Option<Position<'p>>
    ensures { IsStartOf piece.now.blocks block result }
{
    let code = code_at(piece.blocks.as_slice(), block)?;
    Some(Position {
        block,
        code,
        stmt: 0,
    })
}

/// The statements of a block, if there is such a block.
fn code_at(blocks: &[CodeBlock], block: u64) -> Option<&[Stmt]>
    ensures { option_map (λ code. code.now) result ≡ code_at blocks.now (Some block) }
{
    let block = blocks.get(block as usize)?;
    Some(block.stmts.as_slice())
}

/// A statement of a block, if there is one at the place.
pub(crate) fn statement_at(code: &[Stmt], place: usize) -> Option<&Stmt>
    ensures { option_map (λ stmt. stmt.now) result ≡ slice_get code.now place }
{
    code.get(place)
}

/// The place of a statement that assigns something is put to the others, unless it is there.
pub(crate) fn note(piece: &Piece, assigned: &mut IndexSet<StmtAt>, at: Position<'_>, stmt: &Stmt)
    requires stands { StandsAt piece.now.blocks at stmt.now }
    requires places { AreRoomy piece.now.blocks (room_of assigned.old) }
    requires within { StaysIn piece.now.blocks assigned.old.keys }
    ensures noted { assigned.new.keys ≡ with_statement (place_of at.entry) stmt.now assigned.old.keys }
    ensures places { AreRoomy piece.now.blocks (room_of assigned.new) }
    ensures within { StaysIn piece.now.blocks assigned.new.keys }
{
    let place = StmtAt {
        block: at.block,
        stmt: at.stmt as u64,
    };
    if !is_assignment(stmt) || assigned.contains(&place) {
        return;
    }
    assigned.insert(place).unwrap();
}

/// Where a step goes on, or how it ends the match.
pub(crate) fn next_position<'p>(
    piece: &'p Piece,
    at: Position<'p>,
    going: Going,
) -> Result<Position<'p>, Outcome>
    requires { at.stmt < length at.code.now }
    ensures { GoesTo piece.now.blocks at.entry going result }
{
    match going {
        Going::Next => Ok(Position {
            stmt: at.stmt + 1,
            ..at
        }),
        Going::Ends(outcome) => Err(outcome),
        Going::To(block) => match code_at(piece.blocks.as_slice(), block) {
            None => Err(Outcome::Stuck),
            Some(code) => Ok(Position {
                block,
                code,
                stmt: 0,
            }),
        },
    }
}
