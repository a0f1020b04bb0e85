//! The statements of a piece that assign something of the user's, by their places.
ghost use Rattle.std.specs.Prelude.{◌≡◌, ◌≤◌, ◌↔◌, [], length, option_map, true, IsTrue};
ghost use Rattle.std.specs.List.{AllByRecursion};
ghost use Rattle.lx_base.specs.declared.limits.TheConstants.{STATEMENT_LIMIT};
ghost use Rattle.lx_ccode.specs.Statements.{statement_count};
ghost use Rattle.lx_step.specs.Assigned.{is_assignment};
ghost use Rattle.lx_step.specs.Places.{places_from, places_in, statement_at};
ghost use Rattle.lx_step.specs.Saved.{IsAssignmentAt};

use crate::answers::StmtAt;
use lx_ccode::{CodeBlock, Stmt};

/// The statement at a place.
pub(crate) fn statement_at(blocks: &[CodeBlock], place: StmtAt) -> Option<&Stmt>
    ensures { option_map (λ statement. statement.now) result ≡ statement_at blocks.now place }
{
    let block = blocks.get(place.block as usize)?;
    block.stmts.as_slice().get(place.stmt as usize)
}

/// Whether a statement assigns something of the user's.
pub(crate) fn is_assignment(stmt: &Stmt) -> bool
    ensures { result ≡ is_assignment stmt.now }
{
    matches!(stmt, Stmt::Tag(..) | Stmt::Count(_) | Stmt::Cond(_))
}

/// How many statements of the blocks do.
pub(crate) fn count_of_assignments(blocks: &[CodeBlock]) -> u64
    requires { statement_count blocks.now ≤ STATEMENT_LIMIT }
    ensures { result ≡ length (places_from 0 blocks.now) }
{
    let mut count = 0;
    for block in blocks {
        count += count_among(block.stmts.as_slice());
    }
    count
}

/// How many of the statements do.
fn count_among(statements: &[Stmt]) -> u64
    ensures { result ≡ length (places_in 0 0 statements.now []) }
{
    let mut count = 0;
    for statement in statements {
        if is_assignment(statement) {
            count += 1;
        }
    }
    count
}

/// Whether each of the places is that of such a statement.
pub(crate) fn are_assignments(blocks: &[CodeBlock], places: &[StmtAt]) -> bool
    ensures { IsTrue result ↔ AllByRecursion (IsAssignmentAt blocks.now) places.now }
{
    for place in places {
        if !is_assignment_at(blocks, *place) {
            return false;
        }
    }
    true
}

/// Whether such a statement stands at the place.
fn is_assignment_at(blocks: &[CodeBlock], place: StmtAt) -> bool
    ensures { IsTrue result ↔ IsAssignmentAt blocks.now place }
{
    match statement_at(blocks, place) {
        None => false,
        Some(statement) => is_assignment(statement),
    }
}
