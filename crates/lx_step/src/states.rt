//! The states that a piece stores, and where it goes on.
ghost use Rattle.std.specs.Prelude.{◌≡◌, ◌^◌, ◌<◌, ℕ, List, Some};
ghost use Rattle.std.specs.List.{list_any};
ghost use Rattle.std.specs.Option.{option_or};
ghost use Rattle.lx_ccode.specs.declared.piece.StateCase.{StateCase};
ghost use Rattle.lx_ccode.specs.Machine.{code_at};
ghost use Rattle.lx_ccode.specs.States.{block_of, state_block, states_from, states_in, stores, try_first};
ghost use Rattle.lx_ccode.specs.Statements.{all_statements};
ghost use Rattle.lx_ccode.specs.Validity.{AreOnce};
ghost use Rattle.lx_step.specs.Left.{IsReturnOf};

use crate::matches::{Position, statement_at};
use lx_ccode::{CodeBlock, StateCase, Stmt};

/// Whether a statement of the blocks stores the state.
pub(crate) fn has_state(blocks: &[CodeBlock], state: u64) -> bool
    ensures { result ≡ list_any (stores state) (all_statements blocks.now) }
{
    for block in blocks {
        if one_stores(block.stmts.as_slice(), state) {
            return true;
        }
    }
    false
}

/// Whether one of the statements stores it.
fn one_stores(statements: &[Stmt], state: u64) -> bool
    ensures { result ≡ list_any (stores state) statements.now }
{
    for statement in statements {
        if stores(statement, state) {
            return true;
        }
    }
    false
}

fn stores(statement: &Stmt, state: u64) -> bool
    ensures { result ≡ stores state statement.now }
{
    match statement {
        Stmt::State(other) => *other == state,
        _ => false,
    }
}

/// The state that is stored directly before a place, with the block where the piece goes on, if one is stored there.
pub(crate) fn return_before(blocks: &[CodeBlock], at: Position<'_>) -> Option<StateCase>
    requires once { AreOnce (states_from 0 blocks.now) }
    requires block { code_at blocks.now (Some at.block) ≡ Some at.code.now }
    ensures { IsReturnOf blocks.now result }
{
    let before = at.stmt.checked_sub(1)?;
    let Some(Stmt::State(state)) = statement_at(at.code, before) else {
        return None;
    };
    let goes_on = try_first(&at.code[at.stmt..]);
    Some(StateCase {
        state: *state,
        block: if goes_on { at.block + 1 } else { at.block },
    })
}

/// The state, with the block where the piece goes on, if it stores it.
pub(crate) fn return_of(blocks: &[CodeBlock], state: Option<u64>) -> Option<StateCase>
    ensures { IsReturnOf blocks.now result }
{
    let state = state?;
    let block = state_block(blocks, state)?;
    Some(StateCase { state, block })
}

/// The block where a piece that stored the state goes on, if it stores it. It is not looked for where it is known.
pub(crate) fn return_block(
    blocks: &[CodeBlock],
    known: Option<StateCase>,
    state: u64,
) -> Option<u64>
    requires { IsReturnOf blocks.now known }
    ensures { result ≡ state_block blocks.now state }
{
    if let Some(case) = known
        && case.state == state
    {
        return Some(case.block);
    }
    state_block(blocks, state)
}

/// The block where a piece that stored the state goes on, if it stores it.
fn state_block(blocks: &[CodeBlock], state: u64) -> Option<u64>
    ensures { result ≡ state_block blocks.now state }
{
    for (place, block) in blocks.iter().enumerate() {
        let found = block_in(block.stmts.as_slice(), place as u64, state);
        if found.is_some() {
            return found;
        }
    }
    None
}

/// The block where a piece goes on that stored the state in a block with this place, if a statement of it stores it.
fn block_in(statements: &[Stmt], place: u64, state: u64) -> Option<u64>
    requires { place < 2 ^ 63 }
    ensures { (others : List StateCase) → block_of (states_in place statements.now others) state ≡ option_or result (block_of others state) }
{
    for (index, statement) in statements.iter().enumerate() {
        if stores(statement, state) {
            let goes_on = try_first(&statements[index + 1..]);
            return Some(if goes_on { place + 1 } else { place });
        }
    }
    None
}

fn try_first(statements: &[Stmt]) -> bool
    ensures { result ≡ try_first statements.now }
{
    match statements.first() {
        Some(Stmt::Try(_)) => true,
        _ => false,
    }
}
