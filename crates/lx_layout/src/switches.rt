//! What a piece tells of its blocks: the cases of the switches over its stored states and over its conditions, and whether they name
//! register 1.
ghost use Rattle.std.specs.Prelude.{◌≡◌, ◌+◌, ◌++◌, [], ℕ, suc, IfOk, OnOk, length, None};
ghost use Rattle.std.specs.List.{list_any};
ghost use Rattle.lx_ccode.specs.States.{states_from, states_in, try_first};
ghost use Rattle.lx_ccode.specs.Statements.{all_statements, has_register_one};
ghost use Rattle.lx_layout.specs.Switches.{cond_cases};

use lx_base::Memory;
use lx_ccode::{CodeBlock, CondCase, StateCase, Stmt, has_register_one};
use std::alloc::Global;

/// Whether a refill is tried first.
fn try_first(stmts: &[Stmt]) -> bool
    ensures { result ≡ try_first stmts.now }
{
    matches!(stmts.first(), Some(Stmt::Try(_)))
}

/// Appends the states that a block's statements store, each with the block where a scanner that stored it goes on.
fn append_states(cases: &mut Vec<StateCase>, block: u64, stmts: &[Stmt]) -> Result<(), Memory>
    ensures { OnOk result (cases.new.items ≡ cases.old.items ++ states_in block stmts.now []) }
{
    for (place, stmt) in stmts.iter().enumerate() {
        if let Stmt::State(state) = stmt {
            let next = if try_first(&stmts[place + 1..]) {
                block.checked_add(1).ok_or(Memory)?
            } else {
                block
            };
            cases.push(StateCase {
                state: *state,
                block: next,
            })?;
        }
    }
    Ok(())
}

/// The cases of the states that blocks store, in the order in which these stand.
pub fn state_cases(alloc: Global, blocks: &[CodeBlock]) -> Result<Vec<StateCase>, Memory>
    ensures { IfOk result (λ cases. cases.items ≡ states_from 0 blocks.now) }
{
    let mut cases = Vec::new(alloc);
    for (block, code) in blocks.iter().enumerate() {
        append_states(&mut cases, block as u64, code.stmts.as_slice())?;
    }
    cases.shrink_to_fit();
    Ok(cases)
}

/// The cases of the conditions whose scanners begin at blocks, in their order.
pub(crate) fn cond_cases(alloc: Global, blocks: &[CodeBlock]) -> Result<Vec<CondCase>, Memory>
    ensures { IfOk result (λ cases. cases.items ≡ cond_cases 0 blocks.now) }
{
    let mut cases = Vec::new(alloc);
    for (block, code) in blocks.iter().enumerate() {
        if let Some(cond) = &code.cond {
            cases.push(CondCase {
                cond: cond.share()?,
                block: block as u64,
            })?;
        }
    }
    cases.shrink_to_fit();
    Ok(cases)
}

fn any_register_one(stmts: &[Stmt]) -> bool
    ensures { result ≡ list_any has_register_one stmts.now }
{
    for stmt in stmts {
        if has_register_one(stmt) {
            return true;
        }
    }
    false
}

/// Whether a statement of blocks names register 1.
pub fn names_register_one(blocks: &[CodeBlock]) -> bool
    ensures { result ≡ list_any has_register_one (all_statements blocks.now) }
{
    for block in blocks {
        if any_register_one(block.stmts.as_slice()) {
            return true;
        }
    }
    false
}
