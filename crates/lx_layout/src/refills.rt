//! The blocks for the end of the input.
ghost use Rattle.std.specs.Prelude.{◌≡◌, ◌∷◌, [], ◌++◌, true, IfOk, OnOk};
ghost use Rattle.lx_layout.specs.Plans.{unlabelled};
ghost use Rattle.lx_layout.specs.SuppliedLayout.{refill_blocks};
ghost use Rattle.lx_layout.specs.Supplies.{back_code, end_test, entry, try_code};
ghost use Rattle.lx_layout.specs.Ways.{constant};

use crate::blocks::{append_block, sum};
use crate::readers::append_store;
use lx_base::Memory;
use lx_ccode::{CodeBlock, Stmt};
use std::alloc::Global;

/// What stands where the unit at the end of the input was read.
#[derive(Clone, Copy)]
pub(crate) struct Turn {
    /// By which number what read it is stored, if it is.
    pub stored: Option<u64>,
    /// The block of what read it.
    pub block: u64,
    /// The first of these blocks.
    pub here: u64,
    /// Where the unit leads if it is one of the input.
    pub to: u64,
    /// Where the match ends.
    pub end: u64,
}

/// The statements that test for the end of the input.
fn end_test(alloc: Global, asked: u64, to: u64) -> Result<Vec<Stmt>, Memory>
    ensures { IfOk result (λ stmts. stmts.items ≡ end_test asked to) }
{
    let stmts = vec![in alloc; Stmt::IfEnd(asked), Stmt::Goto(to)]?;
    Ok(stmts)
}

/// The statements that try a refill.
fn try_code(alloc: Global, stored: Option<u64>, block: u64, end: u64) -> Result<Vec<Stmt>, Memory>
    ensures { IfOk result (λ stmts. stmts.items ≡ try_code (constant stored) entry block end) }
{
    let count = if stored.is_some() { 3 } else { 2 };
    let mut stmts = Vec::with_capacity(alloc, count)?;
    append_store(&mut stmts, stored)?;
    stmts.push(Stmt::Try(block))?;
    stmts.push(Stmt::Goto(end))?;
    Ok(stmts)
}

/// The statements of a scanner that comes back after a refill.
fn back_code(alloc: Global, block: u64, end: u64) -> Result<Vec<Stmt>, Memory>
    ensures { IfOk result (λ stmts. stmts.items ≡ back_code block end) }
{
    let stmts = vec![in alloc; Stmt::IfEnd(end), Stmt::Goto(block)]?;
    Ok(stmts)
}

/// Appends the block that tests for the end of the input.
fn append_test(
    alloc: Global,
    blocks: &mut Vec<CodeBlock>,
    asked: u64,
    to: u64,
) -> Result<(), Memory>
    ensures { OnOk result (blocks.new.items ≡ blocks.old.items ++ unlabelled (end_test asked to ∷ [])) }
{
    append_block(blocks, end_test(alloc, asked, to)?)
}

/// Appends the block that tries a refill.
fn append_try(alloc: Global, blocks: &mut Vec<CodeBlock>, turn: Turn) -> Result<(), Memory>
    ensures { OnOk result (blocks.new.items ≡ blocks.old.items
        ++ unlabelled (try_code (constant turn.stored) entry turn.block turn.end ∷ [])) }
{
    append_block(blocks, try_code(alloc, turn.stored, turn.block, turn.end)?)
}

/// Appends the block of a scanner that comes back after a refill.
fn append_back(alloc: Global, blocks: &mut Vec<CodeBlock>, turn: Turn) -> Result<(), Memory>
    ensures { OnOk result (blocks.new.items ≡ blocks.old.items ++ unlabelled (back_code turn.block turn.end ∷ [])) }
{
    append_block(blocks, back_code(alloc, turn.block, turn.end)?)
}

/// Appends the blocks of a refill.
fn append_refill(alloc: Global, blocks: &mut Vec<CodeBlock>, turn: Turn) -> Result<(), Memory>
    ensures { OnOk result (blocks.new.items ≡ blocks.old.items
        ++ unlabelled (refill_blocks (constant turn.stored) entry true (constant turn.stored) turn.block turn.here turn.to turn.end)) }
{
    let asked = sum(1, turn.here)?;
    append_test(alloc, blocks, asked, turn.to)?;
    append_try(alloc, blocks, turn)?;
    if turn.stored.is_some() {
        append_back(alloc, blocks, turn)?;
    }
    Ok(())
}

/// Appends the blocks for the end of the input, where a refill is tried or not.
pub(crate) fn append_turn(
    alloc: Global,
    blocks: &mut Vec<CodeBlock>,
    tries: bool,
    turn: Turn,
) -> Result<(), Memory>
    ensures { OnOk result (blocks.new.items ≡ blocks.old.items
        ++ unlabelled (refill_blocks (constant turn.stored) entry tries (constant turn.stored) turn.block turn.here turn.to turn.end)) }
{
    if tries {
        return append_refill(alloc, blocks, turn);
    }
    append_test(alloc, blocks, turn.end, turn.to)
}
