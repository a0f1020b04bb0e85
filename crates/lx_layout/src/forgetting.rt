//! What a match kept is forgotten before a jump to a condition, where a statement of the piece tests it.
ghost use Rattle.std.specs.Prelude.{◌≡◌, IfOk, OnOk, map, true};
ghost use Rattle.std.specs.List.{list_any};
ghost use Rattle.lx_layout.specs.Forgetting.{any_tests_kept, ends_by_jump, forgetting, forgetting_block, forgetting_blocks, is_jump, tests_kept};

use lx_base::{Memory, Sequence};
use lx_ccode::{CodeBlock, Stmt};
use std::alloc::Global;
use std::mem::replace;

/// Whether a statement tests what was kept.
fn tests_kept(stmts: &[Stmt]) -> bool
    ensures { result ≡ list_any tests_kept stmts.now }
{
    for stmt in stmts {
        if let Stmt::IfAccept(_, _) = stmt {
            return true;
        }
    }
    false
}

/// Whether a statement of blocks tests what was kept.
fn any_tests_kept(blocks: &[CodeBlock]) -> bool
    ensures { result ≡ any_tests_kept blocks.now }
{
    for block in blocks {
        if tests_kept(block.stmts.as_slice()) {
            return true;
        }
    }
    false
}

/// Whether the statement goes on in a condition.
fn is_jump(stmt: &Stmt) -> bool
    ensures { result ≡ is_jump stmt.now }
{
    matches!(stmt, Stmt::Jump(_, _))
}

/// Whether the last statement goes on in a condition.
fn ends_by_jump(stmts: &[Stmt]) -> bool
    ensures { result ≡ ends_by_jump stmts.now }
{
    match stmts.last() {
        None => false,
        Some(last) => is_jump(last),
    }
}

/// Statements that end by a jump, with what was kept forgotten before it.
fn forgetting(stmts: Sequence<Stmt>) -> Result<Sequence<Stmt>, Memory>
    requires { ends_by_jump stmts ≡ true }
    ensures { IfOk result (λ more. more ≡ forgetting stmts) }
{
    let mut stmts = stmts.into_vec();
    let last = stmts.len() - 1;
    stmts.insert(last, Stmt::Accept(0))?;
    Ok(Sequence::from_vec(stmts))
}

/// Forgets what was kept before a block's last statement, if that goes on in a condition.
fn forget_in(alloc: Global, block: &mut CodeBlock) -> Result<(), Memory>
    ensures { OnOk result (block.new ≡ forgetting_block block.old) }
{
    if ends_by_jump(block.stmts.as_slice()) {
        let stmts = replace(&mut block.stmts, Sequence::new(alloc));
        block.stmts = forgetting(stmts)?;
    }
    Ok(())
}

/// Forgets it so in all blocks.
fn forget_in_all(alloc: Global, blocks: &mut Vec<CodeBlock>) -> Result<(), Memory>
    ensures { OnOk result (blocks.new.items ≡ map forgetting_block blocks.old.items) }
{
    for block in blocks.iter_mut() {
        forget_in(alloc, block)?;
    }
    Ok(())
}

/// Forgets what was kept before each jump to a condition, if a statement of the blocks tests it.
pub(crate) fn forget_before_jumps(alloc: Global, blocks: &mut Vec<CodeBlock>) -> Result<(), Memory>
    ensures { OnOk result (blocks.new.items ≡ forgetting_blocks (any_tests_kept blocks.old.items) blocks.old.items) }
{
    if any_tests_kept(blocks) {
        forget_in_all(alloc, blocks)?;
    }
    Ok(())
}
