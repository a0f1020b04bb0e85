//! Blocks of statements, and their numbers.
ghost use Rattle.std.specs.Prelude.{◌≡◌, ◌+◌, ◌∷◌, [], ◌++◌, IfOk, OnOk};
ghost use Rattle.lx_layout.specs.Plans.{unlabelled};

use lx_base::{Memory, Sequence};
use lx_ccode::{CodeBlock, Stmt};

/// Appends a block of statements.
pub(crate) fn append_block(blocks: &mut Vec<CodeBlock>, stmts: Vec<Stmt>) -> Result<(), Memory>
    ensures { OnOk result (blocks.new.items ≡ blocks.old.items ++ unlabelled (stmts.items ∷ [])) }
{
    blocks.push(CodeBlock {
        cond: None,
        stmts: Sequence::from_vec(stmts),
    })?;
    Ok(())
}

/// The sum of numbers of blocks. A number that has no 64 bits counts as want of memory.
pub(crate) fn sum(first: u64, more: u64) -> Result<u64, Memory>
    ensures { IfOk result (λ all. all ≡ first + more) }
{
    first.checked_add(more).ok_or(Memory)
}
