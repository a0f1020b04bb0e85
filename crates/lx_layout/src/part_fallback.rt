//! The blocks of the fallback of a scanner.
ghost use Rattle.std.specs.Prelude.{◌≡◌, ◌∷◌, [], ◌++◌, IfOk, OnOk};
ghost use Rattle.lx_layout.specs.Codes.{restore_code};
ghost use Rattle.lx_layout.specs.Fallback.{fallback_code};
ghost use Rattle.lx_layout.specs.LaidParts.{ArePartEnds, halting_at, restores_at, rule_at, saved_at};
ghost use Rattle.lx_layout.specs.Layout.{choices_from, restore_blocks};
ghost use Rattle.lx_layout.specs.Plans.{unlabelled};
ghost use Rattle.lx_layout.specs.SuppliedLayout.{fallback_part};

use crate::blocks::{append_block, sum};
use crate::part_ends::PartEnds;
use lx_base::Memory;
use lx_ccode::{CodeBlock, Stmt};
use std::alloc::Global;

/// Appends the statements of the fallback, which leads to no rule where a match may have come to no state that accepts.
fn append_choices(stmts: &mut Vec<Stmt>, ends: &PartEnds<'_>, leaves: bool) -> Result<(), Memory>
    requires { ArePartEnds ends.now }
    ensures { OnOk result (stmts.new.items ≡ stmts.old.items
        ++ fallback_code leaves (choices_from 1 (restores_at ends.now.plans) (saved_at ends.now.plans))) }
{
    let mut saved = 1;
    let mut block = ends.restores;
    let count = ends.saved.list.len();
    for (place, _first) in ends.saved.list.iter().enumerate() {
        if !leaves && place + 1 == count {
            stmts.push(Stmt::Goto(block))?;
            return Ok(());
        }
        stmts.push(Stmt::IfAccept(saved, block))?;
        saved += 1;
        block = sum(block, 1)?;
    }
    stmts.push(Stmt::Leave)?;
    Ok(())
}

/// The statements of the fallback.
fn fallback_code(alloc: Global, ends: &PartEnds<'_>, leaves: bool) -> Result<Vec<Stmt>, Memory>
    requires { ArePartEnds ends.now }
    ensures { IfOk result (λ stmts. stmts.items
        ≡ fallback_code leaves (choices_from 1 (restores_at ends.now.plans) (saved_at ends.now.plans))) }
{
    let mut stmts = Vec::with_capacity(alloc, ends.saved.list.len() + 1)?;
    append_choices(&mut stmts, ends, leaves)?;
    Ok(stmts)
}

/// Appends the block of the fallback, if a match falls back from some state.
pub(crate) fn append_fallback(
    alloc: Global,
    blocks: &mut Vec<CodeBlock>,
    ends: &PartEnds<'_>,
) -> Result<(), Memory>
    requires { ArePartEnds ends.now }
    ensures { OnOk result (blocks.new.items ≡ blocks.old.items
        ++ unlabelled (fallback_part (halting_at ends.now.plans) ends.now.plans.input.auto.now (restores_at ends.now.plans))) }
{
    let plans = &ends.plans;
    if !plans.marks.any_falls(plans.input.auto.states.as_slice()) {
        return Ok(());
    }
    let leaves = plans.marks.falls(0);
    append_block(blocks, fallback_code(alloc, ends, leaves)?)
}

/// The statements of the end of a match by a state that was saved.
fn restore_code(alloc: Global, block: u64) -> Result<Vec<Stmt>, Memory>
    ensures { IfOk result (λ stmts. stmts.items ≡ restore_code block) }
{
    let stmts = vec![in alloc; Stmt::Restore, Stmt::Goto(block)]?;
    Ok(stmts)
}

/// Appends the block that restores the marker and goes to the end of a rule.
fn append_restore(
    alloc: Global,
    blocks: &mut Vec<CodeBlock>,
    ends: &PartEnds<'_>,
    rule: u32,
) -> Result<(), Memory>
    requires { ArePartEnds ends.now }
    ensures { OnOk result (blocks.new.items ≡ blocks.old.items ++ unlabelled (restore_code (rule_at ends.now.plans rule) ∷ [])) }
{
    let block = ends.rule_block(rule)?;
    append_block(blocks, restore_code(alloc, block)?)
}

/// Appends the blocks that restore the marker and go to the end of a rule, one for each rule of a saved accept.
pub(crate) fn append_restores(
    alloc: Global,
    blocks: &mut Vec<CodeBlock>,
    ends: &PartEnds<'_>,
) -> Result<(), Memory>
    requires { ArePartEnds ends.now }
    ensures { OnOk result (blocks.new.items ≡ blocks.old.items ++ unlabelled (restore_blocks (rule_at ends.now.plans) (saved_at ends.now.plans))) }
{
    for first in &ends.saved.list {
        append_restore(alloc, blocks, ends, first.accept.rule)?;
    }
    Ok(())
}
