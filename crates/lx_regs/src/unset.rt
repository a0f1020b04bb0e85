//! Which registers hold nothing behind a list of operations, and the list without operations that empty a register which is empty.
ghost use Rattle.std.specs.Prelude.{◌≡◌, ℕ, List, [], ◌∷◌, ◌++◌, nat_eq, if◌then◌else◌, true, IfOk, IsTrue, OnOk};
ghost use Rattle.lx_auto.specs.declared.ops.Op.{Op as OpValue};
ghost use Rattle.lx_regs.specs.Unset.{IsKept, WritesRegister, empties, is_unset};

use lx_auto::{Op, Ops};
use lx_base::Memory;
use std::alloc::Global;

/// A list without operations that are not needed, and for each register whether it is known to hold nothing behind the list.
#[derive(Drop)]
pub(crate) struct Kept {
    pub(crate) ops: Ops,
    pub(crate) unset: Vec<bool>,
}

/// Whether a register is known to hold nothing.
pub(crate) fn is_unset(row: &[bool], reg: usize) -> bool
    ensures { result ≡ is_unset row.now reg }
{
    match row.get(reg) {
        Some(mark) => *mark,
        None => false,
    }
}

/// Notes of a register, if it is there, whether it is known to hold nothing.
fn note(row: &mut Vec<bool>, reg: usize, unset: bool)
    ensures { (other : ℕ) → is_unset row.new.items other ≡ true → (if nat_eq other reg then unset else is_unset row.old.items other) ≡ true }
{
    if reg < row.len() {
        row[reg] = unset;
    }
}

/// Whether an operation empties the register that it writes, where these are known to hold nothing before its list acts.
fn empties(before: &[bool], op: Op) -> bool
    ensures { result ≡ empties before.now op }
{
    match op {
        Op::Null(_) => true,
        Op::Copy(_, source) => is_unset(before, source as usize),
        Op::Here(_) | Op::MHere(_) | Op::MNull(_) | Op::MCopy(_, _) => false,
    }
}

/// Whether an operation that writes a register empties what is known to hold nothing behind the operations before it.
fn is_needless(kept: &Kept, before: &[bool], op: Op, target: u32) -> bool
    ensures { IsTrue result → (empties before.now op ≡ true) × (is_unset kept.now.unset.items target ≡ true) }
{
    empties(before, op) && is_unset(&kept.unset, target as usize)
}

/// Puts an operation that writes a register behind those that are kept, unless it is not needed.
fn keep_write(kept: &mut Kept, before: &[bool], op: Op, target: u32) -> Result<(), Memory>
    requires { WritesRegister op target }
    ensures { OnOk result ((ops : List OpValue) → IsKept before.now kept.old.unset.items ops kept.old.ops
        → IsKept before.now kept.new.unset.items (ops ++ op ∷ []) kept.new.ops) }
{
    if is_needless(kept, before, op, target) {
        return Ok(());
    }
    kept.ops.push(op)?;
    note(&mut kept.unset, target as usize, empties(before, op));
    Ok(())
}

/// Puts an operation behind those that are kept, unless it is not needed.
fn keep_op(kept: &mut Kept, before: &[bool], op: Op) -> Result<(), Memory>
    ensures { OnOk result ((ops : List OpValue) → IsKept before.now kept.old.unset.items ops kept.old.ops
        → IsKept before.now kept.new.unset.items (ops ++ op ∷ []) kept.new.ops) }
{
    match op {
        Op::Here(target) | Op::Null(target) | Op::Copy(target, _) => {
            keep_write(kept, before, op, target)
        }
        Op::MHere(_) | Op::MNull(_) | Op::MCopy(_, _) => {
            kept.ops.push(op)?;
            Ok(())
        }
    }
}

/// A list without operations that empty a register which holds nothing, where these are known to hold nothing before it acts.
pub(crate) fn kept_list(alloc: Global, ops: &[Op], before: &[bool]) -> Result<Kept, Memory>
    ensures { IfOk result (λ kept. IsKept before.now kept.unset.items ops.now kept.ops) }
{
    let mut kept = Kept {
        ops: Ops::new(alloc),
        unset: Vec::from_slice(alloc, before)?,
    };
    for op in ops {
        keep_op(&mut kept, before, *op)?;
    }
    Ok(kept)
}
