//! Lists without the operations of which the targets are not wanted, and what they read.
ghost use Rattle.std.specs.Prelude.{◌≡◌, ◌∷◌, ◌&&◌, ◌||◌, List, not, true, reverse, IfOk, OnOk};
ghost use Rattle.std.specs.List.{list_any};
ghost use Rattle.lx_auto.specs.Effects.{copies_itself, is_overwritten, target_of};
ghost use Rattle.lx_auto.specs.declared.automaton.Held.{Held as HeldValue};
ghost use Rattle.lx_auto.specs.declared.ops.Op.{Op as OpValue};
ghost use Rattle.lx_regs.specs.Dead.{KeepsWanted};
ghost use Rattle.lx_regs.specs.HeldSets.{Has, has, is_same};
ghost use Rattle.lx_regs.specs.IdleOps.{is_idle};
ghost use Rattle.lx_regs.specs.KeptLists.{AreWritten, IsListed, copies_from, is_read, overwrites, writes};
ghost use Rattle.lx_regs.specs.OrderedOps.{Ascend};

use crate::held_sets::HeldSet;
use crate::idle_ops::copies_itself;
use crate::ordered::ascend;
use lx_auto::{Held, Op, Ops};
use lx_base::Memory;
use std::alloc::Global;

/// Whether no later operation overwrites a register, which is noted as overwritten.
fn is_last(written: &mut HeldSet, held: Held) -> Result<bool, Memory>
    ensures last { IfOk result (λ last. last ≡ not (has written.old held)) }
    ensures noted { OnOk result ((other : HeldValue) → has written.new other ≡ (is_same other held || has written.old other)) }
{
    let last = !written.contains(held);
    written.insert(held)?;
    Ok(last)
}

/// Whether an operation writes what is wanted and no later one takes that away, where all that later ones overwrite is noted; what it
/// overwrites is noted too.
fn stays(wanted: &HeldSet, written: &mut HeldSet, op: Op) -> Result<bool, Memory>
    ensures stays { IfOk result (λ stays. (ops : List OpValue) → AreWritten written.old ops
        → stays ≡ (has wanted.now (target_of op) && not (is_overwritten op ops))) }
    ensures noted { OnOk result ((ops : List OpValue) → AreWritten written.old ops → AreWritten written.new (op ∷ ops)) }
{
    match op {
        Op::Here(target) | Op::Null(target) | Op::Copy(target, _) => {
            let last = is_last(written, Held::Reg(target))?;
            Ok(wanted.contains(Held::Reg(target)) & last)
        }
        Op::MCopy(target, _) => {
            let last = is_last(written, Held::MReg(target))?;
            Ok(wanted.contains(Held::MReg(target)) & last)
        }
        Op::MHere(target) | Op::MNull(target) => Ok(wanted.contains(Held::MReg(target))),
    }
}

/// Whether an operation stays, where all that later ones overwrite is noted: it does not if it copies a register to itself.
fn acts(wanted: &HeldSet, written: &mut HeldSet, op: Op) -> Result<bool, Memory>
    ensures acts { IfOk result (λ acts. (ops : List OpValue) → AreWritten written.old ops
        → acts ≡ (has wanted.now (target_of op) && not (is_idle op ops))) }
    ensures noted { OnOk result ((ops : List OpValue) → AreWritten written.old ops → AreWritten written.new (op ∷ ops)) }
{
    let last = stays(wanted, written, op)?;
    Ok(last & !copies_itself(op))
}

/// Puts an operation behind those that stay, if it stays.
fn keep_op(
    wanted: &HeldSet,
    written: &mut HeldSet,
    kept: &mut Vec<Op>,
    op: Op,
) -> Result<(), Memory>
    ensures written { OnOk result ((ops : List OpValue) → AreWritten written.old ops → AreWritten written.new (op ∷ ops)) }
    ensures kept { OnOk result ((ops : List OpValue) → AreWritten written.old ops
        → KeepsWanted (Has wanted.now) ops (reverse kept.old.items) → KeepsWanted (Has wanted.now) (op ∷ ops) (reverse kept.new.items)) }
{
    if acts(wanted, written, op)? {
        kept.push(op)?;
    }
    Ok(())
}

/// A list of the same operations.
fn ops_of(alloc: Global, items: &[Op]) -> Result<Ops, Memory>
    ensures { IfOk result (λ ops. ops ≡ items.now) }
{
    let mut ops = Ops::new(alloc);
    for op in items {
        ops.push(*op)?;
    }
    Ok(ops)
}

/// Whether an operation writes what is in a set and does not copy a register to itself.
fn serves(wanted: &HeldSet, op: Op) -> bool
    ensures { result ≡ (has wanted.now (target_of op) && not (copies_itself op)) }
{
    wanted.contains(target_of(op)) & !copies_itself(op)
}

/// The operations of a list that write what is in a set, but for copies of registers to themselves, where none takes away what an earlier
/// one did.
fn kept_in_order(alloc: Global, ops: &[Op], wanted: &HeldSet) -> Result<Ops, Memory>
    requires { Ascend ops.now }
    ensures { IfOk result (KeepsWanted (Has wanted.now) ops.now) }
{
    let mut kept = Ops::new(alloc);
    for op in ops {
        if serves(wanted, *op) {
            kept.push(*op)?;
        }
    }
    Ok(kept)
}

/// The operations of a list that write what is in a set, but for those of which a later one takes away what they did, and for copies of
/// registers to themselves.
pub(crate) fn kept_by(alloc: Global, ops: &[Op], wanted: &HeldSet) -> Result<Ops, Memory>
    ensures { IfOk result (KeepsWanted (Has wanted.now) ops.now) }
{
    if ascend(ops) {
        return kept_in_order(alloc, ops, wanted);
    }
    kept_from_end(alloc, ops, wanted)
}

/// The same of a list in any order.
fn kept_from_end(alloc: Global, ops: &[Op], wanted: &HeldSet) -> Result<Ops, Memory>
    ensures { IfOk result (KeepsWanted (Has wanted.now) ops.now) }
{
    let mut written = HeldSet::new(alloc);
    let mut kept = Vec::new(alloc);
    let mut place = ops.len();
    while place > 0 {
        place -= 1;
        keep_op(wanted, &mut written, &mut kept, ops[place])?;
    }
    kept.reverse();
    ops_of(alloc, &kept)
}

/// What an operation writes.
pub(crate) fn target_of(op: Op) -> Held
    ensures { result ≡ target_of op }
{
    match op {
        Op::Here(target) | Op::Null(target) | Op::Copy(target, _) => Held::Reg(target),
        Op::MHere(target) | Op::MNull(target) | Op::MCopy(target, _) => Held::MReg(target),
    }
}

/// What a list writes.
pub(crate) fn targets_of(alloc: Global, ops: &[Op]) -> Result<HeldSet, Memory>
    ensures { IfOk result (λ targets. (held : HeldValue) → has targets held ≡ list_any (writes held) ops.now) }
{
    let mut targets = HeldSet::new(alloc);
    for op in ops {
        targets.insert(target_of(*op))?;
    }
    Ok(targets)
}

/// The set of what a list has.
fn set_of(alloc: Global, items: &[Held]) -> Result<HeldSet, Memory>
    ensures { IfOk result (λ set. (held : HeldValue) → has set held ≡ list_any (is_same held) items.now) }
{
    let mut set = HeldSet::new(alloc);
    for held in items {
        set.insert(*held)?;
    }
    Ok(set)
}

/// A set that tells of what a list writes whether it is wanted.
fn wanted_of(alloc: Global, ops: &[Op], wanted: &[Held]) -> Result<HeldSet, Memory>
    ensures { IfOk result (λ set. (held : HeldValue) → list_any (writes held) ops.now ≡ true
        → has set held ≡ list_any (is_same held) wanted.now) }
{
    if wanted.len() <= ops.len() {
        return set_of(alloc, wanted);
    }
    let targets = targets_of(alloc, ops)?;
    HeldSet::of_both(alloc, wanted, &targets)
}

/// The operations of a list that write what is wanted, but for those of which a later one takes away what they did, and for copies of
/// registers to themselves.
pub(crate) fn kept_ops(alloc: Global, ops: &[Op], wanted: &[Held]) -> Result<Ops, Memory>
    ensures { IfOk result (KeepsWanted (IsListed wanted.now) ops.now) }
{
    let wanted = wanted_of(alloc, ops, wanted)?;
    let kept = kept_by(alloc, ops, &wanted)?;
    Ok(kept)
}

/// Notes what an operation overwrites, and what it copies, if it is asked for.
fn note_op(
    written: &mut HeldSet,
    sources: &mut HeldSet,
    asked: &HeldSet,
    op: Op,
) -> Result<(), Memory>
    ensures written { OnOk result ((held : HeldValue) → has written.new held ≡ (has written.old held || overwrites held op)) }
    ensures sources { OnOk result ((held : HeldValue) → has sources.new held
        ≡ (has sources.old held || (has asked.now held && copies_from held op))) }
{
    match op {
        Op::Here(target) | Op::Null(target) => written.insert(Held::Reg(target))?,
        Op::Copy(target, source) => {
            written.insert(Held::Reg(target))?;
            sources.insert_shared(asked, Held::Reg(source))?;
        }
        Op::MCopy(target, source) => {
            written.insert(Held::MReg(target))?;
            sources.insert_shared(asked, Held::MReg(source))?;
        }
        Op::MHere(_) | Op::MNull(_) => {}
    }
    Ok(())
}

/// Notes what a list overwrites, and what it copies of that which is asked for.
fn note_ops(
    written: &mut HeldSet,
    sources: &mut HeldSet,
    asked: &HeldSet,
    ops: &[Op],
) -> Result<(), Memory>
    ensures written { OnOk result ((held : HeldValue) → has written.new held
        ≡ (has written.old held || list_any (overwrites held) ops.now)) }
    ensures sources { OnOk result ((held : HeldValue) → has sources.new held
        ≡ (has sources.old held || (has asked.now held && list_any (copies_from held) ops.now))) }
{
    for op in ops {
        note_op(written, sources, asked, *op)?;
    }
    Ok(())
}

/// Adds one that is asked for, unless it is overwritten.
fn add_unwritten_one(
    sources: &mut HeldSet,
    asked: &HeldSet,
    written: &HeldSet,
    held: Held,
) -> Result<(), Memory>
    ensures { OnOk result ((other : HeldValue) → has sources.new other
        ≡ (has sources.old other || (has asked.now other && (is_same other held && not (has written.now other))))) }
{
    if asked.contains(held) && !written.contains(held) {
        sources.insert(held)?;
    }
    Ok(())
}

/// Adds those of a list that are asked for and not overwritten.
fn add_unwritten(
    sources: &mut HeldSet,
    asked: &HeldSet,
    written: &HeldSet,
    wanted: &[Held],
) -> Result<(), Memory>
    ensures { OnOk result ((held : HeldValue) → has sources.new held
        ≡ (has sources.old held || (has asked.now held && (list_any (is_same held) wanted.now && not (has written.now held))))) }
{
    for held in wanted {
        add_unwritten_one(sources, asked, written, *held)?;
    }
    Ok(())
}

/// Adds what a list reads for what is wanted behind it, of that which is asked for, if each of its operations is of use.
pub(crate) fn add_read(
    alloc: Global,
    sources: &mut HeldSet,
    asked: &HeldSet,
    ops: &[Op],
    wanted: &[Held],
) -> Result<(), Memory>
    ensures { OnOk result ((held : HeldValue) → has sources.new held
        ≡ (has sources.old held || (has asked.now held && is_read wanted.now ops.now held))) }
{
    let mut written = HeldSet::new(alloc);
    note_ops(&mut written, sources, asked, ops)?;
    add_unwritten(sources, asked, &written, wanted)?;
    Ok(())
}
