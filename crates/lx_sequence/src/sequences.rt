//! Operations that act at once, as operations that act one by one: the sequentialisation of parallel copies
//! (Rideau, Serpette and Leroy, 2008).
ghost use Rattle.std.specs.Prelude.{List, not, ◌≡◌, ◌∷◌, ◌++◌, IfOk, OnOk};
ghost use Rattle.std.specs.Ordering.{nat_cmp};
ghost use Rattle.std.specs.BTreeSet.{contains};
ghost use Rattle.lx_sequence.specs.CopyOps.{AreCopiesBehind, AreMCopiesBehind, AreMarksBehind, IsNoted, seen_copies};
ghost use Rattle.lx_sequence.specs.ParallelCopies.{added_marks, copies, copy_ops, marks, mcopies, mcopy_ops, sequentialized};
ghost use Rattle.lx_sequence.specs.Turns.{ActsOneByOne};

use crate::copy_sequences::{CopyOp, in_sequence};
use lx_auto::Op;
use lx_base::Memory;
use std::alloc::Global;
use std::collections::BTreeSet;

/// Whether no later operation writes a register, which is noted as written.
fn is_last(later: &mut BTreeSet<u32>, reg: u32) -> Result<bool, Memory>
    ensures last { IfOk result (λ last. last ≡ not (contains nat_cmp later.old reg)) }
    ensures noted { OnOk result (IsNoted later.old later.new reg) }
{
    Ok(later.insert(reg)?)
}

/// Notes an operation, where all later ones are noted: which register it writes, and its copy between registers if it
/// counts.
fn note_copy(later: &mut BTreeSet<u32>, list: &mut Vec<CopyOp>, op: Op) -> Result<(), Memory>
    ensures { OnOk result ((ops : List Op) → AreCopiesBehind later.old list.old.items ops → AreCopiesBehind later.new list.new.items (op ∷ ops)) }
{
    match op {
        Op::Here(target) => {
            is_last(later, target)?;
        }
        Op::Null(target) => {
            is_last(later, target)?;
        }
        Op::Copy(target, source) => {
            if is_last(later, target)? & (target != source) {
                list.push(CopyOp { target, source })?;
            }
        }
        _ => {}
    }
    Ok(())
}

/// The copies between registers that no later operation makes void, but for those of a register to itself.
fn copies_of(alloc: Global, ops: &[Op]) -> Result<Vec<CopyOp>, Memory>
    ensures { IfOk result (λ list. seen_copies list.items ≡ copies ops.now) }
{
    let mut later = BTreeSet::new(alloc);
    let mut list = Vec::new(alloc);
    let mut place = ops.len();
    while place > 0 {
        place -= 1;
        note_copy(&mut later, &mut list, ops[place])?;
    }
    list.reverse();
    Ok(list)
}

/// Notes an operation, where all later ones are noted: into which m-register it copies, and the copy if it counts.
fn note_mcopy(later: &mut BTreeSet<u32>, list: &mut Vec<CopyOp>, op: Op) -> Result<(), Memory>
    ensures { OnOk result ((ops : List Op) → AreMCopiesBehind later.old list.old.items ops → AreMCopiesBehind later.new list.new.items (op ∷ ops)) }
{
    if let Op::MCopy(target, source) = op {
        if is_last(later, target)? & (target != source) {
            list.push(CopyOp { target, source })?;
        }
    }
    Ok(())
}

/// The copies between m-registers that no later copy makes void, but for those of an m-register to itself.
fn mcopies_of(alloc: Global, ops: &[Op]) -> Result<Vec<CopyOp>, Memory>
    ensures { IfOk result (λ list. seen_copies list.items ≡ mcopies ops.now) }
{
    let mut later = BTreeSet::new(alloc);
    let mut list = Vec::new(alloc);
    let mut place = ops.len();
    while place > 0 {
        place -= 1;
        note_mcopy(&mut later, &mut list, ops[place])?;
    }
    list.reverse();
    Ok(list)
}

/// Notes an operation, where all later ones are noted: which register it writes, and the operation if it writes the
/// cursor or nothing and counts.
fn note_mark(later: &mut BTreeSet<u32>, list: &mut Vec<Op>, op: Op) -> Result<(), Memory>
    ensures { OnOk result ((ops : List Op) → AreMarksBehind later.old list.old.items ops → AreMarksBehind later.new list.new.items (op ∷ ops)) }
{
    match op {
        Op::Here(target) => {
            if is_last(later, target)? {
                list.push(op)?;
            }
        }
        Op::Null(target) => {
            if is_last(later, target)? {
                list.push(op)?;
            }
        }
        Op::Copy(target, _) => {
            is_last(later, target)?;
        }
        _ => {}
    }
    Ok(())
}

/// The writes of the cursor or of nothing to registers, but for those that a later operation overwrites.
fn marks_of(alloc: Global, ops: &[Op]) -> Result<Vec<Op>, Memory>
    ensures { IfOk result (λ list. list.items ≡ marks ops.now) }
{
    let mut later = BTreeSet::new(alloc);
    let mut list = Vec::new(alloc);
    let mut place = ops.len();
    while place > 0 {
        place -= 1;
        note_mark(&mut later, &mut list, ops[place])?;
    }
    list.reverse();
    Ok(list)
}

/// Appends the operations that append to m-registers.
fn append_added(list: &mut Vec<Op>, ops: &[Op]) -> Result<(), Memory>
    ensures { OnOk result (list.new.items ≡ list.old.items ++ added_marks ops.now) }
{
    for op in ops {
        match op {
            Op::MHere(_) | Op::MNull(_) => list.push(*op)?,
            _ => {}
        }
    }
    Ok(())
}

/// Appends copies between registers to a list.
fn append_copies(list: &mut Vec<Op>, copies: &[CopyOp]) -> Result<(), Memory>
    ensures { OnOk result (list.new.items ≡ list.old.items ++ copy_ops (seen_copies copies.now)) }
{
    for copy in copies {
        list.push(Op::Copy(copy.target, copy.source))?;
    }
    Ok(())
}

/// Appends copies between m-registers to a list.
fn append_mcopies(list: &mut Vec<Op>, copies: &[CopyOp]) -> Result<(), Memory>
    ensures { OnOk result (list.new.items ≡ list.old.items ++ mcopy_ops (seen_copies copies.now)) }
{
    for copy in copies {
        list.push(Op::MCopy(copy.target, copy.source))?;
    }
    Ok(())
}

/// The copies between registers in sequence, the other writes, the copies between m-registers in sequence, and what is put behind these.
fn one_by_one(alloc: Global, ops: &[Op], spare: u32, mspare: u32) -> Result<Vec<Op>, Memory>
    ensures { IfOk result (λ list. list.items ≡ sequentialized spare mspare ops.now) }
{
    let mut list = Vec::new(alloc);
    let copies = in_sequence(alloc, copies_of(alloc, ops)?, spare)?;
    append_copies(&mut list, &copies)?;
    list.extend_from_slice(&marks_of(alloc, ops)?)?;
    let copies = in_sequence(alloc, mcopies_of(alloc, ops)?, mspare)?;
    append_mcopies(&mut list, &copies)?;
    append_added(&mut list, ops)?;
    Ok(list)
}

/// Operations that do one by one what the given ones do at once, with a spare register of each sort (the sequentialisation of parallel
/// copies: Rideau, Serpette and Leroy, 2008).
///
/// `spare` is the number of a register and `mspare` that of an m-register, both behind all that the operations name; what these two held
/// is lost. `Memory` may be answered, and no clause ties it to a cause.
pub fn sequence(alloc: Global, ops: &[Op], spare: u32, mspare: u32) -> Result<Vec<Op>, Memory>
    ensures list { IfOk result (λ list. list.items ≡ sequentialized spare mspare ops.now) }
    ensures acts { IfOk result (λ list. ActsOneByOne spare mspare list.items ops.now) }
{
    one_by_one(alloc, ops, spare, mspare)
}
