//! The list of operations that stands for all those that do the same.
ghost use Rattle.std.specs.Prelude.{◌≡◌, ◌++◌, IfOk, OnOk, map};
ghost use Rattle.std.specs.List.{prefix_len};
ghost use Rattle.lx_auto.specs.Effects.{copies_itself, effect_of, mark_by, marks_by, origin_after, origin_behind, sets, target_of};
ghost use Rattle.lx_auto.specs.declared.automaton.Held.TheVariants.{Reg};
ghost use Rattle.lx_min.specs.Canonical.{canonical, comes_before, marking, op_with, ops_on, targets_of, unless_itself, with_target};

use lx_auto::{Held, Op};
use lx_base::Memory;
use std::alloc::Global;

/// Whether the first comes before the second: registers do by their numbers, and so do m-registers, which come behind them.
fn comes_before(held: Held, other: Held) -> bool
    ensures { result ≡ comes_before held other }
{
    match (held, other) {
        (Held::Reg(reg), Held::Reg(other)) => reg < other,
        (Held::Reg(_), Held::MReg(_)) => true,
        (Held::MReg(_), Held::Reg(_)) => false,
        (Held::MReg(mreg), Held::MReg(other)) => mreg < other,
    }
}

/// How many of the first targets come before one.
fn place_of(targets: &[Held], held: Held) -> usize
    ensures { result ≡ prefix_len (λ other. comes_before other held) targets.now }
{
    let mut place = 0;
    while place < targets.len() && comes_before(targets[place], held) {
        place += 1;
    }
    place
}

/// Adds a target at its place, if it is not there yet.
fn add_target(targets: &mut Vec<Held>, held: Held) -> Result<(), Memory>
    ensures { OnOk result (targets.new.items ≡ with_target held targets.old.items) }
{
    let place = place_of(targets.as_slice(), held);
    if place == targets.len() || comes_before(held, targets[place]) {
        targets.insert(place, held)?;
    }
    Ok(())
}

/// What an operation writes.
fn target_of(op: Op) -> Held
    ensures { result ≡ target_of op }
{
    match op {
        Op::Here(target) | Op::Null(target) | Op::Copy(target, _) => Held::Reg(target),
        Op::MHere(target) | Op::MNull(target) | Op::MCopy(target, _) => Held::MReg(target),
    }
}

/// What operations write, each once, in ascending order.
fn targets_of(alloc: Global, ops: &[Op]) -> Result<Vec<Held>, Memory>
    ensures { IfOk result (λ targets. targets.items ≡ targets_of ops.now) }
{
    let mut targets = Vec::new(alloc);
    for op in ops {
        add_target(&mut targets, target_of(*op))?;
    }
    Ok(targets)
}

/// Whether an operation gives a register the offset, nothing, or what a register held.
fn sets(op: Op, reg: u32) -> bool
    ensures { result ≡ sets reg op }
{
    match op {
        Op::Here(target) | Op::Null(target) | Op::Copy(target, _) => reg == target,
        Op::MHere(_) | Op::MNull(_) | Op::MCopy(_, _) => false,
    }
}

/// The operation that does to a register what the list does to it.
fn op_on(ops: &[Op], reg: u32) -> Op
    ensures { result ≡ op_with reg (effect_of ops.now (Reg reg)) }
{
    let mut last = Op::Copy(reg, reg);
    for op in ops {
        if sets(*op, reg) {
            last = *op;
        }
    }
    last
}

/// Whose history an m-register has behind one more operation.
fn origin_behind(op: Op, mreg: u32, origin: u32) -> u32
    ensures { result ≡ origin_behind op mreg origin }
{
    match op {
        Op::MCopy(target, source) if mreg == target => source,
        _ => origin,
    }
}

/// Whose history an m-register has behind a list.
fn origin_on(ops: &[Op], mreg: u32) -> u32
    ensures { result ≡ origin_after ops.now mreg mreg }
{
    let mut origin = mreg;
    for op in ops {
        origin = origin_behind(*op, mreg, origin);
    }
    origin
}

/// Appends an operation, if it puts a mark at the end of an m-register.
fn push_mark(list: &mut Vec<Op>, op: Op, mreg: u32) -> Result<(), Memory>
    ensures { OnOk result (list.new.items ≡ list.old.items ++ map (marking mreg) (mark_by op mreg)) }
{
    match op {
        Op::MHere(target) | Op::MNull(target) if mreg == target => list.push(op)?,
        _ => {}
    }
    Ok(())
}

/// Appends the marks that a list puts at the end of an m-register.
fn push_marks(list: &mut Vec<Op>, ops: &[Op], mreg: u32) -> Result<(), Memory>
    ensures { OnOk result (list.new.items ≡ list.old.items ++ map (marking mreg) (marks_by ops.now mreg)) }
{
    for op in ops {
        push_mark(list, *op, mreg)?;
    }
    Ok(())
}

/// Whether an operation copies a register, or an m-register, to itself.
fn copies_itself(op: Op) -> bool
    ensures { result ≡ copies_itself op }
{
    match op {
        Op::Copy(target, source) | Op::MCopy(target, source) => target == source,
        Op::Here(_) | Op::Null(_) | Op::MHere(_) | Op::MNull(_) => false,
    }
}

/// Appends an operation, unless it copies a register to itself.
fn push_unless_itself(list: &mut Vec<Op>, op: Op) -> Result<(), Memory>
    ensures { OnOk result (list.new.items ≡ list.old.items ++ unless_itself op) }
{
    if !copies_itself(op) {
        list.push(op)?;
    }
    Ok(())
}

/// Appends what a list does to a register or an m-register.
fn push_ops_on(list: &mut Vec<Op>, ops: &[Op], held: Held) -> Result<(), Memory>
    ensures { OnOk result (list.new.items ≡ list.old.items ++ ops_on ops.now held) }
{
    match held {
        Held::Reg(reg) => push_unless_itself(list, op_on(ops, reg))?,
        Held::MReg(mreg) => {
            push_unless_itself(list, Op::MCopy(mreg, origin_on(ops, mreg)))?;
            push_marks(list, ops, mreg)?;
        }
    }
    Ok(())
}

/// What a list does to each register that it alters: one list for all those that do the same.
///
/// Of the empty list it is the empty list, and takes no memory.
pub(crate) fn canonical_ops(alloc: Global, ops: &[Op]) -> Result<Vec<Op>, Memory>
    ensures { IfOk result (λ list. list.items ≡ canonical ops.now) }
{
    let targets = targets_of(alloc, ops)?;
    let mut list = Vec::new(alloc);
    for held in targets.as_slice() {
        push_ops_on(&mut list, ops, *held)?;
    }
    Ok(list)
}
