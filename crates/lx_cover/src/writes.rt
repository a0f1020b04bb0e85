//! What operations write, one behind another, where what they read is known.
ghost use Rattle.std.specs.Prelude.{◌≡◌, ℕ, ◌++◌, [], OnOk, length, map, slice_index_or};
ghost use Rattle.lx_auto.specs.Automaton.{AreOps, IsOp};
ghost use Rattle.lx_auto.specs.Bank.{Bank, added_by, history_added, history_behind, history_copied, value_after, value_behind};
ghost use Rattle.lx_cover.specs.Registers.{history_given, value_given};

use lx_auto::Op;
use lx_base::{Memory, Sequence};
use std::alloc::Global;
use std::mem::replace;

/// What an m-register holds.
pub(crate) type History = Sequence<Option<u64>>;

/// Writes what an operation gives to a register, if it writes one.
fn write_value(values: &mut Vec<Option<u64>>, op: Op, given: Option<u64>)
    requires { (mregs : ℕ) × IsOp (length values.old.items) mregs op }
    ensures written { (bank : Bank) (offset reg : ℕ) → given ≡ value_given bank offset op
        → slice_index_or values.new.items reg None ≡ value_behind bank offset op reg (slice_index_or values.old.items reg None) }
    ensures count { length values.new.items ≡ length values.old.items }
{
    match op {
        Op::Here(target) => values[target as usize] = given,
        Op::Null(target) => values[target as usize] = given,
        Op::Copy(target, _) => values[target as usize] = given,
        Op::MHere(_) => {}
        Op::MNull(_) => {}
        Op::MCopy(_, _) => {}
    }
}

/// Writes what operations give to registers.
pub(crate) fn write_values(values: &mut Vec<Option<u64>>, ops: &[Op], given: &[Option<u64>])
    requires ops { (mregs : ℕ) × AreOps (length values.old.items) mregs ops.now }
    requires given { length given.now ≡ length ops.now }
    ensures written { (bank : Bank) (offset reg : ℕ) → given.now ≡ map (value_given bank offset) ops.now
        → slice_index_or values.new.items reg None ≡ value_after bank offset ops.now reg (slice_index_or values.old.items reg None) }
    ensures count { length values.new.items ≡ length values.old.items }
{
    for (place, op) in ops.iter().enumerate() {
        write_value(values, *op, given[place]);
    }
}

/// Puts a history where an operation copies it, if it copies one.
fn write_history(histories: &mut Vec<History>, op: Op, given: History)
    requires { (regs : ℕ) × IsOp regs (length histories.old.items) op }
    ensures written { (bank : Bank) (mreg : ℕ) → given ≡ history_given bank op
        → slice_index_or histories.new.items mreg [] ≡ history_behind bank op mreg (slice_index_or histories.old.items mreg []) }
    ensures count { length histories.new.items ≡ length histories.old.items }
{
    match op {
        Op::Here(_) => {}
        Op::Null(_) => {}
        Op::Copy(_, _) => {}
        Op::MHere(_) => {}
        Op::MNull(_) => {}
        Op::MCopy(target, _) => histories[target as usize] = given,
    }
}

/// Puts histories where operations copy them.
pub(crate) fn write_histories(
    alloc: Global,
    histories: &mut Vec<History>,
    ops: &[Op],
    mut given: Vec<History>,
)
    requires ops { (regs : ℕ) × AreOps regs (length histories.old.items) ops.now }
    requires given { length given.items ≡ length ops.now }
    ensures written { (bank : Bank) (mreg : ℕ) → given.items ≡ map (history_given bank) ops.now
        → slice_index_or histories.new.items mreg [] ≡ history_copied bank ops.now mreg (slice_index_or histories.old.items mreg []) }
    ensures count { length histories.new.items ≡ length histories.old.items }
{
    for (place, op) in ops.iter().enumerate() {
        let history = replace(&mut given[place], Sequence::new(alloc));
        write_history(histories, *op, history);
    }
}

/// Puts what an operation adds at the end of an m-register, if it adds something.
fn add_mark(histories: &mut Vec<History>, offset: u64, op: Op) -> Result<(), Memory>
    requires { (regs : ℕ) × IsOp regs (length histories.old.items) op }
    ensures added { OnOk result ((mreg : ℕ) → slice_index_or histories.new.items mreg []
        ≡ slice_index_or histories.old.items mreg [] ++ added_by offset op mreg) }
    ensures count { OnOk result (length histories.new.items ≡ length histories.old.items) }
{
    match op {
        Op::Here(_) => {}
        Op::Null(_) => {}
        Op::Copy(_, _) => {}
        Op::MHere(target) => histories[target as usize].push(Some(offset))?,
        Op::MNull(target) => histories[target as usize].push(None)?,
        Op::MCopy(_, _) => {}
    }
    Ok(())
}

/// Puts what operations add at the ends of m-registers.
pub(crate) fn add_marks(histories: &mut Vec<History>, offset: u64, ops: &[Op]) -> Result<(), Memory>
    requires { (regs : ℕ) × AreOps regs (length histories.old.items) ops.now }
    ensures added { OnOk result ((mreg : ℕ) → slice_index_or histories.new.items mreg []
        ≡ slice_index_or histories.old.items mreg [] ++ history_added offset ops.now mreg) }
    ensures count { OnOk result (length histories.new.items ≡ length histories.old.items) }
{
    for op in ops {
        add_mark(histories, offset, *op)?;
    }
    Ok(())
}
