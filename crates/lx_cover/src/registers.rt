//! The registers and m-registers of an automaton, and lists of operations on them.
ghost use Rattle.std.specs.Prelude.{◌≡◌, [], IfOk, OnOk, length, map, replicate};
ghost use Rattle.lx_auto.specs.Automaton.{AreHeld, AreOps, IsHeld, IsOp};
ghost use Rattle.lx_auto.specs.Bank.{bank_after, empty_bank, read, read_all};
ghost use Rattle.lx_tdfa.specs.Promise.{tag_value};
ghost use Rattle.lx_cover.specs.Matches.{value_of};
ghost use Rattle.lx_cover.specs.Registers.{HasAll, KeepsCounts, bank_of, history_given, value_given};

use crate::values::{TagValue, Values};
use crate::writes::{History, add_marks, write_histories, write_values};
use lx_auto::{Auto, Held, Op};
use lx_base::{Memory, Sequence};
use std::alloc::Global;

/// What registers and m-registers hold, by their numbers.
#[derive(Drop)]
pub(crate) struct Registers {
    values: Vec<Option<u64>>,
    histories: Vec<History>,
}

/// So many empty histories.
fn empty_histories(alloc: Global, count: usize) -> Result<Vec<History>, Memory>
    ensures { IfOk result (λ histories. histories.items ≡ replicate count []) }
{
    let mut histories = Vec::with_capacity(alloc, count)?;
    for _ in 0..count {
        histories.push(Sequence::new(alloc))?;
    }
    Ok(histories)
}

impl Registers {
    /// As many as an automaton has, with nothing in them.
    pub(crate) fn new(alloc: Global, auto: &Auto) -> Result<Registers, Memory>
        ensures all { IfOk result (HasAll auto.now) }
        ensures empty { IfOk result (λ registers. bank_of registers ≡ empty_bank) }
    {
        Ok(Registers {
            values: vec![in alloc; None; auto.regs as usize]?,
            histories: empty_histories(alloc, auto.mregs as usize)?,
        })
    }

    /// What an operation gives to a register, if it writes one.
    fn value_given(&self, offset: u64, op: Op) -> Option<u64>
        requires { IsOp (length self.now.values.items) (length self.now.histories.items) op }
        ensures { result ≡ value_given (bank_of self.now) offset op }
    {
        match op {
            Op::Here(_) => Some(offset),
            Op::Null(_) => None,
            Op::Copy(_, source) => self.values[source as usize],
            Op::MHere(_) => None,
            Op::MNull(_) => None,
            Op::MCopy(_, _) => None,
        }
    }

    /// What each of some operations gives to a register.
    fn values_given(
        &self,
        alloc: Global,
        offset: u64,
        ops: &[Op],
    ) -> Result<Vec<Option<u64>>, Memory>
        requires { AreOps (length self.now.values.items) (length self.now.histories.items) ops.now }
        ensures { IfOk result (λ given. given.items ≡ map (value_given (bank_of self.now) offset) ops.now) }
    {
        let mut given = Vec::new(alloc);
        for op in ops {
            given.push(self.value_given(offset, *op))?;
        }
        Ok(given)
    }

    /// A copy of the history that an operation copies, if it copies one.
    fn history_given(&self, alloc: Global, op: Op) -> Result<History, Memory>
        requires { IsOp (length self.now.values.items) (length self.now.histories.items) op }
        ensures { IfOk result (λ given. given ≡ history_given (bank_of self.now) op) }
    {
        match op {
            Op::Here(_) => Ok(Sequence::new(alloc)),
            Op::Null(_) => Ok(Sequence::new(alloc)),
            Op::Copy(_, _) => Ok(Sequence::new(alloc)),
            Op::MHere(_) => Ok(Sequence::new(alloc)),
            Op::MNull(_) => Ok(Sequence::new(alloc)),
            Op::MCopy(_, source) => {
                Sequence::copy_of(alloc, self.histories[source as usize].as_slice())
            }
        }
    }

    /// A copy of the history that each of some operations copies.
    fn histories_given(&self, alloc: Global, ops: &[Op]) -> Result<Vec<History>, Memory>
        requires { AreOps (length self.now.values.items) (length self.now.histories.items) ops.now }
        ensures { IfOk result (λ given. given.items ≡ map (history_given (bank_of self.now)) ops.now) }
    {
        let mut given = Vec::new(alloc);
        for op in ops {
            given.push(self.history_given(alloc, *op)?)?;
        }
        Ok(given)
    }

    /// Lets a list of operations act at once, at an offset.
    pub(crate) fn act(&mut self, alloc: Global, offset: u64, ops: &[Op]) -> Result<(), Memory>
        requires { AreOps (length self.old.values.items) (length self.old.histories.items) ops.now }
        ensures bank { OnOk result (bank_of self.new ≡ bank_after offset ops.now (bank_of self.old)) }
        ensures counts { OnOk result (KeepsCounts self.old self.new) }
    {
        let values = self.values_given(alloc, offset, ops)?;
        let histories = self.histories_given(alloc, ops)?;
        write_values(&mut self.values, ops, &values);
        write_histories(alloc, &mut self.histories, ops, histories);
        add_marks(&mut self.histories, offset, ops)?;
        Ok(())
    }

    /// The value that is held.
    fn value(&self, alloc: Global, held: Held) -> Result<TagValue, Memory>
        requires { IsHeld (length self.now.values.items) (length self.now.histories.items) held }
        ensures { IfOk result (λ value. value_of value ≡ tag_value (read (bank_of self.now) held)) }
    {
        match held {
            Held::Reg(number) => Ok(TagValue::Single(self.values[number as usize])),
            Held::MReg(number) => {
                let history = self.histories[number as usize].as_slice();
                Ok(TagValue::History(Sequence::copy_of(alloc, history)?))
            }
        }
    }

    /// The values that are held, in order.
    pub(crate) fn values(&self, alloc: Global, held: &[Held]) -> Result<Values, Memory>
        requires { AreHeld (length self.now.values.items) (length self.now.histories.items) held.now }
        ensures { IfOk result (λ values. map value_of values ≡ map tag_value (read_all (bank_of self.now) held.now)) }
    {
        let mut values = Sequence::new(alloc);
        for place in held {
            values.push(self.value(alloc, *place)?)?;
        }
        Ok(values)
    }
}
