//! Registers that hold the same wherever a walk stands are one.
//!
//! It proposes and tests, as where registers are chosen by state: of the proposal nothing is proved but safety.
ghost use Rattle.std.specs.Prelude.{IfOk, IfSome, IsTrue};
ghost use Rattle.lx_auto.specs.Automaton.{IsAuto};
ghost use Rattle.lx_auto.specs.SameRun.{HasSameRun};
ghost use Rattle.lx_regs.specs.Shapes.{KeepsShape, StandsFor};

use crate::flows::with_number;
use crate::kept_lists::target_of;
use crate::list_renaming::renaming_of;
use crate::live::liveness_of;
use crate::name_tables::NameTable;
use crate::partitions::{Partition, Partitions, narrow, partitions_of};
use crate::renaming::{Proposal, may_stand};
use crate::translation_test::Looked;
use lx_auto::{Accept, Auto, Edge, Held, Op, Ops, State};
use lx_base::{Memory, Sequence};
use std::alloc::Global;

/// More registers of one sort are left as they are.
const MOST: u32 = 4194304;

/// What writes an automaton in which the registers of a class are one, by the number of the class.
#[derive(Clone, Copy)]
struct Merger<'a> {
    alloc: Global,
    partitions: &'a Partitions,
}

impl<'a> Merger<'a> {
    /// The register that stands for those of a class.
    fn reg(&self, reg: u32) -> u32 {
        narrow(self.partitions.class(Held::Reg(reg)))
    }

    /// The same of m-registers.
    fn mreg(&self, mreg: u32) -> u32 {
        narrow(self.partitions.class(Held::MReg(mreg)))
    }

    /// An operation by the new names.
    fn op(&self, op: Op) -> Op {
        match op {
            Op::Here(reg) => Op::Here(self.reg(reg)),
            Op::Null(reg) => Op::Null(self.reg(reg)),
            Op::Copy(reg, source) => Op::Copy(self.reg(reg), self.reg(source)),
            Op::MHere(mreg) => Op::MHere(self.mreg(mreg)),
            Op::MNull(mreg) => Op::MNull(self.mreg(mreg)),
            Op::MCopy(mreg, source) => Op::MCopy(self.mreg(mreg), self.mreg(source)),
        }
    }

    /// A list by the new names. Of what is done to the registers of a class, what is done to the first one stands for all.
    fn ops(&self, ops: &[Op]) -> Result<Ops, Memory> {
        let mut others = Ops::new(self.alloc);
        for op in ops {
            if self.partitions.is_first(target_of(*op)) {
                others.push(self.op(*op))?;
            }
        }
        Ok(others)
    }

    /// What holds the values of what is accepted.
    fn values(&self, values: &[Held]) -> Result<Sequence<Held>, Memory> {
        let mut others = Sequence::new(self.alloc);
        for value in values {
            others.push(match value {
                Held::Reg(reg) => Held::Reg(self.reg(*reg)),
                Held::MReg(mreg) => Held::MReg(self.mreg(*mreg)),
            })?;
        }
        Ok(others)
    }

    /// What is accepted.
    fn accept(&self, accept: &Option<Accept>) -> Result<Option<Accept>, Memory> {
        match accept {
            Some(accept) => Ok(Some(Accept {
                rule: accept.rule,
                ops: self.ops(accept.ops.as_slice())?,
                values: self.values(accept.values.as_slice())?,
            })),
            None => Ok(None),
        }
    }

    /// The edges out of a state.
    fn edges(&self, edges: &[Edge]) -> Result<Sequence<Edge>, Memory> {
        let mut others = Sequence::new(self.alloc);
        for edge in edges {
            others.push(Edge {
                lo: edge.lo,
                hi: edge.hi,
                ops: self.ops(edge.ops.as_slice())?,
                to: edge.to,
            })?;
        }
        Ok(others)
    }

    /// A state.
    fn state(&self, state: &State) -> Result<State, Memory> {
        Ok(State {
            edges: self.edges(state.edges.as_slice())?,
            accept: self.accept(&state.accept)?,
            leave: self.ops(state.leave.as_slice())?,
        })
    }

    /// The states.
    fn states(&self, states: &[State]) -> Result<Sequence<State>, Memory> {
        let mut others = Sequence::new(self.alloc);
        for state in states {
            others.push(self.state(state)?)?;
        }
        Ok(others)
    }
}

/// Names registers of the sort of a given one, at all states: each by the number of its class.
fn fix_each(table: &mut NameTable, sort: Held, classes: &[usize]) -> Result<(), Memory> {
    for (number, class) in classes.iter().enumerate() {
        table.fix(with_number(sort, narrow(number)), narrow(*class))?;
    }
    Ok(())
}

/// The same of all registers.
fn fix_all(table: &mut NameTable, partitions: &Partitions) -> Result<(), Memory> {
    fix_each(table, Held::Reg(0), partitions.regs.of.as_slice())?;
    fix_each(table, Held::MReg(0), partitions.mregs.of.as_slice())
}

/// The names of registers: the number of its class for each, at all states.
fn names_of(alloc: Global, partitions: &Partitions) -> Result<NameTable, Memory> {
    let mut table = NameTable::new(alloc);
    fix_all(&mut table, partitions)?;
    Ok(table)
}

/// How many classes there are.
fn count_of(partition: &Partition) -> u32 {
    narrow(partition.firsts.len())
}

/// The automaton in which the registers of a class are one.
fn merged(alloc: Global, auto: &Auto, partitions: &Partitions) -> Result<Proposal, Memory> {
    let merger = Merger { alloc, partitions };
    let states = merger.states(auto.states.as_slice())?;
    let answer = Auto {
        states,
        regs: count_of(&partitions.regs),
        mregs: count_of(&partitions.mregs),
    };
    let names = names_of(alloc, partitions)?;
    Ok(Proposal { answer, names })
}

/// An automaton that is proposed in place of the given one, if it has at most half of the registers.
fn propose(alloc: Global, auto: &Auto) -> Result<Option<Proposal>, Memory> {
    if MOST < auto.regs || MOST < auto.mregs {
        return Ok(None);
    }
    match partitions_of(alloc, auto)? {
        Some(partitions) => Ok(Some(merged(alloc, auto, &partitions)?)),
        None => Ok(None),
    }
}

/// Whether the proposal may stand for the given automaton, by a look at each operation of its lists.
fn stands_by_lists(alloc: Global, auto: &Auto, proposal: &Proposal) -> Result<bool, Memory>
    requires { IsAuto auto.now }
    ensures { IfOk result (λ may. IsTrue may → StandsFor auto.now proposal.now.answer) }
{
    let count = proposal.answer.regs as usize;
    match renaming_of(alloc, auto, &proposal.names, count)? {
        Some(renaming) => may_stand(alloc, auto, Looked::All(&renaming), proposal),
        None => Ok(false),
    }
}

/// The same by what is live.
fn stands_by_live(alloc: Global, auto: &Auto, proposal: &Proposal) -> Result<bool, Memory>
    requires { IsAuto auto.now }
    ensures { IfOk result (λ may. IsTrue may → StandsFor auto.now proposal.now.answer) }
{
    let live = liveness_of(alloc, auto)?;
    may_stand(alloc, auto, Looked::Live(&live), proposal)
}

/// Whether the proposal may stand for the given automaton: by its lists, for which it need not be known what is live, or else by that.
fn stands(alloc: Global, auto: &Auto, proposal: &Proposal) -> Result<bool, Memory>
    requires { IsAuto auto.now }
    ensures { IfOk result (λ may. IsTrue may → StandsFor auto.now proposal.now.answer) }
{
    if stands_by_lists(alloc, auto, proposal)? {
        return Ok(true);
    }
    stands_by_live(alloc, auto, proposal)
}

/// The automaton that is proposed, if it may stand for the given one.
fn tested(alloc: Global, auto: &Auto, proposal: Proposal) -> Result<Option<Auto>, Memory>
    requires { IsAuto auto.now }
    ensures { IfOk result (λ found. IfSome found (StandsFor auto.now)) }
{
    let may = stands(alloc, auto, &proposal)?;
    Ok(may.then_some(proposal.answer))
}

/// The automaton in which registers that hold the same are one, if these are many and it may stand for the given one.
fn with_fewer(alloc: Global, auto: &Auto) -> Result<Option<Auto>, Memory>
    requires { IsAuto auto.now }
    ensures { IfOk result (λ found. IfSome found (StandsFor auto.now)) }
{
    match propose(alloc, auto)? {
        Some(proposal) => tested(alloc, auto, proposal),
        None => Ok(None),
    }
}

/// The automaton in which registers that hold the same wherever a walk stands are one, if these are many.
pub(crate) fn merge_equal(alloc: Global, auto: Auto) -> Result<Auto, Memory>
    requires { IsAuto auto }
    ensures formed { IfOk result IsAuto }
    ensures run { IfOk result (λ answer. HasSameRun answer auto) }
    ensures kept { IfOk result (λ answer. KeepsShape auto answer) }
{
    match with_fewer(alloc, &auto)? {
        Some(answer) => Ok(answer),
        None => Ok(auto),
    }
}
