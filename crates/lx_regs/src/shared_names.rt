//! Other names for registers, and the automaton by these names.
ghost use Rattle.std.specs.Prelude.{◌≡◌, map, option_map, slice_index, IfOk};
ghost use Rattle.lx_auto.specs.Effects.{renamed};
ghost use Rattle.lx_regs.specs.SharedNames.{names_of, renamed_accept, renamed_auto, renamed_edge, renamed_op, renamed_ops, renamed_state};

use lx_auto::{Accept, Auto, Edge, Held, Op, Ops, State};
use lx_base::{Memory, Sequence};
use std::alloc::Global;

/// For each register its other name, and for each m-register.
#[derive(Drop)]
pub(crate) struct SharedNames {
    pub regs: Vec<u32>,
    pub mregs: Vec<u32>,
}

/// The number at a place, or 0 where there is none. It takes no memory.
fn at(numbers: &[u32], place: u32) -> u32
    ensures { result ≡ slice_index numbers.now place }
{
    match numbers.get(place as usize) {
        Some(number) => *number,
        None => 0,
    }
}

impl SharedNames {
    /// The name of a register. It takes no memory.
    fn reg(&self, reg: u32) -> u32
        ensures { result ≡ (names_of self.now).regs reg }
    {
        at(&self.regs, reg)
    }

    /// The name of an m-register. It takes no memory.
    fn mreg(&self, mreg: u32) -> u32
        ensures { result ≡ (names_of self.now).mregs mreg }
    {
        at(&self.mregs, mreg)
    }

    /// Where a value is held, by the names. It takes no memory.
    fn renamed(&self, held: Held) -> Held
        ensures { result ≡ renamed (names_of self.now) held }
    {
        match held {
            Held::Reg(reg) => Held::Reg(self.reg(reg)),
            Held::MReg(mreg) => Held::MReg(self.mreg(mreg)),
        }
    }

    /// An operation by the names. It takes no memory.
    fn renamed_op(&self, op: Op) -> Op
        ensures { result ≡ renamed_op (names_of self.now) op }
    {
        match op {
            Op::Here(target) => Op::Here(self.reg(target)),
            Op::Null(target) => Op::Null(self.reg(target)),
            Op::Copy(target, source) => Op::Copy(self.reg(target), self.reg(source)),
            Op::MHere(target) => Op::MHere(self.mreg(target)),
            Op::MNull(target) => Op::MNull(self.mreg(target)),
            Op::MCopy(target, source) => Op::MCopy(self.mreg(target), self.mreg(source)),
        }
    }

    /// A list by the names.
    fn renamed_ops(&self, alloc: Global, ops: &[Op]) -> Result<Ops, Memory>
        ensures { IfOk result (λ answer. answer ≡ renamed_ops (names_of self.now) ops.now) }
    {
        let mut answer = Ops::new(alloc);
        for op in ops {
            answer.push(self.renamed_op(*op))?;
        }
        Ok(answer)
    }

    /// Values by the names.
    fn renamed_values(&self, alloc: Global, values: &[Held]) -> Result<Sequence<Held>, Memory>
        ensures { IfOk result (λ answer. answer ≡ map (renamed (names_of self.now)) values.now) }
    {
        let mut answer = Sequence::new(alloc);
        for held in values {
            answer.push(self.renamed(*held))?;
        }
        Ok(answer)
    }

    /// An edge by the names.
    fn renamed_edge(&self, alloc: Global, edge: &Edge) -> Result<Edge, Memory>
        ensures { IfOk result (λ answer. answer ≡ renamed_edge (names_of self.now) edge.now) }
    {
        Ok(Edge {
            lo: edge.lo,
            hi: edge.hi,
            ops: self.renamed_ops(alloc, edge.ops.as_slice())?,
            to: edge.to,
        })
    }

    /// Edges by the names.
    fn renamed_edges(&self, alloc: Global, edges: &[Edge]) -> Result<Sequence<Edge>, Memory>
        ensures { IfOk result (λ answer. answer ≡ map (renamed_edge (names_of self.now)) edges.now) }
    {
        let mut answer = Sequence::new(alloc);
        for edge in edges {
            answer.push(self.renamed_edge(alloc, edge)?)?;
        }
        Ok(answer)
    }

    /// What a state accepts, by the names.
    fn renamed_accept(
        &self,
        alloc: Global,
        accept: &Option<Accept>,
    ) -> Result<Option<Accept>, Memory>
        ensures { IfOk result (λ answer. answer ≡ option_map (renamed_accept (names_of self.now)) accept.now) }
    {
        match accept {
            None => Ok(None),
            Some(accept) => Ok(Some(Accept {
                rule: accept.rule,
                ops: self.renamed_ops(alloc, accept.ops.as_slice())?,
                values: self.renamed_values(alloc, accept.values.as_slice())?,
            })),
        }
    }

    /// A state by the names.
    fn renamed_state(&self, alloc: Global, state: &State) -> Result<State, Memory>
        ensures { IfOk result (λ answer. answer ≡ renamed_state (names_of self.now) state.now) }
    {
        Ok(State {
            edges: self.renamed_edges(alloc, state.edges.as_slice())?,
            accept: self.renamed_accept(alloc, &state.accept)?,
            leave: self.renamed_ops(alloc, state.leave.as_slice())?,
        })
    }

    /// States by the names.
    fn renamed_states(&self, alloc: Global, states: &[State]) -> Result<Sequence<State>, Memory>
        ensures { IfOk result (λ answer. answer ≡ map (renamed_state (names_of self.now)) states.now) }
    {
        let mut answer = Sequence::new(alloc);
        for state in states {
            answer.push(self.renamed_state(alloc, state)?)?;
        }
        Ok(answer)
    }

    /// The automaton by the names, with so many registers and m-registers.
    pub(crate) fn renamed_auto(
        &self,
        alloc: Global,
        auto: &Auto,
        regs: u32,
        mregs: u32,
    ) -> Result<Auto, Memory>
        ensures { IfOk result (λ answer. answer ≡ renamed_auto (names_of self.now) regs mregs auto.now) }
    {
        Ok(Auto {
            states: self.renamed_states(alloc, auto.states.as_slice())?,
            regs,
            mregs,
        })
    }
}
