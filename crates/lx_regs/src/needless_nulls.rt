//! Operations that empty a register which holds nothing.
ghost use Rattle.std.specs.Prelude.{◌<◌, IfOk, IfSome, IsTrue, length};
ghost use Rattle.lx_auto.specs.Automaton.{IsAuto, state_of};
ghost use Rattle.lx_auto.specs.SameRun.{HasSameRun};
ghost use Rattle.lx_regs.specs.Pairs.{AllPairs};
ghost use Rattle.lx_regs.specs.Shapes.{KeepsShape};
ghost use Rattle.lx_regs.specs.Unset.{HasRows, IsAcceptKept, IsEdgeKept, IsStateKept, IsWithin};

use crate::unset::{is_unset, kept_list};
use crate::unset_rows::{UnsetRows, has_rows, propose_unset};
use lx_auto::{Accept, Auto, Edge, State};
use lx_base::{Memory, Sequence};
use std::alloc::Global;

/// Whether what a row says to hold nothing does so by another row.
fn are_within(row: &[bool], other: &[bool]) -> bool
    ensures { IsTrue result → IsWithin row.now other.now }
{
    for (reg, mark) in row.iter().enumerate() {
        if *mark && !is_unset(other, reg) {
            return false;
        }
    }
    true
}

/// An automaton, and which registers are said to hold nothing at its states.
#[derive(Clone, Copy)]
struct Source<'a> {
    alloc: Global,
    auto: &'a Auto,
    rows: &'a UnsetRows,
}

impl<'a> Source<'a> {
    /// An edge without operations that are not needed, where these registers hold nothing where its state is left; there is none if what
    /// is said to hold nothing at its target may hold something.
    fn kept_edge(&self, left: &[bool], edge: &Edge) -> Result<Option<Edge>, Memory>
        ensures { IfOk result (λ found. IfSome found (IsEdgeKept self.now.rows.now left.now edge.now)) }
    {
        let kept = kept_list(self.alloc, edge.ops.as_slice(), left)?;
        if !are_within(self.rows.at(edge.to), kept.unset.as_slice()) {
            return Ok(None);
        }
        Ok(Some(Edge {
            lo: edge.lo,
            hi: edge.hi,
            ops: kept.ops,
            to: edge.to,
        }))
    }

    /// The same of the edges out of a state.
    fn kept_edges(&self, left: &[bool], edges: &[Edge]) -> Result<Option<Sequence<Edge>>, Memory>
        ensures { IfOk result (λ found. IfSome found (AllPairs (IsEdgeKept self.now.rows.now left.now) edges.now)) }
    {
        let mut others = Sequence::new(self.alloc);
        for edge in edges {
            match self.kept_edge(left, edge)? {
                Some(other) => others.push(other)?,
                None => return Ok(None),
            }
        }
        Ok(Some(others))
    }

    /// What a state accepts, without operations that are not needed.
    fn kept_accept(&self, row: &[bool], accept: &Option<Accept>) -> Result<Option<Accept>, Memory>
        ensures { IfOk result (IsAcceptKept row.now accept.now) }
    {
        match accept {
            None => Ok(None),
            Some(accept) => {
                let kept = kept_list(self.alloc, accept.ops.as_slice(), row)?;
                Ok(Some(Accept {
                    rule: accept.rule,
                    ops: kept.ops,
                    values: Sequence::copy_of(self.alloc, accept.values.as_slice())?,
                }))
            }
        }
    }

    /// A state without operations that are not needed, if what is said to hold nothing behind its edges does so.
    fn kept_state(&self, number: u32) -> Result<Option<State>, Memory>
        requires { number < length self.now.auto.now.states }
        ensures { IfOk result (λ found. IfSome found (IsStateKept self.now.rows.now number (state_of self.now.auto.now.states number))) }
    {
        let state = &self.auto.states.as_slice()[number as usize];
        let row = self.rows.at(number);
        let leave = kept_list(self.alloc, state.leave.as_slice(), row)?;
        match self.kept_edges(leave.unset.as_slice(), state.edges.as_slice())? {
            Some(edges) => Ok(Some(State {
                edges,
                accept: self.kept_accept(row, &state.accept)?,
                leave: leave.ops,
            })),
            None => Ok(None),
        }
    }

    /// The states without operations that are not needed, if all that is said to hold nothing does so.
    fn kept_states(&self) -> Result<Option<Sequence<State>>, Memory>
        requires { IsAuto self.now.auto.now }
        ensures { IfOk result (λ found. IfSome found (HasRows self.now.auto.now.states)) }
    {
        let mut states = Sequence::new(self.alloc);
        for number in 0..self.auto.states.as_slice().len() {
            match self.kept_state(number as u32)? {
                Some(state) => states.push(state)?,
                None => return Ok(None),
            }
        }
        Ok(Some(states))
    }
}

/// The states without operations that empty what holds nothing, if it can be told which registers hold nothing.
fn states_without_needless(alloc: Global, auto: &Auto) -> Result<Option<Sequence<State>>, Memory>
    requires { IsAuto auto.now }
    ensures { IfOk result (λ found. IfSome found (HasRows auto.now.states)) }
{
    if !has_rows(auto) {
        return Ok(None);
    }
    let rows = propose_unset(alloc, auto)?;
    let source = Source {
        alloc,
        auto,
        rows: &rows,
    };
    source.kept_states()
}

/// The automaton with these states in place of its own.
fn with_states(auto: Auto, states: Sequence<State>) -> Auto
    requires formed { IsAuto auto }
    requires rows { HasRows auto.states states }
    ensures formed { IsAuto result }
    ensures run { HasSameRun result auto }
    ensures kept { KeepsShape auto result }
{
    Auto {
        states,
        regs: auto.regs,
        mregs: auto.mregs,
    }
}

/// The automaton without the operations that empty a register which holds nothing already on every walk that comes there.
///
/// It is known for each state which registers hold nothing there on each walk from the start, where each may hold something.
pub(crate) fn drop_needless_nulls(alloc: Global, auto: Auto) -> Result<Auto, Memory>
    requires { IsAuto auto }
    ensures formed { IfOk result IsAuto }
    ensures run { IfOk result (λ answer. HasSameRun answer auto) }
    ensures kept { IfOk result (λ answer. KeepsShape auto answer) }
{
    match states_without_needless(alloc, &auto)? {
        Some(states) => Ok(with_states(auto, states)),
        None => Ok(auto),
    }
}
