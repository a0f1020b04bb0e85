//! Operations that no walk reads (dead code elimination: Trofimovich 2017).
ghost use Rattle.std.specs.Prelude.{◌≡◌, ◌↔◌, ◌<◌, [], ◌∷◌, Contains, IfOk, OnOk, length, true};
ghost use Rattle.std.specs.List.{list_any};
ghost use Rattle.lx_auto.specs.Automaton.{IsAuto, state_of};
ghost use Rattle.lx_auto.specs.Live.{AtSomePoint, EachTargetIsRead};
ghost use Rattle.lx_auto.specs.SameRun.{HasSameRun};
ghost use Rattle.lx_auto.specs.declared.automaton.Held.{Held as HeldValue};
ghost use Rattle.lx_regs.specs.Dead.{AreEdgesCut, AreStatesCut, IsAcceptCut, IsEdgeCut, IsStateCut};
ghost use Rattle.lx_regs.specs.IdleOps.{count_in, some_itself_at};
ghost use Rattle.lx_regs.specs.KeptLists.{IsListed};
ghost use Rattle.lx_regs.specs.Leaving.{AddsRead, IsSource};
ghost use Rattle.lx_regs.specs.LiveSets.{IsLivenessOf};
ghost use Rattle.lx_regs.specs.Shapes.{KeepsShape};

use crate::held_sets::HeldSet;
use crate::kept_lists::{add_read, kept_by, kept_ops, targets_of};
use crate::live::{Liveness, liveness_of};
use lx_auto::{Accept, Auto, Edge, Held, State, edges_of, met_states};
use lx_base::{Memory, Sequence};
use std::alloc::Global;

/// An automaton, and what is known of it.
#[derive(Clone, Copy)]
pub(crate) struct Source<'a> {
    pub alloc: Global,
    pub auto: &'a Auto,
    pub liveness: &'a Liveness,
    /// For each state, whether some walk comes to it.
    pub met: &'a [bool],
}

impl<'a> Source<'a> {
    /// An edge that keeps the operations of which the target is live behind it. What its list reads for what is live, of that which is
    /// asked for, is added to what is wanted where the state is left.
    fn cut_edge(
        &self,
        state: u32,
        edge: &Edge,
        asked: &HeldSet,
        leaving: &mut HeldSet,
    ) -> Result<Edge, Memory>
        requires source { IsSource self.now }
        requires within { state < length self.now.auto.now.states }
        requires edge { Contains (state_of self.now.auto.now.states state).edges edge.now }
        ensures cut { IfOk result (IsEdgeCut self.now.auto.now state edge.now) }
        ensures read { OnOk result (AddsRead self.now.auto.now state asked.now (edge.now ∷ []) leaving.old leaving.new) }
    {
        let live = self.liveness.behind(self.alloc, self.auto, state, edge)?;
        let ops = kept_ops(self.alloc, edge.ops.as_slice(), &live)?;
        add_read(self.alloc, leaving, asked, ops.as_slice(), &live)?;
        Ok(Edge {
            lo: edge.lo,
            hi: edge.hi,
            ops,
            to: edge.to,
        })
    }

    /// The edges of a state, each with the operations that it keeps.
    fn cut_edges(
        &self,
        state: u32,
        asked: &HeldSet,
        leaving: &mut HeldSet,
    ) -> Result<Sequence<Edge>, Memory>
        requires source { IsSource self.now }
        requires within { state < length self.now.auto.now.states }
        ensures cut { IfOk result (AreEdgesCut self.now.auto.now state (state_of self.now.auto.now.states state).edges) }
        ensures read { OnOk result (AddsRead self.now.auto.now state asked.now (state_of self.now.auto.now.states state).edges
            leaving.old leaving.new) }
    {
        let mut edges = Sequence::new(self.alloc);
        for edge in edges_of(self.auto, state) {
            edges.push(self.cut_edge(state, edge, asked, leaving)?)?;
        }
        Ok(edges)
    }

    /// The values of what a state accepts, if some walk comes to the state.
    fn wanted_values<'b>(&self, state: u32, accept: &'b Accept) -> &'b [Held]
        requires source { IsSource self.now }
        requires within { state < length self.now.auto.now.states }
        ensures { (held : HeldValue) → IsListed result.now held
            ↔ AtSomePoint self.now.auto.now state (λ point. Contains accept.now.values held) }
    {
        if self.met[state as usize] {
            accept.values.as_slice()
        } else {
            &[]
        }
    }

    /// What a state accepts, with the operations that write its values.
    fn cut_accept(&self, state: u32, accept: &Option<Accept>) -> Result<Option<Accept>, Memory>
        requires source { IsSource self.now }
        requires within { state < length self.now.auto.now.states }
        ensures { IfOk result (IsAcceptCut self.now.auto.now state accept.now) }
    {
        match accept {
            None => Ok(None),
            Some(accept) => {
                let wanted = self.wanted_values(state, accept);
                Ok(Some(Accept {
                    rule: accept.rule,
                    ops: kept_ops(self.alloc, accept.ops.as_slice(), wanted)?,
                    values: Sequence::copy_of(self.alloc, accept.values.as_slice())?,
                }))
            }
        }
    }

    /// A state with the operations that some walk reads.
    fn cut_state(&self, number: u32) -> Result<State, Memory>
        requires source { IsSource self.now }
        requires within { number < length self.now.auto.now.states }
        ensures { IfOk result (IsStateCut self.now.auto.now number (state_of self.now.auto.now.states number)) }
    {
        let state = &self.auto.states.as_slice()[number as usize];
        let asked = targets_of(self.alloc, state.leave.as_slice())?;
        let mut leaving = HeldSet::new(self.alloc);
        Ok(State {
            edges: self.cut_edges(number, &asked, &mut leaving)?,
            accept: self.cut_accept(number, &state.accept)?,
            leave: kept_by(self.alloc, state.leave.as_slice(), &leaving)?,
        })
    }

    /// The states, each with the operations that some walk reads.
    fn cut_states(&self) -> Result<Sequence<State>, Memory>
        requires { IsSource self.now }
        ensures { IfOk result (AreStatesCut self.now.auto.now self.now.auto.now.states) }
    {
        let mut states = Sequence::new(self.alloc);
        for number in 0..self.auto.states.as_slice().len() {
            states.push(self.cut_state(number as u32)?)?;
        }
        Ok(states)
    }
}

/// The states, each with the operations that some walk reads, where it is known what is live.
fn states_by(alloc: Global, auto: &Auto, liveness: &Liveness) -> Result<Sequence<State>, Memory>
    requires formed { IsAuto auto.now }
    requires live { IsLivenessOf auto.now liveness.now }
    ensures { IfOk result (AreStatesCut auto.now auto.now.states) }
{
    let met = met_states(alloc, auto)?;
    let source = Source {
        alloc,
        auto,
        liveness,
        met: &met,
    };
    source.cut_states()
}

/// The states, each with the operations that some walk reads.
fn states_without_dead(alloc: Global, auto: &Auto) -> Result<Sequence<State>, Memory>
    requires { IsAuto auto.now }
    ensures { IfOk result (AreStatesCut auto.now auto.now.states) }
{
    let liveness = liveness_of(alloc, auto)?;
    states_by(alloc, auto, &liveness)
}

/// The automaton without the operations that no walk reads: each that stays writes what is live behind its list, no later one of the list
/// takes that away, and it copies no register to itself.
pub fn drop_dead(alloc: Global, auto: Auto) -> Result<Auto, Memory>
    requires { IsAuto auto }
    ensures formed { IfOk result IsAuto }
    ensures run { IfOk result (λ answer. HasSameRun answer auto) }
    ensures read { IfOk result EachTargetIsRead }
    ensures kept { IfOk result (λ answer. KeepsShape auto answer) }
    ensures fewer { IfOk result (λ answer. list_any some_itself_at auto.states ≡ true → count_in answer.states < count_in auto.states) }
{
    let states = states_without_dead(alloc, &auto)?;
    Ok(Auto {
        states,
        regs: auto.regs,
        mregs: auto.mregs,
    })
}
