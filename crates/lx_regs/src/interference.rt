//! Which registers of an automaton interfere (Chaitin and others 1981).
ghost use Rattle.std.specs.Prelude.{◌≡◌, ◌<◌, Contains, IfOk, OnOk, length};
ghost use Rattle.lx_auto.specs.Automaton.{IsAuto, state_of};
ghost use Rattle.lx_regs.specs.HeldGraphs.{AreBeside, IsHeldGraph, IsThere, Notes, read_each};
ghost use Rattle.lx_regs.specs.Interference.{AreBesideAt, AreBesideOnAccept, AreBesideOnEdge, AreBesideOnEdges, IsGraphFor, IsInterferenceOf, IsKnown};
ghost use Rattle.lx_auto.specs.Effects.{Writes};
ghost use Rattle.lx_auto.specs.declared.automaton.Held.{Held as HeldValue};

use crate::held_graphs::{HeldGraph, read_each};
use crate::live::{Liveness, liveness_of};
use lx_auto::{Accept, Auto, Edge, Held, Op, edges_of, met_states};
use lx_base::Memory;
use std::alloc::Global;

/// An automaton, and what is known of it.
#[derive(Clone, Copy)]
pub(crate) struct Known<'a> {
    pub alloc: Global,
    pub auto: &'a Auto,
    pub liveness: &'a Liveness,
    /// For each state, whether some walk comes to it.
    pub met: &'a [bool],
}

/// Makes each register that a first list writes a neighbour of what a second one reads for what is live behind it.
fn note_before(
    alloc: Global,
    graph: &mut HeldGraph,
    first: &[Op],
    second: &[Op],
    live: &[Held],
) -> Result<(), Memory>
    requires graph { IsHeldGraph graph.old }
    requires first { (held : HeldValue) → Writes first.now held → IsThere graph.old held }
    requires read { (held : HeldValue) → Contains (read_each second.now live.now) held → IsThere graph.old held }
    ensures { OnOk result (Notes (AreBeside first.now (read_each second.now live.now)) graph.old graph.new) }
{
    if first.is_empty() {
        return Ok(());
    }
    let read = read_each(alloc, second, live)?;
    graph.note_beside(first, &read)?;
    Ok(())
}

impl<'a> Known<'a> {
    /// Makes those neighbours that interfere on the way along an edge.
    fn note_edge(
        &self,
        graph: &mut HeldGraph,
        state: u32,
        leave: &[Op],
        edge: &Edge,
    ) -> Result<(), Memory>
        requires known { IsKnown self.now }
        requires graph { IsGraphFor self.now.auto.now graph.old }
        requires within { state < length self.now.auto.now.states }
        requires leave { leave.now ≡ (state_of self.now.auto.now.states state).leave }
        requires edge { Contains (state_of self.now.auto.now.states state).edges edge.now }
        ensures { OnOk result (Notes (AreBesideOnEdge self.now.auto.now state edge.now) graph.old graph.new) }
    {
        let live = self.liveness.behind(self.alloc, self.auto, state, edge)?;
        graph.note_beside(edge.ops.as_slice(), &live)?;
        note_before(self.alloc, graph, leave, edge.ops.as_slice(), &live)?;
        Ok(())
    }

    /// Makes those neighbours that interfere on the way along the edges of a state.
    fn note_edges(&self, graph: &mut HeldGraph, state: u32) -> Result<(), Memory>
        requires known { IsKnown self.now }
        requires graph { IsGraphFor self.now.auto.now graph.old }
        requires within { state < length self.now.auto.now.states }
        ensures { OnOk result
            (Notes (AreBesideOnEdges self.now.auto.now state (state_of self.now.auto.now.states state).edges) graph.old graph.new) }
    {
        let leave = self.auto.states.as_slice()[state as usize].leave.as_slice();
        for edge in edges_of(self.auto, state) {
            self.note_edge(graph, state, leave, edge)?;
        }
        Ok(())
    }

    /// Makes those neighbours that interfere where a match ends in a state.
    fn note_accept(
        &self,
        graph: &mut HeldGraph,
        state: u32,
        accept: &Option<Accept>,
    ) -> Result<(), Memory>
        requires known { IsKnown self.now }
        requires graph { IsGraphFor self.now.auto.now graph.old }
        requires within { state < length self.now.auto.now.states }
        requires accept { accept.now ≡ (state_of self.now.auto.now.states state).accept }
        ensures { OnOk result (Notes (AreBesideOnAccept self.now.auto.now state) graph.old graph.new) }
    {
        if !self.met[state as usize] {
            return Ok(());
        }
        match accept {
            Some(accept) => graph.note_beside(accept.ops.as_slice(), accept.values.as_slice()),
            None => Ok(()),
        }
    }

    /// Makes those neighbours that interfere at a state.
    fn note_state(&self, graph: &mut HeldGraph, state: u32) -> Result<(), Memory>
        requires known { IsKnown self.now }
        requires graph { IsGraphFor self.now.auto.now graph.old }
        requires within { state < length self.now.auto.now.states }
        ensures { OnOk result (Notes (AreBesideAt self.now.auto.now state) graph.old graph.new) }
    {
        self.note_edges(graph, state)?;
        self.note_accept(
            graph,
            state,
            &self.auto.states.as_slice()[state as usize].accept,
        )?;
        Ok(())
    }

    /// The graph of what interferes.
    fn interference(&self) -> Result<HeldGraph, Memory>
        requires { IsKnown self.now }
        ensures { IfOk result (IsInterferenceOf self.now.auto.now) }
    {
        let mut graph = HeldGraph::new(self.alloc, self.auto.regs, self.auto.mregs)?;
        for state in 0..self.auto.states.as_slice().len() {
            self.note_state(&mut graph, state as u32)?;
        }
        Ok(graph)
    }
}

/// The graph of the registers and m-registers of an automaton in which those are neighbours that interfere.
pub(crate) fn interference_of(alloc: Global, auto: &Auto) -> Result<HeldGraph, Memory>
    requires { IsAuto auto.now }
    ensures { IfOk result (IsInterferenceOf auto.now) }
{
    let liveness = liveness_of(alloc, auto)?;
    let met = met_states(alloc, auto)?;
    let known = Known {
        alloc,
        auto,
        liveness: &liveness,
        met: &met,
    };
    known.interference()
}
