//! The states to which walks come, by a breadth-first search.
ghost use Rattle.std.specs.Prelude.{◌≡◌, ◌<◌, ◌≤◌, All, Contains, IfOk, MatchOption, OnOk, length, slice_index};
ghost use Rattle.lx_auto.specs.Automaton.{IsAuto, state_of};
ghost use Rattle.lx_auto.specs.declared.automaton.Edge.{Edge as EdgeValue};
ghost use Rattle.lx_auto.specs.MetStates.{AreMet, Grows, HasMet, IsSearch};
ghost use Rattle.lx_auto.specs.Points.{IsMet};

use crate::automaton::{Auto, Edge};
use lx_base::Memory;
use std::alloc::Global;

/// A search for the states to which walks come.
#[derive(Drop)]
struct Search {
    /// For each state, whether it was met.
    marks: Vec<bool>,
    /// The states that were met, in the order in which they were met.
    order: Vec<u32>,
}

/// The edges out of the state with this number. It takes no memory.
pub fn edges_of(auto: &Auto, state: u32) -> &[Edge]
    requires formed { IsAuto auto.now }
    requires within { state < length auto.now.states }
    ensures edges { result.now ≡ (state_of auto.now.states state).edges }
    ensures targets { All (λ (edge : EdgeValue). edge.to < length auto.now.states) result.now }
{
    let state = &auto.states.as_slice()[state as usize];
    state.edges.as_slice()
}

impl Search {
    /// A search that has met the start alone.
    fn new(alloc: Global, auto: &Auto) -> Result<Search, Memory>
        requires { IsAuto auto.now }
        ensures search { IfOk result (IsSearch auto.now) }
        ensures start { IfOk result (λ search. HasMet search 0) }
    {
        let mut search = Search {
            marks: vec![in alloc; false; auto.states.as_slice().len()]?,
            order: Vec::new(alloc),
        };
        search.meet(auto, 0)?;
        Ok(search)
    }

    /// The state at a place of the list, if there is one. It takes no memory.
    fn at(&self, place: usize) -> Option<u32>
        ensures { MatchOption result (length self.now.order.items ≤ place)
            (λ state. (place < length self.now.order.items) × (state ≡ slice_index self.now.order.items place)) }
    {
        self.order.get(place).copied()
    }

    /// Meets a state to which walks come, if it was not met yet.
    fn meet(&mut self, auto: &Auto, state: u32) -> Result<(), Memory>
        requires search { IsSearch auto.now self.old }
        requires within { state < length auto.now.states }
        requires met { IsMet auto.now state }
        ensures search { OnOk result (IsSearch auto.now self.new) }
        ensures met { OnOk result (HasMet self.new state) }
        ensures grows { OnOk result (Grows self.old self.new) }
    {
        if !self.marks[state as usize] {
            self.order.push(state)?;
            self.marks[state as usize] = true;
        }
        Ok(())
    }

    /// Meets the states to which the edges of a state lead.
    fn pass(&mut self, auto: &Auto, state: u32) -> Result<(), Memory>
        requires formed { IsAuto auto.now }
        requires search { IsSearch auto.now self.old }
        requires within { state < length auto.now.states }
        requires met { IsMet auto.now state }
        ensures search { OnOk result (IsSearch auto.now self.new) }
        ensures met { OnOk result ((edge : EdgeValue) → Contains (state_of auto.now.states state).edges edge → HasMet self.new edge.to) }
        ensures grows { OnOk result (Grows self.old self.new) }
    {
        for edge in edges_of(auto, state) {
            self.meet(auto, edge.to)?;
        }
        Ok(())
    }
}

/// For each state, whether some walk comes to it, from where a match begins.
///
/// `Memory` may be answered, and no clause ties it to a cause.
pub fn met_states(alloc: Global, auto: &Auto) -> Result<Vec<bool>, Memory>
    requires { IsAuto auto.now }
    ensures { IfOk result (λ marks. AreMet auto.now marks.items) }
{
    let mut search = Search::new(alloc, auto)?;
    let mut place = 0;
    while let Some(state) = search.at(place) {
        search.pass(auto, state)?;
        place += 1;
    }
    Ok(search.marks)
}
