//! The states of an automaton, by a breadth-first search in the order of units.
ghost use Rattle.std.specs.Prelude.{◌≡◌, ℕ, ◌+◌, ◌<◌, IfOk, OnOk, length};
ghost use Rattle.lx_auto.specs.Automaton.{IsAuto};
ghost use Rattle.lx_search.specs.Found.{found_at, trace_of};
ghost use Rattle.lx_search.specs.Progress.{Extends, IsAtEdge, IsSearch};
ghost use Rattle.lx_search.specs.Scopes.{next_in};
ghost use Rattle.lx_search.specs.declared.scope.Scope.{Scope as ScopeValue};
ghost use Rattle.lx_tdfa.specs.Searches.{AreApart, IsSearched};

use crate::scope::{Scope, is_outside};
use lx_auto::{Auto, Edge, edges_of};
use lx_base::Memory;
use std::alloc::Global;

/// A state that was found, and how: from the state at the place `parent`, on `unit`. The start stands at place 0.
#[derive(Clone, Copy)]
pub struct Found {
    pub state: u32,
    pub parent: u32,
    pub unit: u32,
}

/// A search for states.
#[derive(Drop)]
struct Search {
    /// For each state, whether it was found.
    marks: Vec<bool>,
    /// What was found, in order.
    found: Vec<Found>,
}

impl Search {
    /// A search that has found the start alone.
    fn new(alloc: Global, auto: &Auto) -> Result<Search, Memory>
        requires { IsAuto auto.now }
        ensures { IfOk result (λ search. (scope : ScopeValue) → IsSearch scope auto.now search 0 0) }
    {
        let mut search = Search {
            marks: vec![in alloc; false; auto.states.as_slice().len()]?,
            found: Vec::new(alloc),
        };
        search.found.push(Found {
            state: 0,
            parent: 0,
            unit: 0,
        })?;
        search.marks[0] = true;
        Ok(search)
    }

    /// Takes an edge out of the state at a place: where it leads is found, if it is within the scope and was not found yet.
    fn take(&mut self, scope: Scope, auto: &Auto, place: usize, edge: &Edge) -> Result<(), Memory>
        requires formed { IsAuto auto.now }
        requires at { IsAtEdge scope auto.now self.old place edge.now }
        ensures search { OnOk result (IsSearch scope auto.now self.new place (edge.now.hi + 1)) }
        ensures extends { OnOk result (Extends self.old self.new) }
    {
        if self.marks[edge.to as usize] || is_outside(scope, auto, edge.to) {
            return Ok(());
        }
        self.found.push(Found {
            state: edge.to,
            parent: place as u32,
            unit: edge.lo,
        })?;
        self.marks[edge.to as usize] = true;
        Ok(())
    }

    /// Takes the edges out of the state at a place.
    fn pass(&mut self, scope: Scope, auto: &Auto, place: usize) -> Result<(), Memory>
        requires formed { IsAuto auto.now }
        requires search { IsSearch scope auto.now self.old place 0 }
        requires within { place < length self.old.found.items }
        ensures { OnOk result (IsSearch scope auto.now self.new (place + 1) 0) }
    {
        let state = self.found[place].state;
        for edge in edges_of(auto, state) {
            self.take(scope, auto, place, edge)?;
        }
        Ok(())
    }
}

/// The states that words lead to through states within the scope, the start first, in the order of their least words.
pub fn searched(alloc: Global, auto: &Auto, scope: Scope) -> Result<Vec<Found>, Memory>
    requires { IsAuto auto.now }
    ensures searched { IfOk result (λ found. IsSearched (next_in scope auto.now) (trace_of found.items)) }
    ensures apart { IfOk result (λ found. AreApart (next_in scope auto.now) (trace_of found.items)) }
    ensures within { IfOk result (λ found. (place : ℕ) → place < length found.items
        → (found_at found.items place).state < length auto.now.states) }
{
    let mut search = Search::new(alloc, auto)?;
    let mut place = 0;
    while place < search.found.len() {
        search.pass(scope, auto, place)?;
        place += 1;
    }
    Ok(search.found)
}
