//! Automata with registers, and the search for the edge on a unit.
ghost use Rattle.std.specs.Prelude.{◌≡◌, ◌<◌, length, option_copied};
ghost use Rattle.lx_auto.specs.Automaton.{IsAuto, AreApart, edge_on, state_of};

use crate::ops::Ops;
use lx_base::Sequence;

/// An edge: on each unit of a range it leads to a state.
#[derive(Drop)]
pub struct Edge {
    /// The least unit of the range.
    pub lo: u32,
    /// The greatest unit of the range.
    pub hi: u32,
    /// What happens to registers on the edge, at the offset before its unit.
    pub ops: Ops,
    /// The number of the state to which it leads.
    pub to: u32,
}

/// What holds the value of a tag.
#[derive(Clone, Copy, PartialEq, Eq, Hash)]
pub enum Held {
    /// The register with this number.
    Reg(u32),
    /// The m-register with this number.
    MReg(u32),
}

/// What a state accepts.
#[derive(Drop)]
pub struct Accept {
    /// The number of the rule.
    pub rule: u32,
    /// What happens to registers where a match ends in the state, at the offset behind the match.
    pub ops: Ops,
    /// What holds the values of the rule's tags, in the order of the tags' numbers.
    pub values: Sequence<Held>,
}

/// A state.
#[derive(Drop)]
pub struct State {
    /// The edges out of the state, by their units in ascending order.
    pub edges: Sequence<Edge>,
    /// What it accepts, if it is an accepting state.
    pub accept: Option<Accept>,
    /// What happens to registers before those of any edge out of the state, at the same offset: it keeps the values of
    /// an accepting state for a later fallback to it.
    pub leave: Ops,
}

/// An automaton with registers.
#[derive(Drop)]
pub struct Auto {
    /// The states, each by its number, counted from 0. A run starts in state 0.
    pub states: Sequence<State>,
    /// How many registers there are; each number of a register is less.
    pub regs: u32,
    /// How many m-registers there are, m-register 0 among them; each number of an m-register is less.
    pub mregs: u32,
}

impl Auto {
    /// The edge on a unit out of the state with this number, if there is one. It takes no memory.
    pub fn edge(&self, state: u32, unit: u32) -> Option<&Edge>
        requires formed { IsAuto self.now }
        requires within { state < length self.now.states }
        ensures { option_copied result ≡ edge_on (state_of self.now.states state).edges unit }
    {
        let state = &self.states.as_slice()[state as usize];
        find_edge(state.edges.as_slice(), unit)
    }
}

/// The edge on a unit, by binary search.
fn find_edge(edges: &[Edge], unit: u32) -> Option<&Edge>
    requires { AreApart edges.now }
    ensures { option_copied result ≡ edge_on edges.now unit }
{
    let (mut low, mut high) = (0, edges.len());
    while low < high {
        let middle = low + (high - low) / 2;
        let edge = &edges[middle];
        if unit < edge.lo {
            high = middle;
        } else if edge.hi < unit {
            low = middle + 1;
        } else {
            return Some(edge);
        }
    }
    None
}
