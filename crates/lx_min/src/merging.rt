//! The automaton of which the states are classes.
ghost use Rattle.std.specs.Prelude.{◌≡◌, ◌<◌, [], IfOk, length, map, slice_set};
ghost use Rattle.lx_auto.specs.Automaton.{IsAuto, state_of};
ghost use Rattle.lx_min.specs.Merges.{IsMerge, moved_edge, moved_state};
ghost use Rattle.lx_min.specs.Numberings.{IsNumbering, numbered_classes};

use crate::numbering::Numbering;
use lx_auto::{Auto, Edge, Ops, State};
use lx_base::{Memory, Sequence};
use std::alloc::Global;
use std::mem::replace;

/// The edges, each to the class of where it leads. It takes no memory.
fn moved_edges(numbering: &Numbering, edges: Sequence<Edge>) -> Sequence<Edge>
    ensures { result ≡ map (moved_edge (numbered_classes numbering.now).of) edges }
{
    let mut edges = edges.into_vec();
    for edge in edges.iter_mut() {
        edge.to = numbering.of(edge.to);
    }
    Sequence::from_vec(edges)
}

/// The state, with edges to classes. It takes no memory.
fn moved(numbering: &Numbering, state: State) -> State
    ensures { result ≡ moved_state (numbered_classes numbering.now).of state }
{
    State {
        edges: moved_edges(numbering, state.edges),
        accept: state.accept,
        leave: state.leave,
    }
}

/// Takes the state with this number out of the list, and leaves one without edges there. It takes no memory.
fn take(alloc: Global, states: &mut Vec<State>, number: u32) -> State
    requires { number < length states.old.items }
    ensures taken { result ≡ state_of states.old.items number }
    ensures left { states.new.items ≡ slice_set states.old.items number (state_of [] 0) }
{
    let none = State {
        edges: Sequence::new(alloc),
        accept: None,
        leave: Ops::new(alloc),
    };
    replace(&mut states[number as usize], none)
}

/// The chosen states, with edges to classes.
fn merged_states(
    alloc: Global,
    auto: Auto,
    numbering: &Numbering,
) -> Result<Sequence<State>, Memory>
    requires formed { IsAuto auto }
    requires numbering { IsNumbering auto numbering.now }
    ensures { IfOk result (λ answer. answer ≡ map (λ state. moved_state (numbered_classes numbering.now).of (state_of auto.states state))
        numbering.now.chosen.items) }
{
    let mut states = auto.states.into_vec();
    let mut answer = Sequence::new(alloc);
    for state in &numbering.chosen {
        let kept = take(alloc, &mut states, *state);
        answer.push(moved(numbering, kept))?;
    }
    Ok(answer)
}

/// The automaton of which the states are the classes.
pub(crate) fn merged(alloc: Global, auto: Auto, numbering: &Numbering) -> Result<Auto, Memory>
    requires formed { IsAuto auto }
    requires numbering { IsNumbering auto numbering.now }
    ensures merge { IfOk result (λ answer. IsMerge auto answer (numbered_classes numbering.now)) }
    ensures formed { IfOk result IsAuto }
{
    let (regs, mregs) = (auto.regs, auto.mregs);
    Ok(Auto {
        states: merged_states(alloc, auto, numbering)?,
        regs,
        mregs,
    })
}
